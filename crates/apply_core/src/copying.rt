//! Copying rows.

ghost use Rattle.std.specs.Prelude.{◌≡◌, ◌+◌, ◌<◌, None, IfOk, IfErr, IfSome, IsSomeAnd, slice_get};
ghost use Rattle.board_laws.specs.declared.answer.Answer as answers;
ghost use Rattle.board_laws.specs.Event.{copy_rows};
ghost use Rattle.board_laws.specs.StateAfter.{state_after};
ghost use Rattle.board_laws.specs.Allowed.{IsAllowed};
ghost use Rattle.board_laws.specs.declared.refusal.Refusal.TheVariants.{NoStream};
ghost use Rattle.board_laws.specs.Step.{answered, IsRefusedOn, IsStep};
ghost use Rattle.apply_core.specs.Private.Chunks.{IsMoveOf, IsChunkFor};
ghost use Rattle.apply_core.specs.Private.StreamStep.{MayMake, MakesStep, IsRefusedAlone};

use crate::board::Board;
use crate::clashing::refusal_by;
use crate::stream::{Stream, stream_of};
use crate::taking::{Chunk, MarkMove};
use board_laws::{Copied, Refusal, steps_keep_boards_lawful};
use pk_copy::{CopyState, Key, keys_tie_where_they_are_equal};
use row_view::RowBuf;
use std::alloc::{AllocError, Global};
use stream_core::{Cursor, Step};
use target_tables::Freed;

impl MarkMove {
    /// The same move, in memory of its own. An error is want of memory.
    fn try_clone(&self, alloc: Global) -> Result<MarkMove, AllocError>
        ensures { IfOk result (λ copy. copy ≡ self.now) }
    {
        let last = match &self.last {
            None => None,
            Some(last) => Some(last.try_clone(alloc)?),
        };
        Ok(MarkMove {
            copied: self.copied,
            last,
        })
    }
}

/// Where a stream stands when the table that is copied is done, which closes its snapshot. That a table is left to
/// copy is the caller's.
fn with_table_done(cursor: Cursor) -> Cursor
    requires { cursor.done < cursor.tables }
    ensures { result ≡ record cursor { done = cursor.done + 1; snapshot = None } }
{
    Cursor::new(
        cursor.read,
        cursor.applied,
        cursor.tables,
        cursor.done + 1,
        None,
    )
}

impl<'h> Stream<'h> {
    /// The image is dropped where all tables are done, since no snapshot is opened any more.
    fn drop_unused_image(&mut self)
        requires { self.old.snapshot ≡ None }
        ensures { self.new ≡ self.old }
    {
        if self.marks.finished() {
            self.image.clear();
            self.imaged = 0;
        }
    }

    /// The marks as a chunk moves them, in memory of their own.
    fn marks_behind(&self, alloc: Global, _c: u32, step: MarkMove) -> Result<CopyState, AllocError>
        requires allowed { IsAllowed self.now (copy_rows _c) }
        requires moves { IsMoveOf self.now _c step }
        ensures { IfOk result (λ marks. marks ≡ (state_after self.now (copy_rows _c)).marks) }
    {
        steps_keep_boards_lawful();
        keys_tie_where_they_are_equal();
        let mut marks = self.marks.try_clone(alloc)?;
        let MarkMove { copied, last } = step;
        if copied.done {
            marks.finish_table();
        } else if let Some(key) = last {
            marks.move_to(key);
        }
        Ok(marks)
    }

    /// The mark of the table that is copied moves as a chunk says; where the table is done the snapshot is
    /// closed.
    fn copied(&mut self, _c: u32, step: MarkMove)
        requires allowed { IsAllowed self.old (copy_rows _c) }
        requires moves { IsMoveOf self.old _c step }
        ensures { self.new ≡ state_after self.old (copy_rows _c) }
    {
        steps_keep_boards_lawful();
        keys_tie_where_they_are_equal();
        let MarkMove { copied, last } = step;
        if copied.done {
            self.marks.finish_table();
            self.cursor = with_table_done(self.cursor);
            self.drop_unused_image();
        } else if let Some(key) = last {
            self.marks.move_to(key);
        }
    }
}

/// The next chunk of stream `s`, of up to `c` rows.
fn chunk_on(alloc: Global, streams: &[Stream<'_>], s: u8, c: u32) -> Result<Chunk, Refusal>
    ensures chunk { IfOk result (IsChunkFor streams.now s c) }
    ensures refused { IfErr result (IsRefusedAlone streams.now s (copy_rows c)) }
{
    let stream = stream_of(streams, s)?;
    stream.judge(Step::CopyRows(c))?;
    let chunk = stream.take_chunk(alloc, c)?;
    Ok(chunk)
}

/// The chunk of stream `s` counts as copied. That it may is the caller's. Takes no memory.
fn copied_on(streams: &mut [Stream<'_>], s: u8, c: u32, step: MarkMove) -> Copied
    requires may { MayMake streams.old s (copy_rows c) }
    requires moves { IfSome (slice_get streams.old s) (λ state. IsMoveOf state c step) }
    ensures { MakesStep streams.old s (copy_rows c) (answers.Answer.Copied result) streams.new }
{
    let copied = step.copied;
    let stream = &mut streams[s as usize];
    stream.copied(c, step);
    copied
}

impl<'h> Board<'h> {
    /// Up to `c` rows of the first table that isn't done are copied out of the snapshot of stream `s`: those
    /// past the table's mark, by rising key. Where none is left behind them the table is done and the
    /// snapshot is closed; else the mark moves to the last of them.
    ///
    /// Refused 115, 108 where no snapshot is open, 109 where it isn't reached, and 71 where a row is due
    /// where a row of another stream stands. Takes memory for the rows copied.
    pub fn copy_chunk(&mut self, alloc: Global, s: u8, c: u32) -> Result<Copied, Refusal>
        ensures { IsStep self.old s (copy_rows c) (answered answers.Answer.Copied result) self.new }
    {
        let chunk = self.next_chunk(alloc, s, c)?;
        let (copied, _) = self.copy_by(alloc, s, c, chunk)?;
        Ok(copied)
    }

    /// The same, with a copy of the marks that the stream then has, made before the target is touched. With them comes
    /// what the rows replaced, to be dropped.
    pub fn copy_with_marks(
        &mut self,
        alloc: Global,
        s: u8,
        c: u32,
    ) -> Result<(Copied, CopyState, Freed<Key, RowBuf>), Refusal>
        ensures step { IsStep self.old s (copy_rows c) (answered (λ made. answers.Answer.Copied made.0) result) self.new }
        ensures marks { IfOk result (λ made. IsSomeAnd (slice_get self.old.streams s) (λ state. made.1 ≡ (state_after state (copy_rows c)).marks)) }
    {
        let chunk = self.next_chunk(alloc, s, c)?;
        let Ok(marks) = self.marks_behind(alloc, s, c, &chunk) else {
            return Err(Refusal::Memory);
        };
        let (copied, freed) = self.copy_by(alloc, s, c, chunk)?;
        Ok((copied, marks, freed))
    }

    /// The next chunk of stream `s`, of up to `c` rows, in memory of its own. Refused as `copy_chunk` is, a
    /// row of another stream aside.
    fn next_chunk(&self, alloc: Global, s: u8, c: u32) -> Result<Chunk, Refusal>
        ensures chunk { IfOk result (IsChunkFor self.now.streams s c) }
        ensures refused { IfErr result (IsRefusedOn self.now s (copy_rows c)) }
    {
        chunk_on(alloc, &self.streams, s, c)
    }

    /// A copy of the marks that stream `s` has once the chunk is copied. That it is the stream's next chunk
    /// is the caller's. An error is want of memory.
    fn marks_behind(
        &self,
        alloc: Global,
        s: u8,
        c: u32,
        chunk: &Chunk,
    ) -> Result<CopyState, AllocError>
        requires { IsChunkFor self.now.streams s c chunk.now }
        ensures { IfOk result (λ marks. IfSome (slice_get self.now.streams s) (λ state. marks ≡ (state_after state (copy_rows c)).marks)) }
    {
        let step = chunk.step.try_clone(alloc)?;
        let marks = self.streams[s as usize].marks_behind(alloc, c, step)?;
        Ok(marks)
    }

    /// The same as `copy_chunk` with a chunk that was taken before. That it is the stream's next chunk is the
    /// caller's. Refused 71 where a row is due where a row of another stream stands. Takes memory for new
    /// rows' places alone. With what was copied comes what the step replaced, to be dropped.
    fn copy_by(
        &mut self,
        alloc: Global,
        s: u8,
        c: u32,
        chunk: Chunk,
    ) -> Result<(Copied, Freed<Key, RowBuf>), Refusal>
        requires { IsChunkFor self.old.streams s c chunk }
        ensures { IsStep self.old s (copy_rows c) (answered (λ made. answers.Answer.Copied made.0) result) self.new }
    {
        steps_keep_boards_lawful();
        match self.rows.apply(alloc, s, chunk.puts) {
            Err(fault) => Err(refusal_by(fault)),
            Ok(freed) => Ok((copied_on(&mut self.streams, s, c, chunk.step), freed)),
        }
    }

    /// How far stream `s` has copied its tables. Refused 115 alone. Takes no memory.
    pub fn marks(&self, s: u8) -> Result<&CopyState, Refusal>
        ensures marks { IfOk result (λ marks. IsSomeAnd (slice_get self.now.streams s) (λ state. marks.now ≡ state.marks)) }
        ensures no_stream { IfErr result (λ refusal. (refusal ≡ NoStream) × (slice_get self.now.streams s ≡ None)) }
    {
        match self.stream(s) {
            None => Err(Refusal::NoStream),
            Some(stream) => Ok(&stream.marks),
        }
    }
}
