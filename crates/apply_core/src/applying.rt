//! Applying the next group.

ghost use Rattle.std.specs.Prelude.{◌≡◌, ◌+◌, IfOk, IfErr, IfSome, OnOk, slice_get};
ghost use Rattle.stream_core.specs.declared.step.Step.TheVariants.{Advance};
ghost use Rattle.stream_core.specs.StepTable.{row_of};
ghost use Rattle.pk_copy.specs.KeyOrder.{key_cmp};
ghost use Rattle.pk_copy.specs.KeyValue.{KeyValue};
ghost use Rattle.target_tables.specs.Touches.{last_at};
ghost use Rattle.board_laws.specs.declared.answer.Answer as answers;
ghost use Rattle.board_laws.specs.Lawful.{standing_of};
ghost use Rattle.board_laws.specs.Event.{advance};
ghost use Rattle.board_laws.specs.StateAfter.{state_after};
ghost use Rattle.board_laws.specs.Touching.{touch_of};
ghost use Rattle.board_laws.specs.Allowed.{IsAllowed};
ghost use Rattle.board_laws.specs.Step.{answered, IsStep};
ghost use Rattle.apply_core.specs.Putting.{DoAsStep};
ghost use Rattle.apply_core.specs.Private.StreamStep.{MayMake, MakesStep, IsMoveFor, IsRefusedAlone, ArePutsOf};

use crate::board::Board;
use crate::clashing::refusal_by;
use crate::puts::Puts;
use crate::stream::{Stream, stream_of};
use board_laws::{Refusal, steps_keep_boards_lawful};
use pk_copy::Key;
use row_view::RowBuf;
use std::alloc::{AllocError, Global};
use stream_core::{Move, Step};
use target_tables::Freed;

impl<'h> Stream<'h> {
    /// What the next group leaves at the copied keys, in memory of its own. An error is want of memory.
    fn puts_of_next(&self, alloc: Global) -> Result<Puts, AllocError>
        requires { IsAllowed self.now advance }
        ensures { IfOk result (λ puts. (key : KeyValue) → last_at key_cmp puts.changes.items key ≡ touch_of self.now advance key) }
    {
        steps_keep_boards_lawful();
        let group = &self.list[self.cursor.applied() as usize];
        let puts = Puts::of_group(alloc, &self.marks, group)?;
        Ok(puts)
    }

    /// The next group counts as applied, as the step table says.
    fn advance(&mut self, made: Move) -> u32
        requires allowed { IsAllowed self.old advance }
        requires made { made ≡ (row_of (standing_of self.old) Advance).otherwise }
        ensures number { result ≡ self.old.applied + 1 }
        ensures state { self.new ≡ state_after self.old advance }
    {
        steps_keep_boards_lawful();
        self.cursor = made.cursor;
        made.cursor.applied()
    }
}

/// What stream `s` puts into the target when its next group is applied.
fn puts_of_next_on(alloc: Global, streams: &[Stream<'_>], s: u8) -> Result<Puts, Refusal>
    ensures puts { IfOk result (λ puts. ArePutsOf streams.now s advance puts.changes.items) }
    ensures refused { IfErr result (IsRefusedAlone streams.now s advance) }
{
    let stream = stream_of(streams, s)?;
    stream.judge(Step::Advance)?;
    let puts = stream.puts_of_next(alloc)?;
    Ok(puts)
}

/// What the step table makes of applying the next group of stream `s`, if nothing that the stream has itself is
/// against it. Takes no memory.
fn judge_advance(streams: &[Stream<'_>], s: u8) -> Result<Move, Refusal>
    ensures may { OnOk result (MayMake streams.now s advance) }
    ensures made { IfOk result (IsMoveFor streams.now s Advance) }
    ensures refused { IfErr result (IsRefusedAlone streams.now s advance) }
{
    let stream = stream_of(streams, s)?;
    let made = stream.judge(Step::Advance)?;
    Ok(made)
}

/// The next group of stream `s` counts as applied, as the step table says. That it may is the caller's. Takes no
/// memory.
fn advance_on(streams: &mut [Stream<'_>], s: u8, made: Move) -> u32
    requires may { MayMake streams.old s advance }
    requires made { IsMoveFor streams.old s Advance made }
    ensures { MakesStep streams.old s advance (answers.Answer.Applied result) streams.new }
{
    let stream = &mut streams[s as usize];
    stream.advance(made)
}

impl<'h> Board<'h> {
    /// The next group of stream `s` is applied: its touches of copied keys are made, the last one of each
    /// key, and its number is the answer.
    ///
    /// Refused 115, 103 where the open snapshot is reached, 102 where no more groups are read, and 71 where
    /// a row is due where a row of another stream stands. Takes memory for the touches of copied keys.
    pub fn advance(&mut self, alloc: Global, s: u8) -> Result<u32, Refusal>
        ensures { IsStep self.old s advance (answered answers.Answer.Applied result) self.new }
    {
        let puts = puts_of_next_on(alloc, &self.streams, s)?;
        let (number, _) = self.advance_by(alloc, s, puts)?;
        Ok(number)
    }

    /// The same with puts that were built before, so that a target that is shared needn't be held
    /// meanwhile. That they are what the step does is the caller's; where there is no such stream, or its
    /// own state is against the step, they don't matter. Takes memory for new rows' places alone. With the
    /// group's number comes what the step replaced and took away, to be dropped.
    pub fn advance_by(
        &mut self,
        alloc: Global,
        s: u8,
        puts: Puts,
    ) -> Result<(u32, Freed<Key, RowBuf>), Refusal>
        requires { IfSome (slice_get self.old.streams s) (λ state. DoAsStep state advance puts.changes.items) }
        ensures { IsStep self.old s advance (answered (λ made. answers.Answer.Applied made.0) result) self.new }
    {
        steps_keep_boards_lawful();
        let made = judge_advance(&self.streams, s)?;
        match self.rows.apply(alloc, s, puts.changes) {
            Err(fault) => Err(refusal_by(fault)),
            Ok(freed) => Ok((advance_on(&mut self.streams, s, made), freed)),
        }
    }
}
