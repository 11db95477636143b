//! One stream of a board.

ghost use Rattle.std.specs.Prelude.{◌≡◌, ◌<◌, None, Some, map, length, slice_get, IsOk, Err, IfOk, IfErr, MatchResult};
ghost use Rattle.std.specs.Arc.{arc_value};
ghost use Rattle.stream_core.specs.StepTable.{row_of, decided};
ghost use Rattle.board_laws.specs.Event.{Event};
ghost use Rattle.board_laws.specs.Lawful.{start_of, standing_of, IsSoundState};
ghost use Rattle.apply_core.specs.Private.StreamStep.{IsRefusedAlone};

use board_laws::Refusal;
use filter_rule::Plan;
use pk_copy::CopyState;
use source_feed::{Image, Prepared};
use std::alloc::Global;
use std::marker::Model;
use std::sync::Arc;
use stream_core::{CoreRefusal, Cursor, Move, Step, decide};

/// One stream: its plan, the groups that are read, where it stands by its numbers, how far its tables are
/// copied, and the image of the source's rows after some of the groups.
#[derive(Drop)]
pub(crate) struct Stream<'h> {
    pub(crate) plan: Arc<Plan>,
    pub(crate) list: Vec<Arc<Prepared<'h>>>,
    /// as the step table left it: how many groups are read and applied, and the group of the open snapshot
    pub(crate) cursor: Cursor,
    pub(crate) marks: CopyState,
    pub(crate) image: Image<'h>,
    /// how many groups the image is of
    pub(crate) imaged: u32,
}

impl<'h> Model for Stream<'h> {
    ghost use Rattle.std.specs.Prelude.{map};
    ghost use Rattle.std.specs.Arc.{arc_value};
    ghost use Rattle.board_laws.specs.Meaning.{State};
    ghost use Rattle.apply_core.specs.Private.StreamState.{IsStreamAt};

    ghost Value = { State };

    ghost view = { λ s. record { plan = arc_value s.plan; list = map arc_value s.list.items; applied = s.cursor.applied; marks = s.marks; snapshot = s.cursor.snapshot } };

    ghost invariant = { λ s. IsStreamAt (record { plan = arc_value s.plan; list = map arc_value s.list.items; applied = s.cursor.applied; marks = s.marks; snapshot = s.cursor.snapshot }) s.cursor s.imaged s.image };
}

/// Where a stream stands that has read as many groups as it has applied, with these marks and no open snapshot.
pub(crate) fn cursor_behind(applied: u32, marks: &CopyState) -> Cursor
    ensures { result ≡ record { read = applied; applied = applied; tables = marks.now.tables; done = marks.now.done; snapshot = None } }
{
    let done = marks.done();
    // for what is true of all marks: no more tables are done than there are
    marks.mark(done);
    Cursor::new(applied, applied, marks.tables(), done, None)
}

impl<'h> Stream<'h> {
    /// A stream of which nothing is read and nothing copied. Takes no memory.
    pub(crate) fn new(alloc: Global, plan: Arc<Plan>) -> Stream<'h>
        ensures { result ≡ start_of (arc_value plan) }
    {
        let tables = plan.tables().len() as u8;
        Stream {
            plan,
            list: Vec::new(alloc),
            cursor: Cursor::new(0, 0, tables, 0, None),
            marks: CopyState::new(tables),
            image: Image::new(alloc),
            imaged: 0,
        }
    }

    /// What is true of every stream.
    pub(crate) fn is_sound(&self)
        ensures { IsSoundState self.now }
    {
        let _ = &self.plan;
    }

    /// The groups that are read, in order.
    pub(crate) fn list(&self) -> &[Arc<Prepared<'h>>]
        ensures { map arc_value result.now ≡ self.now.list }
    {
        self.list.as_slice()
    }

    /// Where the stream stands, by its numbers.
    pub(crate) fn cursor(&self) -> Cursor
        ensures { result ≡ standing_of self.now }
    {
        self.cursor
    }

    /// What the step table makes of a step: its answer and where the stream then stands, or the first refusal of
    /// the step's row. Takes no memory.
    pub(crate) fn judge(&self, step: Step) -> Result<Move, CoreRefusal>
        ensures decided { MatchResult result (λ _. IsOk (decided (standing_of self.now) step)) (λ refusal. decided (standing_of self.now) step ≡ Err refusal) }
        ensures made { IfOk result (λ made. made ≡ (row_of (standing_of self.now) step).otherwise) }
    {
        let made = decide(&self.cursor, step)?;
        Ok(made)
    }
}

/// Stream `s` of these. Refused 115 where there is none. Takes no memory.
pub(crate) fn stream_of<'s, 'h>(streams: &'s [Stream<'h>], s: u8) -> Result<&'s Stream<'h>, Refusal>
    ensures stream { IfOk result (λ stream. slice_get streams.now s ≡ Some stream.now) }
    ensures refused { IfErr result (λ refusal. (event : Event) → IsRefusedAlone streams.now s event refusal) }
{
    match streams.get(s as usize) {
        None => Err(Refusal::NoStream),
        Some(stream) => Ok(stream),
    }
}

/// The place of stream `s` among these. Refused 115 where there is none. Takes no memory.
pub(crate) fn place_of(streams: &[Stream<'_>], s: u8) -> Result<usize, Refusal>
    ensures place { IfOk result (λ place. place ≡ s) }
    ensures within { IfOk result (λ place. place < length streams.now) }
    ensures refused { IfErr result (λ refusal. (event : Event) → IsRefusedAlone streams.now s event refusal) }
{
    stream_of(streams, s)?;
    Ok(s as usize)
}
