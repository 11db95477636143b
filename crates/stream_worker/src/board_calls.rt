//! The six calls of a board that a seat makes while it holds it.

ghost use Rattle.std.specs.Prelude.{◌≡◌, ℕ, Option, IsSomeAnd, IfOk, ⊤, slice_get};
ghost use Rattle.std.specs.Arc.{arc_value};
ghost use Rattle.board_laws.specs.declared.answer.Answer.{Answer};
ghost use Rattle.board_laws.specs.declared.answer.Answer as answers;
ghost use Rattle.board_laws.specs.Meaning.{State};
ghost use Rattle.board_laws.specs.Event.{Event, offer, advance, open_at, copy_rows, close, restart};
ghost use Rattle.board_laws.specs.StateAfter.{state_after};
ghost use Rattle.board_laws.specs.Step.{IsStep, answered};
ghost use Rattle.stream_worker.specs.Outlines.{IsNextOf};
ghost use Rattle.stream_worker.specs.Seats.{IsReceiptOf};
ghost use Rattle.stream_worker.specs.Private.Offers.{IsOfThatPlan};

use crate::outline::Next;
use crate::receipt::Receipt;
use apply_core::{Board, Copied, Offered, Refusal};
use pk_copy::{CopyState, Key};
use row_view::RowBuf;
use source_feed::Prepared;
use std::alloc::Global;
use std::sync::Arc;
use target_tables::Freed;

/// A call of a board on one of its streams, with all that it needs. It is made while the board is held, and is one step
/// of the definition.
pub(crate) trait BoardCall<'h> {
    /// What it hands back where it is made.
    type Made;

    /// the step
    ghost event: { Self → Event };

    /// what the step answers
    ghost answer: { Self → Self.Made → Answer };

    /// what is so of the stream before
    ghost ready: { Self → Option State → Type 0 };

    /// what is handed back, by the stream's number and its states before and behind
    ghost gives: { Self → ℕ → Option State → Self.Made → Option State → Type 0 };

    /// Makes it on stream `s`.
    fn make(self, board: &mut Board<'h>, s: u8) -> Result<Self::Made, Refusal>
        requires { ready self (slice_get board.old.streams s) }
        ensures step { IsStep board.old s (event self) (answered (answer self) result) board.new }
        ensures gives { IfOk result (λ made. gives self s (slice_get board.old.streams s) made (slice_get board.new.streams s)) };
}

/// Of which plan an offered group is.
#[derive(Drop)]
pub(crate) enum OfPlan {
    /// Of any: it is compared with the stream's, with memory for that.
    Any(Global),
    /// Of the stream's: no plans are compared.
    Own,
}

/// A group is offered.
#[derive(Drop)]
pub(crate) struct Offer<'h> {
    pub(crate) group: Arc<Prepared<'h>>,
    pub(crate) plan: OfPlan,
}

impl<'h> BoardCall<'h> for Offer<'h> {
    type Made = Offered;

    ghost event = { λ call. offer (arc_value call.group) };

    ghost answer = { λ _. answers.Answer.Offered };

    ghost ready = { λ call before. IsOfThatPlan call.plan (arc_value call.group) before };

    ghost gives = { λ _ _ _ _ _. ⊤ };

    fn make(self, board: &mut Board<'h>, s: u8) -> Result<Offered, Refusal> {
        let Offer { group, plan } = self;
        let OfPlan::Any(alloc) = plan else {
            return board.offer_own(s, group);
        };
        board.offer(alloc, s, group)
    }
}

/// The next group is applied. It was looked up, and what it puts was built, before the board was taken. With the receipt
/// comes what it replaced, to be dropped once the board is put back.
#[derive(Drop)]
pub(crate) struct Advance<'h> {
    pub(crate) alloc: Global,
    pub(crate) next: Next<'h>,
}

impl<'h> BoardCall<'h> for Advance<'h> {
    type Made = (Receipt<'h>, Freed<Key, RowBuf>);

    ghost event = { λ _. advance };

    ghost answer = { λ _ made. answers.Answer.Applied made.0.number };

    ghost ready = { λ call before. IsSomeAnd before (λ state. IsNextOf state call.next) };

    ghost gives = { λ _ s _ made behind. IsSomeAnd behind (λ state. IsReceiptOf s state made.0.stream made.0.number (arc_value made.0.group)) };

    fn make(
        self,
        board: &mut Board<'h>,
        s: u8,
    ) -> Result<(Receipt<'h>, Freed<Key, RowBuf>), Refusal> {
        let Advance { alloc, next } = self;
        let Next { group, puts } = next;
        board.is_lawful();
        let result = board.advance_by(alloc, s, puts);
        match (result, group) {
            (Ok((number, freed)), Some(group)) => {
                let receipt = Receipt {
                    stream: s,
                    number,
                    group,
                };
                Ok((receipt, freed))
            }
            (Ok(_), None) => unreachable!(),
            (Err(refusal), _) => Err(refusal),
        }
    }
}

/// A snapshot is opened at a group.
#[derive(Drop)]
pub(crate) struct OpenAt {
    pub(crate) alloc: Global,
    pub(crate) group: u32,
}

impl<'h> BoardCall<'h> for OpenAt {
    type Made = ();

    ghost event = { λ call. open_at call.group };

    ghost answer = { λ call _. answers.Answer.Opened call.group };

    ghost ready = { λ _ _. ⊤ };

    ghost gives = { λ _ _ _ _ _. ⊤ };

    fn make(self, board: &mut Board<'h>, s: u8) -> Result<(), Refusal> {
        board.open_snapshot(self.alloc, s, self.group)
    }
}

/// Rows are copied out of the snapshot. With what was copied comes a copy of the stream's marks, which was made before,
/// and what the rows replaced, to be dropped once the board is put back.
#[derive(Drop)]
pub(crate) struct CopyRows {
    pub(crate) alloc: Global,
    pub(crate) rows: u32,
}

impl<'h> BoardCall<'h> for CopyRows {
    type Made = (Copied, CopyState, Freed<Key, RowBuf>);

    ghost event = { λ call. copy_rows call.rows };

    ghost answer = { λ _ made. answers.Answer.Copied made.0 };

    ghost ready = { λ _ _. ⊤ };

    ghost gives = { λ call _ before made _. IsSomeAnd before (λ state. made.1 ≡ (state_after state (copy_rows call.rows)).marks) };

    fn make(
        self,
        board: &mut Board<'h>,
        s: u8,
    ) -> Result<(Copied, CopyState, Freed<Key, RowBuf>), Refusal> {
        board.copy_with_marks(self.alloc, s, self.rows)
    }
}

/// The snapshot is closed. Takes no memory.
#[derive(Drop)]
pub(crate) struct Close;

impl<'h> BoardCall<'h> for Close {
    type Made = ();

    ghost event = { λ _. close };

    ghost answer = { λ _ _. answers.Answer.Closed };

    ghost ready = { λ _ _. ⊤ };

    ghost gives = { λ _ _ _ _ _. ⊤ };

    fn make(self, board: &mut Board<'h>, s: u8) -> Result<(), Refusal> {
        board.close_snapshot(s)
    }
}

/// The stream starts again behind its applied group, whose number is handed back. Takes no memory.
#[derive(Drop)]
pub(crate) struct Restart;

impl<'h> BoardCall<'h> for Restart {
    type Made = u32;

    ghost event = { λ _. restart };

    ghost answer = { λ _. answers.Answer.Restarted };

    ghost ready = { λ _ _. ⊤ };

    ghost gives = { λ _ _ _ _ _. ⊤ };

    fn make(self, board: &mut Board<'h>, s: u8) -> Result<u32, Refusal> {
        board.restart(s)
    }
}
