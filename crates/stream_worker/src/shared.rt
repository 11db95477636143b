//! The shared board, and the calls of its seats.

ghost use Rattle.std.specs.Prelude.{◌≡◌, Err, IfOk, IfSome, IsSomeAnd, IsTrue};
ghost use Rattle.std.specs.Arc.{arc_value};
ghost use Rattle.board_laws.specs.declared.answer.Answer as answers;
ghost use Rattle.board_laws.specs.Cut.{cut_of};
ghost use Rattle.board_laws.specs.Event.{offer, advance, open_at, copy_rows, close, restart};
ghost use Rattle.board_laws.specs.Step.{answered};
ghost use Rattle.stream_worker.specs.Private.FoundGroups.{IsFound};
ghost use Rattle.stream_worker.specs.Private.Offers.{IsOfThatPlan};

use crate::board_calls::{Advance, Close, CopyRows, OfPlan, Offer, OpenAt, Restart};
use crate::found::Found;
use crate::lock::Lock;
use crate::receipt::Receipt;
use crate::seat::Seat;
use apply_core::{Copied, Offered, Refusal};
use filter_rule::Plan;
use pk_copy::Key;
use row_view::RowBuf;
use source_feed::Prepared;
use std::alloc::{AllocError, Global};
use std::sync::{Arc, Wait};

/// A board that threads share: each has a seat, with a stream of its own. It lies in a lock, and every call
/// of a seat takes it, makes one step on it and puts it back.
#[derive(Drop)]
pub struct Shared<'h> {
    pub(crate) lock: Lock<'h>,
}

impl<'h> Shared<'h> {
    ghost use Rattle.stream_worker.specs.SeatOf.{seat_state, IsSeatOf, IsSeatFor, MakesStep, SawNoOther};
    ghost use Rattle.stream_worker.specs.Steps.{SeesAgain};
    ghost use Rattle.stream_worker.specs.Worked.{IsLastReceipt};

    /// An offer of a group whose number is read is answered by what was found of it before the board was taken.
    fn answer_found<R: Wait>(
        &self,
        rt: &R,
        seat: &mut Seat<'h>,
        group: &Arc<Prepared<'h>>,
        found: Found,
    ) -> Result<Offered, Refusal>
        requires is_at { IsSeatOf self.now seat.old }
        requires found { IsFound seat.old.outline.list (arc_value group.now) found }
        ensures is_at { IsSeatFor self.now seat.old.stream seat.new }
        ensures step { MakesStep seat.old (offer (arc_value group.now)) (answered answers.Answer.Offered result) seat.new }
    {
        let deal = self.lock.take(rt, &mut seat.pass);
        let result = deal.answer_found(seat.stream, group, found);
        self.lock.put_back(rt, &mut seat.pass, deal);
        result
    }

    /// An offer whose group found no memory before the board was taken: the board is asked what it finds
    /// without.
    fn judge_offer<R: Wait>(
        &self,
        rt: &R,
        seat: &mut Seat<'h>,
        group: &Arc<Prepared<'h>>,
    ) -> Result<Offered, Refusal>
        requires { IsSeatOf self.now seat.old }
        ensures is_at { IsSeatFor self.now seat.old.stream seat.new }
        ensures step { MakesStep seat.old (offer (arc_value group.now)) (answered answers.Answer.Offered result) seat.new }
    {
        let deal = self.lock.take(rt, &mut seat.pass);
        let result = deal.judge_offer(seat.stream, group);
        self.lock.put_back(rt, &mut seat.pass, deal);
        result
    }

    /// An advance that found no memory before the board was taken: the board is asked what it finds without.
    pub(crate) fn judge_advance<R: Wait>(&self, rt: &R, seat: &mut Seat<'h>) -> Refusal
        requires { IsSeatOf self.now seat.old }
        ensures is_at { IsSeatFor self.now seat.old.stream seat.new }
        ensures step { MakesStep seat.old advance (Err result) seat.new }
    {
        let deal = self.lock.take(rt, &mut seat.pass);
        let refusal = deal.judge_advance(seat.stream);
        self.lock.put_back(rt, &mut seat.pass, deal);
        refusal
    }

    /// A group of such a plan is offered to the seat's stream. A group whose number is read is compared with that one
    /// before the board is taken.
    fn offer_of<R: Wait>(
        &self,
        rt: &R,
        seat: &mut Seat<'h>,
        group: Arc<Prepared<'h>>,
        plan: OfPlan,
    ) -> Result<Offered, Refusal>
        requires is_at { IsSeatOf self.now seat.old }
        requires plan { IsOfThatPlan plan (arc_value group) (seat_state seat.old) }
        ensures is_at { IsSeatFor self.now seat.old.stream seat.new }
        ensures step { MakesStep seat.old (offer (arc_value group.entry)) (answered answers.Answer.Offered result) seat.new }
    {
        if let Some(found) = seat.outline.find(&group) {
            return self.answer_found(rt, seat, &group, found);
        }
        let Ok(()) = seat.outline.push(&group) else {
            return self.judge_offer(rt, seat, &group);
        };
        let mut deal = self.lock.take(rt, &mut seat.pass);
        let result = deal.call(seat.stream, Offer { group, plan });
        seat.cursor = deal.cursor(seat.stream);
        self.lock.put_back(rt, &mut seat.pass, deal);
        seat.outline.keep(seat.cursor.read());
        result
    }

    /// A group is offered to the seat's stream: it is read, or was read before. Refused as the board's
    /// call of this name, on the seat's own state. A group whose number is read is compared with that one before
    /// the board is taken.
    pub fn offer<R: Wait>(
        &self,
        rt: &R,
        alloc: Global,
        seat: &mut Seat<'h>,
        group: Arc<Prepared<'h>>,
    ) -> Result<Offered, Refusal>
        requires { IsSeatOf self.now seat.old }
        ensures is_at { IsSeatFor self.now seat.old.stream seat.new }
        ensures step { MakesStep seat.old (offer (arc_value group.entry)) (answered answers.Answer.Offered result) seat.new }
    {
        self.offer_of(rt, seat, group, OfPlan::Any(alloc))
    }

    /// A group of the plan of the seat's stream is offered to it, as `offer` does; no plans are compared but with the group
    /// of its number, where that one is read.
    pub(crate) fn offer_own<R: Wait>(
        &self,
        rt: &R,
        seat: &mut Seat<'h>,
        group: Arc<Prepared<'h>>,
    ) -> Result<Offered, Refusal>
        requires is_at { IsSeatOf self.now seat.old }
        requires plan { IfSome (seat_state seat.old) (λ state. (arc_value group).plan ≡ state.plan) }
        ensures is_at { IsSeatFor self.now seat.old.stream seat.new }
        ensures step { MakesStep seat.old (offer (arc_value group.entry)) (answered answers.Answer.Offered result) seat.new }
    {
        self.offer_of(rt, seat, group, OfPlan::Own)
    }

    /// Whether the seat's stream is of this plan. It changes nothing. Takes no memory.
    pub(crate) fn is_under<R: Wait>(&self, rt: &R, seat: &mut Seat<'h>, plan: &Plan) -> bool
        requires { IsSeatOf self.now seat.old }
        ensures is_at { IsSeatFor self.now seat.old.stream seat.new }
        ensures state { seat_state seat.new ≡ seat_state seat.old }
        ensures many { SawNoOther seat.old seat.new }
        ensures again { SeesAgain seat.old seat.new }
        ensures cursor { seat.new.cursor ≡ seat.old.cursor }
        ensures yes { IsTrue result → IsSomeAnd (seat_state seat.new) (λ state. state.plan ≡ plan.now) }
        ensures no { IsSomeAnd (seat_state seat.new) (λ state. state.plan ≡ plan.now) → IsTrue result }
    {
        let deal = self.lock.take(rt, &mut seat.pass);
        let is = deal.is_under(seat.stream, plan);
        self.lock.put_back(rt, &mut seat.pass, deal);
        is
    }

    /// The next group of the seat's stream is applied, with its rows; the answer is its receipt. Refused as the
    /// board's call of this name, on the seat's own state. What it puts is built before the board is taken, and
    /// what it replaced is dropped once the board is put back.
    pub fn advance<R: Wait>(
        &self,
        rt: &R,
        alloc: Global,
        seat: &mut Seat<'h>,
    ) -> Result<Receipt<'h>, Refusal>
        requires { IsSeatOf self.now seat.old }
        ensures is_at { IsSeatFor self.now seat.old.stream seat.new }
        ensures step { MakesStep seat.old advance (answered (λ receipt. answers.Answer.Applied receipt.number) result) seat.new }
        ensures receipt { IfOk result (IsLastReceipt seat.new) }
    {
        let Ok(next) = seat.outline.next(alloc, seat.cursor.applied()) else {
            return Err(self.judge_advance(rt, seat));
        };
        let mut deal = self.lock.take(rt, &mut seat.pass);
        let result = deal.call(seat.stream, Advance { alloc, next });
        seat.cursor = deal.cursor(seat.stream);
        self.lock.put_back(rt, &mut seat.pass, deal);
        match result {
            Err(refusal) => Err(refusal),
            Ok((receipt, freed)) => {
                drop(freed);
                Ok(receipt)
            }
        }
    }

    /// The seat's applied number, and the row of its stream at a key, in memory of its own. It changes nothing, and all
    /// that other streams were seen to have applied stays. An error is want of memory.
    pub fn look<R: Wait>(
        &self,
        rt: &R,
        alloc: Global,
        seat: &mut Seat<'h>,
        key: &Key,
    ) -> Result<(u32, Option<RowBuf>), AllocError>
        requires { IsSeatOf self.now seat.old }
        ensures is_at { IsSeatFor self.now seat.old.stream seat.new }
        ensures state { seat_state seat.new ≡ seat_state seat.old }
        ensures again { SeesAgain seat.old seat.new }
        ensures row { IfOk result (λ found. IsSomeAnd (seat_state seat.new) (λ state. (found.0 ≡ state.applied) × (found.1 ≡ cut_of state key.now))) }
    {
        let deal = self.lock.take(rt, &mut seat.pass);
        let row = deal.own_row(alloc, seat.stream, key);
        self.lock.put_back(rt, &mut seat.pass, deal);
        let row = row?;
        Ok((seat.cursor.applied(), row))
    }

    /// A snapshot is opened on the seat's stream. Refused as the board's call of this name, on the seat's
    /// own state.
    pub fn open_snapshot<R: Wait>(
        &self,
        rt: &R,
        alloc: Global,
        seat: &mut Seat<'h>,
        group: u32,
    ) -> Result<(), Refusal>
        requires { IsSeatOf self.now seat.old }
        ensures is_at { IsSeatFor self.now seat.old.stream seat.new }
        ensures step { MakesStep seat.old (open_at group) (answered (λ _. answers.Answer.Opened group) result) seat.new }
    {
        let mut deal = self.lock.take(rt, &mut seat.pass);
        let result = deal.call(seat.stream, OpenAt { alloc, group });
        seat.cursor = deal.cursor(seat.stream);
        self.lock.put_back(rt, &mut seat.pass, deal);
        result
    }

    /// Up to `c` rows are copied out of the snapshot of the seat's stream. Refused as the board's call of this
    /// name, on the seat's own state. What they replaced is dropped once the board is put back.
    pub fn copy_chunk<R: Wait>(
        &self,
        rt: &R,
        alloc: Global,
        seat: &mut Seat<'h>,
        c: u32,
    ) -> Result<Copied, Refusal>
        requires { IsSeatOf self.now seat.old }
        ensures is_at { IsSeatFor self.now seat.old.stream seat.new }
        ensures step { MakesStep seat.old (copy_rows c) (answered answers.Answer.Copied result) seat.new }
    {
        let mut deal = self.lock.take(rt, &mut seat.pass);
        let result = deal.call(seat.stream, CopyRows { alloc, rows: c });
        seat.cursor = deal.cursor(seat.stream);
        self.lock.put_back(rt, &mut seat.pass, deal);
        match result {
            Err(refusal) => Err(refusal),
            Ok((copied, marks, freed)) => {
                drop(freed);
                seat.outline.mark(marks);
                Ok(copied)
            }
        }
    }

    /// The snapshot of the seat's stream is closed. Refused 108, on the seat's own state. Takes no memory.
    pub fn close_snapshot<R: Wait>(&self, rt: &R, seat: &mut Seat<'h>) -> Result<(), Refusal>
        requires { IsSeatOf self.now seat.old }
        ensures is_at { IsSeatFor self.now seat.old.stream seat.new }
        ensures step { MakesStep seat.old close (answered (λ _. answers.Answer.Closed) result) seat.new }
    {
        let mut deal = self.lock.take(rt, &mut seat.pass);
        let result = deal.call(seat.stream, Close);
        seat.cursor = deal.cursor(seat.stream);
        self.lock.put_back(rt, &mut seat.pass, deal);
        result
    }

    /// The seat's stream starts again behind its applied group, whose number is the answer. Takes no memory.
    pub fn restart<R: Wait>(&self, rt: &R, seat: &mut Seat<'h>) -> Result<u32, Refusal>
        requires { IsSeatOf self.now seat.old }
        ensures is_at { IsSeatFor self.now seat.old.stream seat.new }
        ensures step { MakesStep seat.old restart (answered answers.Answer.Restarted result) seat.new }
    {
        let mut deal = self.lock.take(rt, &mut seat.pass);
        let result = deal.call(seat.stream, Restart);
        seat.cursor = deal.cursor(seat.stream);
        self.lock.put_back(rt, &mut seat.pass, deal);
        seat.outline.keep(seat.cursor.read());
        result
    }
}
