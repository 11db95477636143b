//! A turn of a stream: groups that stand ready are offered and applied in one hold of the board.

ghost use Rattle.std.specs.Prelude.{◌≡◌, ◌+◌, ◌<◌, ◌≤◌, IfOk, OnOk, IfErr, IsSomeAnd, length, vec_len};
ghost use Rattle.std.specs.Arc.{arc_value};
ghost use Rattle.std.specs.Vec.{vec_capacity};
ghost use Rattle.board_laws.specs.Reading.{ReadsFeed};
ghost use Rattle.stream_worker.specs.Seats.{IsReceiptOf};
ghost use Rattle.stream_worker.specs.Worked.{Follows, GoesOn};
ghost use Rattle.stream_worker.specs.Private.SeatSteps.{EndsByItsBoard};
ghost use Rattle.stream_worker.specs.Private.Turns.{IsCaughtUp, IsNextReady, IsTakenIn, IsNotTakenIn, IsTurn, StreamIs, KeepsReceipts, KeepsOutlines, knows_left};

use crate::board_calls::{Advance, OfPlan, Offer};
use crate::deal::Deal;
use crate::ready::Ready;
use crate::receipt::Receipt;
use crate::seat::Seat;
use crate::shared::Shared;
use crate::working::know_feed;
use apply_core::Refusal;
use pk_copy::Key;
use row_view::RowBuf;
use source_feed::Feed;
use std::alloc::Global;
use std::sync::Wait;
use target_tables::Freed;

impl<'h> Deal<'h> {
    /// A group that stands ready is offered to a stream of the board, and applied. With the receipt comes what it
    /// replaced, to be dropped once the board is put back.
    fn take_in(
        &mut self,
        alloc: Global,
        s: u8,
        ready: Ready<'h>,
    ) -> Result<(Receipt<'h>, Freed<Key, RowBuf>), Refusal>
        requires { StreamIs self.old s (IsNextReady ready) }
        ensures made { IfOk result (λ made. IsTakenIn self.old s (arc_value ready.entry.group) self.new × StreamIs self.new s (λ state. IsReceiptOf s state made.0.stream made.0.number (arc_value made.0.group))) }
        ensures refused { IfErr result (λ refusal. IsNotTakenIn self.old s (arc_value ready.entry.group) refusal self.new) }
    {
        let Ready { group, next } = ready;
        self.call(
            s,
            Offer {
                group,
                plan: OfPlan::Own,
            },
        )?;
        self.call(s, Advance { alloc, next })
    }

    /// Groups that stand ready are offered to a stream of the board and applied, one after another, up to the first
    /// that is refused. What they replaced is handed on, to be dropped once the board is put back.
    fn take_in_all(
        &mut self,
        alloc: Global,
        feed: &Feed<'h>,
        s: u8,
        readies: Vec<Ready<'h>>,
        receipts: &mut Vec<Receipt<'h>>,
        freed: &mut Vec<Freed<Key, RowBuf>>,
    ) -> Result<(), Refusal>
        requires given { s < self.old.given }
        requires ready { StreamIs self.old s (IsCaughtUp feed.now readies.items) }
        requires receipts { vec_len receipts.old + length readies.items ≤ vec_capacity receipts.old }
        requires freed { vec_len freed.old + length readies.items ≤ vec_capacity freed.old }
        ensures turn { IsTurn feed.now s self.old self.new }
        // Where none is refused, each has a receipt.
        ensures each { OnOk result (length receipts.new.items ≡ length receipts.old.items + length readies.entry.items) }
        ensures receipts { KeepsReceipts s self.old receipts.old.items self.new receipts.new.items }
        ensures kept { KeepsOutlines s self.old readies.entry.items self.new }
        ensures refused { StreamIs self.old s (ReadsFeed feed.now) → IfErr result (EndsByItsBoard feed.now (knows_left s self.new) s) }
    {
        know_feed(feed);
        for ready in readies {
            let (receipt, replaced) = self.take_in(alloc, s, ready)?;
            receipts.push_reserved(receipt);
            freed.push_reserved(replaced);
        }
        Ok(())
    }
}

impl<'h> Shared<'h> {
    ghost use Rattle.stream_worker.specs.SeatOf.{known, seat_state, IsSeatOf, IsSeatFor};

    /// Groups that stand ready are offered to the seat's stream and applied, one after another, in one hold of the
    /// board, up to the first that is refused. For each that is applied there is a receipt; room for all is made
    /// before. What they replaced is dropped once the board is put back.
    pub(crate) fn take_in<R: Wait>(
        &self,
        rt: &R,
        alloc: Global,
        feed: &Feed<'h>,
        seat: &mut Seat<'h>,
        readies: Vec<Ready<'h>>,
        receipts: &mut Vec<Receipt<'h>>,
    ) -> Result<(), Refusal>
        requires is_at { IsSeatOf self.now seat.old }
        requires some { 1 ≤ length readies.items }
        requires ready { IsSomeAnd (seat_state seat.old) (IsCaughtUp feed.now readies.items) }
        ensures is_at { IsSeatFor self.now seat.old.stream seat.new }
        ensures goes_on { GoesOn feed.now seat.old receipts.old.items seat.new receipts.new.items }
        ensures each { OnOk result (length receipts.new.items ≡ length receipts.old.items + length readies.entry.items) }
        ensures refused { Follows feed.now seat.old → IfErr result (EndsByItsBoard feed.now (known seat.new) seat.new.stream) }
    {
        let Ok(()) = receipts.reserve(readies.len()) else {
            return Err(Refusal::Memory);
        };
        let Ok(mut freed) = Vec::with_capacity(alloc, readies.len()) else {
            return Err(Refusal::Memory);
        };
        let Ok(()) = seat.outline.push_all(&readies) else {
            return Err(Refusal::Memory);
        };
        let mut deal = self.lock.take(rt, &mut seat.pass);
        let result = deal.take_in_all(alloc, feed, seat.stream, readies, receipts, &mut freed);
        seat.cursor = deal.cursor(seat.stream);
        self.lock.put_back(rt, &mut seat.pass, deal);
        seat.outline.keep(seat.cursor.read());
        drop(freed);
        result
    }
}
