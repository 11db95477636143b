//! Sharing a board.

ghost use Rattle.std.specs.Prelude.{◌≡◌, ◌<◌, ◌≤◌, ℕ, [], Some, IfOk, IfErr, length, vec_len};
ghost use Rattle.std.specs.Option.{option_map};
ghost use Rattle.std.specs.Vec.{vec_capacity};
ghost use Rattle.crossbeam_channel.specs.Claims.{view, IsSeatAt};
ghost use Rattle.crossbeam_channel.specs.Ends.{sends_on};
ghost use Rattle.stream_worker.specs.Knowing.{SawStreams, state_seen};
ghost use Rattle.stream_worker.specs.Outlines.{outline_of, AreOutlinesSeen};
ghost use Rattle.stream_worker.specs.Seats.{IsOpener};

use crate::deal::Deal;
use crate::lock::{Lock, LockPass};
use crate::outline::{Outline, outlines_of};
use crate::seat::Seat;
use crate::shared::Shared;
use apply_core::Board;
use std::alloc::Global;
use std::sync::Wait;

/// A growth was refused, so the board isn't shared: it is handed back as it was.
#[derive(Drop)]
pub struct OpenRefusal<'h> {
    /// the board
    pub board: Board<'h>,
}

impl OpenRefusal<'_> {
    /// The refusal's number, of want of memory.
    pub fn number(&self) -> u8
        ensures { result ≡ 72 }
    {
        72
    }
}

impl<'h> Shared<'h> {
    ghost use Rattle.stream_worker.specs.SeatOf.{known, seat_state, IsSeatFor, AreSeatsOf, AreStatesSeen, SawAsMany, IsOpened};

    /// The seat of stream `k`, where `k` seats are given out: the count of seats is looked at, and the seat
    /// is claimed by counting it.
    fn seat<R: Wait>(
        &self,
        rt: &R,
        opener: &mut LockPass<'h>,
        k: u8,
        outline: Outline<'h>,
    ) -> Seat<'h>
        requires pass { IsSeatAt (sends_on self.now.lock.sender) opener.old }
        requires opened { IsOpener (view opener.old) }
        requires outlined { option_map outline_of (state_seen (view opener.old) k) ≡ Some outline }
        requires few { k < 64 }
        ensures opener { IsSeatAt (sends_on self.now.lock.sender) opener.new × (view opener.new ≡ view opener.old) }
        ensures seat { IsSeatFor self.now k result }
        ensures state { seat_state result ≡ state_seen (view opener.old) k }
        ensures many { (n : ℕ) → SawStreams (view opener.old) n → SawStreams (known result) n }
    {
        for _ in rt.forever() {
            let mut pass = self.lock.pass(opener);
            let mut deal = self.lock.take(rt, &mut pass);
            if deal.given() == k {
                deal.count();
                let cursor = deal.cursor(k);
                self.lock.put_back(rt, &mut pass, deal);
                return Seat {
                    stream: k,
                    cursor,
                    outline,
                    pass,
                };
            }
            self.lock.put_back(rt, &mut pass, deal);
        }
        unreachable!()
    }

    /// The seats of the streams of these outlines, in order, in a vector with room for them.
    fn seats<R: Wait>(
        &self,
        rt: &R,
        mut opener: LockPass<'h>,
        outlines: Vec<Outline<'h>>,
        mut seats: Vec<Seat<'h>>,
    ) -> Vec<Seat<'h>>
        requires pass { IsSeatAt (sends_on self.now.lock.sender) opener }
        requires opened { IsOpener (view opener) }
        requires outlined { AreOutlinesSeen outlines.items (view opener) }
        requires few { length outlines.items ≤ 64 }
        requires room { (seats.items ≡ []) × (vec_len seats ≡ 0) × (length outlines.items ≤ vec_capacity seats) }
        ensures count { length result.items ≡ length outlines.entry.items }
        ensures seats { AreSeatsOf self.now result.items }
        ensures states { AreStatesSeen result.items (view opener.entry) }
        ensures many { (n : ℕ) → SawStreams (view opener.entry) n → SawAsMany result.items n }
    {
        let mut k = 0;
        for outline in outlines {
            let seat = self.seat(rt, &mut opener, k, outline);
            match seats.push(seat) {
                Ok(()) => {}
                Err(_) => unreachable!(),
            }
            k += 1;
        }
        seats
    }

    /// Shares a board: the answer has a seat for each stream, in the order of the streams, and each knows its
    /// stream's state. A refusal, where a growth was refused, hands the board back.
    pub fn open<R: Wait>(
        rt: &R,
        alloc: Global,
        board: Board<'h>,
    ) -> Result<(Shared<'h>, Vec<Seat<'h>>), OpenRefusal<'h>>
        ensures opened { IfOk result (λ opened. IsOpened board.entry.streams opened.0 opened.1.items) }
        ensures refused { IfErr result (λ refusal. refusal.board ≡ board.entry) }
    {
        board.is_lawful();
        let n = board.len();
        let Ok(outlines) = outlines_of(alloc, &board) else {
            return Err(OpenRefusal { board });
        };
        let Ok(seats) = Vec::with_capacity(alloc, n) else {
            return Err(OpenRefusal { board });
        };
        let Ok((lock, mut opener)) = Lock::new(alloc, n) else {
            return Err(OpenRefusal { board });
        };
        lock.put_back(rt, &mut opener, Deal::new(board));
        let shared = Shared { lock };
        let seats = shared.seats(rt, opener, outlines, seats);
        Ok((shared, seats))
    }
}
