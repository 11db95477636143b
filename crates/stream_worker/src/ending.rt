//! Taking a board out of its lock.

ghost use Rattle.std.specs.Prelude.{◌<◌, length, vec_len};
ghost use Rattle.crossbeam_channel.specs.Claims.{view, IsSeatAt};
ghost use Rattle.crossbeam_channel.specs.Ends.{sends_on};

use crate::lock::LockPass;
use crate::seat::Seat;
use crate::shared::Shared;
use apply_core::Board;
use std::sync::Wait;

impl<'h> Shared<'h> {
    ghost use Rattle.stream_worker.specs.SeatOf.{AreApartSeats, AreStatesOf, AreAllKnown, AllGoOnFromSeen, SawAsMany};

    /// One pass of all the seats' streams.
    fn joined(&self, mut seats: Vec<Seat<'h>>) -> LockPass<'h>
        requires some { 0 < vec_len seats }
        requires seats { AreApartSeats self.now seats.items }
        ensures pass { IsSeatAt (sends_on self.now.lock.sender) result }
        ensures known { AreAllKnown seats.entry.items 0 (view result) }
    {
        let Some(last) = seats.pop() else {
            unreachable!()
        };
        let Seat { mut pass, .. } = last;
        while let Some(seat) = seats.pop() {
            let Seat { pass: other, .. } = seat;
            self.lock.join(&mut pass, other);
        }
        pass
    }

    /// Takes the board out, once the threads have ended, with the seats in any order: each of their streams
    /// has the state that its seat knows, and all go on from what any seat saw of them. Takes no memory.
    pub fn end<R: Wait>(self, rt: &R, seats: Vec<Seat<'h>>) -> Board<'h>
        requires some { 0 < vec_len seats }
        requires seats { AreApartSeats self seats.items }
        ensures states { AreStatesOf seats.entry.items result.streams }
        ensures seen { AllGoOnFromSeen seats.entry.items result.streams }
        ensures many { SawAsMany seats.entry.items (length result.streams) }
    {
        let mut pass = self.joined(seats);
        let deal = self.lock.take(rt, &mut pass);
        deal.into_board()
    }
}
