//! A session.

ghost use Rattle.std.specs.Prelude.{◌≡◌, IfErr, IfOk, OnOk, length, map, slice_get};
ghost use Rattle.std.specs.Option.{option_map_or};
ghost use Rattle.board_laws.specs.FedBoards.{IsFedBoard};
ghost use Rattle.live_core.specs.Live.{IsLive};
ghost use Rattle.live_session.specs.Sessions.{AreFresh, kept_session, tail_at};
ghost use Rattle.live_session.specs.Stops.{fresh_seat};
ghost use Rattle.live_session.specs.Turns.{IsBroken, IsServed, stand_of};

use crate::arrivals::Arrivals;
use crate::seat::Seat;
use crate::serve::{ServeFault, serve_all};
use live_core::Live;
use printing::Out;
use std::alloc::{AllocError, Global};
use std::io::Read;
use std::marker::Model;
use std::sync::Wait;
use std::thread::Threads;
use vrepl_choices::Threading;

/// A board that goes on, and a seat for each of its streams.
#[derive(Drop)]
pub struct Session<'h> {
    live: Live<'h>,
    seats: Vec<Seat<'h>>,
}

impl<'h> Model for Session<'h> {
    ghost use Rattle.std.specs.Prelude.{◌≡◌, length};
    ghost use Rattle.live_session.specs.Sessions.{SessionValue};

    ghost Value = { SessionValue };

    ghost view = { λ s. record { live = s.live; seats = s.seats.items } };

    ghost invariant = { λ s. length s.seats.items ≡ length s.live.fed.feeds };
}

/// How many bytes of the feed of stream `s` had come.
fn come_of(come: &[Vec<u8>], s: u8) -> u64
    ensures { result ≡ option_map_or (λ bytes. length bytes) (slice_get (map (λ bytes. bytes.items) come.now) s) 0 }
{
    match come.get(s as usize) {
        None => 0,
        Some(bytes) => bytes.len() as u64,
    }
}

/// A seat for stream `s` of a board, of whose feed these bytes had come.
fn seat_of<'h>(live: &Live<'_>, come: &[Vec<u8>], s: u8) -> Seat<'h>
    ensures { result ≡ fresh_seat (tail_at (map (λ bytes. bytes.items) come.now) live.now s) }
{
    Seat::new(come_of(come, s).saturating_sub(live.taken(s)))
}

/// A seat for each stream of a board, of whose feed so many bytes had come.
fn seats_for<'h>(
    alloc: Global,
    live: &Live<'_>,
    come: &[Vec<u8>],
) -> Result<Vec<Seat<'h>>, AllocError>
    ensures { IfOk result (λ seats. AreFresh (map (λ bytes. bytes.items) come.now) live.now seats.items) }
{
    live.fed().is_fed();
    let mut seats = Vec::new(alloc);
    for s in 0..live.fed().feeds().len() {
        seats.push(seat_of(live, come, s as u8))?;
    }
    Ok(seats)
}

impl<'h> Session<'h> {
    /// A session over a board, of whose feeds these bytes had come. An error is want of memory.
    pub fn new(alloc: Global, live: Live<'h>, come: &[Vec<u8>]) -> Result<Session<'h>, AllocError>
        ensures live { IfOk result (λ session. session.live ≡ live.entry) }
        // Of each feed nothing is known but how many bytes had come and aren't taken.
        ensures fresh { IfOk result (λ session. AreFresh (map (λ bytes. bytes.items) come.now) live.entry session.seats) }
    {
        let seats = seats_for(alloc, &live, come)?;
        Ok(Session { live, seats })
    }

    /// Its board shows its sources, and is lawful: a fact for contracts. Takes no memory.
    pub fn is_live(&self)
        ensures live { IsLive self.now.live }
        ensures fed { IsFedBoard self.now.live.fed.feeds self.now.live.fed.board }
    {
        self.live.fed().is_fed();
    }

    /// Answers the requests of an input, a line each, until it ends or `end` is asked. Streams go on in threads, or one after
    /// another. May wait for ever: an input may give nothing.
    ///
    /// Refused 131 where a request can't be read, 132 where an answer can't be written, and 72 for want of memory for a
    /// line, before any is read.
    pub fn serve<R: Threads + Wait + Sync, A: Arrivals<'h>, I: Read, O: Out>(
        &mut self,
        rt: &R,
        alloc: Global,
        threading: Threading,
        arrivals: &mut A,
        input: &mut I,
        out: &mut O,
    ) -> Result<(), ServeFault>
        // Each line of the input was answered, in order.
        ensures served { OnOk result (IsServed (stand_of (I.remaining input.old) (kept_session self.old (A.saved arrivals.old)) (O.written out.old)) (stand_of (I.remaining input.new) (kept_session self.new (A.saved arrivals.new)) (O.written out.new))) }
        // Else they were, up to one that couldn't be read, or whose answer couldn't be written.
        ensures broken { IfErr result (λ fault. IsBroken fault (stand_of (I.remaining input.old) (kept_session self.old (A.saved arrivals.old)) (O.written out.old)) (stand_of (I.remaining input.new) (kept_session self.new (A.saved arrivals.new)) (O.written out.new))) }
        // However it ends, the board shows its sources, and is lawful.
        ensures live { IsLive self.new.live }
        ensures fed { IsFedBoard self.new.live.fed.feeds self.new.live.fed.board }
    {
        let ended = serve_all(
            rt,
            alloc,
            threading,
            &mut self.live,
            &mut self.seats,
            arrivals,
            input,
            out,
        );
        self.live.fed().is_fed();
        ended
    }
}
