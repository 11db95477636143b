//! Feeds that grow by what has come.

ghost use Rattle.std.specs.Prelude.{◌≡◌, ◌≢◌, ◌<◌, ◌≤◌, ℕ, length};
ghost use Rattle.live_session.specs.Growths.{HasGrown, HaveCome, HaveGrown, IsNoted, IsStill, is_closed};

use crate::arrivals::{ArrivalFault, Arrivals, Arrived};
use crate::seat::{Seat, Stopped};
use apply_core::GrowRefusal;
use live_core::Live;
use source_feed::FeedFault;
use std::alloc::Global;
use std::sync::Wait;

/// What has come of the feed of stream `s` behind so many bytes: what wanted memory before, or else what comes now.
fn next_arrived<'h, R: Wait, A: Arrivals<'h>>(
    rt: &R,
    seat: &mut Seat<'h>,
    arrivals: &mut A,
    s: u8,
    taken: u64,
) -> Result<Arrived<'h>, ArrivalFault>
    ensures { A.saved arrivals.new ≡ A.saved arrivals.old }
{
    match seat.kept {
        Some(arrived) => {
            seat.kept = None;
            Ok(arrived)
        }
        None => arrivals.behind(rt, s, taken),
    }
}

/// The feed of stream `s` grows by what has come: how many bytes are taken. Why none are is noted in its seat.
fn grow_by<'h>(
    alloc: Global,
    live: &mut Live<'h>,
    seat: &mut Seat<'h>,
    s: u8,
    arrived: Arrived<'h>,
) -> u32
    requires { s < length live.old.bytes }
    ensures come { HaveCome result live.old live.new }
    ensures noted { IsNoted s arrived.entry.piece.now result seat.new.stopped live.old live.new }
{
    let come = arrived.piece.len() as u64;
    seat.tail = come.saturating_add(arrived.waiting);
    match live.grow(alloc, s, arrived.piece) {
        Ok(taken) => {
            seat.tail = come
                .saturating_sub(u64::from(taken))
                .saturating_add(arrived.waiting);
            seat.stopped = None;
            taken
        }
        Err(GrowRefusal::Piece(fault)) => {
            if matches!(fault, FeedFault::Memory) {
                seat.kept = Some(arrived);
            }
            seat.stopped = Some(Stopped::Bytes(fault));
            0
        }
        Err(GrowRefusal::NoStream) => 0,
    }
}

/// The feed of stream `s` grows by what has come, unless it doesn't grow any more: how many bytes are taken.
#[tactic(auto, using(crate::proofs::GrowthLaws::come_none, crate::proofs::GrowthLaws::asked_by, crate::proofs::GrowthLaws::asked_in_vain, crate::proofs::GrowthLaws::grown_closed, crate::proofs::GrowthLaws::grown_asked, crate::proofs::GrowthLaws::others_same, crate::proofs::GrowthLaws::others_noted))]
fn grow_one<'h, R: Wait, A: Arrivals<'h>>(
    rt: &R,
    alloc: Global,
    live: &mut Live<'h>,
    seat: &mut Seat<'h>,
    arrivals: &mut A,
    s: u8,
) -> u32
    requires { s < length live.old.fed.feeds }
    ensures come { HaveCome result live.old live.new }
    // A feed that doesn't grow any more is left as it is, and so are the others.
    ensures grown { HasGrown (is_closed seat.old) s seat.old seat.new live.old live.new }
    ensures others { (t : ℕ) → t ≢ s → IsStill t live.old live.new }
    ensures saved { A.saved arrivals.new ≡ A.saved arrivals.old }
{
    if seat.is_closed() {
        return 0;
    }
    match next_arrived(rt, seat, arrivals, s, live.taken(s)) {
        Err(fault) => {
            seat.stopped = Some(Stopped::File(fault));
            0
        }
        Ok(arrived) if arrived.piece.is_empty() => {
            seat.tail = arrived.waiting;
            seat.stopped = None;
            0
        }
        Ok(arrived) => grow_by(alloc, live, seat, s, arrived),
    }
}

/// Each feed grows by what has come: how many bytes are taken in all. Why a feed doesn't grow is noted in its seat, and
/// the others go on.
pub(crate) fn growth<'h, R: Wait, A: Arrivals<'h>>(
    rt: &R,
    alloc: Global,
    live: &mut Live<'h>,
    seats: &mut [Seat<'h>],
    arrivals: &mut A,
) -> u64
    requires few { length seats.old ≤ 64 }
    requires count { length seats.old ≡ length live.old.fed.feeds }
    ensures come { HaveCome result live.old live.new }
    ensures seats { length seats.new ≡ length seats.old }
    ensures saved { A.saved arrivals.new ≡ A.saved arrivals.old }
    // Why a feed hasn't grown is in its seat.
    ensures grown { HaveGrown seats.old seats.new live.old live.new }
{
    let mut bytes = 0;
    for s in 0..seats.len() {
        bytes += u64::from(grow_one(rt, alloc, live, &mut seats[s], arrivals, s as u8));
    }
    bytes
}
