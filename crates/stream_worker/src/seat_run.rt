//! The stream of one seat runs to its feed's end, beside others.

ghost use Rattle.stream_worker.specs.Private.SeatRuns.{IsSeated, IsRan};

use crate::beside::beside_reader;
use crate::gate::Gate;
use crate::seat::Seat;
use crate::shared::Shared;
use apply_core::{Policy, RunRefusal};
use source_feed::Feed;
use std::alloc::Global;
use std::marker::Brand;
use std::sync::Wait;
use std::thread::Threads;

/// What all streams of a run have. The feeds stand in the order of the streams.
#[derive(Drop)]
pub(crate) struct RunContext<'a, 'h, R, G> {
    pub(crate) alloc: Global,
    pub(crate) rt: &'a R,
    pub(crate) shared: &'a Shared<'h>,
    pub(crate) feeds: &'a [Feed<'h>],
    pub(crate) policy: &'a Policy,
    pub(crate) gate: &'a G,
}

/// What the thread of a stream works with.
#[derive(Drop)]
pub(crate) struct Job<'a, 'h, R, G> {
    pub(crate) run: RunContext<'a, 'h, R, G>,
    pub(crate) seat: Seat<'h>,
}

/// What is left of a run of one stream: its seat, and why it ended before its feed's end, if it did.
#[derive(Drop)]
pub(crate) struct Ran<'h> {
    pub(crate) seat: Seat<'h>,
    pub(crate) refusal: Option<RunRefusal>,
}

/// A seat's stream runs to its feed's end, and whatever comes of it the seat is given back.
pub(crate) fn run_seat<'a, 'h, R: Threads + Wait + Sync, G: Gate + Sync>(
    job: Job<'a, 'h, R, G>,
) -> Ran<'h>
    requires { IsSeated job.run.shared.now job.run.feeds.now job.seat }
    ensures { IsRan job.entry.run.shared.now job.entry.run.feeds.now job.entry.seat.stream result }
{
    let Job { run, seat } = job;
    let feed = &run.feeds[seat.stream as usize];
    beside_reader::<Brand, R, G>(&run, seat, feed)
}
