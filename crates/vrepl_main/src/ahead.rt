//! Streams that run one after another, step by step, so that it can be told how far they are.

ghost use Rattle.std.specs.Prelude.{◌≡◌, ◌<◌, Some, length, slice_get};
ghost use Rattle.apply_core.specs.Ended.{AreAsBefore, OthersStay};

use crate::progress::{Progress, tell_stream, tell_streams};
use apply_core::{Course, FedBoard, Policy};
use std::alloc::Global;
use stream_core::Step;

/// What became of a stream's next step.
#[derive(Clone, Copy)]
enum Ahead {
    /// It was taken.
    Taken,
    /// There is none.
    AtEnd,
    /// It was refused, or there is no such stream.
    Refused,
}

/// Where the gate wants to be told of it, takes the steps of all streams, one stream after another, each to its feed's end,
/// up to one that is refused. A run from there takes the others, and is refused as one from where the board stood.
pub(crate) fn run_ahead<G: Progress>(
    alloc: Global,
    gate: &G,
    fed: &mut FedBoard<'_>,
    policy: &Policy,
)
    ensures { fed.new.feeds ≡ fed.old.feeds }
{
    if gate.is_told() {
        tell_streams(gate, fed);
        for stream in 0..fed.feeds().len() {
            let Ok(s) = u8::try_from(stream) else {
                break;
            };
            match stream_ahead(alloc, gate, fed, s, policy) {
                Ahead::Refused => break,
                _ => {}
            }
        }
    }
}

/// The same of these streams alone; the others stay as they stand.
pub(crate) fn named_ahead<G: Progress>(
    alloc: Global,
    gate: &G,
    fed: &mut FedBoard<'_>,
    streams: &[u8],
    policy: &Policy,
)
    ensures feeds { fed.new.feeds ≡ fed.old.feeds }
    ensures others { AreAsBefore streams.now fed.old.board fed.new.board }
{
    if gate.is_told() {
        tell_named(gate, fed, streams);
        for i in 0..streams.len() {
            match stream_ahead(alloc, gate, fed, stream_at(streams, i), policy) {
                Ahead::Refused => break,
                _ => {}
            }
        }
    }
}

/// The stream at a place of a list.
fn stream_at(streams: &[u8], i: usize) -> u8
    requires { i < length streams.now }
    ensures { slice_get streams.now i ≡ Some result }
{
    streams[i]
}

/// Tells of these streams.
fn tell_named<G: Progress>(gate: &G, fed: &FedBoard<'_>, streams: &[u8]) {
    for s in streams {
        tell_stream(gate, fed, usize::from(*s));
    }
}

/// Takes the steps of a stream up to its feed's end, or up to one that is refused.
fn stream_ahead<G: Progress>(
    alloc: Global,
    gate: &G,
    fed: &mut FedBoard<'_>,
    s: u8,
    policy: &Policy,
) -> Ahead
    ensures feeds { fed.new.feeds ≡ fed.old.feeds }
    ensures others { OthersStay s fed.old.board fed.new.board }
{
    let mut course = Course::new(policy);
    for _step in 0..u64::MAX {
        match step_ahead(alloc, gate, fed, s, policy, &mut course) {
            Ahead::Taken => {}
            ended => return ended,
        }
    }
    Ahead::Refused
}

/// Takes the next step of a stream on its course, if there is one, and tells the gate of a group that it reads.
fn step_ahead<G: Progress>(
    alloc: Global,
    gate: &G,
    fed: &mut FedBoard<'_>,
    s: u8,
    policy: &Policy,
    course: &mut Course,
) -> Ahead
    ensures feeds { fed.new.feeds ≡ fed.old.feeds }
    ensures others { OthersStay s fed.old.board fed.new.board }
{
    match next_step(fed, s, policy, course) {
        None => Ahead::AtEnd,
        Some(step) => {
            tell_step(gate, s, step);
            if take_ahead(alloc, fed, s, step) {
                Ahead::Taken
            } else {
                Ahead::Refused
            }
        }
    }
}

/// Takes a step of a stream, unless it is refused.
fn take_ahead(alloc: Global, fed: &mut FedBoard<'_>, s: u8, step: Step) -> bool
    ensures feeds { fed.new.feeds ≡ fed.old.feeds }
    ensures others { OthersStay s fed.old.board fed.new.board }
{
    fed.take_step(alloc, s, step).is_ok()
}

/// The next step of a stream on its course, if there is one.
fn next_step(fed: &FedBoard<'_>, s: u8, policy: &Policy, course: &mut Course) -> Option<Step> {
    let groups = u32::try_from(fed.feeds().get(usize::from(s))?.len()).ok()?;
    let at = fed.state(s).ok()?;
    if at.read() > groups {
        return None;
    }
    course.next(policy, &at, groups)
}

/// Tells of a step by which a group was read.
fn tell_step<G: Progress>(gate: &G, s: u8, step: Step) {
    if let Step::Offer(number) = step {
        gate.reads(usize::from(s), number);
    }
}
