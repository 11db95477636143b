//! How far a stream of a run in threads has come when its gate is told of a group: seen by another stream that has a row
//! of its own at a key of the first.

use crate::feeds::{WORKFLOW, meeting, open_feeds, seventy};
use crate::workers::gates::{Crossing, LONG, SHORT};
use crate::workers::runs::{numbers_of, run_over};
use filter_rule::Plan;
use std::alloc::{AllocError, Global};
use std::sync::Wait;
use std::test::*;
use std::thread::Threads;
use stream_worker::Policy;

/// Rows that are copied at a time, groups that are read before a snapshot is opened, and chunks that are copied out of
/// one; a group of stream 0 that its gate is told of; one whose row stream 1 has too; and whether that row is put by then.
type Met = ([u32; 3], u32, u8, bool);

/// As many groups are read as the policy says before a snapshot is opened: nothing of them is put before.
const AHEAD: &[Met] = &[([2, 2, 1], 2, 1, false), ([2, 1, 1], 2, 1, true)];

/// Two groups are read, and both rows copied, at once or one after another; then the table is done, and the gate is told
/// of the groups behind them before any is put. Where one row is copied for two groups that are read, the first four rows
/// are copied before group 10.
const COPIED: &[Met] = &[
    ([2, 2, 1], 10, 3, false),
    ([1, 2, 2], 10, 3, false),
    ([1, 2, 1], 10, 3, true),
    ([1, 2, 1], 10, 5, false),
];

/// Behind the two groups with which the table is copied the gate is told of sixteen, and then all of them are put.
const TURN: &[Met] = &[([2, 2, 1], 18, 3, false), ([2, 2, 1], 19, 18, true)];

/// What a run is refused by where stream 1 meets the row that a group of stream 0 puts, once the gate is told of another
/// of stream 0's groups; zeros where it isn't refused. Where the row isn't to be there yet, stream 0 goes on once stream 1
/// has put its own one, and else it waits for that a while.
fn refused_at<R: Threads + Wait + Sync>(
    rt: &R,
    alloc: Global,
    ([rows, ahead, chunks], told, puts, there): Met,
) -> Result<[u8; 3], AllocError> {
    let (first, second) = (seventy(alloc, b'1')?, meeting(alloc, puts)?);
    let (Ok(plans), Some(policy)) = (
        Plan::read_all(alloc, WORKFLOW),
        Policy::new(rows, ahead, chunks),
    ) else {
        return Ok([0; 3]);
    };
    let Some(feeds) = open_feeds(alloc, &plans, &[&first, &second]) else {
        return Ok([0; 3]);
    };
    let gate = Crossing::new(told, if there { SHORT } else { LONG });
    match run_over(rt, alloc, plans, &feeds, &policy, &gate) {
        Some(Err(refusal)) => Ok(numbers_of(&refusal)),
        _ => Ok([0; 3]),
    }
}

/// Whether stream 1 is refused for stream 0's row just where that is put by then, and else stream 0 for stream 1's.
fn meet_so<R: Threads + Wait + Sync>(
    rt: &R,
    alloc: Global,
    all: &[Met],
) -> Result<bool, AllocError> {
    for met in all {
        let wanted = if met.3 { [71, 1, 0] } else { [71, 0, 1] };
        if refused_at(rt, alloc, *met)? != wanted {
            return Ok(false);
        }
    }
    Ok(true)
}

#[test]
fn run_reads_ahead(rt: HostRuntime) -> Result<(), Fail> {
    assert!(rt; meet_so(&rt, rt.alloc(), AHEAD)?);
    Ok(())
}

#[test]
fn run_copies_in_portions(rt: HostRuntime) -> Result<(), Fail> {
    assert!(rt; meet_so(&rt, rt.alloc(), COPIED)?);
    Ok(())
}

#[test]
fn run_takes_sixteen_groups_in_a_turn(rt: HostRuntime) -> Result<(), Fail> {
    assert!(rt; meet_so(&rt, rt.alloc(), TURN)?);
    Ok(())
}
