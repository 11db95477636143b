//! Runs of all streams to their feeds' ends, each in a thread of its own.

use crate::feeds::{
    FOUR, LOWER, MANY_BYTES, SAME_KEY, TENS, UNSOUND, UPPER, WORKFLOW, XS, YS, many_feeds,
    many_streams, open_feeds,
};
use crate::workers::gates::{Counting, Meeting, Open, Turns};
use apply_core::Board;
use filter_rule::Plan;
use row_view::{Column, RowBuf};
use source_feed::Feed;
use std::alloc::{AllocError, Global};
use std::sync::{Arc, Wait};
use std::test::*;
use std::thread::Threads;
use stream_core::Phase;
use stream_worker::{Gate, Policy, RunRefusal, run_parallel};

/// Rows at a time, groups ahead and chunks of a snapshot, as the program has them by itself.
const USUAL: [u32; 3] = [1_000, 100, 4];

/// The board behind a run of plans over their feeds, or its refusal; none where there are no plans or too many.
pub(crate) fn run_over<'h, R: Threads + Wait + Sync, G: Gate + Sync>(
    rt: &R,
    alloc: Global,
    plans: Vec<Arc<Plan>>,
    feeds: &[Feed<'h>],
    policy: &Policy,
    gate: &G,
) -> Option<Result<Board<'h>, RunRefusal>> {
    if plans.is_empty() || plans.len() > 64 {
        return None;
    }
    Some(run_parallel(rt, alloc, plans, feeds, policy, gate))
}

/// The board behind a run of a workflow's streams over their feeds, or its refusal; none where the workflow or
/// a feed can't be opened.
fn run_of<'h, R: Threads + Wait + Sync, G: Gate + Sync>(
    rt: &R,
    alloc: Global,
    workflow: &[u8],
    bytes: &[&'h [u8]],
    [rows, ahead, chunks]: [u32; 3],
    gate: &G,
) -> Option<Result<Board<'h>, RunRefusal>> {
    let policy = Policy::new(rows, ahead, chunks)?;
    let Ok(plans) = Plan::read_all(alloc, workflow) else {
        return None;
    };
    let feeds = open_feeds(alloc, &plans, bytes)?;
    run_over(rt, alloc, plans, &feeds, &policy, gate)
}

/// Whether a stream is Running with so many groups read and applied.
pub(crate) fn has_ended(board: &Board<'_>, s: u8, groups: u32) -> bool {
    match board.state(s) {
        Ok(at) => at.phase() == Phase::Running && at.read() == groups && at.applied() == groups,
        Err(_) => false,
    }
}

/// Whether a row has these two columns.
fn is_row(row: &RowBuf, number: &[u8], value: &[u8]) -> bool {
    let mut columns = row.columns();
    columns.next() == Some(Column::Bytes(number))
        && columns.next() == Some(Column::Bytes(value))
        && columns.next().is_none()
}

/// Whether the rows of both streams are there, by rising numbers, and no other.
fn has_all_rows(alloc: Global, board: &Board<'_>) -> bool {
    let Ok(rows) = board.rows(alloc) else {
        return false;
    };
    match rows.as_slice() {
        [one, two, eleven, twelve] => {
            is_row(&one.1, b"1", b"a")
                && is_row(&two.1, b"2", b"b")
                && is_row(&eleven.1, b"11", b"k")
                && is_row(&twelve.1, b"12", b"l")
        }
        _ => false,
    }
}

/// Whether a run over two feeds of two rows each ends with both streams at their feeds' ends, and with all rows.
fn fills<R: Threads + Wait + Sync, G: Gate + Sync>(
    rt: &R,
    alloc: Global,
    portions: [u32; 3],
    gate: &G,
) -> bool {
    match run_of(rt, alloc, WORKFLOW, &[LOWER, UPPER], portions, gate) {
        Some(Ok(board)) => {
            has_ended(&board, 0, 2) && has_ended(&board, 1, 2) && has_all_rows(alloc, &board)
        }
        _ => false,
    }
}

#[test]
fn gate_meets_both_streams(rt: HostRuntime) {
    let gate = Meeting::new();
    assert!(rt; fills(&rt, rt.alloc(), USUAL, &gate) && gate.has_met());
}

#[test]
fn run_parallel_has_the_same_rows_by_any_policy(rt: HostRuntime) {
    for portions in [[1; 3], [1_000_000; 3], USUAL] {
        assert!(rt; fills(&rt, rt.alloc(), portions, &Open));
    }
}

#[test]
fn gate_is_told_of_each_group_once(rt: HostRuntime) {
    let gate = Counting::new();
    assert!(rt; fills(&rt, rt.alloc(), [1; 3], &gate) && gate.total() == 2_002_006);
}

/// A refusal's number, its stream and the owner of the row in the way; 0 where there is none.
pub(crate) fn numbers_of(refusal: &RunRefusal) -> [u8; 3] {
    match refusal {
        RunRefusal::OwnedByOther { stream, owner, .. } => [71, *stream, *owner],
        RunRefusal::Unsound { stream, fault } => [fault.number(), *stream, 0],
        other => [other.number(), 0, 0],
    }
}

/// What a run over two feeds is refused by; zeros where it isn't.
fn refused_at<R: Threads + Wait + Sync, G: Gate + Sync>(
    rt: &R,
    alloc: Global,
    bytes: [&[u8]; 2],
    portions: [u32; 3],
    gate: &G,
) -> [u8; 3] {
    match run_of(rt, alloc, WORKFLOW, &bytes, portions, gate) {
        Some(Err(refusal)) => numbers_of(&refusal),
        _ => [0; 3],
    }
}

/// The same in the usual portions, at a gate that does nothing.
fn refused<R: Threads + Wait + Sync>(rt: &R, alloc: Global, bytes: [&[u8]; 2]) -> [u8; 3] {
    refused_at(rt, alloc, bytes, USUAL, &Open)
}

#[test]
fn foreign_row_in_parallel(rt: HostRuntime) {
    let [number, stream, owner] = refused(&rt, rt.alloc(), [LOWER, SAME_KEY]);
    assert!(rt; number == 71 && stream < 2 && owner == 1 - stream);
}

#[test]
fn lowest_stream_answers(rt: HostRuntime) {
    assert!(rt; refused(&rt, rt.alloc(), [XS, YS]) == [90, 0, 0]);
    assert!(rt; refused(&rt, rt.alloc(), [TENS, YS]) == [90, 1, 0]);
}

/// The gate is told of a group before anything of it is copied: while stream 1 is held there the other stream
/// puts its row first. It is told of the group whose row is then refused.
#[test]
fn gate_is_told_of_a_refused_group(rt: HostRuntime) {
    let gate = Turns::new();
    let refused = refused_at(&rt, rt.alloc(), [LOWER, SAME_KEY], [1; 3], &gate);
    assert!(rt; refused == [71, 1, 0] && gate.told() == Some([2, 1]));
}

/// A group that can't be prepared never comes to the gate.
#[test]
fn gate_is_told_of_prepared_groups(rt: HostRuntime) {
    let gate = Turns::new();
    let refused = refused_at(&rt, rt.alloc(), [TENS, XS], USUAL, &gate);
    assert!(rt; refused == [90, 1, 0] && gate.told() == Some([3, 0]));
}

/// Behind four groups one that can't be prepared: its worker meets it behind the others, wherever its reader met it,
/// and the other stream comes to its feed's end.
#[test]
fn worker_meets_an_unsound_group(rt: HostRuntime) -> Result<(), Fail> {
    let mut bytes = Vec::from_slice(rt.alloc(), FOUR)?;
    bytes.extend_from_slice(UNSOUND)?;
    let gate = Turns::new();
    let refused = refused_at(&rt, rt.alloc(), [&bytes, UPPER], USUAL, &gate);
    assert!(rt; refused == [90, 0, 0] && gate.told() == Some([4, 2]));
    Ok(())
}

/// The feeds of all 64 streams, each by itself.
fn each_feed<'h>(alloc: Global, feeds: &'h [u8]) -> Result<Vec<&'h [u8]>, AllocError> {
    let mut each = Vec::new(alloc);
    for feed in feeds.chunks(MANY_BYTES) {
        each.push(feed)?;
    }
    Ok(each)
}

/// Whether all 64 streams have ended with three rows each.
fn all_have_ended(alloc: Global, board: &Board<'_>) -> bool {
    for s in 0..64u8 {
        if !has_ended(board, s, 3) {
            return false;
        }
    }
    match board.rows(alloc) {
        Ok(rows) => rows.len() == 192,
        Err(_) => false,
    }
}

/// Whether a run of 64 streams ends with all of them at their feeds' ends.
fn many_end<R: Threads + Wait + Sync>(rt: &R, alloc: Global) -> Result<bool, AllocError> {
    let workflow = many_streams(alloc)?;
    let feeds = many_feeds(alloc)?;
    let each = each_feed(alloc, &feeds)?;
    match run_of(rt, alloc, &workflow, &each, USUAL, &Open) {
        Some(Ok(board)) => Ok(all_have_ended(alloc, &board)),
        _ => Ok(false),
    }
}

#[test]
fn sixty_four_streams(rt: HostRuntime) -> Result<(), Fail> {
    assert!(rt; many_end(&rt, rt.alloc())?);
    Ok(())
}
