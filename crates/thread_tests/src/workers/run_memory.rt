//! Runs of all streams, and boards that are shared, without memory: the call says so, and made again it is answered
//! as it would have been. Where one stream's thread found no memory, that of a channel between it and its reader among
//! it, the other stream came to its feed's end. Each test stands for one run for each growth that it asks for, in which
//! that growth is refused.

use crate::feeds::{LOWER, UPPER, WORKFLOW, open_feeds};
use crate::workers::gates::{Counting, Open};
use apply_core::{Board, Policy, RunRefusal, fed_board, run_alone};
use filter_rule::Plan;
use source_feed::Feed;
use std::alloc::{AllocError, Global};
use std::sync::{Arc, Wait};
use std::test::*;
use std::thread::Threads;
use stream_core::Step;
use stream_worker::{Gate, Shared, run_parallel};

/// How streams are run.
#[derive(Clone, Copy)]
enum Way {
    /// One after another.
    Alone,
    /// Each in a thread of its own.
    Parallel,
}

/// The board behind a run of 1 to 64 plans.
fn ran<'h, R: Threads + Wait + Sync, G: Gate + Sync>(
    rt: &R,
    alloc: Global,
    way: Way,
    plans: Vec<Arc<Plan>>,
    feeds: &[Feed<'h>],
    gate: &G,
) -> Result<Board<'h>, RunRefusal> {
    if plans.is_empty() || plans.len() > 64 {
        return Err(RunRefusal::FeedCount);
    }
    let Some(policy) = Policy::new(1, 1, 2) else {
        return Err(RunRefusal::WrongPlan);
    };
    match way {
        Way::Alone => run_alone(alloc, plans, feeds, &policy),
        Way::Parallel => run_parallel(rt, alloc, plans, feeds, &policy, gate),
    }
}

/// The plans of the workflow of two streams.
fn plans_of(alloc: Global) -> Result<Vec<Arc<Plan>>, AllocError> {
    match Plan::read_all(alloc, WORKFLOW) {
        Ok(plans) => Ok(plans),
        Err(_) => Err(AllocError),
    }
}

/// Whether a run ends with the rows of both feeds.
fn fills<'h, R: Threads + Wait + Sync, G: Gate + Sync>(
    rt: &R,
    alloc: Global,
    way: Way,
    feeds: &[Feed<'h>],
    gate: &G,
) -> Result<bool, AllocError> {
    match ran(rt, alloc, way, plans_of(alloc)?, feeds, gate) {
        Ok(board) => Ok(board.rows(alloc)?.len() == 4),
        Err(refusal) if refusal.number() == 72 => Err(AllocError),
        Err(_) => Ok(false),
    }
}

/// Whether a gate was told of no group, or of both groups of one stream.
fn spares_a_stream(gate: &Counting) -> bool {
    let total = gate.total();
    total == 0 || total / 1_000 % 1_000 == 2 || total / 1_000_000 == 2
}

/// Whether it does, also where the first one found no memory.
fn fills_again<R: Threads + Wait + Sync>(
    rt: &R,
    alloc: Global,
    way: Way,
) -> Result<bool, AllocError> {
    let plans = plans_of(alloc)?;
    let Some(feeds) = open_feeds(alloc, &plans, &[LOWER, UPPER]) else {
        return Err(AllocError);
    };
    let gate = Counting::new();
    match fills(rt, alloc, way, &feeds, &gate) {
        Ok(filled) => Ok(filled),
        Err(_) => Ok(fills(rt, alloc, way, &feeds, &Open)? && spares_a_stream(&gate)),
    }
}

#[test]
fn runs_without_memory(rt: HostRuntime) -> Result<(), Fail> {
    assert!(rt; fills_again(&rt, rt.alloc(), Way::Alone)?);
    Ok(())
}

#[test]
fn runs_in_threads_without_memory(rt: HostRuntime) -> Result<(), Fail> {
    assert!(rt; fills_again(&rt, rt.alloc(), Way::Parallel)?);
    Ok(())
}

/// A board of which the first stream is within its table, over these feeds.
fn copying<'h>(alloc: Global, feeds: &[Feed<'h>]) -> Result<Board<'h>, AllocError> {
    let plans = plans_of(alloc)?;
    if plans.is_empty() || plans.len() > 64 {
        return Err(AllocError);
    }
    let Ok(mut board) = fed_board(alloc, plans, feeds) else {
        return Err(AllocError);
    };
    for step in [
        Step::Offer(1),
        Step::Offer(2),
        Step::Advance,
        Step::Advance,
        Step::OpenAt(2),
        Step::CopyRows(1),
    ] {
        if board.take_step(alloc, feeds, 0, step).is_err() {
            return Err(AllocError);
        }
    }
    Ok(board)
}

/// Whether a board is that one: by the first stream's applied groups, its snapshot and the one row.
fn is_copying(alloc: Global, board: &Board<'_>) -> Result<bool, AllocError> {
    let rows = board.rows(alloc)?;
    match board.state(0) {
        Ok(at) => Ok(rows.len() == 1 && at.applied() == 2 && at.snapshot() == Some(2)),
        Err(_) => Ok(false),
    }
}

/// Whether it is shared by two seats.
fn is_shared<R: Wait>(rt: &R, alloc: Global, board: Board<'_>) -> Result<bool, AllocError> {
    match Shared::open(rt, alloc, board) {
        Ok((_, seats)) => Ok(seats.len() == 2),
        Err(_) => Err(AllocError),
    }
}

/// Whether it is, also where it wasn't for want of memory before and was handed back.
fn is_shared_again<R: Wait>(rt: &R, alloc: Global) -> Result<bool, AllocError> {
    let plans = plans_of(alloc)?;
    let Some(feeds) = open_feeds(alloc, &plans, &[LOWER, UPPER]) else {
        return Err(AllocError);
    };
    match Shared::open(rt, alloc, copying(alloc, &feeds)?) {
        Ok((_, seats)) => Ok(seats.len() == 2),
        Err(refusal) => Ok(
            is_copying(alloc, &refusal.board)? && is_shared(rt, alloc, refusal.board)?,
        ),
    }
}

#[test]
fn shared_without_memory(rt: HostRuntime) -> Result<(), Fail> {
    assert!(rt; is_shared_again(&rt, rt.alloc())?);
    Ok(())
}
