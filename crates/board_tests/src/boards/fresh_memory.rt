//! Boards that are made, and lists of steps on them, without memory: the call says so and changes nothing, and made
//! again it is answered as it would have been. Each test stands for one run for each growth that it asks for, in
//! which that growth is refused.

use crate::boards::alike::is_same;
use crate::boards::memory::{OTHERS, THREE_GROUPS, brought, copied, fresh, opened, written};
use crate::boards::setup::{TWO, plans_of, run};
use apply_core::{Answer, Board, Refusal, StepRefusal, fed_board};
use filter_rule::Plan;
use source_feed::Feed;
use std::alloc::{AllocError, Global};
use std::sync::Arc;
use std::test::*;
use stream_core::Step;

/// How a board is made.
#[derive(Clone, Copy)]
enum Way {
    /// Over plans alone.
    Plans,
    /// Over plans with their feeds.
    Feeds,
}

/// The board of plans, which are 1 to 64.
fn made_by<'h>(
    alloc: Global,
    way: Way,
    plans: Vec<Arc<Plan>>,
    feeds: &[Feed<'h>],
) -> Result<Board<'h>, Refusal> {
    if plans.is_empty() || plans.len() > 64 {
        return Err(Refusal::FeedCount);
    }
    match way {
        Way::Plans => Board::new(alloc, plans),
        Way::Feeds => fed_board(alloc, plans, feeds),
    }
}

/// Whether the board of two streams is made, and is this one.
fn is_made<'h>(
    alloc: Global,
    way: Way,
    feeds: &[Feed<'h>],
    wanted: &Board<'_>,
) -> Result<bool, AllocError> {
    let Some(plans) = plans_of(alloc, TWO) else {
        return Err(AllocError);
    };
    match made_by(alloc, way, plans, feeds) {
        Ok(board) => is_same(alloc, &board, wanted),
        Err(refusal) if refusal.number() == 72 => Err(AllocError),
        Err(_) => Ok(false),
    }
}

/// Whether it is, also where the first call found no memory.
fn is_made_again<'h>(alloc: Global, way: Way, feeds: &[Feed<'h>]) -> Result<bool, AllocError> {
    let wanted = fresh(alloc, TWO)?;
    match is_made(alloc, way, feeds, &wanted) {
        Ok(made) => Ok(made),
        Err(_) => is_made(alloc, way, feeds, &wanted),
    }
}

/// Whether boards are, over plans alone and with the feeds of two sources.
fn boards_are_made(alloc: Global) -> Result<bool, AllocError> {
    let bytes = written(alloc, &[(b'2', THREE_GROUPS), (b'3', OTHERS)])?;
    let feeds = opened(alloc, TWO, &bytes)?;
    Ok(is_made_again(alloc, Way::Plans, &feeds)? && is_made_again(alloc, Way::Feeds, &feeds)?)
}

#[test]
fn new_boards_without_memory(rt: HostRuntime) -> Result<(), Fail> {
    assert!(rt; boards_are_made(rt.alloc())?);
    Ok(())
}

/// Steps of two streams, of which the first stops within its table.
const BOTH_COPY: &[(u8, Step)] = &[
    (0, Step::Offer(1)),
    (0, Step::Advance),
    (0, Step::OpenAt(1)),
    (0, Step::CopyRows(2)),
    (1, Step::Offer(1)),
    (1, Step::Advance),
    (1, Step::OpenAt(1)),
    (1, Step::CopyRows(2)),
];

/// Whether a step found no memory.
fn is_short(replies: &[Result<Answer, StepRefusal>]) -> bool {
    for reply in replies {
        match reply {
            Err(refusal) if refusal.number() == 72 => return true,
            _ => {}
        }
    }
    false
}

/// Whether the steps have ended on this board; an error where one of them found no memory.
fn have_ended<'h>(
    alloc: Global,
    board: &Board<'h>,
    replies: &[Result<Answer, StepRefusal>],
    wanted: &Board<'h>,
) -> Result<bool, AllocError> {
    if is_short(replies) {
        return Err(AllocError);
    }
    is_same(alloc, board, wanted)
}

/// Whether the steps end on this board; an error where there is no room for their replies.
fn end<'h>(
    alloc: Global,
    board: &mut Board<'h>,
    feeds: &[Feed<'h>],
    wanted: &Board<'h>,
) -> Result<bool, AllocError> {
    let replies = board.take_steps(alloc, feeds, BOTH_COPY)?;
    have_ended(alloc, board, &replies, wanted)
}

/// Whether they do, also where there was no room for their replies before, and the board was left as this copy.
fn end_again<'h>(
    alloc: Global,
    board: &mut Board<'h>,
    copy: &Board<'h>,
    feeds: &[Feed<'h>],
    wanted: &Board<'h>,
) -> Result<bool, AllocError> {
    match board.take_steps(alloc, feeds, BOTH_COPY) {
        Ok(replies) => have_ended(alloc, board, &replies, wanted),
        Err(_) => Ok(is_same(alloc, board, copy)? && end(alloc, board, feeds, wanted)?),
    }
}

/// Whether they do from a board of which nothing is read.
fn end_from_the_first<'h>(
    alloc: Global,
    feeds: &[Feed<'h>],
    wanted: &Board<'h>,
) -> Result<bool, AllocError> {
    let mut board = fresh(alloc, TWO)?;
    let copy = copied(alloc, &board)?;
    end_again(alloc, &mut board, &copy, feeds, wanted)
}

/// Whether a run of the steps from plans ends on this board.
fn is_run<'h>(alloc: Global, feeds: &[Feed<'h>], wanted: &Board<'h>) -> Result<bool, AllocError> {
    match run(alloc, TWO, feeds, BOTH_COPY) {
        Ok((board, replies)) => have_ended(alloc, &board, &replies, wanted),
        Err(number) if number == 0 || number == 72 => Err(AllocError),
        Err(_) => Ok(false),
    }
}

/// Whether it does, also where the first run found no memory.
fn is_run_again<'h>(
    alloc: Global,
    feeds: &[Feed<'h>],
    wanted: &Board<'h>,
) -> Result<bool, AllocError> {
    match is_run(alloc, feeds, wanted) {
        Ok(ended) => Ok(ended),
        Err(_) => is_run(alloc, feeds, wanted),
    }
}

/// Whether a list of steps is taken on a board, and run from plans, as its steps one by one.
fn steps_are_taken(alloc: Global) -> Result<bool, AllocError> {
    let bytes = written(alloc, &[(b'2', THREE_GROUPS), (b'3', OTHERS)])?;
    let feeds = opened(alloc, TWO, &bytes)?;
    let wanted = brought(alloc, fresh(alloc, TWO)?, &feeds, BOTH_COPY)?;
    Ok(end_from_the_first(alloc, &feeds, &wanted)? && is_run_again(alloc, &feeds, &wanted)?)
}

#[test]
fn lists_of_steps_without_memory(rt: HostRuntime) -> Result<(), Fail> {
    assert!(rt; steps_are_taken(rt.alloc())?);
    Ok(())
}
