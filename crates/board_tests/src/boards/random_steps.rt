//! Random steps on three streams, one by one and as one list.

use crate::boards::feeds::{Change, Row, push_group};
use crate::boards::own_rows::{Groups, all_have_rows, all_prepared, show_alike};
use crate::boards::setup::{THREE, board_of, feeds_of, run};
use apply_core::*;
use source_feed::Feed;
use std::alloc::{AllocError, Global};
use std::test::*;
use stream_core::{Cursor, Step};

/// The next of some numbers that look random.
pub(crate) fn next(seed: u32) -> u32 {
    seed.wrapping_mul(1_664_525).wrapping_add(1_013_904_223)
}

/// A row of stream `s`: one of four numbers, of which it shares two with each neighbour.
fn row(seed: u32, s: u8) -> Row {
    (
        s % 3 * 2 + ((seed >> 20) % 4) as u8,
        b'a' + ((seed >> 26) % 3) as u8,
    )
}

/// An insert, an update or a delete.
fn random_change(seed: u32, s: u8) -> Change {
    match (seed >> 12) % 4 {
        0 | 1 => (None, Some(row(next(seed), s))),
        2 => (Some(row(seed, s)), None),
        _ => (Some(row(seed, s)), Some(row(next(seed), s))),
    }
}

/// Nine groups of three changes each.
fn random_feed(alloc: Global, seed: u32, s: u8) -> Result<Vec<u8>, AllocError> {
    let mut feed = Vec::new(alloc);
    let mut first = seed;
    for digit in b'1'..=b'9' {
        let second = next(next(first));
        let third = next(next(second));
        let changes = [
            random_change(first, s),
            random_change(second, s),
            random_change(third, s),
        ];
        push_group(alloc, &mut feed, b'1' + s % 3, digit, &changes)?;
        first = next(next(third));
    }
    Ok(feed)
}

/// The feeds of three streams.
fn random_feeds(alloc: Global) -> Result<Vec<Vec<u8>>, AllocError> {
    let mut feeds = Vec::new(alloc);
    for (seed, s) in [(1, 0), (77, 1), (4_711, 2)] {
        feeds.push(random_feed(alloc, seed, s)?)?;
    }
    Ok(feeds)
}

/// A step that a stream may take where it stands, or that it may not.
pub(crate) fn random_step(seed: u32, cursor: &Cursor) -> Step {
    match (seed >> 13) % 16 {
        0..=4 => Step::Offer(cursor.read() % 9 + 1),
        5..=8 => Step::Advance,
        9 | 10 => Step::OpenAt(cursor.applied() | 1),
        11..=13 => Step::CopyRows((seed >> 20) % 3),
        14 if (seed >> 20) % 4 == 0 => Step::Close,
        15 if (seed >> 20) % 4 == 0 => Step::Restart,
        14 => Step::Offer(cursor.read() % 16 + 3),
        _ => Step::OpenAt(cursor.read()),
    }
}

/// A step that was taken: its stream, the step, and the number of its refusal, 0 where it wasn't refused.
type Taken = (u8, Step, u8);

/// The number of a step's refusal; 0 where it isn't refused.
fn number(reply: &Result<Answer, StepRefusal>) -> u8 {
    match reply {
        Ok(_) => 0,
        Err(refusal) => refusal.number(),
    }
}

/// Takes the random step of a seed.
fn random_taken<'h>(
    alloc: Global,
    board: &mut Board<'h>,
    feeds: &[Feed<'h>],
    seed: u32,
) -> Option<Taken> {
    let s = ((seed >> 28) % 3) as u8;
    let Ok(cursor) = board.state(s) else {
        return None;
    };
    let step = random_step(next(seed), &cursor);
    let refused = number(&board.take_step(alloc, feeds, s, step));
    Some((s, step, refused))
}

/// Takes 400 random steps, one by one, on a board of three streams. The answer is these steps; none, where
/// behind one of them a stream hasn't the rows of the definition.
fn wander<'h>(
    alloc: Global,
    board: &mut Board<'h>,
    feeds: &[Feed<'h>],
    lists: &[Groups<'h>],
) -> Option<Vec<Taken>> {
    let mut all = Vec::new(alloc);
    let mut seed = 2_026;
    for _ in 0..400 {
        seed = next(seed);
        let taken = random_taken(alloc, board, feeds, seed)?;
        if all.push(taken).is_err() || !all_have_rows(alloc, board, lists) {
            return None;
        }
    }
    Some(all)
}

/// The steps without their refusals.
fn steps_of(alloc: Global, taken: &[Taken]) -> Option<Vec<(u8, Step)>> {
    let mut steps = Vec::new(alloc);
    for (s, step, _) in taken {
        if steps.push((*s, *step)).is_err() {
            return None;
        }
    }
    Some(steps)
}

/// Whether these replies have the refusals of the steps.
fn are_replies(replies: &[Result<Answer, StepRefusal>], taken: &[Taken]) -> bool {
    for (reply, (_, _, refused)) in replies.iter().zip(taken) {
        if number(reply) != *refused {
            return false;
        }
    }
    replies.len() == taken.len()
}

/// Whether the steps, as one list from a board of plans and feeds, have the same refusals and leave the same board.
fn runs_alike<'h>(
    alloc: Global,
    board: &Board<'h>,
    feeds: &[Feed<'h>],
    steps: &[(u8, Step)],
    taken: &[Taken],
) -> bool {
    match run(alloc, THREE, feeds, steps) {
        Ok((other, replies)) => are_replies(&replies, taken) && show_alike(alloc, board, &other),
        Err(_) => false,
    }
}

/// The same of the list on another board of which nothing is read.
fn goes_on_alike<'h>(
    alloc: Global,
    board: &Board<'h>,
    feeds: &[Feed<'h>],
    steps: &[(u8, Step)],
    taken: &[Taken],
) -> bool {
    let Some(mut other) = board_of(alloc, THREE) else {
        return false;
    };
    match other.take_steps(alloc, feeds, steps) {
        Ok(replies) => are_replies(&replies, taken) && show_alike(alloc, board, &other),
        Err(_) => false,
    }
}

/// Whether the steps, as one list, have the same refusals and leave the same board.
fn again<'h>(alloc: Global, board: &Board<'h>, feeds: &[Feed<'h>], taken: &[Taken]) -> bool {
    match steps_of(alloc, taken) {
        Some(steps) => {
            runs_alike(alloc, board, feeds, &steps, taken)
                && goes_on_alike(alloc, board, feeds, &steps, taken)
        }
        None => false,
    }
}

/// Whether a step was refused by a number.
fn was_refused(taken: &[Taken], number: u8) -> bool {
    for step in taken {
        if step.2 == number {
            return true;
        }
    }
    false
}

/// Whether steps were made, and others refused by each of these numbers.
fn were_of_each_kind(taken: &[Taken]) -> bool {
    for number in [0u8, 71, 91, 101, 102, 103, 104, 105, 108, 109] {
        if !was_refused(taken, number) {
            return false;
        }
    }
    true
}

/// Whether every stream has the definition's rows behind each of 400 random steps, and the same steps, as
/// one list, are answered the same.
fn follows_random_steps<'h>(
    alloc: Global,
    board: &mut Board<'h>,
    feeds: &[Feed<'h>],
    lists: &[Groups<'h>],
) -> bool {
    match wander(alloc, board, feeds, lists) {
        Some(taken) => were_of_each_kind(&taken) && again(alloc, board, feeds, &taken),
        None => false,
    }
}

/// The same of a board of three streams over these feeds.
fn board_follows<'h>(alloc: Global, feeds: &[Feed<'h>]) -> bool {
    let Some(lists) = all_prepared(alloc, feeds) else {
        return false;
    };
    match board_of(alloc, THREE) {
        Some(mut board) => follows_random_steps(alloc, &mut board, feeds, &lists),
        None => false,
    }
}

/// The same over the random feeds.
fn random_feeds_are_followed(alloc: Global) -> bool {
    let Ok(bytes) = random_feeds(alloc) else {
        return false;
    };
    match feeds_of(alloc, THREE, &bytes) {
        Some(feeds) => board_follows(alloc, &feeds),
        None => false,
    }
}

#[test]
fn random_steps_on_three_streams(rt: HostRuntime) {
    assert!(rt; random_feeds_are_followed(rt.alloc()));
}
