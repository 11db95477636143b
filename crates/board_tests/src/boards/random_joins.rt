//! Three boards at random, joined in both groupings, beside a plain choice.

use crate::boards::alike::{is_alike, order_of_marks};
use crate::boards::feeds::{Change, Row, push_group};
use crate::boards::own_rows::{Groups, all_have_rows, all_prepared};
use crate::boards::random_steps::{next, random_step};
use crate::boards::setup::{TWO, board_of, feeds_of};
use apply_core::{Board, join};
use pk_copy::Mark;
use source_feed::Feed;
use std::alloc::{AllocError, Global};
use std::cmp::Ordering;
use std::test::*;
use stream_core::{Cursor, Phase};

/// How many times three boards are joined.
const ROUNDS: u32 = 150;

/// The streams of a board.
const STREAMS: [u8; 2] = [0, 1];

/// A row of stream `s`, whose keys are no other stream's.
fn row(seed: u32, s: u8) -> Row {
    (
        s % 2 * 10 + ((seed >> 20) % 6) as u8,
        b'a' + ((seed >> 26) % 3) as u8,
    )
}

/// An insert, an update or a delete.
fn change(seed: u32, s: u8) -> Change {
    match (seed >> 12) % 4 {
        0 | 1 => (None, Some(row(next(seed), s))),
        2 => (Some(row(seed, s)), None),
        _ => (Some(row(seed, s)), Some(row(next(seed), s))),
    }
}

/// Nine groups of two changes each.
fn random_feed(alloc: Global, first: u32, s: u8) -> Result<Vec<u8>, AllocError> {
    let mut feed = Vec::new(alloc);
    let mut seed = first;
    for digit in b'1'..=b'9' {
        let later = next(next(seed));
        let changes = [change(seed, s), change(later, s)];
        push_group(alloc, &mut feed, b'1' + s % 2, digit, &changes)?;
        seed = next(next(later));
    }
    Ok(feed)
}

/// The feeds of two streams.
fn random_feeds(alloc: Global) -> Result<Vec<Vec<u8>>, AllocError> {
    let mut feeds = Vec::new(alloc);
    for (seed, s) in [(5, 0), (91, 1)] {
        feeds.push(random_feed(alloc, seed, s)?)?;
    }
    Ok(feeds)
}

/// Takes up to 63 random steps; the seed behind them.
fn wander<'h>(alloc: Global, board: &mut Board<'h>, feeds: &[Feed<'h>], first: u32) -> u32 {
    let mut seed = next(first);
    for _ in 0..(seed >> 26) {
        seed = next(seed);
        let s = ((seed >> 28) % 2) as u8;
        if let Ok(cursor) = board.state(s) {
            let step = random_step(next(seed), &cursor);
            let _ = board.take_step(alloc, feeds, s, step);
        }
    }
    seed
}

/// Three boards over the same feeds.
#[derive(Drop)]
struct Three<'h> {
    x: Board<'h>,
    y: Board<'h>,
    z: Board<'h>,
}

/// A board behind random steps, and the seed behind these.
fn random_board<'h>(alloc: Global, feeds: &[Feed<'h>], seed: u32) -> Option<(Board<'h>, u32)> {
    let mut board = board_of(alloc, TWO)?;
    let behind = wander(alloc, &mut board, feeds, seed);
    Some((board, behind))
}

/// Three such boards.
fn random_three<'h>(alloc: Global, feeds: &[Feed<'h>], seed: u32) -> Option<(Three<'h>, u32)> {
    let (x, seed) = random_board(alloc, feeds, seed)?;
    let (y, seed) = random_board(alloc, feeds, seed)?;
    let (z, seed) = random_board(alloc, feeds, seed)?;
    Some((Three { x, y, z }, seed))
}

/// The join of copies of two boards.
fn joined<'h>(alloc: Global, one: &Board<'h>, other: &Board<'h>) -> Option<Board<'h>> {
    let (Ok(a), Ok(b)) = (one.try_clone(alloc), other.try_clone(alloc)) else {
        return None;
    };
    match join(alloc, a, b) {
        Ok(board) => Some(board),
        Err(_) => None,
    }
}

/// The mark of the table that a stream copies.
fn mark<'b>(board: &'b Board<'_>, s: u8) -> Mark<'b> {
    match board.mark(s, 0) {
        Ok(mark) => mark,
        Err(_) => Mark::Waiting,
    }
}

/// How far on a state is beside another one by the numbers that count before or behind the marks.
fn order_of_numbers(one: &Cursor, other: &Cursor, marks: Ordering) -> Ordering {
    one.applied()
        .cmp(&other.applied())
        .then(one.done().cmp(&other.done()))
        .then(marks)
        .then(one.read().cmp(&other.read()))
        .then(one.snapshot().cmp(&other.snapshot()))
}

/// The board of two on which a stream is further on.
fn further<'b, 'h>(one: &'b Board<'h>, other: &'b Board<'h>, s: u8) -> &'b Board<'h> {
    let marks = order_of_marks(mark(one, s), mark(other, s));
    let (Ok(cursor), Ok(there)) = (one.state(s), other.state(s)) else {
        return one;
    };
    if order_of_numbers(&cursor, &there, marks).is_lt() {
        return other;
    }
    one
}

/// Whether each stream of a join is that of the board on which it is furthest on.
fn is_choice(alloc: Global, board: &Board<'_>, three: &Three<'_>) -> bool {
    for s in STREAMS {
        let of_two = further(&three.x, &three.y, s);
        if !is_alike(alloc, board, further(of_two, &three.z, s), s) {
            return false;
        }
    }
    true
}

/// Whether a join of three is the choice, has the definition's rows, and has them behind further steps.
fn is_join<'h>(
    alloc: Global,
    board: &mut Board<'h>,
    feeds: &[Feed<'h>],
    lists: &[Groups<'h>],
    three: &Three<'_>,
    seed: u32,
) -> bool {
    if !is_choice(alloc, board, three) || !all_have_rows(alloc, board, lists) {
        return false;
    }
    wander(alloc, board, feeds, seed);
    all_have_rows(alloc, board, lists)
}

/// The join of the first two of three boards with the third.
fn first_two_first<'h>(alloc: Global, three: &Three<'h>) -> Option<Board<'h>> {
    let two = joined(alloc, &three.x, &three.y)?;
    joined(alloc, &two, &three.z)
}

/// The join of the first of three boards with that of the other two.
fn last_two_first<'h>(alloc: Global, three: &Three<'h>) -> Option<Board<'h>> {
    let two = joined(alloc, &three.y, &three.z)?;
    joined(alloc, &three.x, &two)
}

/// Whether a join of three boards, if there is one, is the choice.
fn is_some_join<'h>(
    alloc: Global,
    board: Option<Board<'h>>,
    feeds: &[Feed<'h>],
    lists: &[Groups<'h>],
    three: &Three<'h>,
    seed: u32,
) -> bool {
    match board {
        Some(mut board) => is_join(alloc, &mut board, feeds, lists, three, seed),
        None => false,
    }
}

/// Whether three boards are joined to the choice in either grouping.
fn are_joined<'h>(
    alloc: Global,
    feeds: &[Feed<'h>],
    lists: &[Groups<'h>],
    three: &Three<'h>,
    seed: u32,
) -> bool {
    is_some_join(
        alloc,
        first_two_first(alloc, three),
        feeds,
        lists,
        three,
        seed,
    ) && is_some_join(
        alloc,
        last_two_first(alloc, three),
        feeds,
        lists,
        three,
        next(seed),
    )
}

/// A bit of its own for each phase.
fn bit(phase: Phase) -> u16 {
    match phase {
        Phase::Running => 1,
        Phase::Copy => 2,
        Phase::FastForward => 4,
        Phase::CatchUp => 8,
    }
}

/// A bit of its own for each pair of phases.
fn bits(one: &Board<'_>, other: &Board<'_>, s: u8) -> u16 {
    match (one.state(s), other.state(s)) {
        (Ok(cursor), Ok(there)) => match there.phase() {
            Phase::Running => bit(cursor.phase()),
            Phase::Copy => bit(cursor.phase()) << 4,
            Phase::FastForward => bit(cursor.phase()) << 8,
            Phase::CatchUp => bit(cursor.phase()) << 12,
        },
        _ => 0,
    }
}

/// Whether three boards are joined to the choice each time, and the streams of two were in each pair of phases.
fn all_are_joined<'h>(alloc: Global, feeds: &[Feed<'h>], lists: &[Groups<'h>]) -> bool {
    let mut seed = 7;
    let mut met = 0;
    for _ in 0..ROUNDS {
        let Some((three, behind)) = random_three(alloc, feeds, seed) else {
            return false;
        };
        if !are_joined(alloc, feeds, lists, &three, behind) {
            return false;
        }
        met |= bits(&three.x, &three.y, 0) | bits(&three.y, &three.z, 1);
        seed = behind;
    }
    met == u16::MAX
}

/// The same over the random feeds.
fn random_boards_are_joined(alloc: Global) -> bool {
    let Ok(bytes) = random_feeds(alloc) else {
        return false;
    };
    let Some(feeds) = feeds_of(alloc, TWO, &bytes) else {
        return false;
    };
    match all_prepared(alloc, &feeds) {
        Some(lists) => all_are_joined(alloc, &feeds, &lists),
        None => false,
    }
}

#[test]
fn random_boards_in_both_groupings(rt: HostRuntime) {
    assert!(rt; random_boards_are_joined(rt.alloc()));
}
