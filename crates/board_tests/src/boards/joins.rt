//! Two boards joined to one: the state of each stream that is further on, and why boards aren't joined.

use crate::boards::setup::{BY_VALUE, ONE, TWO};
use crate::boards::sides::*;
use apply_core::{Board, JoinFault, JoinRefusal, join};
use pk_copy::Key;
use row_view::{Column, RowBuf};
use std::alloc::Global;
use std::test::*;

/// What a join answers.
#[derive(Clone, Copy)]
enum Wanted<'c> {
    /// A board.
    Joined(&'c Side<'c>),
    /// A refusal of this number, for this stream.
    Refused(u8, u8),
    /// A row of this stream stands at the key that has the row of these two columns.
    Clash(u8, &'c [u8], &'c [u8]),
}

/// Whether these are a row's columns.
fn has_columns(row: &RowBuf, wanted: &[&[u8]]) -> bool {
    let mut left = wanted.iter();
    for column in row.columns() {
        match (column, left.next()) {
            (Column::Bytes(bytes), Some(wanted)) if bytes == *wanted => {}
            _ => return false,
        }
    }
    left.next().is_none()
}

/// Whether the row at a key has these columns.
fn has_row(board: &Board<'_>, key: &Key, wanted: &[&[u8]]) -> bool {
    match board.row(key) {
        Some((_, row)) => has_columns(row, wanted),
        None => false,
    }
}

/// Whether boards aren't joined for the wanted cause.
fn is_cause(a: &Board<'_>, why: &JoinFault, wanted: Wanted<'_>) -> bool {
    match (why, wanted) {
        (JoinFault::WrongPlan, Wanted::Refused(n, 0)) => n == why.number(),
        (JoinFault::HistoriesDiffer(s), Wanted::Refused(n, stream)) => {
            n == why.number() && *s == stream
        }
        (JoinFault::OwnedByOther { key, owner }, Wanted::Clash(s, id, v)) => {
            why.number() == 71 && *owner == s && has_row(a, key, &[id, v])
        }
        _ => false,
    }
}

/// Whether a refused join has this cause, and both boards are handed back as they were.
fn is_refusal(
    alloc: Global,
    refusal: &JoinRefusal<'_>,
    sides: (&Side<'_>, &Side<'_>),
    wanted: Wanted<'_>,
) -> bool {
    is_cause(&refusal.a, &refusal.why, wanted)
        && is_side(alloc, &refusal.a, sides.0)
        && is_side(alloc, &refusal.b, sides.1)
}

/// Whether two boards are joined as is wanted.
fn answers<'h>(
    alloc: Global,
    a: Board<'h>,
    b: Board<'h>,
    sides: (&Side<'_>, &Side<'_>),
    wanted: Wanted<'_>,
) -> bool {
    match join(alloc, a, b) {
        Ok(board) => match wanted {
            Wanted::Joined(side) => is_side(alloc, &board, side),
            _ => false,
        },
        Err(refusal) => is_refusal(alloc, &refusal, sides, wanted),
    }
}

/// Whether the boards of two sides, over these bytes, are joined as is wanted.
fn joins_over<'h>(
    alloc: Global,
    sides: (&Side<'_>, &Side<'_>),
    one: &'h [Vec<u8>],
    other: &'h [Vec<u8>],
    wanted: Wanted<'_>,
) -> bool {
    let Some(first) = board_at(alloc, sides.0, one) else {
        return false;
    };
    let Some(second) = board_at(alloc, sides.1, other) else {
        return false;
    };
    answers(alloc, first, second, sides, wanted)
}

/// Whether the boards of two sides are joined as is wanted.
fn joins(alloc: Global, a: &Side<'_>, b: &Side<'_>, wanted: Wanted<'_>) -> bool {
    let Some(one) = bytes_of(alloc, a) else {
        return false;
    };
    let Some(other) = bytes_of(alloc, b) else {
        return false;
    };
    joins_over(alloc, (a, b), &one, &other, wanted)
}

/// Whether the boards of two sides are joined as is wanted, either way round.
fn joins_both_ways(alloc: Global, a: &Side<'_>, b: &Side<'_>, wanted: Wanted<'_>) -> bool {
    joins(alloc, a, b, wanted) && joins(alloc, b, a, wanted)
}

/// (5, 2) and (3, 4) give (5, 4), with nine rows.
#[test]
fn join_either_way_round(rt: HostRuntime) {
    assert!(rt;
        joins_both_ways(
            rt.alloc(),
            &five_two(),
            &three_four(),
            Wanted::Joined(&five_four())
        )
    );
}

/// Whether a board joined with its copy is the board.
fn joins_with_copy(alloc: Global, board: Board<'_>, side: &Side<'_>) -> bool {
    let Ok(copy) = board.try_clone(alloc) else {
        return false;
    };
    answers(alloc, board, copy, (side, side), Wanted::Joined(side))
}

/// The same of the board of a side.
fn side_joins_with_its_copy(alloc: Global, side: &Side<'_>) -> bool {
    let Some(bytes) = bytes_of(alloc, side) else {
        return false;
    };
    match board_at(alloc, side, &bytes) {
        Some(board) => joins_with_copy(alloc, board, side),
        None => false,
    }
}

#[test]
fn join_with_a_copy(rt: HostRuntime) {
    assert!(rt; side_joins_with_its_copy(rt.alloc(), &three_four()));
}

/// One board is further on in both streams, and of as many applied groups the longer list counts.
#[test]
fn join_with_a_board_behind(rt: HostRuntime) {
    let further = three_four();
    assert!(rt; joins_both_ways(rt.alloc(), &behind(), &further, Wanted::Joined(&further)));
}

/// The lists of stream 0 part at group 2.
#[test]
fn boards_of_other_histories(rt: HostRuntime) {
    assert!(rt;
        joins(
            rt.alloc(),
            &five_two(),
            &of_another_history(),
            Wanted::Refused(113, 0)
        )
    );
}

/// A board whose second stream isn't copied: of another history; behind in both streams; and further on in
/// this one, whose rows then go.
#[test]
fn boards_that_still_copy(rt: HostRuntime) {
    let copied = five_two();
    assert!(rt;
        joins_both_ways(
            rt.alloc(),
            &copied,
            &copying(PARTED, 1),
            Wanted::Refused(113, 0)
        ) && joins_both_ways(
            rt.alloc(),
            &copied,
            &copying(LOW, 1),
            Wanted::Joined(&copied)
        ) && joins_both_ways(
            rt.alloc(),
            &copied,
            &copying(LOW, 4),
            Wanted::Joined(&copied_and_copying())
        )
    );
}

/// Whether boards of these plans, of which nothing is read, aren't joined.
fn are_other_plans(alloc: Global, one: &[u8], other: &[u8]) -> bool {
    joins(alloc, &fresh(one), &fresh(other), Wanted::Refused(111, 0))
}

/// Boards of fewer streams, and of another filter.
#[test]
fn boards_of_other_plans(rt: HostRuntime) {
    assert!(rt;
        are_other_plans(rt.alloc(), TWO, ONE) && are_other_plans(rt.alloc(), ONE, BY_VALUE)
    );
}

/// Both streams have rows at the keys 2 and 3 where they are further on: the least key, and the lower stream.
#[test]
fn streams_that_meet_in_a_join(rt: HostRuntime) {
    let (first, second) = (first_ahead(), second_ahead());
    assert!(rt;
        joins(rt.alloc(), &first, &second, Wanted::Clash(0, b"2", b"b"))
            && joins(rt.alloc(), &second, &first, Wanted::Clash(0, b"2", b"x"))
    );
}
