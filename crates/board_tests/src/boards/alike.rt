//! Streams of two boards beside each other: their numbers, marks, positions and rows.

use apply_core::Board;
use dump::DumpRows;
use pk_copy::Mark;
use std::alloc::{AllocError, Global};
use std::cmp::Ordering;
use stream_core::Cursor;

/// How far on a mark is beside another one of the same table, which isn't done: up to a key is further than none.
pub(crate) fn order_of_marks(one: Mark<'_>, other: Mark<'_>) -> Ordering {
    match (one, other) {
        (Mark::Upto(key), Mark::Upto(last)) => key.view().cmp(&last.view()),
        (Mark::Upto(_), Mark::Waiting) => Ordering::Greater,
        (Mark::Waiting, Mark::Upto(_)) => Ordering::Less,
        _ => Ordering::Equal,
    }
}

/// Whether a stream stands at the same numbers as another.
fn are_numbers(one: &Cursor, other: &Cursor) -> bool {
    one.read() == other.read()
        && one.applied() == other.applied()
        && one.tables() == other.tables()
        && one.done() == other.done()
        && one.snapshot() == other.snapshot()
}

/// Whether a stream stands at the same numbers on two boards, and the table that it copies at the same mark.
fn stands_alike(one: &Board<'_>, other: &Board<'_>, s: u8) -> bool {
    let (Ok(cursor), Ok(there)) = (one.state(s), other.state(s)) else {
        return false;
    };
    match (one.mark(s, cursor.done()), other.mark(s, there.done())) {
        (Ok(mark), Ok(last)) => {
            are_numbers(&cursor, &there) && order_of_marks(mark, last).is_eq()
        }
        _ => false,
    }
}

/// Whether a stream is at the same position on two boards, and has read the same groups.
fn has_read_alike(one: &Board<'_>, other: &Board<'_>, s: u8) -> bool {
    let (Ok(list), Ok(others)) = (one.read_list(s), other.read_list(s)) else {
        return false;
    };
    let mut alike = list.len() == others.len();
    for (group, other) in list.iter().zip(others) {
        alike &= group.same(other);
    }
    match (one.position(s), other.position(s)) {
        (Ok(Some(position)), Ok(Some(there))) => alike && *position == *there,
        (Ok(None), Ok(None)) => alike,
        _ => false,
    }
}

/// Whether rows are the same.
fn are_rows(rows: &DumpRows, others: &DumpRows) -> bool {
    let mut alike = rows.len() == others.len();
    for (row, other) in rows.as_slice().iter().zip(others.as_slice()) {
        alike &= row.0.view().cmp(&other.0.view()).is_eq() && row.1.same(&other.1);
    }
    alike
}

/// Whether a stream stands at the same numbers on two boards, has read the same groups and has the same rows. An
/// error is want of memory.
fn is_same_stream(
    alloc: Global,
    one: &Board<'_>,
    other: &Board<'_>,
    s: u8,
) -> Result<bool, AllocError> {
    match (one.rows_of(alloc, s), other.rows_of(alloc, s)) {
        (Ok(rows), Ok(others)) => Ok(
            are_rows(&rows, &others)
                && stands_alike(one, other, s)
                && has_read_alike(one, other, s),
        ),
        _ => Err(AllocError),
    }
}

/// Whether two boards are the same: as many streams, at most 64, each of which is the same, and as many rows. An
/// error is want of memory.
pub(crate) fn is_same(
    alloc: Global,
    one: &Board<'_>,
    other: &Board<'_>,
) -> Result<bool, AllocError> {
    for (s, _) in (0..64u8).zip(0..one.len()) {
        if !is_same_stream(alloc, one, other, s)? {
            return Ok(false);
        }
    }
    let rows = one.rows(alloc)?;
    let others = other.rows(alloc)?;
    Ok(one.len() == other.len() && are_rows(&rows, &others))
}

/// Whether a stream is the same on two boards, for which there is memory.
pub(crate) fn is_alike(alloc: Global, one: &Board<'_>, other: &Board<'_>, s: u8) -> bool {
    matches!(is_same_stream(alloc, one, other, s), Ok(true))
}

/// Whether two boards are the same, for which there is memory.
pub(crate) fn are_alike(alloc: Global, one: &Board<'_>, other: &Board<'_>) -> bool {
    matches!(is_same(alloc, one, other), Ok(true))
}
