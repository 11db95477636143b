//! The parts of a checkpoint by themselves: a stream's part as it is written, and the groups up to a position.

use crate::checkpoints::feeds::{FOUR_GROUPS, Feeds, ONE, UNSOUND, feeds_of, plans_of};
use checkpoint_core::put_stream;
use filter_rule::Plan;
use gtid_set::GtidSet;
use pk_copy::{CopyState, Key, key_of};
use row_view::{RowBuf, RowView};
use source_feed::{Feed, groups_up_to, number_at};
use std::alloc::{AllocError, Global};
use std::test::*;

/// A row of the table, with its key.
fn row_of(alloc: Global, plan: &Plan, message: &[u8]) -> Option<(Key, RowBuf)> {
    let row = RowView::read(message).ok()?;
    if plan.tables().is_empty() || row.len() != plan.columns(0).len() {
        return None;
    }
    let view = key_of(plan, 0, &row).ok()?;
    let key = Key::from_view(alloc, &view).ok()?;
    let row = RowBuf::from_view(alloc, &row).ok()?;
    Some((key, row))
}

/// The part of a stream that is copied up to the key of its one row.
fn part_up_to(
    alloc: Global,
    plan: &Plan,
    position: &GtidSet,
    key: Key,
    row: &RowBuf,
) -> Result<Vec<u8>, AllocError> {
    let mut out = Vec::new(alloc);
    let copy = key.try_clone(alloc)?;
    let mut marks = CopyState::new(1);
    if marks.past(&key.view()) {
        marks.move_to(key);
    }
    put_stream(
        alloc,
        &mut out,
        plan,
        Some(position),
        &marks,
        &[(&copy, row)],
    )?;
    Ok(out)
}

/// The part of a stream of which nothing is applied or copied.
fn part_of_nothing(alloc: Global, plan: &Plan) -> Result<Vec<u8>, AllocError> {
    let mut out = Vec::new(alloc);
    put_stream(alloc, &mut out, plan, None, &CopyState::new(1), &[])?;
    Ok(out)
}

/// Behind its length: a row up to whose key the table is copied, at the first group.
const UP_TO_ONE: &[u8] =
    b"j\n\x03-80\x12c\x08\x01\x12\\\n\x07\n\x02id\x10\x89\x02\n\x06\n\x01v\x10\x950\x12\x07\n\x02id\x10\x89\x02\x1a.MySQL56/3e11fa47-71ca-11e1-9e33-c80aa9429562:1\"\x08\n\x02\x02\x02\x12\x021a*\x06\n\x01\x02\x12\x011\x1a\x01t";

/// The empty position, and no row.
const OF_NOTHING: &[u8] =
    b"0\n\x03-80\x12)\x12$\n\x07\n\x02id\x10\x89\x02\n\x06\n\x01v\x10\x950\x12\x07\n\x02id\x10\x89\x02\x1a\x08MySQL56/\x1a\x01t";

/// Whether the part of a stream that is copied up to a row's key is written so.
fn is_written_up_to(alloc: Global, plan: &Plan, message: &[u8], wanted: &[u8]) -> bool {
    let Ok(position) = GtidSet::parse(alloc, "3e11fa47-71ca-11e1-9e33-c80aa9429562:1") else {
        return false;
    };
    let Some((key, row)) = row_of(alloc, plan, message) else {
        return false;
    };
    matches!(part_up_to(alloc, plan, &position, key, &row), Ok(out) if out.as_slice() == wanted)
}

/// Whether the parts of both streams are written so.
fn are_written(alloc: Global) -> bool {
    let Some(plans) = plans_of(alloc, ONE) else {
        return false;
    };
    let Some(plan) = plans.first() else {
        return false;
    };
    matches!(part_of_nothing(alloc, plan), Ok(out) if out.as_slice() == OF_NOTHING)
        && is_written_up_to(alloc, plan, b"\n\x02\x02\x02\x12\x021a", UP_TO_ONE)
}

#[test]
fn parts_of_streams(rt: HostRuntime) {
    assert!(rt; are_written(rt.alloc()));
}

/// A position, and how many groups of a feed are applied there.
type Numbered<'c> = (&'c str, Option<u32>);

/// The empty position, groups' positions in two spellings, one that lies in a group's, one of another server.
const NUMBERS: &[Numbered<'static>] = &[
    ("", Some(0)),
    ("3e11fa47-71ca-11e1-9e33-c80aa9429562:1", Some(1)),
    ("3E11FA47-71CA-11E1-9E33-C80AA9429562:1:2-3", Some(3)),
    ("3e11fa47-71ca-11e1-9e33-c80aa9429562:2", None),
    ("3e11fa47-71ca-11e1-9e33-c80aa9429562:1-5", None),
    ("3e11fa47-71ca-11e1-9e33-c80aa9429563:1", None),
];

/// Whether each position has the number beside it.
fn are_numbers(alloc: Global, feed: &Feed<'_>, all: &[Numbered<'_>]) -> bool {
    for (text, wanted) in all {
        let Ok(position) = GtidSet::parse(alloc, text) else {
            return false;
        };
        if number_at(feed, &position) != *wanted {
            return false;
        }
    }
    true
}

/// How many groups up to a number are prepared, or the number of the fault of the first that isn't sound.
fn count_up_to(alloc: Global, feed: &Feed<'_>, number: u32) -> Result<usize, u8> {
    if feed.len() < number as usize {
        return Err(0);
    }
    match groups_up_to(alloc, feed, number) {
        Ok(groups) => Ok(groups.len()),
        Err(fault) => Err(fault.number()),
    }
}

/// Whether so many groups of a feed are prepared, or the first unsound one is refused.
fn counts(alloc: Global, bytes: Feeds<'_>, number: u32, wanted: Result<usize, u8>) -> bool {
    let Some(feeds) = feeds_of(alloc, ONE, bytes) else {
        return false;
    };
    match feeds.first() {
        Some(feed) => count_up_to(alloc, feed, number) == wanted,
        None => false,
    }
}

/// Whether positions have their numbers in the feed of four groups.
fn four_groups_have_numbers(alloc: Global) -> bool {
    let Some(feeds) = feeds_of(alloc, ONE, (FOUR_GROUPS, &[])) else {
        return false;
    };
    match feeds.first() {
        Some(feed) => are_numbers(alloc, feed, NUMBERS),
        None => false,
    }
}

#[test]
fn groups_up_to_a_position(rt: HostRuntime) {
    assert!(rt;
        four_groups_have_numbers(rt.alloc())
            && counts(rt.alloc(), (FOUR_GROUPS, &[]), 0, Ok(0))
            && counts(rt.alloc(), (FOUR_GROUPS, &[]), 3, Ok(3))
            && counts(rt.alloc(), (UNSOUND, &[]), 1, Ok(1))
            && counts(rt.alloc(), (UNSOUND, &[]), 2, Err(90))
    );
}
