//! Feeds that grow: cut at every byte they have the groups of the whole, or its refusal; a growth of memory refused.

use crate::feeds::groups::ONE_ROW;
use crate::feeds::opening::EVERY_ROW;
use crate::feeds::prepared::THREE_GROUPS;
use filter_rule::Plan;
use source_feed::{Feed, FeedEnd, FeedFault};
use std::alloc::Global;
use std::sync::Arc;

/// The first plan of a workflow; want of memory where there is none.
fn first_plan(alloc: Global, workflow: &[u8]) -> Result<Arc<Plan>, FeedFault> {
    match Plan::read_all(alloc, workflow) {
        Err(_) => Err(FeedFault::Memory),
        Ok(plans) => match plans.first() {
            None => Err(FeedFault::Memory),
            Some(plan) => Ok(Arc::clone(plan)?),
        },
    }
}

/// A feed that has grown by the bytes up to each of some places, what wasn't taken being given again with more behind it;
/// and how many bytes were taken.
fn grown<'h>(
    alloc: Global,
    plan: &Arc<Plan>,
    bytes: &'h [u8],
    places: &[usize],
) -> Result<(Feed<'h>, usize), FeedFault> {
    let (mut feed, mut end) = FeedEnd::begin(alloc, plan)?;
    let mut rest = bytes;
    let mut taken = 0usize;
    for place in places {
        let size = place.saturating_sub(taken).min(rest.len());
        let more = end.grow(alloc, &mut feed, &rest[..size])? as usize;
        if more > rest.len() {
            return Err(FeedFault::Memory);
        }
        rest = &rest[more..];
        taken = taken.saturating_add(more);
    }
    Ok((feed, taken))
}

/// The group of a number is the same in two feeds.
fn is_same_group(
    alloc: Global,
    one: &Feed<'_>,
    other: &Feed<'_>,
    number: u32,
) -> Result<bool, FeedFault> {
    let one = one.prepare(alloc, number)?;
    let other = other.prepare(alloc, number)?;
    Ok(one.same(&other))
}

/// Two feeds have the same groups.
fn are_same(alloc: Global, one: &Feed<'_>, other: &Feed<'_>) -> Result<bool, FeedFault> {
    if one.len() != other.len() {
        return Ok(false);
    }
    for place in 0..one.len().min(100) {
        if !is_same_group(alloc, one, other, place as u32 + 1)? {
            return Ok(false);
        }
    }
    Ok(true)
}

/// What is wanted of a feed: its groups all taken, its refusal, or that it is cut short: then this many bytes of it are
/// taken.
enum Wanted {
    Whole,
    Refused(FeedFault),
    CutShort(usize),
}

/// A feed that grew up to some places, the last of which is its end, is as wanted.
fn is_as_wanted(
    alloc: Global,
    plan: &Arc<Plan>,
    bytes: &[u8],
    places: &[usize],
    wanted: &Wanted,
) -> Result<bool, FeedFault> {
    match (grown(alloc, plan, bytes, places), wanted) {
        (Ok((feed, taken)), Wanted::Whole) => {
            let whole = Feed::open(alloc, bytes, plan)?;
            Ok(taken == bytes.len() && are_same(alloc, &feed, &whole)?)
        }
        (Ok((feed, taken)), Wanted::CutShort(front)) => {
            let whole = Feed::open(alloc, &bytes[..(*front).min(bytes.len())], plan)?;
            Ok(taken == *front && are_same(alloc, &feed, &whole)?)
        }
        (Err(fault), Wanted::Refused(refusal)) => Ok(fault == *refusal),
        _ => Ok(false),
    }
}

/// The feed is as wanted, cut at every byte into two pieces, and behind it at every so many bytes into three.
fn is_wanted_however_cut(
    alloc: Global,
    bytes: &[u8],
    wanted: &Wanted,
    step: usize,
) -> Result<bool, FeedFault> {
    let plan = first_plan(alloc, EVERY_ROW)?;
    let end = bytes.len().min(1_000);
    for first in 0..end + 1 {
        if !is_as_wanted(alloc, &plan, bytes, &[first, bytes.len()], wanted)? {
            return Ok(false);
        }
        for second in 0..end + 1 {
            if second >= first
                && second % step.max(1) == 0
                && !is_as_wanted(alloc, &plan, bytes, &[first, second, bytes.len()], wanted)?
            {
                return Ok(false);
            }
        }
    }
    Ok(true)
}

#[test]
fn one_row_cut_at_every_byte(rt: HostRuntime) {
    assert!(rt;
        matches!(
            is_wanted_however_cut(rt.alloc(), ONE_ROW, &Wanted::Whole, 5),
            Ok(true)
        )
    );
}

#[test]
fn three_groups_cut_at_every_byte(rt: HostRuntime) {
    assert!(rt;
        matches!(
            is_wanted_however_cut(rt.alloc(), THREE_GROUPS, &Wanted::Whole, 400),
            Ok(true)
        )
    );
}

/// A transaction in messages of its own for each event.
const ONE_EVENT_A_MESSAGE: &[u8] =
    b"\x04\x0a\x02\x08\x02\x1a\x0a\x18\x08\x0d\x32\x14\x0a\x01t\x12\x07\x0a\x02id\x10\x89\x02\x12\x06\x0a\x01v\x10\x95\x30\x16\x0a\x14\x08\x0c\x2a\x10\x0a\x01t\x12\x0b\x12\x09\x0a\x02\x02\x04\x12\x03\x31ab\x2e\x0a\x2c\x08\x01\x1a\x283e11fa47-71ca-11e1-9e33-c80aa9429562:1-1\x04\x0a\x02\x08\x03";

#[test]
fn one_event_a_message_cut_at_every_byte(rt: HostRuntime) {
    assert!(rt;
        matches!(
            is_wanted_however_cut(rt.alloc(), ONE_EVENT_A_MESSAGE, &Wanted::Whole, 5),
            Ok(true)
        )
    );
}

/// The same without its COMMIT, behind a whole group: what is taken is the group.
const OPEN_AT_ITS_END: &[u8] =
    b"\x2e\x0a\x2c\x08\x01\x1a\x283e11fa47-71ca-11e1-9e33-c80aa9429562:1-1\x04\x0a\x02\x08\x02\x1a\x0a\x18\x08\x0d\x32\x14\x0a\x01t\x12\x07\x0a\x02id\x10\x89\x02\x12\x06\x0a\x01v\x10\x95\x30\x16\x0a\x14\x08\x0c\x2a\x10\x0a\x01t\x12\x0b\x12\x09\x0a\x02\x02\x04\x12\x03\x31ab";

#[test]
fn open_transaction_is_not_taken(rt: HostRuntime) {
    assert!(rt;
        matches!(
            is_wanted_however_cut(rt.alloc(), OPEN_AT_ITS_END, &Wanted::CutShort(47), 5),
            Ok(true)
        )
    );
}

/// Two positions of one uuid, and one of another uuid behind them.
const DIVERGED: &[u8] =
    b"\x2e\x0a\x2c\x08\x01\x1a\x283e11fa47-71ca-11e1-9e33-c80aa9429562:1-1\x2e\x0a\x2c\x08\x01\x1a\x283e11fa47-71ca-11e1-9e33-c80aa9429562:1-2\x2e\x0a\x2c\x08\x01\x1a\x283e11fa47-71ca-11e1-9e33-c80aa9429563:1-2";

#[test]
fn position_that_does_not_grow_across_pieces(rt: HostRuntime) {
    assert!(rt;
        matches!(
            is_wanted_however_cut(
                rt.alloc(),
                DIVERGED,
                &Wanted::Refused(FeedFault::Diverged(3)),
                5
            ),
            Ok(true)
        )
    );
}

/// A FIELD as the plan has it, and later one with another type.
const DIFFERS_LATER: &[u8] =
    b"\x1a\x0a\x18\x08\x0d\x32\x14\x0a\x01t\x12\x07\x0a\x02id\x10\x89\x02\x12\x06\x0a\x01v\x10\x95\x30\x2e\x0a\x2c\x08\x01\x1a\x283e11fa47-71ca-11e1-9e33-c80aa9429562:1-1\x1a\x0a\x18\x08\x0d\x32\x14\x0a\x01t\x12\x07\x0a\x02id\x10\x89\x02\x12\x06\x0a\x01v\x10\x96\x30";

#[test]
fn field_that_differs_later(rt: HostRuntime) {
    assert!(rt;
        matches!(
            is_wanted_however_cut(
                rt.alloc(),
                DIFFERS_LATER,
                &Wanted::Refused(FeedFault::FieldsDiffer),
                5
            ),
            Ok(true)
        )
    );
}

/// A row of one column, where a FIELD in an earlier piece has told two; and a BEGIN behind a BEGIN.
const A_COLUMN_TOO_FEW: &[u8] =
    b"\x1a\x0a\x18\x08\x0d\x32\x14\x0a\x01t\x12\x07\x0a\x02id\x10\x89\x02\x12\x06\x0a\x01v\x10\x95\x30\x04\x0a\x02\x08\x02\x13\x0a\x11\x08\x0c\x2a\x0d\x0a\x01t\x12\x08\x12\x06\x0a\x01\x02\x12\x01\x31";

const BEGUN_TWICE: &[u8] = b"\x04\x0a\x02\x08\x02\x04\x0a\x02\x08\x02";

#[test]
fn faults_inside_an_open_transaction(rt: HostRuntime) {
    assert!(rt;
        matches!(
            is_wanted_however_cut(
                rt.alloc(),
                A_COLUMN_TOO_FEW,
                &Wanted::Refused(FeedFault::ColumnCount),
                1
            ),
            Ok(true)
        )
    );
    assert!(rt;
        matches!(
            is_wanted_however_cut(
                rt.alloc(),
                BEGUN_TWICE,
                &Wanted::Refused(FeedFault::Misplaced),
                1
            ),
            Ok(true)
        )
    );
}

/// A length that is no varint, behind half of it: what is begun may still come, and the tenth byte can't.
const LENGTH_BROKEN: &[u8] = b"\x04\x0a\x02\x08\x03\xff\xff\xff\xff\xff\xff\xff\xff\xff\x02";

#[test]
fn broken_length(rt: HostRuntime) {
    assert!(rt;
        matches!(
            is_wanted_however_cut(
                rt.alloc(),
                LENGTH_BROKEN,
                &Wanted::Refused(FeedFault::Frame),
                1
            ),
            Ok(true)
        )
    );
    assert!(rt;
        matches!(
            is_wanted_however_cut(rt.alloc(), &LENGTH_BROKEN[..14], &Wanted::CutShort(5), 1),
            Ok(true)
        )
    );
}

/// After a refused piece the feed is as it was, and grows by another one.
fn grows_after_a_refusal(alloc: Global) -> Result<bool, FeedFault> {
    let plan = first_plan(alloc, EVERY_ROW)?;
    let (mut feed, mut end) = FeedEnd::begin(alloc, &plan)?;
    match end.grow(alloc, &mut feed, DIVERGED) {
        Err(FeedFault::Diverged(3)) => {}
        _ => return Ok(false),
    }
    let none = end.grow(alloc, &mut feed, b"")?;
    if none != 0 || !feed.is_empty() {
        return Ok(false);
    }
    let taken = end.grow(alloc, &mut feed, THREE_GROUPS)?;
    let whole = Feed::open(alloc, THREE_GROUPS, &plan)?;
    Ok(taken as usize == THREE_GROUPS.len() && are_same(alloc, &feed, &whole)?)
}

#[test]
fn feed_grows_after_a_refusal(rt: HostRuntime) {
    assert!(rt; matches!(grows_after_a_refusal(rt.alloc()), Ok(true)));
}
