//! Whether a group is the one that is asked for, and whether two are the same on their first tables.

use crate::feeds::groups::ONE_ROW;
use crate::feeds::opening::{EVERY_ROW, opened, prepared};
use crate::feeds::prepared::{BY_NUMBER, SECOND_TABLE, THREE_GROUPS};
use source_feed::FeedFault;
use std::alloc::Global;

/// `ONE_ROW` with another value in its row.
const OTHER_ROW: &[u8] =
    b"\x6c\x0a\x02\x08\x02\x0a\x18\x08\x0d\x32\x14\x0a\x01\x74\x12\x07\x0a\x02\x69\x64\x10\x89\x02\x12\x06\x0a\x01\x76\x10\x95\x30\x0a\x14\x08\x0c\x2a\x10\x0a\x01\x74\x12\x0b\x12\x09\x0a\x02\x02\x04\x12\x03\x31\x61\x63\x0a\x32\x08\x01\x1a\x2e\x4d\x79\x53\x51\x4c\x35\x36\x2f\x33\x65\x31\x31\x66\x61\x34\x37\x2d\x37\x31\x63\x61\x2d\x31\x31\x65\x31\x2d\x39\x65\x33\x33\x2d\x63\x38\x30\x61\x61\x39\x34\x32\x39\x35\x36\x32\x3a\x31\x0a\x02\x08\x03";

/// A group of one workflow's plan fits that plan and its own number alone.
fn fits_its_own(alloc: Global) -> Result<bool, FeedFault> {
    let one = prepared(alloc, EVERY_ROW, THREE_GROUPS, 2)?;
    let other = prepared(alloc, BY_NUMBER, THREE_GROUPS, 2)?;
    Ok(one.fits(one.plan(), 2) && !one.fits(one.plan(), 3) && !one.fits(other.plan(), 2))
}

#[test]
fn group_fits_its_plan_and_number(rt: HostRuntime) {
    assert!(rt; matches!(fits_its_own(rt.alloc()), Ok(true)));
}

/// A feed of three groups that is ended at a number: how many it has, and whether the second of them is there.
fn ended_at(alloc: Global, number: u32) -> Result<(usize, bool), FeedFault> {
    let mut feed = opened(alloc, EVERY_ROW, THREE_GROUPS)?;
    feed.end_at(number);
    Ok((feed.len(), feed.prepare(alloc, 2).is_ok()))
}

#[test]
fn feed_ends_at_a_group(rt: HostRuntime) {
    assert!(rt; matches!(ended_at(rt.alloc(), 0), Ok((0, false))));
    assert!(rt; matches!(ended_at(rt.alloc(), 1), Ok((1, false))));
    assert!(rt; matches!(ended_at(rt.alloc(), 2), Ok((2, true))));
    assert!(rt; matches!(ended_at(rt.alloc(), 4), Ok((3, true))));
}

/// Groups of two feeds under a plan of two tables, and whether they are the same on the first so many.
struct Compared {
    one: &'static [u8],
    other: &'static [u8],
    tables: u8,
    same: bool,
}

/// `t`, the table of these feeds, is the second one, so its touches count from two tables on.
const ON_TABLES: &[Compared] = &[
    Compared {
        one: ONE_ROW,
        other: OTHER_ROW,
        tables: 1,
        same: true,
    },
    Compared {
        one: ONE_ROW,
        other: OTHER_ROW,
        tables: 2,
        same: false,
    },
    Compared {
        one: ONE_ROW,
        other: ONE_ROW,
        tables: 2,
        same: true,
    },
    // more touches, which count where their table does
    Compared {
        one: THREE_GROUPS,
        other: ONE_ROW,
        tables: 0,
        same: true,
    },
    Compared {
        one: THREE_GROUPS,
        other: ONE_ROW,
        tables: 2,
        same: false,
    },
];

/// Each pair of first groups is the same or isn't, as wanted.
fn are_same_on(alloc: Global, pairs: &[Compared]) -> Result<bool, FeedFault> {
    for pair in pairs {
        let one = prepared(alloc, SECOND_TABLE, pair.one, 1)?;
        let other = prepared(alloc, SECOND_TABLE, pair.other, 1)?;
        if one.same_on(&other, pair.tables) != pair.same {
            return Ok(false);
        }
    }
    Ok(true)
}

#[test]
fn groups_are_same_on_their_first_tables(rt: HostRuntime) {
    assert!(rt; matches!(are_same_on(rt.alloc(), ON_TABLES), Ok(true)));
}
