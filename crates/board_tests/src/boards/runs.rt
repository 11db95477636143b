//! Runs of all streams to their feeds' ends, one after another.

use crate::boards::feeds::{Change, NO_NUMBER, Source};
use crate::boards::setup::{ONE, OTHER_TABLE, TWO, feeds_of, made, plans_of};
use crate::boards::shown::{Stand, shows, stands};
use apply_core::{Board, Policy, RunRefusal, run_alone};
use source_feed::Feed;
use std::alloc::Global;
use std::test::*;
use stream_core::Phase;

/// Three groups: two new rows; one changed and one new; one that goes.
const ROWS: &[&[Change]] = &[
    &[(None, Some((1, b'a'))), (None, Some((4, b'd')))],
    &[(Some((1, b'a')), Some((1, b'b'))), (None, Some((2, b'c')))],
    &[(Some((4, b'd')), None)],
];

/// Two groups of one new row each.
const OTHERS: &[&[Change]] = &[&[(None, Some((11, b'k')))], &[(None, Some((12, b'l')))]];

/// A group of a row that the first feed has too.
const FOREIGN: &[&[Change]] = &[&[(None, Some((1, b'z')))]];

/// A sound group, and one whose row's key is no number.
const UNSOUND: &[&[Change]] = &[
    &[(None, Some((11, b'k')))],
    &[(None, Some((NO_NUMBER, b'l')))],
];

/// How many rows, groups and chunks are taken at once.
type Portions = (u32, u32, u32);

/// The board behind a run of a workflow's plans over feeds.
fn run_over<'h>(
    alloc: Global,
    workflow: &[u8],
    feeds: &[Feed<'h>],
    portions: Portions,
) -> Option<Result<Board<'h>, RunRefusal>> {
    let policy = Policy::new(portions.0, portions.1, portions.2)?;
    let plans = plans_of(alloc, workflow)?;
    if plans.is_empty() || plans.len() > 64 {
        return None;
    }
    Some(run_alone(alloc, plans, feeds, &policy))
}

/// Whether a run of two streams by these portions ends with both Running at their feeds' ends, and with the rows.
fn ends_by(alloc: Global, feeds: &[Feed<'_>], portions: Portions) -> bool {
    match run_over(alloc, TWO, feeds, portions) {
        Some(Ok(board)) => {
            stands(&board, 0, (Phase::Running, 3, 3, None, 1))
                && stands(&board, 1, (Phase::Running, 2, 2, None, 1))
                && shows(alloc, &board, b"1b;2c;11k;12l;")
        }
        _ => false,
    }
}

/// The same by each of these portions.
fn ends_by_all(alloc: Global, bytes: &[Vec<u8>], all: &[Portions]) -> bool {
    let Some(feeds) = feeds_of(alloc, TWO, bytes) else {
        return false;
    };
    for portions in all {
        if !ends_by(alloc, &feeds, *portions) {
            return false;
        }
    }
    true
}

/// From the least to the greatest.
const POLICIES: [Portions; 5] = [
    (1, 1, 1),
    (1, 2, 2),
    (2, 1, 1),
    (1000, 100, 4),
    (1_000_000, 1_000_000, 1_000_000),
];

/// The same of the two sources' feeds.
fn ends_by_any_policy(alloc: Global) -> bool {
    match made(alloc, &[(b'2', ROWS), (b'3', OTHERS)]) {
        Some(bytes) => ends_by_all(alloc, &bytes, &POLICIES),
        None => false,
    }
}

#[test]
fn run_alone_has_the_same_rows_by_any_policy(rt: HostRuntime) {
    assert!(rt; ends_by_any_policy(rt.alloc()));
}

/// Whether a run of one stream over a feed ends so, without a row.
fn ends_without_rows(alloc: Global, bytes: &[Vec<u8>], stand: Stand) -> bool {
    let Some(feeds) = feeds_of(alloc, ONE, bytes) else {
        return false;
    };
    match run_over(alloc, ONE, &feeds, (1, 1, 1)) {
        Some(Ok(board)) => stands(&board, 0, stand) && shows(alloc, &board, b""),
        _ => false,
    }
}

/// Whether a run of one stream over an empty feed ends at once.
fn ends_at_once(alloc: Global) -> bool {
    match made(alloc, &[(b'2', &[])]) {
        Some(bytes) => ends_without_rows(alloc, &bytes, (Phase::Running, 0, 0, None, 1)),
        None => false,
    }
}

#[test]
fn run_alone_over_an_empty_feed(rt: HostRuntime) {
    assert!(rt; ends_at_once(rt.alloc()));
}

/// A run that is refused: the workflow of its plans and the one that its feeds are opened under, its second
/// source's groups, and the refusal's number with the owner of the row in the way, if one is.
type Refused<'c> = (&'c [u8], &'c [u8], &'c [&'c [Change]], u8, u8);

/// A row in the way, an unsound group, a feed too few and a feed of another plan.
const REFUSED: [Refused<'static>; 4] = [
    (TWO, TWO, FOREIGN, 71, 0),
    (TWO, TWO, UNSOUND, 90, 0),
    (TWO, ONE, OTHERS, 119, 0),
    (OTHER_TABLE, ONE, OTHERS, 111, 0),
];

/// Whether a run over these bytes is refused so.
fn is_refused(alloc: Global, bytes: &[Vec<u8>], run: Refused<'_>) -> bool {
    let Some(feeds) = feeds_of(alloc, run.1, bytes) else {
        return false;
    };
    match run_over(alloc, run.0, &feeds, (1000, 100, 4)) {
        Some(Err(RunRefusal::OwnedByOther { owner, .. })) => run.3 == 71 && owner == run.4,
        Some(Err(refusal)) => refusal.number() == run.3,
        _ => false,
    }
}

/// Whether each run is refused so.
fn are_refused(alloc: Global, runs: &[Refused<'_>]) -> bool {
    for run in runs {
        let sources: [Source<'_>; 2] = [(b'2', ROWS), (b'3', run.2)];
        let Some(bytes) = made(alloc, &sources) else {
            return false;
        };
        if !is_refused(alloc, &bytes, *run) {
            return false;
        }
    }
    true
}

#[test]
fn run_alone_is_refused(rt: HostRuntime) {
    assert!(rt; are_refused(rt.alloc(), &REFUSED));
}

/// A row at a key that the other source comes to and leaves again.
const STANDING: &[&[Change]] = &[&[(None, Some((5, b'a')))]];

/// Three groups: four new rows, the last at this key; one more; and that row goes.
const PASSING: &[&[Change]] = &[
    &[
        (None, Some((1, b'x'))),
        (None, Some((2, b'y'))),
        (None, Some((3, b'z'))),
        (None, Some((5, b'q'))),
    ],
    &[(None, Some((11, b'k')))],
    &[(Some((5, b'q')), None)],
];

/// Portions, and whether the row in the way is met: where a snapshot that still has it is copied so far.
const MET: [(Portions, bool); 12] = [
    // A row at each group: the fourth is left for the third snapshot, which doesn't have it.
    ((1, 1, 1), false),
    // Two at the first and the second group.
    ((2, 1, 1), true),
    ((1, 1, 2), true),
    // From the second group two or three rows, and the rest from the third; or four.
    ((2, 2, 1), false),
    ((3, 2, 1), false),
    ((4, 2, 1), true),
    ((1, 2, 3), false),
    ((1, 2, 4), true),
    ((2, 2, 2), true),
    // All from one snapshot: at the first, the second and the third group.
    ((1000, 1, 4), true),
    ((1000, 2, 4), true),
    ((1000, 3, 4), false),
];

/// Whether a run of both streams by these portions meets the row in the way, or ends with all rows.
fn meets(alloc: Global, feeds: &[Feed<'_>], portions: Portions, met: bool) -> bool {
    match run_over(alloc, TWO, feeds, portions) {
        Some(Ok(board)) => !met && shows(alloc, &board, b"1x;2y;3z;5a;11k;"),
        Some(Err(refusal)) => met && refusal.number() == 71,
        None => false,
    }
}

/// The same by each of these portions.
fn all_meet(alloc: Global, bytes: &[Vec<u8>], all: &[(Portions, bool)]) -> bool {
    let Some(feeds) = feeds_of(alloc, TWO, bytes) else {
        return false;
    };
    for (portions, met) in all {
        if !meets(alloc, &feeds, *portions, *met) {
            return false;
        }
    }
    true
}

/// The same of these two sources' feeds.
fn portions_are_followed(alloc: Global) -> bool {
    match made(alloc, &[(b'2', STANDING), (b'3', PASSING)]) {
        Some(bytes) => all_meet(alloc, &bytes, &MET),
        None => false,
    }
}

/// Each portion of a policy is followed: it says which groups' snapshots are copied, and how far.
#[test]
fn run_alone_follows_its_portions(rt: HostRuntime) {
    assert!(rt; portions_are_followed(rt.alloc()));
}

#[test]
fn portions_of_a_policy_are_from_one(rt: HostRuntime) {
    assert!(rt;
        Policy::new(1, 1, 1).is_some()
            && Policy::new(0, 1, 1).is_none()
            && Policy::new(1, 0, 1).is_none()
            && Policy::new(1, 1, 0).is_none()
    );
}
