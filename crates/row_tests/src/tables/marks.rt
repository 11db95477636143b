//! Marks of three tables, of which the second is copied up to a key.

use crate::tables::rows::key;
use filter_rule::Plan;
use pk_copy::*;
use std::alloc::{AllocError, Global};
use std::cmp::Ordering;
use std::sync::Arc;
use std::test::Fail;

const WORKFLOW: &str =
    "{\"keyspace\":\"ks\",\"tables\":[{\"name\":\"a\",\"columns\":[[\"id\",\"INT64\"]],\"key\":[\"id\"]},{\"name\":\"b\",\"columns\":[[\"id\",\"INT64\"]],\"key\":[\"id\"]},{\"name\":\"c\",\"columns\":[[\"id\",\"INT64\"]],\"key\":[\"id\"]}],\"streams\":[{\"shard\":\"-80\",\"filter\":{\"rules\":[{\"match\":\"/.*\",\"filter\":\"\"}]}}]}";

/// The number of a mark's kind.
fn kind(mark: Mark<'_>) -> u8 {
    match mark {
        Mark::Waiting => 0,
        Mark::Upto(_) => 1,
        Mark::Done => 2,
    }
}

/// Whether so many of three tables are done, and the marks are of these kinds.
fn are_kinds(marks: &CopyState, done: u8, kinds: [u8; 3]) -> bool {
    marks.tables() == 3
        && marks.done() == done
        && !marks.finished()
        && kind(marks.mark(0)) == kinds[0]
        && kind(marks.mark(1)) == kinds[1]
        && kind(marks.mark(2)) == kinds[2]
}

/// Whether the marks say so of the key of a row: whether it is copied, and whether it can be next.
fn says(
    marks: &CopyState,
    plans: &[Arc<Plan>],
    row: (u8, &[u8]),
    inside: bool,
    past: bool,
) -> bool {
    let Some(Ok(view)) = key(plans, row.0, row.1) else {
        return false;
    };
    marks.inside(&view) == inside && marks.past(&view) == past
}

/// The table that is copied is copied up to the key of a row, if that can be next.
fn move_to(
    alloc: Global,
    marks: &mut CopyState,
    plans: &[Arc<Plan>],
    row: (u8, &[u8]),
) -> Result<(), AllocError> {
    match key(plans, row.0, row.1) {
        Some(Ok(view)) if marks.past(&view) => marks.move_to(Key::from_view(alloc, &view)?),
        _ => {}
    }
    Ok(())
}

/// The table that is copied is done, if there is one.
fn finish(marks: &mut CopyState) {
    if marks.done() < marks.tables() {
        marks.finish_table();
    }
}

const FIVE: &[u8] = b"\x08\x02\x12\x015";

const NINE: &[u8] = b"\x08\x02\x12\x019";

const TEN: &[u8] = b"\x08\x04\x12\x0210";

/// The first table is copied up to 5, whatever was copied before.
fn first_is_copied(alloc: Global, plans: &[Arc<Plan>]) -> Result<bool, AllocError> {
    let mut marks = CopyState::new(3);
    let fresh = are_kinds(&marks, 0, [0, 0, 0]) && says(&marks, plans, (0, FIVE), false, true);
    move_to(alloc, &mut marks, plans, (0, FIVE))?;
    Ok(fresh && are_kinds(&marks, 0, [1, 0, 0]) && says(&marks, plans, (0, FIVE), true, false))
}

/// A copy of the marks of three tables, of which the first is done and the second copied up to 9.
fn second_is_copied(alloc: Global, plans: &[Arc<Plan>]) -> Result<CopyState, AllocError> {
    let mut marks = CopyState::new(3);
    finish(&mut marks);
    move_to(alloc, &mut marks, plans, (1, NINE))?;
    marks.try_clone(alloc)
}

#[test]
fn marks_before_and_behind(rt: HostRuntime) -> Result<(), Fail> {
    let plans = Plan::read_all(rt.alloc(), WORKFLOW.as_bytes())?;
    assert!(rt; first_is_copied(rt.alloc(), &plans)?);
    let marks = second_is_copied(rt.alloc(), &plans)?;
    assert!(rt;
        are_kinds(&marks, 1, [2, 1, 0])
            && says(&marks, &plans, (0, TEN), true, false)
            && says(&marks, &plans, (1, FIVE), true, false)
            && says(&marks, &plans, (1, NINE), true, false)
            && says(&marks, &plans, (1, TEN), false, true)
            && says(&marks, &plans, (2, FIVE), false, false)
            && says(&marks, &plans, (2, TEN), false, false)
    );
    Ok(())
}

#[test]
fn all_tables_done(rt: HostRuntime) {
    let mut marks = CopyState::new(1);
    let begun = marks.finished();
    finish(&mut marks);
    assert!(rt; !begun && marks.finished() && marks.tables() == 1 && kind(marks.mark(0)) == 2);
}

/// How far three tables are copied, in rising order: a number of its place, how many tables are done, and the
/// row up to whose key the next one is copied.
const PHASES: &[(u8, u8, Option<&[u8]>)] = &[
    (0, 0, None),
    (1, 0, Some(FIVE)),
    (2, 0, Some(TEN)),
    (3, 1, None),
    (4, 1, Some(FIVE)),
    (5, 1, Some(NINE)),
    (6, 2, None),
    (7, 2, Some(FIVE)),
    (8, 3, None),
];

/// The marks of three tables that are copied so far.
fn copied(
    alloc: Global,
    plans: &[Arc<Plan>],
    done: u8,
    upto: Option<&[u8]>,
) -> Result<CopyState, AllocError> {
    let mut marks = CopyState::new(3);
    for _ in 0..done {
        finish(&mut marks);
    }
    if let Some(row) = upto {
        move_to(alloc, &mut marks, plans, (done, row))?;
    }
    Ok(marks)
}

/// Whether one's marks are so far on beside the other's, and the other's beside them the other way round.
fn is_so_far(one: &CopyState, other: &CopyState, wanted: Ordering) -> bool {
    one.tables() == other.tables()
        && one.further(other) == wanted
        && other.further(one) == wanted.reverse()
}

/// Whether marks at a place among all stand above those before, and below those behind.
fn stands_at(
    alloc: Global,
    plans: &[Arc<Plan>],
    marks: &CopyState,
    place: u8,
) -> Result<bool, AllocError> {
    for (other, done, upto) in PHASES {
        let beside = copied(alloc, plans, *done, *upto)?;
        if !is_so_far(marks, &beside, place.cmp(other)) {
            return Ok(false);
        }
    }
    Ok(true)
}

/// Whether all marks stand in their order.
fn are_in_order(alloc: Global, plans: &[Arc<Plan>]) -> Result<bool, AllocError> {
    for (place, done, upto) in PHASES {
        let marks = copied(alloc, plans, *done, *upto)?;
        if !stands_at(alloc, plans, &marks, *place)? {
            return Ok(false);
        }
    }
    Ok(true)
}

#[test]
fn marks_further_on(rt: HostRuntime) -> Result<(), Fail> {
    let plans = Plan::read_all(rt.alloc(), WORKFLOW.as_bytes())?;
    assert!(rt; are_in_order(rt.alloc(), &plans)?);
    Ok(())
}
