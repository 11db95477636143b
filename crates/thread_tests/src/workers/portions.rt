//! How far a stream comes, in the portions of its policy, before it is refused, and which of its groups its gate is
//! told of.

ghost use Rattle.std.specs.Prelude.{◌≡◌};
ghost use Rattle.stream_worker.specs.SeatOf.{IsSeatOf};

use crate::feeds::{
    FOUR, FOURTH_KEY, LOWER, UNSOUND, UPPER, WORKFLOW, meeting, open_feeds, seventy,
};
use crate::workers::gates::Counting;
use crate::workers::seats::{ended, two_of};
use apply_core::Board;
use feed_readers::NothingReady;
use filter_rule::Plan;
use source_feed::Feed;
use std::alloc::{AllocError, Global};
use std::sync::Wait;
use std::test::*;
use stream_worker::{Policy, Seat, Shared, work};

/// Rows that are copied at a time, groups that are read before a snapshot is opened, and chunks that are copied out of
/// one.
type Portions = [u32; 3];

/// Where a stream stands when its worker has ended: the refusal's number, the groups that are read and applied, the
/// tables that are copied, the open snapshot, and what the gate was told, as `Counting` adds it up.
type End = (u8, u32, u32, u8, Option<u32>, u64);

/// Portions, and where the stream stands then; and how many rows of its own it has.
type Course = (Portions, End, usize);

/// Four groups of a row each, and a fifth that can't be prepared.
const BEFORE_AN_UNSOUND_GROUP: &[Course] = &[
    // a group at a time
    ([1, 1, 1], (90, 4, 4, 1, None, 4_010), 4),
    // two groups, and a row of them; two more, and another row
    ([1, 2, 1], (90, 4, 4, 0, None, 4_010), 2),
    // three groups, and a row of them; the fourth is read and not applied
    ([1, 3, 1], (90, 4, 3, 0, None, 4_010), 1),
    ([2, 3, 1], (90, 4, 3, 0, None, 4_010), 2),
    // four groups, and some chunks of rows
    ([1, 4, 1], (90, 4, 4, 0, None, 4_010), 1),
    ([1, 4, 2], (90, 4, 4, 0, None, 4_010), 2),
    ([1, 4, 3], (90, 4, 4, 0, None, 4_010), 3),
    ([3, 4, 1], (90, 4, 4, 0, None, 4_010), 3),
    ([1, 4, 4], (90, 4, 4, 1, None, 4_010), 4),
    ([4, 4, 1], (90, 4, 4, 1, None, 4_010), 4),
    // the fifth is asked for before a snapshot is opened
    ([1, 5, 1], (90, 4, 0, 0, None, 4_010), 0),
];

/// Four groups of a row each, the last of them at a key of the other stream: the chunk that it is in isn't copied, nor
/// is the group applied.
const BEFORE_A_FOREIGN_ROW: &[Course] = &[
    ([1, 4, 4], (71, 4, 4, 0, Some(4), 4_010), 3),
    ([2, 4, 4], (71, 4, 4, 0, Some(4), 4_010), 2),
    ([3, 4, 4], (71, 4, 4, 0, Some(4), 4_010), 3),
    ([4, 4, 4], (71, 4, 4, 0, Some(4), 4_010), 0),
    ([3, 4, 1], (71, 4, 4, 0, Some(4), 4_010), 3),
    // all is copied at the first group; the others are offered and applied in one turn, up to the last
    ([4, 1, 4], (71, 4, 3, 1, None, 4_010), 3),
];

/// Where a seat's stream stands when its worker has ended, with nothing ready.
fn worked_to<'h, R: Wait>(
    alloc: Global,
    rt: &R,
    shared: &Shared<'h>,
    seat: &mut Seat<'h>,
    feed: &Feed<'h>,
    portions: Portions,
) -> Option<End>
    requires { IsSeatOf shared.now seat.old }
    ensures { IsSeatOf shared.now seat.new × (seat.new.stream ≡ seat.old.stream) }
{
    let [rows, ahead, chunks] = portions;
    let policy = Policy::new(rows, ahead, chunks)?;
    let gate = Counting::new();
    let mut none = NothingReady::of(feed);
    let (receipts, refusal) = work(rt, alloc, shared, seat, feed, &policy, &gate, &mut none);
    let applied = seat.applied();
    if receipts.len() != applied as usize {
        return None;
    }
    let number = match refusal {
        Some(refusal) => refusal.number(),
        None => 0,
    };
    Some((
        number,
        seat.read(),
        applied,
        seat.done(),
        seat.snapshot(),
        gate.total(),
    ))
}

/// Whether a seat's stream comes to its feed's end.
fn comes_to_the_end<'h, R: Wait>(
    alloc: Global,
    rt: &R,
    shared: &Shared<'h>,
    seat: &mut Seat<'h>,
    feed: &Feed<'h>,
) -> bool
    requires { IsSeatOf shared.now seat.old }
    ensures { IsSeatOf shared.now seat.new × (seat.new.stream ≡ seat.old.stream) }
{
    match worked_to(alloc, rt, shared, seat, feed, [1; 3]) {
        Some((number, _, applied, ..)) => number == 0 && applied as usize == feed.len(),
        None => false,
    }
}

/// Where the first seat's stream stands when its worker has ended; the second one came to its feed's end before, or does
/// so behind it.
fn first_of<'h, R: Wait>(
    alloc: Global,
    rt: &R,
    shared: &Shared<'h>,
    one: &mut Seat<'h>,
    two: &mut Seat<'h>,
    feeds: &[Feed<'h>],
    before: bool,
    portions: Portions,
) -> Option<End>
    requires one { IsSeatOf shared.now one.old }
    requires two { IsSeatOf shared.now two.old }
    ensures one { IsSeatOf shared.now one.new × (one.new.stream ≡ one.old.stream) }
    ensures two { IsSeatOf shared.now two.new × (two.new.stream ≡ two.old.stream) }
{
    let [first, second] = feeds else {
        return None;
    };
    if before && !comes_to_the_end(alloc, rt, shared, two, second) {
        return None;
    }
    let end = worked_to(alloc, rt, shared, one, first, portions);
    if before || comes_to_the_end(alloc, rt, shared, two, second) {
        return end;
    }
    None
}

/// Where the first stream stands, and the board behind both.
fn left<'h, R: Wait>(
    alloc: Global,
    rt: &R,
    board: Board<'h>,
    feeds: &[Feed<'h>],
    before: bool,
    portions: Portions,
) -> Option<(End, Board<'h>)> {
    match Shared::open(rt, alloc, board) {
        Ok((shared, seats)) => {
            let (mut one, mut two) = two_of(&shared, seats)?;
            let end = first_of(
                alloc, rt, &shared, &mut one, &mut two, feeds, before, portions,
            )?;
            let board = ended(alloc, rt, shared, one, two)?;
            Some((end, board))
        }
        Err(_) => None,
    }
}

/// Where the first stream stands, and how many rows of its own it has, behind a run of both over these bytes.
fn end_of<'h, R: Wait>(
    alloc: Global,
    rt: &R,
    bytes: [&'h [u8]; 2],
    before: bool,
    portions: Portions,
) -> Option<(End, usize)> {
    let Ok(plans) = Plan::read_all(alloc, WORKFLOW) else {
        return None;
    };
    let feeds = open_feeds(alloc, &plans, &bytes)?;
    let others = feeds.get(1)?.len();
    if plans.len() != 2 {
        return None;
    }
    let board = Board::new(alloc, plans).ok()?;
    let (end, board) = left(alloc, rt, board, &feeds, before, portions)?;
    let rows = board.rows(alloc).ok()?;
    Some((end, rows.len().checked_sub(others)?))
}

/// Where the first stream stands when its worker has gone along the feed of the second, whose plan is another.
fn end_on_another_feed<'h, R: Wait>(alloc: Global, rt: &R, bytes: [&'h [u8]; 2]) -> Option<End> {
    let Ok(plans) = Plan::read_all(alloc, WORKFLOW) else {
        return None;
    };
    let feeds = open_feeds(alloc, &plans, &bytes)?;
    if plans.len() != 2 {
        return None;
    }
    let board = Board::new(alloc, plans).ok()?;
    match Shared::open(rt, alloc, board) {
        Ok((shared, seats)) => {
            let (mut one, _two) = two_of(&shared, seats)?;
            worked_to(alloc, rt, &shared, &mut one, feeds.get(1)?, [1; 3])
        }
        Err(_) => None,
    }
}

/// Whether the first stream ends so in all of these courses, before or behind the second.
fn end_so<'h, R: Wait>(
    alloc: Global,
    rt: &R,
    bytes: [&'h [u8]; 2],
    before: bool,
    courses: &[Course],
) -> bool {
    for (portions, end, rows) in courses {
        if end_of(alloc, rt, bytes, before, *portions) != Some((*end, *rows)) {
            return false;
        }
    }
    true
}

/// The feed of four groups, and behind them one that can't be prepared.
fn four_and_unsound(alloc: Global) -> Result<Vec<u8>, AllocError> {
    let mut bytes = Vec::from_slice(alloc, FOUR)?;
    bytes.extend_from_slice(UNSOUND)?;
    Ok(bytes)
}

/// The other stream comes to its feed's end behind the one that is refused.
#[test]
fn stream_is_refused_at_an_unsound_group(rt: HostRuntime) -> Result<(), Fail> {
    let bytes = four_and_unsound(rt.alloc())?;
    assert!(rt;
        end_so(
            rt.alloc(),
            &rt,
            [&bytes, UPPER],
            false,
            BEFORE_AN_UNSOUND_GROUP
        )
    );
    Ok(())
}

#[test]
fn chunk_is_refused_at_a_foreign_row(rt: HostRuntime) {
    assert!(rt;
        end_so(
            rt.alloc(),
            &rt,
            [FOUR, FOURTH_KEY],
            true,
            BEFORE_A_FOREIGN_ROW
        )
    );
}

/// The plans are compared before any group is: nothing is read, and the gate is told of nothing.
#[test]
fn worker_on_a_feed_of_another_plan_is_refused(rt: HostRuntime) {
    let end = end_on_another_feed(rt.alloc(), &rt, [LOWER, UPPER]);
    assert!(rt; end == Some((111, 0, 0, 0, None, 0)));
}

/// Seventy groups of a row each, one of them at a key of the other stream, and where the stream stands then, which has read
/// so many groups before it copies all their rows. Behind these the groups are offered and applied in turns of sixteen, up
/// to the one that is refused; the gate is told of all of its turn before.
const TURNS: &[(u8, u32, End)] = &[
    // turns from groups 2, 18, 34, 50 and 66 on
    (2, 1, (71, 2, 1, 1, None, 17_153)),
    (17, 1, (71, 17, 16, 1, None, 17_153)),
    (18, 1, (71, 18, 17, 1, None, 33_561)),
    (33, 1, (71, 33, 32, 1, None, 33_561)),
    (65, 1, (71, 65, 64, 1, None, 67_145)),
    // the last turn has the five that are left
    (66, 1, (71, 66, 65, 1, None, 72_485)),
    (70, 1, (71, 70, 69, 1, None, 72_485)),
    // turns from groups 61 and 51 on
    (61, 60, (71, 61, 60, 1, None, 72_485)),
    (56, 50, (71, 56, 55, 1, None, 68_211)),
];

/// Whether the stream ends so where the other one has the row of this group.
fn turn_ends_so<R: Wait>(
    alloc: Global,
    rt: &R,
    group: u8,
    ahead: u32,
    end: End,
) -> Result<bool, AllocError> {
    let (first, second) = (seventy(alloc, b'1')?, meeting(alloc, group)?);
    let rows = end.2 as usize;
    Ok(end_of(alloc, rt, [&first, &second], true, [100, ahead, 1]) == Some((end, rows)))
}

/// Whether it does in each of these cases.
fn turns_end_so<R: Wait>(alloc: Global, rt: &R) -> Result<bool, AllocError> {
    for (group, ahead, end) in TURNS {
        if !turn_ends_so(alloc, rt, *group, *ahead, *end)? {
            return Ok(false);
        }
    }
    Ok(true)
}

#[test]
fn turns_have_sixteen_groups(rt: HostRuntime) -> Result<(), Fail> {
    assert!(rt; turns_end_so(rt.alloc(), &rt)?);
    Ok(())
}
