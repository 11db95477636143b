//! What a board hands back and refuses, call by call.

use crate::boards::feeds::{Change, Source};
use crate::boards::setup::{
    BY_VALUE, ONE, OTHER_TABLE, TWO, board_behind, board_of, feeds_of, group_of, made, plans_of,
};
use crate::boards::shown::{Stand, shows, shows_of, stands};
use apply_core::{Board, Refusal};
use gtid_set::GtidSet;
use pk_copy::{Key, Mark};
use row_view::Column;
use source_feed::Prepared;
use std::alloc::Global;
use std::sync::Arc;
use std::test::*;
use stream_core::{Phase, Step};

/// Four groups of one new row each.
const FOUR: &[&[Change]] = &[
    &[(None, Some((1, b'a')))],
    &[(None, Some((2, b'b')))],
    &[(None, Some((3, b'c')))],
    &[(None, Some((4, b'd')))],
];

/// Two groups, of which the first one is another.
const ANOTHER: &[&[Change]] = &[&[(None, Some((1, b'z')))], &[(None, Some((2, b'b')))]];

/// What can go to another thread.
fn is_send<T: Send>(_: &T) {}

/// Whether a board of two streams can go to another thread.
fn two_streams_can_go(alloc: Global) -> bool {
    let Some(board) = board_of(alloc, TWO) else {
        return false;
    };
    is_send(&board);
    board.len() == 2
}

#[test]
fn board_can_go_to_another_thread(rt: HostRuntime) {
    assert!(rt; two_streams_can_go(rt.alloc()));
}

// ---- what a board hands back

/// Whether a board's first stream is at the position of its first group, which is copied, and has read two.
fn shows_its_stream(alloc: Global, board: &Board<'_>) -> bool {
    let Ok(wanted) = GtidSet::parse(alloc, "3e11fa47-71ca-11e1-9e33-c80aa9429562:1") else {
        return false;
    };
    matches!(board.position(0), Ok(Some(position)) if *position == wanted)
        && matches!(board.mark(0, 0), Ok(Mark::Done))
        && matches!(board.read_list(0), Ok(list) if list.len() == 2)
}

/// Whether a board, and a copy of it, shows its one stream and its row.
fn shows_all(alloc: Global, board: &Board<'_>) -> bool {
    stands(board, 0, (Phase::Running, 2, 1, None, 1))
        && shows_its_stream(alloc, board)
        && shows(alloc, board, b"1a;")
}

/// Whether a board and its copy show the same, also behind a further step of one of them.
fn copy_stands_by_itself(alloc: Global, board: &mut Board<'_>) -> bool {
    let Ok(copy) = board.try_clone(alloc) else {
        return false;
    };
    shows_all(alloc, board)
        && shows_all(alloc, &copy)
        && board.advance(alloc, 0).is_ok()
        && shows(alloc, board, b"1a;2b;")
        && shows_all(alloc, &copy)
}

/// Whether a stream of which nothing is read shows neither a position nor a copied table.
fn shows_nothing_at_first(alloc: Global) -> bool {
    let Some(board) = board_of(alloc, ONE) else {
        return false;
    };
    matches!(board.position(0), Ok(None)) && matches!(board.mark(0, 0), Ok(Mark::Waiting))
}

/// Whether a board of which the first of two groups is applied and copied shows this, and its copy too.
fn shows_its_position(alloc: Global) -> bool {
    let Some(bytes) = made(alloc, &[(b'2', FOUR)]) else {
        return false;
    };
    let steps = [
        (0, Step::Offer(1)),
        (0, Step::Offer(2)),
        (0, Step::Advance),
        (0, Step::OpenAt(1)),
        (0, Step::CopyRows(2)),
    ];
    match board_behind(alloc, ONE, &bytes, &steps) {
        Some(mut board) => copy_stands_by_itself(alloc, &mut board),
        None => false,
    }
}

#[test]
fn position_of_the_applied_group(rt: HostRuntime) {
    assert!(rt; shows_nothing_at_first(rt.alloc()) && shows_its_position(rt.alloc()));
}

/// Whether a key has a row of the first stream whose `id` is 1.
fn is_owned(board: &Board<'_>, key: &Key) -> bool {
    match board.row(key) {
        Some((owner, row)) => owner == 0 && row.columns().next() == Some(Column::Bytes(b"1")),
        None => false,
    }
}

/// Whether the second stream's next group is refused for the first one's row of key 1, and the second stream
/// has no rows.
fn meets_the_least_key(alloc: Global, board: &mut Board<'_>) -> bool {
    let Err(Refusal::OwnedByOther { key, owner }) = board.advance(alloc, 1) else {
        return false;
    };
    owner == 0
        && is_owned(board, &key)
        && shows_of(alloc, board, 0, b"1a;2b;")
        && shows_of(alloc, board, 1, b"")
}

/// Two sources that both come to the keys 1 and 2, not in their order.
const MEETING: [Source<'static>; 2] = [
    (b'2', &[&[(None, Some((2, b'b'))), (None, Some((1, b'a')))]]),
    (
        b'3',
        &[&[
            (None, Some((0, b'x'))),
            (None, Some((2, b'y'))),
            (None, Some((1, b'z'))),
        ]],
    ),
];

/// The same of the two streams of these sources, both of which are Running.
fn streams_do_meet(alloc: Global) -> bool {
    let Some(bytes) = made(alloc, &MEETING) else {
        return false;
    };
    let steps = [
        (0, Step::OpenAt(0)),
        (0, Step::CopyRows(1)),
        (1, Step::OpenAt(0)),
        (1, Step::CopyRows(1)),
        (0, Step::Offer(1)),
        (0, Step::Advance),
        (1, Step::Offer(1)),
    ];
    match board_behind(alloc, TWO, &bytes, &steps) {
        Some(mut board) => meets_the_least_key(alloc, &mut board),
        None => false,
    }
}

#[test]
fn streams_meet_in_a_key(rt: HostRuntime) {
    assert!(rt; streams_do_meet(rt.alloc()));
}

// ---- copies

/// Steps on a board of one stream, where it then stands, and its rows.
type Copied<'c> = (&'c [(u8, Step)], Stand, &'c [u8]);

/// With an open snapshot before what is read last, and within a table.
const COPIED: [Copied<'static>; 2] = [
    (
        &[
            (0, Step::Offer(1)),
            (0, Step::Offer(2)),
            (0, Step::Advance),
            (0, Step::OpenAt(2)),
        ],
        (Phase::FastForward, 2, 1, Some(2), 0),
        b"",
    ),
    (
        &[
            (0, Step::Offer(1)),
            (0, Step::Offer(2)),
            (0, Step::Advance),
            (0, Step::Advance),
            (0, Step::OpenAt(2)),
            (0, Step::CopyRows(1)),
        ],
        (Phase::Copy, 2, 2, Some(2), 0),
        b"1a;",
    ),
];

/// Whether a board and a copy of it show this.
fn copy_shows(alloc: Global, board: &Board<'_>, wanted: &Copied<'_>) -> bool {
    let Ok(copy) = board.try_clone(alloc) else {
        return false;
    };
    stands(board, 0, wanted.1)
        && stands(&copy, 0, wanted.1)
        && shows(alloc, board, wanted.2)
        && shows(alloc, &copy, wanted.2)
}

/// Whether each board, and its copy, shows what is wanted.
fn copies_show(alloc: Global, bytes: &[Vec<u8>], all: &[Copied<'_>]) -> bool {
    for wanted in all {
        match board_behind(alloc, ONE, bytes, wanted.0) {
            Some(board) if copy_shows(alloc, &board, wanted) => {}
            _ => return false,
        }
    }
    true
}

/// The same over the feed of four groups.
fn four_groups_show(alloc: Global, all: &[Copied<'_>]) -> bool {
    match made(alloc, &[(b'2', FOUR)]) {
        Some(bytes) => copies_show(alloc, &bytes, all),
        None => false,
    }
}

#[test]
fn copy_of_a_board_that_copies(rt: HostRuntime) {
    assert!(rt; four_groups_show(rt.alloc(), &COPIED));
}

// ---- refusals

/// The number of a refusal; 0 where there is none.
fn refused<T: Drop>(answer: Result<T, Refusal>) -> u8 {
    match answer {
        Ok(_) => 0,
        Err(refusal) => refusal.number(),
    }
}

/// An offer of a group to a stream that has read the first of four groups: the workflow that the group's feed
/// is opened under, its source, the group's number, and the number that the offer is refused with.
type Offer<'c> = (&'c [u8], Source<'c>, u32, u8);

/// Another group at a number that was read, one that doesn't go on from the last position, one of another
/// filter, and one that goes on.
const OFFERS: [Offer<'static>; 4] = [
    (ONE, (b'2', ANOTHER), 1, 112),
    (ONE, (b'3', ANOTHER), 2, 112),
    (BY_VALUE, (b'2', FOUR), 2, 111),
    (ONE, (b'2', ANOTHER), 2, 0),
];

/// The group of a number in the first of these feeds.
fn first_group<'h>(
    alloc: Global,
    workflow: &[u8],
    bytes: &'h [Vec<u8>],
    number: u32,
) -> Option<Arc<Prepared<'h>>> {
    let feeds = feeds_of(alloc, workflow, bytes)?;
    group_of(alloc, feeds.first()?, number)
}

/// Whether a board that has read the first of four groups refuses a group with this number.
fn refuses_group<'h>(
    alloc: Global,
    board: &mut Board<'h>,
    group: Arc<Prepared<'h>>,
    wanted: u8,
) -> bool {
    refused(board.offer(alloc, 0, group)) == wanted
}

/// Whether a group of the second of two feeds is so refused behind the first group of the first one.
fn is_refused_behind(alloc: Global, bytes: &[Vec<u8>], offer: Offer<'_>) -> bool {
    let Some(other) = bytes.get(1..) else {
        return false;
    };
    let Some(group) = first_group(alloc, offer.0, other, offer.2) else {
        return false;
    };
    match board_behind(alloc, ONE, bytes, &[(0, Step::Offer(1))]) {
        Some(mut board) => refuses_group(alloc, &mut board, group, offer.3),
        None => false,
    }
}

/// Whether each offer is refused so.
fn are_refused(alloc: Global, offers: &[Offer<'_>]) -> bool {
    for offer in offers {
        let Some(bytes) = made(alloc, &[(b'2', FOUR), offer.1]) else {
            return false;
        };
        if !is_refused_behind(alloc, &bytes, *offer) {
            return false;
        }
    }
    true
}

#[test]
fn offers_of_another_history(rt: HostRuntime) {
    assert!(rt; are_refused(rt.alloc(), &OFFERS));
}

/// Whether every step on a stream that isn't there is refused so.
fn refuses_steps(alloc: Global, board: &mut Board<'_>) -> bool {
    refused(board.advance(alloc, 1)) == 115
        && refused(board.open_snapshot(alloc, 1, 0)) == 115
        && refused(board.copy_chunk(alloc, 1, 0)) == 115
        && refused(board.close_snapshot(1)) == 115
        && refused(board.restart(1)) == 115
}

/// Whether every question about a stream that isn't there is refused so.
fn refuses_questions(alloc: Global, board: &Board<'_>) -> bool {
    refused(board.state(1)) == 115
        && refused(board.position(1)) == 115
        && refused(board.mark(1, 0)) == 115
        && refused(board.rows_of(alloc, 1)) == 115
        && refused(board.read_list(1)) == 115
}

/// Whether a board of one stream refuses both.
fn refuses_other_streams(alloc: Global) -> bool {
    match board_of(alloc, ONE) {
        Some(mut board) => refuses_steps(alloc, &mut board) && refuses_questions(alloc, &board),
        None => false,
    }
}

#[test]
fn no_such_stream(rt: HostRuntime) {
    assert!(rt; refuses_other_streams(rt.alloc()));
}

/// Whether plans over different tables make no board.
fn refuses_other_tables(alloc: Global) -> bool {
    let (Some(mut plans), Some(others)) = (plans_of(alloc, ONE), plans_of(alloc, OTHER_TABLE))
    else {
        return false;
    };
    for plan in others {
        if plans.push(plan).is_err() {
            return false;
        }
    }
    if plans.is_empty() || plans.len() > 64 {
        return false;
    }
    refused(Board::new(alloc, plans)) == 111
}

#[test]
fn plans_over_other_tables(rt: HostRuntime) {
    assert!(rt; refuses_other_tables(rt.alloc()));
}
