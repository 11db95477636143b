//! Boards from checkpoints: what they show, and that their steps go on.

use crate::checkpoints::feeds::{
    FOUR_GROUPS, Feeds, LOWER, ONE, ONE_ROW, TWO, TWO_ROWS, UPPER, feeds_of, opened_under,
    plans_of, resumed,
};
use apply_core::{Answer, Board, Offered, run_schedule, save};
use filter_rule::Plan;
use row_view::Column;
use source_feed::Feed;
use std::alloc::{AllocError, Global};
use std::sync::Arc;
use std::test::*;
use stream_core::{Cursor, Phase, Step};

/// The columns of all rows of the target, a semicolon behind each row.
fn text_of(alloc: Global, board: &Board<'_>) -> Result<Vec<u8>, AllocError> {
    let rows = board.rows(alloc)?;
    let mut text = Vec::new(alloc);
    for (_, row) in rows.as_slice() {
        for column in row.columns() {
            if let Column::Bytes(bytes) = column {
                text.extend_from_slice(bytes)?;
            }
        }
        text.push(b';')?;
    }
    Ok(text)
}

/// Whether the target has just the rows of this text.
pub(crate) fn shows(alloc: Global, board: &Board<'_>, wanted: &[u8]) -> bool {
    match text_of(alloc, board) {
        Ok(text) => text.as_slice() == wanted,
        Err(_) => false,
    }
}

/// A stream's phase, how many groups it has read and applied, and how many tables it has copied.
type Stand = (Phase, u32, u8);

/// Whether a stream stands so, and no snapshot is open.
fn is_at(cursor: &Cursor, (phase, groups, done): Stand) -> bool {
    cursor.phase() == phase
        && cursor.read() == groups
        && cursor.applied() == groups
        && cursor.snapshot().is_none()
        && cursor.done() == done
}

/// Whether the first stream of a board stands so.
fn stands(board: &Board<'_>, wanted: Stand) -> bool {
    match board.state(0) {
        Ok(cursor) => is_at(&cursor, wanted),
        Err(_) => false,
    }
}

/// Whether a board is saved as these bytes.
fn is_saved_as(alloc: Global, board: &Board<'_>, wanted: &[u8]) -> bool {
    match save(alloc, board) {
        Ok(bytes) => bytes.as_slice() == wanted,
        Err(_) => false,
    }
}

/// A checkpoint of a workflow's board over these feeds, where its first stream stands, and its rows.
#[derive(Clone, Copy)]
struct Saved<'c> {
    workflow: &'c [u8],
    feeds: Feeds<'c>,
    bytes: &'c [u8],
    stand: Stand,
    rows: &'c [u8],
}

/// The board of a checkpoint.
fn board_of<'h>(
    alloc: Global,
    workflow: &[u8],
    feeds: Feeds<'h>,
    bytes: &[u8],
) -> Option<Board<'h>> {
    let plans = plans_of(alloc, workflow)?;
    let feeds = opened_under(alloc, &plans, feeds)?;
    match resumed(alloc, &plans, &feeds, bytes) {
        Some(Ok(board)) => Some(board),
        _ => None,
    }
}

/// Whether a checkpoint is one of a stream that stands so and has these rows, and is saved as the same bytes.
fn is_board(alloc: Global, saved: &Saved<'_>) -> bool {
    match board_of(alloc, saved.workflow, saved.feeds, saved.bytes) {
        Some(board) => {
            stands(&board, saved.stand)
                && shows(alloc, &board, saved.rows)
                && is_saved_as(alloc, &board, saved.bytes)
        }
        None => false,
    }
}

/// 108 bytes.
#[test]
fn one_row_is_resumed(rt: HostRuntime) {
    let saved = Saved {
        workflow: ONE,
        feeds: (ONE_ROW, &[]),
        bytes: b"VREPLCP2c\n\x03-80\x12\\\x08\x02\x12U\n\x07\n\x02id\x10\x89\x02\n\x06\n\x01v\x10\x950\x12\x07\n\x02id\x10\x89\x02\x1a.MySQL56/3e11fa47-71ca-11e1-9e33-c80aa9429562:1\"\x09\n\x02\x02\x04\x12\x031ab\x1a\x01t",
        stand: (Phase::Running, 1, 1),
        rows: b"1ab;",
    };
    assert!(rt; is_board(rt.alloc(), &saved));
}

/// One of two rows is copied; what was read ahead and the snapshot aren't kept.
#[test]
fn resume_within_a_table(rt: HostRuntime) {
    let saved = Saved {
        workflow: ONE,
        feeds: (TWO_ROWS, &[]),
        bytes: b"VREPLCP2j\n\x03-80\x12c\x08\x01\x12\\\n\x07\n\x02id\x10\x89\x02\n\x06\n\x01v\x10\x950\x12\x07\n\x02id\x10\x89\x02\x1a.MySQL56/3e11fa47-71ca-11e1-9e33-c80aa9429562:1\"\x08\n\x02\x02\x02\x12\x021a*\x06\n\x01\x02\x12\x011\x1a\x01t",
        stand: (Phase::CatchUp, 1, 0),
        rows: b"1a;",
    };
    assert!(rt; is_board(rt.alloc(), &saved));
}

#[test]
fn resume_before_the_first_group(rt: HostRuntime) {
    let saved = Saved {
        workflow: ONE,
        feeds: (ONE_ROW, &[]),
        bytes: b"VREPLCP20\n\x03-80\x12)\x12$\n\x07\n\x02id\x10\x89\x02\n\x06\n\x01v\x10\x950\x12\x07\n\x02id\x10\x89\x02\x1a\x08MySQL56/\x1a\x01t",
        stand: (Phase::CatchUp, 0, 0),
        rows: b"",
    };
    assert!(rt; is_board(rt.alloc(), &saved));
}

#[test]
fn two_streams_are_resumed(rt: HostRuntime) {
    let saved = Saved {
        workflow: TWO,
        feeds: (LOWER, UPPER),
        bytes: b"VREPLCP2b\n\x03-80\x12[\x08\x02\x12T\n\x07\n\x02id\x10\x89\x02\n\x06\n\x01v\x10\x950\x12\x07\n\x02id\x10\x89\x02\x1a.MySQL56/3e11fa47-71ca-11e1-9e33-c80aa9429562:1\"\x08\n\x02\x02\x02\x12\x021a\x1a\x01tb\n\x0380-\x12[\x08\x02\x12T\n\x07\n\x02id\x10\x89\x02\n\x06\n\x01v\x10\x950\x12\x07\n\x02id\x10\x89\x02\x1a.MySQL56/3e11fa47-71ca-11e1-9e33-c80aa9429563:1\"\x08\n\x02\x02\x02\x12\x022b\x1a\x01t",
        stand: (Phase::Running, 1, 1),
        rows: b"1a;2b;",
    };
    assert!(rt; is_board(rt.alloc(), &saved));
}

/// The steps up to the second group.
const STEPS: [(u8, Step); 6] = [
    (0, Step::OpenAt(0)),
    (0, Step::CopyRows(1)),
    (0, Step::Offer(1)),
    (0, Step::Advance),
    (0, Step::Offer(2)),
    (0, Step::Advance),
];

/// The board behind these steps under plans.
fn behind_two_groups<'h>(
    alloc: Global,
    plans: Vec<Arc<Plan>>,
    feeds: &[Feed<'h>],
) -> Option<Board<'h>> {
    if plans.is_empty() || plans.len() > 64 {
        return None;
    }
    match run_schedule(alloc, plans, feeds, &STEPS) {
        Ok((board, _)) => Some(board),
        Err(_) => None,
    }
}

/// The checkpoint of the board behind the first two of a feed's groups.
fn saved_behind_two_groups<'h>(alloc: Global, feeds: &[Feed<'h>]) -> Option<Vec<u8>> {
    let board = behind_two_groups(alloc, plans_of(alloc, ONE)?, feeds)?;
    match save(alloc, &board) {
        Ok(bytes) => Some(bytes),
        Err(_) => None,
    }
}

/// Whether a step of the first stream has this answer.
fn takes<'h>(
    alloc: Global,
    board: &mut Board<'h>,
    feeds: &[Feed<'h>],
    step: Step,
    wanted: Answer,
) -> bool {
    match board.take_step(alloc, feeds, 0, step) {
        Ok(answer) => answer == wanted,
        Err(_) => false,
    }
}

/// Whether a board stands behind two groups, and reads and applies the third.
fn takes_the_third<'h>(alloc: Global, board: &mut Board<'h>, feeds: &[Feed<'h>]) -> bool {
    stands(board, (Phase::Running, 2, 1))
        && takes(
            alloc,
            board,
            feeds,
            Step::Offer(3),
            Answer::Offered(Offered::Read(3)),
        )
        && takes(alloc, board, feeds, Step::Advance, Answer::Applied(3))
        && shows(alloc, board, b"1a;2b;3c;")
}

/// The checkpoint behind the first two of four groups.
const TWO_SAVED: &[u8] =
    b"VREPLCP2n\n\x03-80\x12g\x08\x02\x12`\n\x07\n\x02id\x10\x89\x02\n\x06\n\x01v\x10\x950\x12\x07\n\x02id\x10\x89\x02\x1a0MySQL56/3e11fa47-71ca-11e1-9e33-c80aa9429562:1-2\"\x08\n\x02\x02\x02\x12\x021a\"\x08\n\x02\x02\x02\x12\x022b\x1a\x01t";

/// Whether the board of a checkpoint goes on with the third group.
fn goes_on_from<'h>(alloc: Global, feeds: &[Feed<'h>], bytes: &[u8]) -> bool {
    match board_of(alloc, ONE, (FOUR_GROUPS, &[]), bytes) {
        Some(mut board) => takes_the_third(alloc, &mut board, feeds),
        None => false,
    }
}

/// Whether the board behind two groups is saved as these bytes, and the resumed board goes on with the third.
fn goes_on(alloc: Global) -> bool {
    let Some(feeds) = feeds_of(alloc, ONE, (FOUR_GROUPS, &[])) else {
        return false;
    };
    match saved_behind_two_groups(alloc, &feeds) {
        Some(bytes) => bytes.as_slice() == TWO_SAVED && goes_on_from(alloc, &feeds, &bytes),
        None => false,
    }
}

#[test]
fn a_resumed_board_goes_on(rt: HostRuntime) {
    assert!(rt; goes_on(rt.alloc()));
}
