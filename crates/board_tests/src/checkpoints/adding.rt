//! Tables added to a board.

use crate::checkpoints::feeds::{ONE, ONE_ROW, TWO, opened_under, plans_of, resumed};
use crate::checkpoints::resumes::shows;
use apply_core::{AddRefusal, Board, add_tables, save};
use std::alloc::Global;
use std::test::*;
use stream_core::Phase;

/// `ONE` with a table `u` behind `t`, in all else like it.
const ADDED: &[u8] =
    br#"{"keyspace":"ks","tables":[{"name":"t","columns":[["id","INT64"],["v","VARCHAR"]],"key":["id"],"vindex":["id","numeric"]},{"name":"u","columns":[["id","INT64"],["v","VARCHAR"]],"key":["id"],"vindex":["id","numeric"]}],"streams":[{"shard":"-80","filter":{"rules":[{"match":"/.*","filter":""}]}}]}"#;

/// The same with `u` before `t`.
const PUT_FIRST: &[u8] =
    br#"{"keyspace":"ks","tables":[{"name":"u","columns":[["id","INT64"],["v","VARCHAR"]],"key":["id"],"vindex":["id","numeric"]},{"name":"t","columns":[["id","INT64"],["v","VARCHAR"]],"key":["id"],"vindex":["id","numeric"]}],"streams":[{"shard":"-80","filter":{"rules":[{"match":"/.*","filter":""}]}}]}"#;

/// `ONE_ROW` with (7, q) put in `u` too.
const TWO_TABLES: &[u8] =
    b"\x9b\x01\n\x02\x08\x02\n\x18\x08\x0d2\x14\n\x01t\x12\x07\n\x02id\x10\x89\x02\x12\x06\n\x01v\x10\x950\n\x14\x08\x0c*\x10\n\x01t\x12\x0b\x12\x09\n\x02\x02\x04\x12\x031ab\n\x18\x08\x0d2\x14\n\x01u\x12\x07\n\x02id\x10\x89\x02\x12\x06\n\x01v\x10\x950\n\x13\x08\x0c*\x0f\n\x01u\x12\n\x12\x08\n\x02\x02\x02\x12\x027q\n2\x08\x01\x1a.MySQL56/3e11fa47-71ca-11e1-9e33-c80aa9429562:1\n\x02\x08\x03";

/// (1, ac) in place of (1, ab).
const OTHER_ROW: &[u8] =
    b"l\n\x02\x08\x02\n\x18\x08\x0d2\x14\n\x01t\x12\x07\n\x02id\x10\x89\x02\x12\x06\n\x01v\x10\x950\n\x14\x08\x0c*\x10\n\x01t\x12\x0b\x12\x09\n\x02\x02\x04\x12\x031ac\n2\x08\x01\x1a.MySQL56/3e11fa47-71ca-11e1-9e33-c80aa9429562:1\n\x02\x08\x03";

/// A row of `u` whose number is the text `x`, so that it has no key.
const UNSOUND_ROW: &[u8] =
    b"\x9b\x01\n\x02\x08\x02\n\x18\x08\x0d2\x14\n\x01t\x12\x07\n\x02id\x10\x89\x02\x12\x06\n\x01v\x10\x950\n\x14\x08\x0c*\x10\n\x01t\x12\x0b\x12\x09\n\x02\x02\x04\x12\x031ab\n\x18\x08\x0d2\x14\n\x01u\x12\x07\n\x02id\x10\x89\x02\x12\x06\n\x01v\x10\x950\n\x13\x08\x0c*\x0f\n\x01u\x12\n\x12\x08\n\x02\x02\x02\x12\x02xq\n2\x08\x01\x1a.MySQL56/3e11fa47-71ca-11e1-9e33-c80aa9429562:1\n\x02\x08\x03";

/// The checkpoint of a board of `ONE` that has copied and applied the group of `ONE_ROW`.
const SAVED: &[u8] =
    b"VREPLCP2c\n\x03-80\x12\\\x08\x02\x12U\n\x07\n\x02id\x10\x89\x02\n\x06\n\x01v\x10\x950\x12\x07\n\x02id\x10\x89\x02\x1a.MySQL56/3e11fa47-71ca-11e1-9e33-c80aa9429562:1\"\x09\n\x02\x02\x04\x12\x031ab\x1a\x01t";

/// The board of that checkpoint.
fn board(alloc: Global) -> Option<Board<'static>> {
    let plans = plans_of(alloc, ONE)?;
    let feeds = opened_under(alloc, &plans, (ONE_ROW, &[]))?;
    match resumed(alloc, &plans, &feeds, SAVED) {
        Some(Ok(board)) => Some(board),
        _ => None,
    }
}

/// What adding the tables of a workflow to that board answers, over a feed that is opened under another one.
fn added(
    alloc: Global,
    workflow: &[u8],
    opened: &[u8],
    feed: &'static [u8],
) -> Option<Result<Board<'static>, AddRefusal<'static>>> {
    let board = board(alloc)?;
    let plans = plans_of(alloc, workflow)?;
    let others = plans_of(alloc, opened)?;
    let feeds = opened_under(alloc, &others, (feed, &[]))?;
    Some(add_tables(alloc, board, &plans, &feeds))
}

/// Whether the board's stream is in CatchUp behind its one group, with one of two tables copied.
fn catches_up(board: &Board<'_>) -> bool {
    match board.state(0) {
        Ok(cursor) => {
            cursor.phase() == Phase::CatchUp
                && cursor.applied() == 1
                && cursor.done() == 1
                && cursor.tables() == 2
        }
        Err(_) => false,
    }
}

/// The rows are the old ones, and the new table is to be copied.
#[test]
fn an_added_table_keeps_the_rows(rt: HostRuntime) {
    let alloc = rt.alloc();
    let kept = match added(alloc, ADDED, ADDED, TWO_TABLES) {
        Some(Ok(board)) => catches_up(&board) && shows(alloc, &board, b"1ab;"),
        Some(Err(_refusal)) => false,
        None => false,
    };
    assert!(rt; kept);
}

/// Whether a board is saved as the checkpoint.
fn is_as_before(alloc: Global, board: &Board<'_>) -> bool {
    match save(alloc, board) {
        Ok(bytes) => bytes.as_slice() == SAVED,
        Err(_) => false,
    }
}

/// Whether tables of a workflow aren't added for this cause, and the board is handed back as it was.
fn is_refused(
    alloc: Global,
    workflow: &[u8],
    opened: &[u8],
    feed: &'static [u8],
    number: u8,
) -> bool {
    match added(alloc, workflow, opened, feed) {
        Some(Err(refusal)) => {
            refusal.why.number() == number && is_as_before(alloc, &refusal.board)
        }
        _ => false,
    }
}

/// 119, 122 and 111: another number of feeds, of plans, a table put first, none added, and a feed under another plan.
#[test]
fn plans_that_are_not_taken(rt: HostRuntime) {
    let alloc = rt.alloc();
    let cases: &[(&[u8], &[u8], u8)] = &[
        (TWO, ONE, 119),
        (TWO, TWO, 122),
        (PUT_FIRST, PUT_FIRST, 122),
        (ONE, ONE, 122),
        (ADDED, PUT_FIRST, 111),
    ];
    for (workflow, opened, number) in cases {
        assert!(rt; is_refused(alloc, workflow, opened, TWO_TABLES, *number));
    }
}

/// 113 and 90: no group, another row of the old table, and a row of the new one that has no key.
#[test]
fn feeds_that_do_not_go_on(rt: HostRuntime) {
    let alloc = rt.alloc();
    let cases: &[(&'static [u8], u8)] = &[(b"", 113), (OTHER_ROW, 113), (UNSOUND_ROW, 90)];
    for (feed, number) in cases {
        assert!(rt; is_refused(alloc, ADDED, ADDED, feed, *number));
    }
}
