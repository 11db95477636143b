//! Boards joined whose streams copy: of each stream the state that is further on, by the groups applied, then
//! by the marks, then by the groups read, then by the snapshot.

use crate::boards::alike::are_alike;
use crate::boards::feeds::{Change, Source};
use crate::boards::setup::{ONE, TWO, board_of, feeds_of, made, take_all};
use crate::boards::shown::dumps;
use apply_core::{Board, join};
use source_feed::Feed;
use std::alloc::Global;
use std::test::*;
use stream_core::Step;

/// Steps of the streams of a board.
pub(crate) type Steps<'c> = &'c [(u8, Step)];

/// Two boards that are joined: the steps of each, and those of a board that is as their join. Behind further
/// steps these two are alike again, and this is their dump.
pub(crate) type Case<'c> = (Steps<'c>, Steps<'c>, Steps<'c>, Steps<'c>, &'c [u8]);

/// The board behind steps over feeds.
fn behind<'h>(
    alloc: Global,
    workflow: &[u8],
    feeds: &[Feed<'h>],
    steps: Steps<'_>,
) -> Option<Board<'h>> {
    let mut board = board_of(alloc, workflow)?;
    if take_all(alloc, &mut board, feeds, steps) {
        Some(board)
    } else {
        None
    }
}

/// The join of the boards behind steps.
fn join_behind<'h>(
    alloc: Global,
    workflow: &[u8],
    feeds: &[Feed<'h>],
    one: Steps<'_>,
    other: Steps<'_>,
) -> Option<Board<'h>> {
    let a = behind(alloc, workflow, feeds, one)?;
    let b = behind(alloc, workflow, feeds, other)?;
    match join(alloc, a, b) {
        Ok(board) => Some(board),
        Err(_) => None,
    }
}

/// Whether two boards are alike, also behind further steps, and this is then their dump.
fn go_on_alike<'h>(
    alloc: Global,
    feeds: &[Feed<'h>],
    board: &mut Board<'h>,
    wanted: &mut Board<'h>,
    case: &Case<'_>,
) -> bool {
    are_alike(alloc, board, wanted)
        && take_all(alloc, board, feeds, case.3)
        && take_all(alloc, wanted, feeds, case.3)
        && are_alike(alloc, board, wanted)
        && dumps(alloc, board, feeds, case.4)
}

/// Whether the boards behind steps are joined as is wanted.
fn joins<'h>(
    alloc: Global,
    workflow: &[u8],
    feeds: &[Feed<'h>],
    case: &Case<'_>,
    (one, other): (Steps<'_>, Steps<'_>),
) -> bool {
    let Some(mut board) = join_behind(alloc, workflow, feeds, one, other) else {
        return false;
    };
    match behind(alloc, workflow, feeds, case.2) {
        Some(mut wanted) => go_on_alike(alloc, feeds, &mut board, &mut wanted, case),
        None => false,
    }
}

/// Whether the boards of each case are joined as is wanted, either way round.
fn are_joined<'h>(alloc: Global, workflow: &[u8], feeds: &[Feed<'h>], cases: &[Case<'_>]) -> bool {
    for case in cases {
        if !joins(alloc, workflow, feeds, case, (case.0, case.1))
            || !joins(alloc, workflow, feeds, case, (case.1, case.0))
        {
            return false;
        }
    }
    true
}

/// The same over the feeds of these sources.
pub(crate) fn join_over(
    alloc: Global,
    workflow: &[u8],
    sources: &[Source<'_>],
    cases: &[Case<'_>],
) -> bool {
    let Some(bytes) = made(alloc, sources) else {
        return false;
    };
    match feeds_of(alloc, workflow, &bytes) {
        Some(feeds) => are_joined(alloc, workflow, &feeds, cases),
        None => false,
    }
}

/// Two groups of one new row each, of two sources.
const TWO_SHARDS: [Source<'static>; 2] = [
    (
        b'2',
        &[&[(None, Some((1, b'a')))], &[(None, Some((2, b'b')))]],
    ),
    (
        b'3',
        &[&[(None, Some((11, b'k')))], &[(None, Some((12, b'l')))]],
    ),
];

/// Three groups: three new rows; one changed and one new; one that goes.
pub(crate) const THREE_GROUPS: &[&[Change]] = &[
    &[
        (None, Some((1, b'a'))),
        (None, Some((2, b'b'))),
        (None, Some((3, b'c'))),
    ],
    &[(Some((1, b'a')), Some((1, b'x'))), (None, Some((4, b'd')))],
    &[(Some((2, b'b')), None)],
];

/// One stream's first group is read and applied, and its table copied.
const LOWER_COPIED: Steps<'static> = &[
    (0, Step::Offer(1)),
    (0, Step::Advance),
    (0, Step::OpenAt(1)),
    (0, Step::CopyRows(1)),
];

/// The same of the other stream.
const UPPER_COPIED: Steps<'static> = &[
    (1, Step::Offer(1)),
    (1, Step::Advance),
    (1, Step::OpenAt(1)),
    (1, Step::CopyRows(1)),
];

/// The same of both.
const BOTH_COPIED: Steps<'static> = &[
    (0, Step::Offer(1)),
    (0, Step::Advance),
    (0, Step::OpenAt(1)),
    (0, Step::CopyRows(1)),
    (1, Step::Offer(1)),
    (1, Step::Advance),
    (1, Step::OpenAt(1)),
    (1, Step::CopyRows(1)),
];

/// Each of two shards is copied on one of the boards.
#[test]
fn each_stream_of_one_board(rt: HostRuntime) {
    let cases: &[Case<'_>] = &[
        (
            LOWER_COPIED,
            UPPER_COPIED,
            BOTH_COPIED,
            &[],
            b"table t\nx31\tx61\nx3131\tx6b\n",
        ),
        (
            LOWER_COPIED,
            UPPER_COPIED,
            BOTH_COPIED,
            &[
                (1, Step::Offer(2)),
                (0, Step::Offer(2)),
                (1, Step::Advance),
                (0, Step::Advance),
            ],
            b"table t\nx31\tx61\nx32\tx62\nx3131\tx6b\nx3132\tx6c\n",
        ),
    ];
    assert!(rt; join_over(rt.alloc(), TWO, &TWO_SHARDS, cases));
}

/// Two of three rows are copied behind the first group.
const TWO_ROWS: Steps<'static> = &[
    (0, Step::Offer(1)),
    (0, Step::Advance),
    (0, Step::OpenAt(1)),
    (0, Step::CopyRows(2)),
];

/// One is.
const ONE_ROW: Steps<'static> = &[
    (0, Step::Offer(1)),
    (0, Step::Advance),
    (0, Step::OpenAt(1)),
    (0, Step::CopyRows(1)),
];

/// None is, and no snapshot is open.
const NO_ROW: Steps<'static> = &[(0, Step::Offer(1)), (0, Step::Advance)];

/// None is, and all three groups are read.
const NO_ROW_READ_AHEAD: Steps<'static> = &[
    (0, Step::Offer(1)),
    (0, Step::Offer(2)),
    (0, Step::Offer(3)),
    (0, Step::Advance),
];

/// Two groups are applied.
const TWO_APPLIED: Steps<'static> = &[
    (0, Step::Offer(1)),
    (0, Step::Offer(2)),
    (0, Step::Advance),
    (0, Step::Advance),
];

/// All rows are copied behind the first group.
const ALL_ROWS: Steps<'static> = &[
    (0, Step::Offer(1)),
    (0, Step::Advance),
    (0, Step::OpenAt(1)),
    (0, Step::CopyRows(3)),
];

/// The rows that are left are copied, and the second group is read and applied.
const TO_THE_SECOND: Steps<'static> = &[
    (0, Step::CopyRows(9)),
    (0, Step::Offer(2)),
    (0, Step::Advance),
];

/// What the second group leaves.
const BEHIND_TWO: &[u8] = b"table t\nx31\tx78\nx32\tx62\nx33\tx63\nx34\tx64\n";

/// What is applied counts first, then what is copied.
#[test]
fn applied_before_marks(rt: HostRuntime) {
    let cases: &[Case<'_>] = &[
        // The mark's key.
        (TWO_ROWS, ONE_ROW, TWO_ROWS, TO_THE_SECOND, BEHIND_TWO),
        // More groups are applied where nothing is copied.
        (TWO_ROWS, TWO_APPLIED, TWO_APPLIED, &[], b"table t\n"),
        (
            TWO_ROWS,
            TWO_APPLIED,
            TWO_APPLIED,
            &[(0, Step::OpenAt(2)), (0, Step::CopyRows(9))],
            BEHIND_TWO,
        ),
        // A mark before a table that waits, also where that one has read more.
        (ONE_ROW, NO_ROW, ONE_ROW, TO_THE_SECOND, BEHIND_TWO),
        (
            ONE_ROW,
            NO_ROW_READ_AHEAD,
            ONE_ROW,
            TO_THE_SECOND,
            BEHIND_TWO,
        ),
        // A table that is copied before one in part.
        (
            ALL_ROWS,
            TWO_ROWS,
            ALL_ROWS,
            &[(0, Step::Offer(2)), (0, Step::Advance)],
            BEHIND_TWO,
        ),
        // A board of which nothing is read.
        (ONE_ROW, &[], ONE_ROW, TO_THE_SECOND, BEHIND_TWO),
    ];
    assert!(rt; join_over(rt.alloc(), ONE, &[(b'2', THREE_GROUPS)], cases));
}

/// Nothing is applied or copied, and one group is read.
const ONE_READ: Steps<'static> = &[(0, Step::Offer(1))];

/// Two are.
const TWO_READ: Steps<'static> = &[(0, Step::Offer(1)), (0, Step::Offer(2))];

/// One is, and a snapshot is open at it.
const ONE_READ_OPEN: Steps<'static> = &[(0, Step::Offer(1)), (0, Step::OpenAt(1))];

/// Two are, and a snapshot is open before the first.
const OPEN_AT_NONE: Steps<'static> = &[
    (0, Step::Offer(1)),
    (0, Step::Offer(2)),
    (0, Step::OpenAt(0)),
];

/// At the first.
const OPEN_AT_ONE: Steps<'static> = &[
    (0, Step::Offer(1)),
    (0, Step::Offer(2)),
    (0, Step::OpenAt(1)),
];

/// At the second.
const OPEN_AT_TWO: Steps<'static> = &[
    (0, Step::Offer(1)),
    (0, Step::Offer(2)),
    (0, Step::OpenAt(2)),
];

/// From the snapshot at the first of two groups.
const COPY_AT_ONE: Steps<'static> = &[
    (0, Step::Advance),
    (0, Step::CopyRows(9)),
    (0, Step::Advance),
];

/// From that at the second.
const COPY_AT_TWO: Steps<'static> = &[
    (0, Step::Advance),
    (0, Step::Advance),
    (0, Step::CopyRows(9)),
];

/// Of as many groups applied and rows copied the longer list counts, then the later snapshot.
#[test]
fn lists_before_snapshots(rt: HostRuntime) {
    let cases: &[Case<'_>] = &[
        // The longer list.
        (ONE_READ, TWO_READ, TWO_READ, &[], b"table t\n"),
        // Also without a snapshot.
        (ONE_READ_OPEN, TWO_READ, TWO_READ, &[], b"table t\n"),
        // An open snapshot before none.
        (OPEN_AT_NONE, TWO_READ, OPEN_AT_NONE, &[], b"table t\n"),
        (OPEN_AT_ONE, TWO_READ, OPEN_AT_ONE, COPY_AT_ONE, BEHIND_TWO),
        // A later one before an earlier.
        (
            OPEN_AT_ONE,
            OPEN_AT_NONE,
            OPEN_AT_ONE,
            COPY_AT_ONE,
            BEHIND_TWO,
        ),
        (
            OPEN_AT_ONE,
            OPEN_AT_TWO,
            OPEN_AT_TWO,
            COPY_AT_TWO,
            BEHIND_TWO,
        ),
    ];
    assert!(rt; join_over(rt.alloc(), ONE, &[(b'2', THREE_GROUPS)], cases));
}

/// One stream over the tables `t`, which the feeds fill, and `u`.
const TWO_TABLES: &[u8] =
    br#"{"keyspace":"ks","tables":[{"name":"t","columns":[["id","INT64"],["v","VARCHAR"]],"key":["id"]},{"name":"u","columns":[["id","INT64"]],"key":["id"]}],"streams":[{"shard":"-80","filter":{"rules":[{"match":"/.*","filter":""}]}}]}"#;

/// The first of two tables is copied.
const ONE_OF_TWO: Steps<'static> = &[
    (0, Step::Offer(1)),
    (0, Step::Advance),
    (0, Step::OpenAt(1)),
    (0, Step::CopyRows(3)),
];

/// Both are.
const BOTH_OF_TWO: Steps<'static> = &[
    (0, Step::Offer(1)),
    (0, Step::Advance),
    (0, Step::OpenAt(1)),
    (0, Step::CopyRows(3)),
    (0, Step::OpenAt(1)),
    (0, Step::CopyRows(1)),
];

/// More tables that are copied are further on than fewer, whatever the next one's mark is.
#[test]
fn tables_before_keys(rt: HostRuntime) {
    let then: Steps<'_> = &[(0, Step::Offer(2)), (0, Step::Advance)];
    let wanted: &[u8] = b"table t\nx31\tx78\nx32\tx62\nx33\tx63\nx34\tx64\ntable u\n";
    let cases: &[Case<'_>] = &[
        (ONE_OF_TWO, TWO_ROWS, ONE_OF_TWO, then, wanted),
        (ONE_OF_TWO, NO_ROW_READ_AHEAD, ONE_OF_TWO, then, wanted),
        (ONE_OF_TWO, BOTH_OF_TWO, BOTH_OF_TWO, then, wanted),
        (BOTH_OF_TWO, TWO_ROWS, BOTH_OF_TWO, then, wanted),
    ];
    assert!(rt; join_over(rt.alloc(), TWO_TABLES, &[(b'2', THREE_GROUPS)], cases));
}
