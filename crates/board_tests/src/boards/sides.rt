//! Boards of one or two streams, each brought to where a table says.

use crate::boards::feeds::{Change, Source};
use crate::boards::setup::{TWO, board_of, feeds_of, made, take, take_all};
use crate::boards::shown::{shows, stands};
use apply_core::Board;
use source_feed::Feed;
use std::alloc::Global;
use stream_core::{Phase, Step};

/// A stream: its source, how many of its groups are read and applied, and whether its table is then copied.
#[derive(Clone, Copy)]
pub(crate) struct Stream<'c> {
    pub(crate) source: Source<'c>,
    pub(crate) read: u32,
    pub(crate) applied: u32,
    pub(crate) copies: bool,
}

/// A board of one or two streams, and the columns of its rows.
#[derive(Clone, Copy)]
pub(crate) struct Side<'c> {
    pub(crate) workflow: &'c [u8],
    pub(crate) streams: [Stream<'c>; 2],
    pub(crate) text: &'c [u8],
}

/// Six groups of one new row each.
const LOW_GROUPS: &[&[Change]] = &[
    &[(None, Some((1, b'a')))],
    &[(None, Some((2, b'b')))],
    &[(None, Some((3, b'c')))],
    &[(None, Some((4, b'd')))],
    &[(None, Some((5, b'e')))],
    &[(None, Some((6, b'f')))],
];

/// Six groups of one new row each, at other keys.
const HIGH_GROUPS: &[&[Change]] = &[
    &[(None, Some((11, b'k')))],
    &[(None, Some((12, b'l')))],
    &[(None, Some((13, b'm')))],
    &[(None, Some((14, b'n')))],
    &[(None, Some((15, b'o')))],
    &[(None, Some((16, b'p')))],
];

pub(crate) const LOW: Source<'static> = (b'2', LOW_GROUPS);

const HIGH: Source<'static> = (b'3', HIGH_GROUPS);

/// Groups that part from the six at the second.
pub(crate) const PARTED: Source<'static> = (
    b'2',
    &[&[(None, Some((1, b'a')))], &[(None, Some((2, b'z')))]],
);

/// Groups that come to the keys 2 and 3 of the first six in their second and third.
const MEETING: Source<'static> = (
    b'3',
    &[
        &[(None, Some((11, b'k')))],
        &[(None, Some((3, b'y')))],
        &[(None, Some((2, b'x')))],
    ],
);

/// A stream of a source, copied, of which so many groups are read and applied.
fn running(source: Source<'static>, read: u32, applied: u32) -> Stream<'static> {
    Stream {
        source,
        read,
        applied,
        copies: true,
    }
}

/// A board of two streams.
fn two(one: Stream<'static>, other: Stream<'static>, text: &'static [u8]) -> Side<'static> {
    Side {
        workflow: TWO,
        streams: [one, other],
        text,
    }
}

/// A board at (5, 2), which has read as much.
pub(crate) fn five_two() -> Side<'static> {
    two(
        running(LOW, 5, 5),
        running(HIGH, 2, 2),
        b"1a;2b;3c;4d;5e;11k;12l;",
    )
}

/// A board at (3, 4), which has read more.
pub(crate) fn three_four() -> Side<'static> {
    two(
        running(LOW, 6, 3),
        running(HIGH, 5, 4),
        b"1a;2b;3c;11k;12l;13m;14n;",
    )
}

/// Of each stream of these two the state that is further on.
pub(crate) fn five_four() -> Side<'static> {
    two(
        running(LOW, 5, 5),
        running(HIGH, 5, 4),
        b"1a;2b;3c;4d;5e;11k;12l;13m;14n;",
    )
}

/// A board that has applied as much as the second one or less.
pub(crate) fn behind() -> Side<'static> {
    two(
        running(LOW, 3, 3),
        running(HIGH, 5, 2),
        b"1a;2b;3c;11k;12l;",
    )
}

/// A board whose first stream has read another second group.
pub(crate) fn of_another_history() -> Side<'static> {
    two(
        running(PARTED, 2, 1),
        running(HIGH, 4, 4),
        b"1a;11k;12l;13m;14n;",
    )
}

/// A stream of the second source that isn't copied, of which so many groups are read and applied.
fn waiting(applied: u32) -> Stream<'static> {
    Stream {
        source: HIGH,
        read: applied,
        applied,
        copies: false,
    }
}

/// A board of which the second stream isn't copied, and so many of its groups are applied.
pub(crate) fn copying(source: Source<'static>, applied: u32) -> Side<'static> {
    two(running(source, 2, 1), waiting(applied), b"1a;")
}

/// The first stream at five groups, and the second at four, not copied.
pub(crate) fn copied_and_copying() -> Side<'static> {
    two(running(LOW, 5, 5), waiting(4), b"1a;2b;3c;4d;5e;")
}

/// A board whose first stream has the keys 2 and 3.
pub(crate) fn first_ahead() -> Side<'static> {
    two(running(LOW, 3, 3), running(MEETING, 1, 1), b"1a;2b;3c;11k;")
}

/// A board whose second stream has the keys 2 and 3.
pub(crate) fn second_ahead() -> Side<'static> {
    two(running(LOW, 1, 1), running(MEETING, 3, 3), b"1a;2x;3y;11k;")
}

/// A board of which nothing is read.
pub(crate) fn fresh(workflow: &[u8]) -> Side<'_> {
    let stream = Stream {
        source: LOW,
        read: 0,
        applied: 0,
        copies: true,
    };
    Side {
        workflow,
        streams: [stream, stream],
        text: b"",
    }
}

/// Copies a stream's table, and reads and applies its groups; false where a step is refused.
fn brings<'h>(
    alloc: Global,
    board: &mut Board<'h>,
    feeds: &[Feed<'h>],
    s: u8,
    stream: Stream<'_>,
) -> bool {
    let mut made = !stream.copies
        || take_all(
            alloc,
            board,
            feeds,
            &[(s, Step::OpenAt(0)), (s, Step::CopyRows(9))],
        );
    for number in 1..=stream.read {
        made &= take(alloc, board, feeds, s, Step::Offer(number)).is_ok();
    }
    for _ in 0..stream.applied {
        made &= take(alloc, board, feeds, s, Step::Advance).is_ok();
    }
    made
}

/// Brings each stream that a board has to where a side has it.
fn brings_all<'h>(
    alloc: Global,
    board: &mut Board<'h>,
    feeds: &[Feed<'h>],
    streams: &[Stream<'_>; 2],
) -> bool {
    brings(alloc, board, feeds, 0, streams[0])
        && (feeds.len() < 2 || brings(alloc, board, feeds, 1, streams[1]))
}

/// The bytes of the feeds of a side.
pub(crate) fn bytes_of(alloc: Global, side: &Side<'_>) -> Option<Vec<Vec<u8>>> {
    made(alloc, &[side.streams[0].source, side.streams[1].source])
}

/// The board of a side, over the bytes of its streams' feeds.
pub(crate) fn board_at<'h>(
    alloc: Global,
    side: &Side<'_>,
    bytes: &'h [Vec<u8>],
) -> Option<Board<'h>> {
    let feeds = feeds_of(alloc, side.workflow, bytes)?;
    let mut board = board_of(alloc, side.workflow)?;
    if brings_all(alloc, &mut board, &feeds, &side.streams) {
        Some(board)
    } else {
        None
    }
}

/// Whether a stream of a board stands so.
fn is_at(board: &Board<'_>, s: u8, stream: Stream<'_>) -> bool {
    let (phase, done) = if stream.copies {
        (Phase::Running, 1)
    } else {
        (Phase::CatchUp, 0)
    };
    stands(board, s, (phase, stream.read, stream.applied, None, done))
}

/// Whether a board is that of a side.
pub(crate) fn is_side(alloc: Global, board: &Board<'_>, side: &Side<'_>) -> bool {
    is_at(board, 0, side.streams[0])
        && (board.len() < 2 || is_at(board, 1, side.streams[1]))
        && shows(alloc, board, side.text)
}
