//! A table copied in two chunks: at once, and as each is taken before it is put.

use crate::boards::alike::are_alike;
use crate::boards::feeds::Change;
use crate::boards::setup::{ONE, board_behind, made};
use crate::boards::shown::shows;
use apply_core::{Board, Copied};
use pk_copy::{Key, KeyPart, Mark};
use std::alloc::Global;
use std::test::*;
use stream_core::Step;

/// One group of three new rows.
const THREE_ROWS: &[&[Change]] = &[&[
    (None, Some((1, b'a'))),
    (None, Some((2, b'b'))),
    (None, Some((3, b'c'))),
]];

/// The group is applied, and a snapshot is open at it.
const OPEN: [(u8, Step); 3] = [
    (0, Step::Offer(1)),
    (0, Step::Advance),
    (0, Step::OpenAt(1)),
];

/// The first chunk of two rows.
const FIRST: Copied = Copied {
    rows: 2,
    done: false,
};

/// The second one.
const SECOND: Copied = Copied {
    rows: 1,
    done: true,
};

/// Whether a key is of this number.
fn has_number(key: &Key, number: i128) -> bool {
    matches!(key.view().parts(), [KeyPart::Number(own)] if *own == number)
}

/// Whether a table is copied up to this number.
fn is_up_to(mark: Mark<'_>, number: i128) -> bool {
    match mark {
        Mark::Upto(last) => has_number(last, number),
        _ => false,
    }
}

/// Whether the table of a board's stream is copied up to this number.
fn has_copied_up_to(board: &Board<'_>, number: i128) -> bool {
    match board.mark(0, 0) {
        Ok(mark) => is_up_to(mark, number),
        Err(_) => false,
    }
}

/// Whether up to two rows are copied so.
fn copies(alloc: Global, board: &mut Board<'_>, wanted: Copied) -> bool {
    matches!(board.copy_chunk(alloc, 0, 2), Ok(copied) if copied == wanted)
}

/// Whether the table is copied in two chunks, the first of two rows.
fn is_copied_in_two(alloc: Global, board: &mut Board<'_>) -> bool {
    copies(alloc, board, FIRST)
        && shows(alloc, board, b"1a;2b;")
        && has_copied_up_to(board, 2)
        && copies(alloc, board, SECOND)
        && shows(alloc, board, b"1a;2b;3c;")
        && matches!(board.mark(0, 0), Ok(Mark::Done))
}

/// Whether the first chunk is copied, and hands back the marks that are then.
fn tells_marks(alloc: Global, board: &mut Board<'_>) -> bool {
    let Ok((copied, marks, _)) = board.copy_with_marks(alloc, 0, 2) else {
        return false;
    };
    copied == FIRST && is_up_to(marks.mark(0), 2)
}

/// Whether the board is the same behind the first chunk with its marks as behind the chunk alone.
fn are_put_alike<'h>(alloc: Global, board: &mut Board<'h>, other: &mut Board<'h>) -> bool {
    tells_marks(alloc, board)
        && copies(alloc, other, FIRST)
        && are_alike(alloc, board, other)
        && is_copied_further(alloc, board)
}

/// Whether the second chunk is then copied.
fn is_copied_further(alloc: Global, board: &mut Board<'_>) -> bool {
    copies(alloc, board, SECOND) && shows(alloc, board, b"1a;2b;3c;")
}

/// Whether the table of three rows is copied in two chunks.
fn three_rows_are_copied(alloc: Global) -> bool {
    let Some(bytes) = made(alloc, &[(b'2', THREE_ROWS)]) else {
        return false;
    };
    match board_behind(alloc, ONE, &bytes, &OPEN) {
        Some(mut board) => is_copied_in_two(alloc, &mut board),
        None => false,
    }
}

/// Whether the first chunk is put as it was taken.
fn three_rows_are_put(alloc: Global) -> bool {
    let Some(bytes) = made(alloc, &[(b'2', THREE_ROWS)]) else {
        return false;
    };
    let Some(mut board) = board_behind(alloc, ONE, &bytes, &OPEN) else {
        return false;
    };
    match board_behind(alloc, ONE, &bytes, &OPEN) {
        Some(mut other) => are_put_alike(alloc, &mut board, &mut other),
        None => false,
    }
}

#[test]
fn first_chunk_of_two_rows(rt: HostRuntime) {
    assert!(rt; three_rows_are_copied(rt.alloc()));
}

#[test]
fn chunk_that_was_taken_before(rt: HostRuntime) {
    assert!(rt; three_rows_are_put(rt.alloc()));
}
