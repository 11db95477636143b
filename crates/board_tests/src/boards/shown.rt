//! What a board shows: where a stream stands, and its rows.

ghost use Rattle.std.specs.Prelude.{Some};

use apply_core::Board;
use dump::{DumpRows, write_dump, write_target_dump};
use printing::{Out, OutFailed};
use row_view::Column;
use source_feed::Feed;
use std::alloc::{AllocError, Global};
use stream_core::{Cursor, Phase};

/// A stream's phase, how many groups are read and applied, the open snapshot and how many tables are done.
pub(crate) type Stand = (Phase, u32, u32, Option<u32>, u8);

/// Whether these numbers are a stream's.
fn is_at(cursor: &Cursor, wanted: Stand) -> bool {
    cursor.phase() == wanted.0
        && cursor.read() == wanted.1
        && cursor.applied() == wanted.2
        && cursor.snapshot() == wanted.3
        && cursor.done() == wanted.4
}

/// Whether a stream stands so.
pub(crate) fn stands(board: &Board<'_>, s: u8, wanted: Stand) -> bool {
    match board.state(s) {
        Ok(cursor) => is_at(&cursor, wanted),
        Err(_) => false,
    }
}

/// The columns of rows, a semicolon behind each row.
fn text_of(alloc: Global, rows: &DumpRows) -> Result<Vec<u8>, AllocError> {
    let mut text = Vec::new(alloc);
    for (_, row) in rows.as_slice() {
        for column in row.columns() {
            if let Column::Bytes(bytes) = column {
                text.extend_from_slice(bytes)?;
            }
        }
        text.push(b';')?;
    }
    Ok(text)
}

/// Whether these are the columns of rows.
pub(crate) fn is_text_of(alloc: Global, rows: &DumpRows, wanted: &[u8]) -> bool {
    match text_of(alloc, rows) {
        Ok(text) => text.as_slice() == wanted,
        Err(_) => false,
    }
}

/// Whether these are the columns of all rows of the target.
pub(crate) fn shows(alloc: Global, board: &Board<'_>, wanted: &[u8]) -> bool {
    match board.rows(alloc) {
        Ok(rows) => is_text_of(alloc, &rows, wanted),
        Err(_) => false,
    }
}

/// Whether these are the columns of a stream's rows.
pub(crate) fn shows_of(alloc: Global, board: &Board<'_>, s: u8, wanted: &[u8]) -> bool {
    match board.rows_of(alloc, s) {
        Ok(rows) => is_text_of(alloc, &rows, wanted),
        Err(_) => false,
    }
}

/// A writer that keeps all bytes, where there is memory for them.
#[derive(Drop)]
struct Page {
    bytes: Vec<u8>,
    failures: u64,
}

impl Out for Page {
    ghost written = { λ w. record { bytes = Some w.bytes.items; failures = w.failures } };

    fn write(&mut self, piece: &[u8]) -> Result<usize, OutFailed> {
        if self.bytes.extend_from_slice(piece).is_err() {
            self.failures = self.failures.wrapping_add(1);
            return Err(OutFailed);
        }
        Ok(piece.len())
    }
}

/// Whether this is the dump of rows under the plan of the first of these feeds.
fn is_dump_of(alloc: Global, rows: &DumpRows, feeds: &[Feed<'_>], wanted: &[u8]) -> bool {
    let Some(feed) = feeds.first() else {
        return false;
    };
    let mut page = Page {
        bytes: Vec::new(alloc),
        failures: 0,
    };
    match write_dump(&mut page, feed.plan(), rows) {
        Ok(()) => page.bytes.as_slice() == wanted,
        Err(_) => false,
    }
}

/// Whether this is the dump of the rows as they lie in the board, under the plan of the first of these feeds.
fn writes(alloc: Global, board: &Board<'_>, feeds: &[Feed<'_>], wanted: &[u8]) -> bool {
    let Some(feed) = feeds.first() else {
        return false;
    };
    let mut page = Page {
        bytes: Vec::new(alloc),
        failures: 0,
    };
    match write_target_dump(&mut page, feed.plan(), board.target()) {
        Ok(()) => page.bytes.as_slice() == wanted,
        Err(_) => false,
    }
}

/// Whether this is the dump of the target under the plan of the first of these feeds, written of the rows as they lie
/// there and of their copies.
pub(crate) fn dumps(alloc: Global, board: &Board<'_>, feeds: &[Feed<'_>], wanted: &[u8]) -> bool {
    if !writes(alloc, board, feeds, wanted) {
        return false;
    }
    match board.rows(alloc) {
        Ok(rows) => is_dump_of(alloc, &rows, feeds, wanted),
        Err(_) => false,
    }
}
