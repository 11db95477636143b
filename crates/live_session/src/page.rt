//! Rows of a table, page by page.

ghost use Rattle.std.specs.Prelude.{◌≡◌, ◌+◌, ◌≤◌, false, [], IfOk, length, map, take};
ghost use Rattle.std.specs.Ordering.{is_lt};
ghost use Rattle.pk_copy.specs.KeyValue.{KeyValue};
ghost use Rattle.std.specs.Option.{option_copied};
ghost use Rattle.pk_copy.specs.KeyOrder.{key_cmp};
ghost use Rattle.target_tables.specs.Contents.{entry};
ghost use Rattle.target_tables.specs.Rising.{IsRising};
ghost use Rattle.live_session.specs.Pages.{first_of, key_at, page_of};

use apply_core::Board;
use pk_copy::{Key, LentKey};
use row_view::RowBuf;
use std::alloc::{AllocError, Global};
use target_tables::Scan;

/// Rows of a table by rising key, each with its stream, and the key of the one behind them, if there is one.
#[derive(Drop)]
pub(crate) struct Page<'b> {
    pub(crate) rows: Vec<(&'b Key, u8, &'b RowBuf)>,
    pub(crate) next: Option<&'b Key>,
}

/// The first rows of a table among entries. Stops at the first key of a later table.
fn first_rows<'b>(
    alloc: Global,
    mut entries: Scan<'b, Key, RowBuf>,
    t: u8,
    rows: usize,
) -> Result<Vec<(&'b Key, u8, &'b RowBuf)>, AllocError>
    requires { IsRising key_cmp entries }
    ensures { IfOk result (λ found. map entry found.items ≡ first_of entries.entry t rows) }
{
    let mut found = Vec::new(alloc);
    while found.len() < rows {
        let Some((key, stream, row)) = entries.next() else {
            return Ok(found);
        };
        if key.table() > t {
            return Ok(found);
        }
        if key.table() == t {
            found.push((key, stream, row))?;
        }
    }
    Ok(found)
}

/// A page of so many of these rows; behind it is at most one.
fn page_of_rows<'b>(rows: Vec<(&'b Key, u8, &'b RowBuf)>, most: usize) -> Page<'b>
    requires { length rows.items ≤ most + 1 }
    ensures { (map entry result.rows.items ≡ take most (map entry rows.entry.items)) × (option_copied result.next ≡ key_at (map entry rows.entry.items) most) }
{
    let mut rows = rows;
    if rows.len() <= most {
        return Page { rows, next: None };
    }
    match rows.pop() {
        Some((key, _, _)) => Page {
            rows,
            next: Some(key),
        },
        None => Page { rows, next: None },
    }
}

/// Up to `most` rows of the table of a key, from that key on. An error is want of memory.
pub(crate) fn page_from<'b>(
    alloc: Global,
    board: &'b Board<'_>,
    from: &Key,
    most: u32,
) -> Result<Page<'b>, AllocError>
    ensures { IfOk result (λ page. page_of board.entry.now.rows from.now most ≡ record { rows = map entry page.rows.items; next = option_copied page.next }) }
{
    let rows = first_rows(
        alloc,
        board.target().scan(from),
        from.table(),
        most as usize + 1,
    )?;
    Ok(page_of_rows(rows, most as usize))
}

/// The key from which all rows of a table come: it has no parts. An error is want of memory.
pub(crate) fn first_key(alloc: Global, table: u8) -> Result<Key, AllocError>
    ensures key { IfOk result (λ key. key ≡ record { table = table; parts = [] }) }
    // No key of the table is less.
    ensures least { IfOk result (λ first. (key : KeyValue) → key.table ≡ table → is_lt (key_cmp key first) ≡ false) }
{
    let first = LentKey::first_of(alloc, table);
    Key::from_lent(alloc, &first)
}
