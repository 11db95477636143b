//! Whether groups are shown as a text.

ghost use Rattle.std.specs.Prelude.{◌≡◌, ◌≤◌, ◌++◌, ◌∷◌, [], codes, decimal, length, string_bytes, IfOk, OnOk};
ghost use Rattle.hex.specs.Hex.{encode_lower};
ghost use Rattle.row_view.specs.ColumnValue.{column_value};
ghost use Rattle.gtid_set.specs.Printed.{printed_position};
ghost use Rattle.dump.specs.Cells.{cell, cells};
ghost use Rattle.feed_text.specs.Shown.{shown_row_line, shown_row_lines, change_text, changes_text, group_line, group_text, shown};
ghost use Rattle.feed_text.specs.declared.saying.Unlike.TheVariants.{Memory};

use gtid_set::GtidSet;
use row_view::{Column, Columns, RowBytes};
use source_feed::{Change, Group, GroupChanges, Groups};
use std::alloc::{AllocError, Global};

/// Why groups aren't shown as a text.
#[derive(Clone, Copy)]
pub(crate) enum Unlike {
    /// A growth was refused.
    Memory,
    /// They differ from the text where so many of its bytes are left.
    Left(usize),
}

impl From<AllocError> for Unlike {
    ghost from_gives = { λ _ error. error ≡ Memory };

    fn from(_error: AllocError) -> Unlike {
        Unlike::Memory
    }
}

/// How many bytes at the beginning of two texts are the same.
pub(crate) fn shared(text: &[u8], other: &[u8]) -> usize
    ensures { result ≤ length text.now }
{
    let most = text.len().min(other.len());
    for i in 0..most {
        if text[i] != other[i] {
            return i;
        }
    }
    most
}

/// What stands behind a piece in front.
fn behind<'t>(text: &'t [u8], piece: &[u8]) -> Result<&'t [u8], Unlike>
    ensures { IfOk result (λ rest. text.now ≡ piece.now ++ rest.now) }
{
    match text.strip_prefix(piece) {
        Some(rest) => Ok(rest),
        None => Err(Unlike::Left(text.len() - shared(text, piece))),
    }
}

/// What stands behind the hexadecimal digits of bytes.
fn behind_hex<'t>(alloc: Global, text: &'t [u8], bytes: &[u8]) -> Result<&'t [u8], Unlike>
    ensures { IfOk result (λ rest. text.now ≡ encode_lower bytes.now ++ rest.now) }
{
    let digits = hex::encode(alloc, bytes)?;
    let rest = behind(text, digits.as_bytes())?;
    Ok(rest)
}

/// What stands behind a cell.
fn behind_cell<'t>(alloc: Global, text: &'t [u8], column: &Column<'_>) -> Result<&'t [u8], Unlike>
    ensures { IfOk result (λ rest. text.now ≡ cell (column_value column.now) ++ rest.now) }
{
    match column {
        Column::Null => behind(text, b"N"),
        Column::Bytes(value) => {
            let digits = behind(text, b"x")?;
            let rest = behind_hex(alloc, digits, value)?;
            Ok(rest)
        }
    }
}

/// What stands behind a tab and a cell.
fn behind_tab_and_cell<'t>(
    alloc: Global,
    text: &'t [u8],
    column: &Column<'_>,
) -> Result<&'t [u8], Unlike>
    ensures { IfOk result (λ rest. text.now ≡ (9 ∷ cell (column_value column.now)) ++ rest.now) }
{
    let cell = behind(text, b"\t")?;
    let rest = behind_cell(alloc, cell, column)?;
    Ok(rest)
}

/// What stands behind the cells of a row.
fn behind_cells<'t>(alloc: Global, text: &'t [u8], columns: Columns<'_>) -> Result<&'t [u8], Unlike>
    ensures { IfOk result (λ rest. text.now ≡ cells columns.entry ++ rest.now) }
{
    let mut rest = text;
    for column in columns {
        rest = behind_tab_and_cell(alloc, rest, &column)?;
    }
    Ok(rest)
}

/// What stands behind the line of a row.
fn behind_row<'t>(
    alloc: Global,
    text: &'t [u8],
    mark: &str,
    table: &str,
    columns: Columns<'_>,
) -> Result<&'t [u8], Unlike>
    ensures { IfOk result (λ rest. text.now ≡ shown_row_line mark.now table.now columns.entry ++ rest.now) }
{
    let name = behind(text, mark.as_bytes())?;
    let cells = behind(name, table.as_bytes())?;
    let end = behind_cells(alloc, cells, columns)?;
    let rest = behind(end, b"\n")?;
    Ok(rest)
}

/// What stands behind the line of a row, if there is one.
fn behind_row_if<'t>(
    alloc: Global,
    text: &'t [u8],
    mark: &str,
    table: &str,
    row: Option<RowBytes<'_>>,
) -> Result<&'t [u8], Unlike>
    ensures { IfOk result (λ rest. text.now ≡ shown_row_lines mark.now table.now row.entry ++ rest.now) }
{
    match row {
        None => Ok(text),
        Some(row) => behind_row(alloc, text, mark, table, row.columns()),
    }
}

/// What stands behind the lines of a change.
fn behind_change<'t>(
    alloc: Global,
    text: &'t [u8],
    change: &Change<'_, '_>,
) -> Result<&'t [u8], Unlike>
    ensures { IfOk result (λ rest. text.now ≡ change_text change.now ++ rest.now) }
{
    let table = change.table();
    let after = behind_row_if(alloc, text, "- ", table, change.before_bytes())?;
    let rest = behind_row_if(alloc, after, "+ ", table, change.after_bytes())?;
    Ok(rest)
}

/// What stands behind the lines of changes.
fn behind_changes<'t>(
    alloc: Global,
    text: &'t [u8],
    changes: GroupChanges<'_, '_>,
) -> Result<&'t [u8], Unlike>
    ensures { IfOk result (λ rest. text.now ≡ changes_text changes.entry ++ rest.now) }
{
    let mut rest = text;
    for change in changes {
        rest = behind_change(alloc, rest, &change)?;
    }
    Ok(rest)
}

/// What stands behind a number.
fn behind_number(text: &[u8], number: u64) -> Result<&[u8], Unlike>
    ensures { IfOk result (λ rest. text.now ≡ decimal number ++ rest.now) }
{
    let mut digits = itoa::Buffer::new();
    let rest = behind(text, digits.format(number).as_bytes())?;
    Ok(rest)
}

/// The printed text of a position.
pub(crate) fn text_of(alloc: Global, position: &GtidSet) -> Result<String, AllocError>
    ensures { IfOk result (λ text. string_bytes text ≡ printed_position position.now) }
{
    let text = format!(in alloc; "{position}")?;
    Ok(text)
}

/// What stands behind a position.
fn behind_position<'t>(
    alloc: Global,
    text: &'t [u8],
    position: &GtidSet,
) -> Result<&'t [u8], Unlike>
    ensures { IfOk result (λ rest. text.now ≡ printed_position position.now ++ rest.now) }
{
    let printed = text_of(alloc, position)?;
    let rest = behind(text, printed.as_bytes())?;
    Ok(rest)
}

/// What stands behind the first line of a group.
fn behind_group_line<'t>(
    alloc: Global,
    text: &'t [u8],
    group: &Group<'_, '_>,
) -> Result<&'t [u8], Unlike>
    ensures { IfOk result (λ rest. text.now ≡ group_line group.now ++ rest.now) }
{
    let number = behind(text, b"group ")?;
    let blank = behind_number(number, u64::from(group.number()))?;
    let position = behind(blank, b" ")?;
    let end = behind_position(alloc, position, group.position())?;
    let rest = behind(end, b"\n")?;
    Ok(rest)
}

/// What stands behind a group.
fn behind_group<'t>(
    alloc: Global,
    text: &'t [u8],
    group: &Group<'_, '_>,
) -> Result<&'t [u8], Unlike>
    ensures { IfOk result (λ rest. text.now ≡ group_text group.now ++ rest.now) }
{
    let changes = behind_group_line(alloc, text, group)?;
    let rest = behind_changes(alloc, changes, group.changes())?;
    Ok(rest)
}

/// What stands behind groups.
fn behind_groups<'t>(alloc: Global, text: &'t [u8], groups: &Groups<'_>) -> Result<&'t [u8], Unlike>
    ensures { IfOk result (λ rest. text.now ≡ shown groups.now.items ++ rest.now) }
{
    let mut rest = text;
    for group in groups.iter() {
        rest = behind_group(alloc, rest, &group)?;
    }
    Ok(rest)
}

/// That groups are shown as a text.
pub(crate) fn are_shown_as(alloc: Global, groups: &Groups<'_>, text: &[u8]) -> Result<(), Unlike>
    ensures { OnOk result (shown groups.now.items ≡ text.now) }
{
    let rest = behind_groups(alloc, text, groups)?;
    if !rest.is_empty() {
        return Err(Unlike::Left(rest.len()));
    }
    Ok(())
}
