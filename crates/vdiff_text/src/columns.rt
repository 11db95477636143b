//! The lines of columns.

ghost use Rattle.std.specs.Prelude.{◌≡◌, ◌≤◌, ◌⊎◌, [], ◌++◌, OnOk, length, option_copied};
ghost use Rattle.std.specs.Option.{option_map_or};
ghost use Rattle.row_view.specs.ColumnValue.{column_value};
ghost use Rattle.vdiff.specs.Report.{column_eq};
ghost use Rattle.vdiff_text.specs.ShownDifferences.{both_line, both_lines, column_front, line_if_other, one_line, one_lines, row_column};

use crate::values::push_cell;
use filter_rule::{ColumnDef, Table};
use row_view::{Column, RowView};
use shown_text::printable;
use std::alloc::{AllocError, Global};

/// Adds the lines of the columns that differ in two rows of a table. An error is want of memory.
pub(crate) fn push_both_lines(
    alloc: Global,
    text: &mut Vec<u8>,
    table: &Table,
    row: &RowView<'_>,
    there: &RowView<'_>,
) -> Result<(), AllocError>
    ensures { OnOk result (text.new.items ≡ text.old.items ++ both_lines table.now 0 row.now there.now) }
{
    for i in 0..shorter(row, there) {
        let column = row_column(table, i);
        push_line_if_other(alloc, text, column, &row.column(i), &there.column(i))?;
    }
    Ok(())
}

/// As many places as both rows have.
fn shorter(row: &RowView<'_>, there: &RowView<'_>) -> usize
    ensures row { result ≤ length row.now }
    ensures there { result ≤ length there.now }
    ensures either { (result ≡ length row.now) ⊎ (result ≡ length there.now) }
{
    let count = row.len();
    let other = there.len();
    if count < other { count } else { other }
}

/// Adds the lines of all columns of a row of a table. An error is want of memory.
pub(crate) fn push_one_lines(
    alloc: Global,
    text: &mut Vec<u8>,
    table: &Table,
    row: &RowView<'_>,
) -> Result<(), AllocError>
    ensures { OnOk result (text.new.items ≡ text.old.items ++ one_lines table.now 0 row.now) }
{
    for i in 0..row.len() {
        push_one_line(alloc, text, row_column(table, i), &row.column(i))?;
    }
    Ok(())
}

/// Adds the line of a column where its values differ.
fn push_line_if_other(
    alloc: Global,
    text: &mut Vec<u8>,
    column: Option<&ColumnDef>,
    value: &Column<'_>,
    other: &Column<'_>,
) -> Result<(), AllocError>
    ensures { OnOk result (text.new.items ≡ text.old.items ++ line_if_other (option_copied column.entry) (column_value value.now) (column_value other.now)) }
{
    if is_same(value, other) {
        return Ok(());
    }
    push_both_line(alloc, text, column, value, other)
}

/// Adds the line of a column whose values differ.
fn push_both_line(
    alloc: Global,
    text: &mut Vec<u8>,
    column: Option<&ColumnDef>,
    value: &Column<'_>,
    other: &Column<'_>,
) -> Result<(), AllocError>
    ensures { OnOk result (text.new.items ≡ text.old.items ++ both_line (option_copied column.entry) (column_value value.now) (column_value other.now)) }
{
    push_front(alloc, text, column)?;
    push_cell(alloc, text, value)?;
    text.extend_from_slice(b" | ")?;
    push_cell(alloc, text, other)?;
    text.extend_from_slice(b"\n")?;
    Ok(())
}

/// Adds the line of a column of a row that stands on one side alone.
fn push_one_line(
    alloc: Global,
    text: &mut Vec<u8>,
    column: Option<&ColumnDef>,
    value: &Column<'_>,
) -> Result<(), AllocError>
    ensures { OnOk result (text.new.items ≡ text.old.items ++ one_line (option_copied column.entry) (column_value value.now)) }
{
    push_front(alloc, text, column)?;
    push_cell(alloc, text, value)?;
    text.extend_from_slice(b"\n")?;
    Ok(())
}

/// Adds the name of a column, printable, before its values.
fn push_front(
    alloc: Global,
    text: &mut Vec<u8>,
    column: Option<&ColumnDef>,
) -> Result<(), AllocError>
    ensures { OnOk result (text.new.items ≡ text.old.items ++ column_front (option_copied column.entry)) }
{
    let name = printable(alloc, name_of(column).as_bytes())?;
    text.extend_from_slice(b"  ")?;
    text.extend_from_slice(name.as_bytes())?;
    text.extend_from_slice(b": ")?;
    Ok(())
}

/// The name of a column.
fn name_of(column: Option<&ColumnDef>) -> &str
    ensures { result.now ≡ option_map_or (λ c. c.name) (option_copied column.entry) [] }
{
    match column {
        None => "",
        Some(column) => column.name(),
    }
}

/// The column of a table that has a place in its rows.
fn row_column(table: &Table, i: usize) -> Option<&ColumnDef>
    ensures { option_copied result ≡ row_column table.now i }
{
    let place = table.kept().get(i)?;
    table.columns().get(usize::from(*place))
}

/// Whether two columns are equal, NULL and the empty value told apart.
fn is_same(value: &Column<'_>, other: &Column<'_>) -> bool
    ensures { result ≡ column_eq (column_value value.now) (column_value other.now) }
{
    match (value, other) {
        (Column::Null, Column::Null) => true,
        (Column::Bytes(value), Column::Bytes(other)) => value == other,
        _ => false,
    }
}
