//! The values of a row that differ from another's.

ghost use Rattle.std.specs.Prelude.{◌≡◌, ◌≤◌, ◌⊎◌, ◌&&◌, ◌++◌, true, OnOk, codes, length, map};
ghost use Rattle.row_view.specs.ColumnValue.{column_value};
ghost use Rattle.vdiff.specs.Report.{column_eq};
ghost use Rattle.vdiff_patch.specs.Patch.{differing_from};
ghost use Rattle.vdiff_sql.specs.Columns.{listed};
ghost use Rattle.vdiff_sql.specs.Private.Differing.{assignments_at};
ghost use Rattle.vdiff_sql.specs.Statements.{assignment};

use crate::columns::{push_name_of, push_parting, row_column, type_of};
use crate::literals::push_literal;
use filter_rule::Table;
use row_view::{Column, RowView};
use std::alloc::{AllocError, Global};

/// Adds the values of a row that differ from another's, each for its column. An error is want of memory.
pub(crate) fn push_assignments(
    alloc: Global,
    text: &mut Vec<u8>,
    table: &Table,
    row: &RowView<'_>,
    there: &RowView<'_>,
) -> Result<(), AllocError>
    ensures { OnOk result (text.new.items ≡ text.old.items ++ listed (codes ", ") true (map (assignment table.now) (differing_from 0 row.now there.now))) }
{
    let mut is_first = true;
    for i in 0..shorter(row, there) {
        let value = row.column(i);
        let other = there.column(i);
        push_if_other(alloc, text, table, i, &value, &other, is_first)?;
        is_first = is_none_yet(is_first, is_same(&value, &other));
    }
    Ok(())
}

/// As many places as both rows have.
fn shorter(row: &RowView<'_>, there: &RowView<'_>) -> usize
    ensures row { result ≤ length row.now }
    ensures there { result ≤ length there.now }
    ensures either { (result ≡ length row.now) ⊎ (result ≡ length there.now) }
{
    let count = row.len();
    let other = there.len();
    if count < other { count } else { other }
}

/// Whether no value was added so far.
fn is_none_yet(is_first: bool, is_same: bool) -> bool
    ensures { result ≡ (is_first && is_same) }
{
    is_first && is_same
}

/// Adds the value of a place in a row, where another one stands there.
fn push_if_other(
    alloc: Global,
    text: &mut Vec<u8>,
    table: &Table,
    i: usize,
    value: &Column<'_>,
    other: &Column<'_>,
    is_first: bool,
) -> Result<(), AllocError>
    ensures { OnOk result (text.new.items ≡ text.old.items ++ listed (codes ", ") is_first (assignments_at table.now i (column_value value.now) (column_value other.now))) }
{
    if is_same(value, other) {
        return Ok(());
    }
    push_parting(text, is_first, b", ")?;
    push_assignment(alloc, text, table, i, value)
}

/// Adds a value for the column of a place in a row.
fn push_assignment(
    alloc: Global,
    text: &mut Vec<u8>,
    table: &Table,
    i: usize,
    value: &Column<'_>,
) -> Result<(), AllocError>
    ensures { OnOk result (text.new.items ≡ text.old.items ++ assignment table.now (i, column_value value.now)) }
{
    let column = row_column(table, i);
    push_name_of(text, column)?;
    text.extend_from_slice(b" = ")?;
    push_literal(alloc, text, type_of(column), value)
}

/// Whether two columns are equal, NULL and the empty value told apart.
fn is_same(value: &Column<'_>, other: &Column<'_>) -> bool
    ensures { result ≡ column_eq (column_value value.now) (column_value other.now) }
{
    match (value, other) {
        (Column::Null, Column::Null) => true,
        (Column::Bytes(value), Column::Bytes(other)) => value == other,
        _ => false,
    }
}
