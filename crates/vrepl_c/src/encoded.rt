//! Values as bytes that a caller walks over.

ghost use Rattle.std.specs.Prelude.{◌≡◌, ◌++◌, OnOk};
ghost use Rattle.row_view.specs.ColumnValue.{column_value};
ghost use Rattle.vrepl_c.specs.Encoded.{absent, bytes_behind, cell_bytes, cells_bytes, eight, row_bytes};

use row_view::{Column, Columns, RowView};
use std::alloc::AllocError;

/// What stands in place of what isn't there.
const ABSENT: u64 = u64::MAX;

/// Adds a number.
pub(crate) fn push_number(into: &mut Vec<u8>, number: u64) -> Result<(), AllocError>
    ensures { OnOk result (into.new.items ≡ into.old.items ++ eight number) }
{
    into.extend_from_slice(&number.to_le_bytes())
}

/// Adds bytes behind their number.
pub(crate) fn push_bytes(into: &mut Vec<u8>, bytes: &[u8]) -> Result<(), AllocError>
    ensures { OnOk result (into.new.items ≡ into.old.items ++ bytes_behind bytes.now) }
{
    push_number(into, bytes.len() as u64)?;
    into.extend_from_slice(bytes)
}

/// Adds a column.
fn push_cell(into: &mut Vec<u8>, column: &Column<'_>) -> Result<(), AllocError>
    ensures { OnOk result (into.new.items ≡ into.old.items ++ cell_bytes (column_value column.now)) }
{
    match column {
        Column::Null => push_number(into, ABSENT),
        Column::Bytes(bytes) => push_bytes(into, bytes),
    }
}

/// Adds the columns of a row.
fn push_cells(into: &mut Vec<u8>, columns: Columns<'_>) -> Result<(), AllocError>
    ensures { OnOk result (into.new.items ≡ into.old.items ++ cells_bytes columns.entry) }
{
    for column in columns {
        push_cell(into, &column)?;
    }
    Ok(())
}

/// Adds a row that is there.
fn push_columns(into: &mut Vec<u8>, row: &RowView<'_>) -> Result<(), AllocError>
    ensures { OnOk result (into.new.items ≡ into.old.items ++ row_bytes (Some row.now)) }
{
    push_number(into, row.len() as u64)?;
    push_cells(into, row.columns())
}

/// Adds a row, or that there is none.
pub(crate) fn push_row(into: &mut Vec<u8>, row: Option<RowView<'_>>) -> Result<(), AllocError>
    ensures { OnOk result (into.new.items ≡ into.old.items ++ row_bytes row.entry) }
{
    match row {
        None => push_number(into, ABSENT),
        Some(row) => push_columns(into, &row),
    }
}
