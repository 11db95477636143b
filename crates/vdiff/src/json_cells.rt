//! Cells, rows and keys as JSON.

ghost use Rattle.std.specs.Prelude.{◌≡◌, IfOk, Some, option_copied, string_bytes};
ghost use Rattle.pk_copy.specs.PartValue.{part_value};
ghost use Rattle.row_view.specs.ColumnValue.{column_value};
ghost use Rattle.serde_json.specs.Data.{string};
ghost use Rattle.serde_json.specs.View.{view};
ghost use Rattle.dump.specs.Cells.{cell};
ghost use Rattle.dump.specs.KeyText.{part_cell};
ghost use Rattle.vdiff.specs.Json.{cell_data, key_data, row_data, side_data};

use itoa::Buffer;
use pk_copy::{Key, KeyPart};
use row_view::{Column, Columns, RowBuf};
use serde_json::Value;
use std::alloc::{AllocError, Global};

/// The text of a cell that isn't NULL.
fn cell_text(alloc: Global, value: &[u8]) -> Result<String, AllocError>
    ensures { IfOk result (λ text. string_bytes text ≡ cell (Some value.now)) }
{
    let digits = hex::encode(alloc, value)?;
    let mut text = String::from_str(alloc, "x")?;
    text.push_str(digits.as_str())?;
    Ok(text)
}

/// A cell: null for NULL, else its text.
fn cell_value(alloc: Global, column: &Column<'_>) -> Result<Value, AllocError>
    ensures { IfOk result (λ made. view made ≡ cell_data (column_value column.now)) }
{
    match column {
        Column::Null => Ok(Value::Null),
        Column::Bytes(value) => Ok(Value::String(cell_text(alloc, value)?)),
    }
}

/// A row: its cells.
fn row_value(alloc: Global, columns: Columns<'_>) -> Result<Value, AllocError>
    ensures { IfOk result (λ made. view made ≡ row_data columns.entry) }
{
    let mut cells = Vec::new(alloc);
    for column in columns {
        let cell = cell_value(alloc, &column)?;
        cells.push(cell)?;
    }
    Ok(Value::Array(cells))
}

/// The row that stands on one side, or null.
pub(crate) fn side_value(alloc: Global, row: Option<&RowBuf>) -> Result<Value, AllocError>
    ensures { IfOk result (λ made. view made ≡ side_data (option_copied row.entry)) }
{
    match row {
        None => Ok(Value::Null),
        Some(row) => row_value(alloc, row.columns()),
    }
}

/// A key: its parts as cells.
pub(crate) fn key_value(alloc: Global, key: &Key) -> Result<Value, AllocError>
    ensures { IfOk result (λ made. view made ≡ key_data key.now) }
{
    let view = key.view();
    let mut made = Vec::new(alloc);
    for part in view.parts() {
        let text = part_text(alloc, part)?;
        made.push(Value::String(text))?;
    }
    Ok(Value::Array(made))
}

/// A part of a key as a cell's text.
fn part_text(alloc: Global, part: &KeyPart<'_>) -> Result<String, AllocError>
    ensures { IfOk result (λ text. string_bytes text ≡ part_cell (part_value part.now)) }
{
    match part {
        KeyPart::Number(value) => {
            let mut buffer = Buffer::new();
            let digits = buffer.format(*value);
            cell_text(alloc, digits.as_bytes())
        }
        KeyPart::Bytes(bytes) => cell_text(alloc, bytes),
    }
}
