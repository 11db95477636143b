//! The text of one column of a row.

ghost use Rattle.std.specs.Prelude.{◌≡◌, ◌++◌, ◌*◌, [], ◌∷◌, false, OnOk, map};
ghost use Rattle.std.specs.Result.{result_map_both};
ghost use Rattle.proto_wire.specs.Varint.{shortest};
ghost use Rattle.log_tables.specs.Column.{column_value};
ghost use Rattle.log_rows.specs.Image.{cell_at};
ghost use Rattle.log_rows.specs.Written.{cells_value, PutsCells};

use crate::fault::RowError;
use crate::row::WrittenCells;
use log_tables::LogColumn;
use log_values::{ValueError, put_value};
use proto_wire::put_varint;
use std::alloc::AllocError;

/// Appends the length of a text, as the number that it travels as.
fn put_length(lengths: &mut Vec<u8>, size: usize) -> Result<(), AllocError>
    ensures { OnOk result (lengths.new.items ≡ lengths.old.items ++ shortest (2 * size)) }
{
    match (size as u64).checked_mul(2) {
        Some(number) => put_varint(lengths, number),
        None => Err(AllocError),
    }
}

/// Appends the text of a column that isn't NULL, and answers the bytes after it.
fn put_text<'b>(
    out: &mut WrittenCells,
    column: &LogColumn<'_>,
    bytes: &'b [u8],
) -> Result<&'b [u8], RowError>
    ensures { PutsCells (λ cell. cell ∷ []) (cell_at false (column_value column.now) bytes.now) (cells_value out.old) (cells_value out.new) (result_map_both (λ b. b.now) (λ e. e) result) }
{
    let before = out.values.len();
    let put = put_value(&mut out.values, column.kind, &column.labels, bytes);
    match put {
        Ok(rest) => {
            let size = out.values.len() - before;
            put_length(&mut out.lengths, size)?;
            Ok(rest)
        }
        Err(ValueError::Memory) => Err(RowError::Memory),
        Err(ValueError::Fault(fault)) => Err(RowError::Fault(fault)),
    }
}

/// Appends the text of a column, or that it is NULL, and answers the bytes after it.
pub(crate) fn put_cell<'b>(
    out: &mut WrittenCells,
    null: bool,
    column: &LogColumn<'_>,
    bytes: &'b [u8],
) -> Result<&'b [u8], RowError>
    ensures { PutsCells (λ cell. cell ∷ []) (cell_at null (column_value column.now) bytes.now) (cells_value out.old) (cells_value out.new) (result_map_both (λ b. b.now) (λ e. e) result) }
{
    if !null {
        return put_text(out, column, bytes);
    }
    put_varint(&mut out.lengths, 1)?;
    Ok(bytes)
}
