//! Writing of rows that are given by their columns.

ghost use Rattle.std.specs.Prelude.{◌≡◌, ◌++◌, map, length, OnOk, OnErr, IfOk};
ghost use Rattle.proto_wire.specs.Writing.{Begins};
ghost use Rattle.row_view.specs.ColumnValue.{column_value};
ghost use Rattle.row_view.specs.WrittenRow.{written_lengths, written_values, written_row, RowsAreReadAgain};

use crate::column::Column;
use crate::found::VALUES;
use crate::written_laws::rows_are_read_again;
use crate::written_row::{RowSize, length_number, value_of};
use proto_wire::{cut_after_error, put_text_head, put_varint};
use std::alloc::AllocError;

/// The sizes of the parts of a row of these columns.
fn size_of_columns(columns: &[Column<'_>]) -> Result<RowSize, AllocError>
    ensures lengths { IfOk result (λ size. size.lengths ≡ length (written_lengths (map column_value columns.now))) }
    ensures values { IfOk result (λ size. size.values ≡ length (written_values (map column_value columns.now))) }
{
    let mut size = RowSize {
        lengths: 0,
        values: 0,
    };
    for column in columns {
        size = size.and(column)?;
    }
    Ok(size)
}

/// Appends the lengths of columns.
fn put_lengths_of(out: &mut Vec<u8>, columns: &[Column<'_>]) -> Result<(), AllocError>
    ensures written { OnOk result (out.new.items ≡ out.old.items ++ written_lengths (map column_value columns.now)) }
    ensures kept { Begins out.old.items out.new.items }
{
    for column in columns {
        put_varint(out, length_number(column)?)?;
    }
    Ok(())
}

/// Appends the values of columns.
fn put_values_of(out: &mut Vec<u8>, columns: &[Column<'_>]) -> Result<(), AllocError>
    ensures written { OnOk result (out.new.items ≡ out.old.items ++ written_values (map column_value columns.now)) }
    ensures kept { Begins out.old.items out.new.items }
{
    for column in columns {
        out.extend_from_slice(value_of(column))?;
    }
    Ok(())
}

/// Appends a row of these columns.
fn append_columns(out: &mut Vec<u8>, columns: &[Column<'_>]) -> Result<(), AllocError>
    ensures written { OnOk result (out.new.items ≡ out.old.items ++ written_row (map column_value columns.now)) }
    ensures kept { Begins out.old.items out.new.items }
{
    let size = size_of_columns(columns)?;
    size.put_head(out, columns.len())?;
    put_lengths_of(out, columns)?;
    put_text_head(out, VALUES, size.values)?;
    put_values_of(out, columns)?;
    Ok(())
}

/// Appends a row of these columns as a message, as `write_row` does.
pub fn write_columns(out: &mut Vec<u8>, columns: &[Column<'_>]) -> Result<(), AllocError>
    ensures written { OnOk result (out.new.items ≡ out.old.items ++ written_row (map column_value columns.now)) }
    ensures unchanged { OnErr result (out.new.items ≡ out.old.items) }
    // A row within the limits that is written is read as this row.
    ensures read_again { RowsAreReadAgain }
{
    rows_are_read_again();
    let size = size_of_columns(columns)?;
    out.reserve(size.row(columns.len())?)?;
    let before = out.len();
    let outcome = append_columns(out, columns);
    cut_after_error(out, before, outcome)
}
