//! The sizes of a row's parts.

ghost use Rattle.std.specs.Prelude.{◌≡◌, ◌↔◌, ◌+◌, ◌<◌, ◌≤◌, ◌^◌, IsTrue, IfOk, IfErr, length};
ghost use Rattle.proto_wire.specs.Varint.{shortest};
ghost use Rattle.row_view.specs.ColumnValue.{column_value};
ghost use Rattle.row_view.specs.WrittenRow.{length_number, value_bytes, written_lengths, written_values};
ghost use Rattle.compaction.specs.Private.Limits.{IsOverBy};
ghost use Rattle.compaction.specs.Private.Sized.{IsWithin, held_size, packed_size, plain_size, row_size, text_size};

use crate::fault::WriteFault;
use proto_wire::{size_of_both, varint_size};
use row_view::{Column, ROW_BYTES, ROW_COLUMNS, RowBytes};

/// How many columns a row has, and how many bytes their lengths and their values.
#[derive(Clone, Copy)]
pub(crate) struct Sizes {
    pub(crate) columns: usize,
    pub(crate) lengths: usize,
    pub(crate) values: usize,
}

/// The bytes of a column's value; NULL has none.
pub(crate) fn value_of<'b>(column: &Column<'b>) -> &'b [u8]
    ensures { result.now ≡ value_bytes (column_value column.now) }
{
    match column {
        Column::Null => &[],
        Column::Bytes(value) => value,
    }
}

/// The number that a column's length travels as, where that is within the limits.
pub(crate) fn number_of(column: &Column<'_>) -> u64
    requires { length (value_bytes (column_value column.now)) ≤ 2 ^ 24 }
    ensures { result ≡ length_number (column_value column.now) }
{
    match column {
        Column::Null => 1,
        Column::Bytes(value) => 2 * (value.len() as u64),
    }
}

impl Sizes {
    /// The sizes with one column more.
    fn and(self, column: &Column<'_>) -> Result<Sizes, WriteFault>
        ensures columns { IfOk result (λ sum. sum.columns ≡ self.columns + 1) }
        ensures lengths { IfOk result (λ sum. sum.lengths ≡ self.lengths + length (shortest (length_number (column_value column.now)))) }
        ensures values { IfOk result (λ sum. sum.values ≡ self.values + length (value_bytes (column_value column.now))) }
        ensures long { IfErr result (IsOverBy (2 ^ 24 < length (value_bytes (column_value column.now)))) }
    {
        let value = value_of(column);
        if value.len() > ROW_BYTES {
            return Err(WriteFault::TooLong);
        }
        Ok(Sizes {
            columns: size_of_both(self.columns, 1)?,
            lengths: size_of_both(self.lengths, varint_size(number_of(column)))?,
            values: size_of_both(self.values, value.len())?,
        })
    }
}

/// The sizes of a row.
pub(crate) fn sizes_of(row: &RowBytes<'_>) -> Result<Sizes, WriteFault>
    ensures columns { IfOk result (λ sizes. sizes.columns ≡ length row.now) }
    ensures lengths { IfOk result (λ sizes. sizes.lengths ≡ length (written_lengths row.now)) }
    ensures values { IfOk result (λ sizes. sizes.values ≡ length (written_values row.now)) }
    ensures long { IfErr result (IsOverBy (2 ^ 24 < length (written_values row.now))) }
{
    let mut sizes = Sizes {
        columns: 0,
        lengths: 0,
        values: 0,
    };
    for column in row.columns() {
        sizes = sizes.and(&column)?;
    }
    Ok(sizes)
}

/// How many bytes a field has that holds so many.
pub(crate) fn held_size(size: usize) -> usize
    requires { size ≤ 2 ^ 26 }
    ensures size { result ≡ held_size size }
    ensures few { result ≤ size + 11 }
{
    1 + varint_size(size as u64) + size
}

/// The same of a text, which isn't written where it is empty.
fn text_size(size: usize) -> usize
    requires { size ≤ 2 ^ 24 }
    ensures size { result ≡ text_size size }
    ensures few { result ≤ size + 11 }
{
    if size == 0 { 0 } else { held_size(size) }
}

/// How many bytes a row has whose lengths are packed.
pub(crate) fn packed_size(lengths: usize, values: usize) -> usize
    requires lengths { lengths ≤ 2 ^ 24 }
    requires values { values ≤ 2 ^ 24 }
    ensures size { result ≡ packed_size lengths values }
    ensures few { result ≤ lengths + values + 22 }
{
    text_size(lengths) + text_size(values)
}

/// The same of one whose only length stands in a field of its own.
fn plain_size(lengths: usize, values: usize) -> usize
    requires lengths { lengths ≤ 2 ^ 24 }
    requires values { values ≤ 2 ^ 24 }
    ensures size { result ≡ plain_size lengths values }
    ensures few { result ≤ lengths + values + 12 }
{
    1 + lengths + text_size(values)
}

/// How many bytes a row within the limits has.
pub(crate) fn row_size(lengths: usize, values: usize) -> usize
    requires lengths { lengths ≤ 2 ^ 24 }
    requires values { values ≤ 2 ^ 24 }
    ensures size { result ≡ row_size lengths values }
    ensures few { result ≤ lengths + values + 22 }
{
    let packed = packed_size(lengths, values);
    if packed > ROW_BYTES {
        plain_size(lengths, values)
    } else {
        packed
    }
}

/// Whether a row of these sizes is within the limits; one that was read is.
pub(crate) fn is_within(sizes: Sizes) -> bool
    ensures { IsTrue result ↔ IsWithin sizes.columns sizes.lengths sizes.values }
{
    let Sizes {
        columns,
        lengths,
        values,
    } = sizes;
    if columns > usize::from(ROW_COLUMNS) || lengths > ROW_BYTES || values > ROW_BYTES {
        return false;
    }
    if packed_size(lengths, values) <= ROW_BYTES {
        return true;
    }
    columns == 1 && plain_size(lengths, values) <= ROW_BYTES
}
