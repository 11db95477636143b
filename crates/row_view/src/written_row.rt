//! Writing of rows.

ghost use Rattle.std.specs.Prelude.{◌≡◌, ◌+◌, ◌++◌, length, OnOk, OnErr, IfOk};
ghost use Rattle.proto_wire.specs.Varint.{shortest};
ghost use Rattle.proto_wire.specs.Writing.{Begins};
ghost use Rattle.row_view.specs.ColumnValue.{column_value};
ghost use Rattle.proto_wire.specs.Writing.{written_fields};
ghost use Rattle.row_view.specs.Row.{RowValue};
ghost use Rattle.row_view.specs.Private.Sizes.{AreSizes};
ghost use Rattle.row_view.specs.WrittenRow.{length_of, length_number, value_bytes, written_lengths, written_values, is_plain, length_fields, written_row, RowsAreReadAgain};

use crate::column::Column;
use crate::found::{LENGTHS, VALUES};
use crate::row::{ROW_BYTES, RowView};
use crate::row_bytes::RowBytes;
use crate::spelled::spelled;
use crate::written_laws::rows_are_read_again;
use proto_wire::{
    cut_after_error, put_text_head, put_varint, size_of_both, text_field_size, varint_size, zigzag,
};
use std::alloc::AllocError;

/// The tag of a length in a field of its own.
const PLAIN_TAG: u64 = 8;

/// How many bytes the parts of a row have that are counted so far.
#[derive(Clone, Copy)]
pub(crate) struct RowSize {
    /// the lengths, packed
    pub(crate) lengths: usize,
    /// the values
    pub(crate) values: usize,
}

/// The bytes of a column's value; NULL has none.
pub(crate) fn value_of<'b>(column: &Column<'b>) -> &'b [u8]
    ensures { result.now ≡ value_bytes (column_value column.now) }
{
    match column {
        Column::Null => &[],
        Column::Bytes(value) => value,
    }
}

/// The length of a column, -1 for NULL. An error is a length that no memory has.
fn length_of(column: &Column<'_>) -> Result<i64, AllocError>
    ensures { IfOk result (λ n. n ≡ length_of (column_value column.now)) }
{
    match column {
        Column::Null => Ok(-1),
        Column::Bytes(value) => {
            if value.len() > i64::MAX as usize {
                return Err(AllocError);
            }
            Ok(value.len() as i64)
        }
    }
}

/// The number that a column's length travels as.
pub(crate) fn length_number(column: &Column<'_>) -> Result<u64, AllocError>
    ensures { IfOk result (λ n. n ≡ length_number (column_value column.now)) }
{
    Ok(zigzag(length_of(column)?))
}

impl RowSize {
    /// The sizes with one column more.
    pub(crate) fn and(self, column: &Column<'_>) -> Result<RowSize, AllocError>
        ensures lengths { IfOk result (λ sum. sum.lengths ≡ self.lengths + length (shortest (length_number (column_value column.now)))) }
        ensures values { IfOk result (λ sum. sum.values ≡ self.values + length (value_bytes (column_value column.now))) }
    {
        let number = length_number(column)?;
        Ok(RowSize {
            lengths: size_of_both(self.lengths, varint_size(number))?,
            values: size_of_both(self.values, value_of(column).len())?,
        })
    }
}

impl RowSize {
    /// Whether a row of so many columns with these sizes has one whose length isn't packed.
    fn is_plain(self, count: usize) -> Result<bool, AllocError>
        ensures { IfOk result (λ plain. (columns : RowValue) → AreSizes columns count self → plain ≡ is_plain columns) }
    {
        if count != 1 {
            return Ok(false);
        }
        let lengths = text_field_size(LENGTHS, self.lengths)?;
        let packed = size_of_both(lengths, text_field_size(VALUES, self.values)?)?;
        Ok(packed > ROW_BYTES)
    }

    /// How many bytes the fields have that hold the lengths of a row of so many columns with these sizes.
    fn lengths_size(self, count: usize) -> Result<usize, AllocError>
        ensures { IfOk result (λ size. (columns : RowValue) → AreSizes columns count self → size ≡ length (written_fields (length_fields columns))) }
    {
        if self.is_plain(count)? {
            size_of_both(1, self.lengths)
        } else {
            text_field_size(LENGTHS, self.lengths)
        }
    }

    /// How many bytes a row of so many columns with these sizes has.
    pub(crate) fn row(self, count: usize) -> Result<usize, AllocError>
        ensures { IfOk result (λ size. (columns : RowValue) → AreSizes columns count self → size ≡ length (written_row columns)) }
    {
        let lengths = self.lengths_size(count)?;
        let values = text_field_size(VALUES, self.values)?;
        size_of_both(lengths, values)
    }

    /// Appends what stands before the lengths of a row of so many columns with these sizes.
    pub(crate) fn put_head(self, out: &mut Vec<u8>, count: usize) -> Result<(), AllocError>
        ensures written { OnOk result ((columns : RowValue) → AreSizes columns count self → out.new.items ++ written_lengths columns ≡ out.old.items ++ written_fields (length_fields columns)) }
        ensures kept { Begins out.old.items out.new.items }
    {
        if self.is_plain(count)? {
            put_varint(out, PLAIN_TAG)
        } else {
            put_text_head(out, LENGTHS, self.lengths)
        }
    }
}

/// The sizes of the parts of a row.
fn size_of_parts(row: &RowView<'_>) -> Result<RowSize, AllocError>
    ensures lengths { IfOk result (λ size. size.lengths ≡ length (written_lengths row.now)) }
    ensures values { IfOk result (λ size. size.values ≡ length (written_values row.now)) }
{
    let mut size = RowSize {
        lengths: 0,
        values: 0,
    };
    for column in row.columns() {
        size = size.and(&column)?;
    }
    Ok(size)
}

/// Appends the lengths of a row.
fn put_lengths(out: &mut Vec<u8>, row: &RowView<'_>) -> Result<(), AllocError>
    ensures written { OnOk result (out.new.items ≡ out.old.items ++ written_lengths row.now) }
    ensures kept { Begins out.old.items out.new.items }
{
    for column in row.columns() {
        put_varint(out, length_number(&column)?)?;
    }
    Ok(())
}

/// Appends the values of a row.
fn put_values(out: &mut Vec<u8>, row: &RowView<'_>) -> Result<(), AllocError>
    ensures written { OnOk result (out.new.items ≡ out.old.items ++ written_values row.now) }
    ensures kept { Begins out.old.items out.new.items }
{
    for column in row.columns() {
        out.extend_from_slice(value_of(&column))?;
    }
    Ok(())
}

/// Appends a row whose parts have these sizes.
fn append_row(out: &mut Vec<u8>, row: &RowView<'_>, size: RowSize) -> Result<(), AllocError>
    requires lengths { size.lengths ≡ length (written_lengths row.now) }
    requires values { size.values ≡ length (written_values row.now) }
    ensures written { OnOk result (out.new.items ≡ out.old.items ++ written_row row.now) }
    ensures kept { Begins out.old.items out.new.items }
{
    size.put_head(out, row.len())?;
    put_lengths(out, row)?;
    put_text_head(out, VALUES, size.values)?;
    put_values(out, row)?;
    Ok(())
}

/// How many bytes a row has as it is written. An error is want of memory, since no memory has as many.
pub fn row_size(row: &RowView<'_>) -> Result<usize, AllocError>
    ensures { IfOk result (λ size. size ≡ length (written_row row.now)) }
{
    if let Some(bytes) = spelled(&row.bytes()) {
        return Ok(bytes.len());
    }
    size_of_parts(row)?.row(row.len())
}

/// Appends a row as a message (`query.proto`, Row): its lengths packed, a NULL's as -1, and its values
/// one after another. An error is want of memory, and leaves what is there.
pub fn write_row(out: &mut Vec<u8>, row: &RowView<'_>) -> Result<(), AllocError>
    ensures written { OnOk result (out.new.items ≡ out.old.items ++ written_row row.now) }
    ensures unchanged { OnErr result (out.new.items ≡ out.old.items) }
    // A row within the limits that is written is read as this row.
    ensures read_again { RowsAreReadAgain }
{
    rows_are_read_again();
    if let Some(bytes) = spelled(&row.bytes()) {
        return out.extend_from_slice(bytes);
    }
    let size = size_of_parts(row)?;
    out.reserve(size.row(row.len())?)?;
    let before = out.len();
    let outcome = append_row(out, row, size);
    cut_after_error(out, before, outcome)
}

impl<'b> RowBytes<'b> {
    /// How many bytes the row has as it is written. Of bytes that are just what it is written as no column is looked
    /// at. An error is want of memory, since no memory has as many.
    pub fn written_size(&self) -> Result<usize, AllocError>
        ensures { IfOk result (λ size. size ≡ length (written_row self.now)) }
    {
        if let Some(bytes) = spelled(self) {
            return Ok(bytes.len());
        }
        row_size(&self.view())
    }

    /// Appends the row as `write_row` does. Bytes that are just what it is written as are copied.
    pub fn write(&self, out: &mut Vec<u8>) -> Result<(), AllocError>
        ensures written { OnOk result (out.new.items ≡ out.old.items ++ written_row self.now) }
        ensures unchanged { OnErr result (out.new.items ≡ out.old.items) }
    {
        if let Some(bytes) = spelled(self) {
            return out.extend_from_slice(bytes);
        }
        write_row(out, &self.view())
    }
}
