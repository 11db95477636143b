//! A row.

ghost use Rattle.std.specs.Prelude.{◌≡◌, map};
ghost use Rattle.std.specs.Result.{result_map_both};
ghost use Rattle.log_tables.specs.Column.{column_value};
ghost use Rattle.log_rows.specs.Image.{bit_of, bits_size, cells_at, image_at};
ghost use Rattle.log_rows.specs.Written.{cells_value, PutsCells};

use crate::cell::put_cell;
use crate::fault::RowError;
use crate::row::WrittenCells;
use log_tables::LogColumn;
use log_values::ValueFault;

/// A bit of some bytes; one that isn't there is 0.
pub(crate) fn bit_of(bits: &[u8], place: usize) -> bool
    ensures { result ≡ bit_of bits.now place }
{
    match bits.get(place / 8) {
        Some(byte) => (*byte >> (place % 8)) % 2 == 1,
        None => false,
    }
}

/// How many bytes a bit for each of so many columns takes.
pub(crate) fn bits_size(count: u64) -> u64
    ensures { result ≡ bits_size count }
{
    count.div_ceil(8)
}

/// Appends the texts of columns, and answers the bytes after them.
fn put_cells<'b>(
    out: &mut WrittenCells,
    nulls: &[u8],
    columns: &[LogColumn<'_>],
    bytes: &'b [u8],
) -> Result<&'b [u8], RowError>
    ensures { PutsCells (λ row. row) (cells_at nulls.now 0 (map column_value columns.now) bytes.now) (cells_value out.old) (cells_value out.new) (result_map_both (λ b. b.now) (λ e. e) result) }
{
    let mut left = bytes;
    let mut place: usize = 0;
    for column in columns {
        match put_cell(out, bit_of(nulls, place), column, left) {
            Ok(rest) => left = rest,
            Err(error) => return Err(error),
        }
        place += 1;
    }
    Ok(left)
}

/// Appends the texts of a row, and answers the bytes after it.
pub(crate) fn put_image<'b>(
    out: &mut WrittenCells,
    columns: &[LogColumn<'_>],
    bytes: &'b [u8],
) -> Result<&'b [u8], RowError>
    ensures { PutsCells (λ row. row) (image_at (map column_value columns.now) bytes.now) (cells_value out.old) (cells_value out.new) (result_map_both (λ b. b.now) (λ e. e) result) }
{
    let size = bits_size(columns.len() as u64);
    if (bytes.len() as u64) < size {
        return Err(RowError::Fault(ValueFault::CutValue));
    }
    let (nulls, rest) = bytes.split_at(size as usize);
    put_cells(out, nulls, columns, rest)
}
