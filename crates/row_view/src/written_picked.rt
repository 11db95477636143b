//! Writing of rows that are some columns of another.

ghost use Rattle.std.specs.Prelude.{◌≡◌, ◌<◌, ◌++◌, length, slice_index_or, None, IsTrue, OnOk, IfOk};
ghost use Rattle.proto_wire.specs.Writing.{Begins};
ghost use Rattle.row_view.specs.ColumnValue.{column_value};
ghost use Rattle.row_view.specs.Picked.{picked, ArePlaces};
ghost use Rattle.row_view.specs.Row.{RowValue};
ghost use Rattle.row_view.specs.WrittenRow.{written_lengths, written_values, written_row};

use crate::column::Column;
use crate::found::VALUES;
use crate::row::RowView;
use crate::written_row::{RowSize, length_number, value_of};
use proto_wire::{put_text_head, put_varint};
use std::alloc::AllocError;

/// The column at a place.
fn column_at<'b>(row: &RowView<'b>, place: u8) -> Column<'b>
    requires { place < length row.now }
    ensures { column_value result ≡ slice_index_or row.now place None }
{
    row.column(usize::from(place))
}

/// The sizes of the parts of a row of the columns at these places.
fn size_of_picked(row: &RowView<'_>, places: &[u8]) -> Result<RowSize, AllocError>
    requires { ArePlaces places.now row.now }
    ensures lengths { IfOk result (λ size. size.lengths ≡ length (written_lengths (picked places.now row.now))) }
    ensures values { IfOk result (λ size. size.values ≡ length (written_values (picked places.now row.now))) }
{
    let mut size = RowSize {
        lengths: 0,
        values: 0,
    };
    for place in places {
        size = size.and(&column_at(row, *place))?;
    }
    Ok(size)
}

/// Appends the lengths of the columns at these places.
fn put_picked_lengths(out: &mut Vec<u8>, row: &RowView<'_>, places: &[u8]) -> Result<(), AllocError>
    requires { ArePlaces places.now row.now }
    ensures written { OnOk result (out.new.items ≡ out.old.items ++ written_lengths (picked places.now row.now)) }
    ensures kept { Begins out.old.items out.new.items }
{
    for place in places {
        put_varint(out, length_number(&column_at(row, *place))?)?;
    }
    Ok(())
}

/// Appends the values of the columns at these places.
fn put_picked_values(out: &mut Vec<u8>, row: &RowView<'_>, places: &[u8]) -> Result<(), AllocError>
    requires { ArePlaces places.now row.now }
    ensures written { OnOk result (out.new.items ≡ out.old.items ++ written_values (picked places.now row.now)) }
    ensures kept { Begins out.old.items out.new.items }
{
    for place in places {
        out.extend_from_slice(value_of(&column_at(row, *place)))?;
    }
    Ok(())
}

/// Appends a row of the columns at these places.
fn append_picked(out: &mut Vec<u8>, row: &RowView<'_>, places: &[u8]) -> Result<(), AllocError>
    requires { ArePlaces places.now row.now }
    ensures { OnOk result (out.new.items ≡ out.old.items ++ written_row (picked places.now row.now)) }
{
    let size = size_of_picked(row, places)?;
    size.put_head(out, places.len())?;
    put_picked_lengths(out, row, places)?;
    put_text_head(out, VALUES, size.values)?;
    put_picked_values(out, row, places)?;
    Ok(())
}

/// How many bytes a row of the columns at these places has as it is written.
fn picked_size(row: &RowView<'_>, places: &[u8]) -> Result<usize, AllocError>
    requires { ArePlaces places.now row.now }
    ensures { IfOk result (λ size. size ≡ length (written_row (picked places.now row.now))) }
{
    size_of_picked(row, places)?.row(places.len())
}

/// Appends a row of the columns at these places as a message, as `write_row` does; room for it is
/// taken at once. An error leaves some of it.
pub(crate) fn put_picked(
    out: &mut Vec<u8>,
    row: &RowView<'_>,
    places: &[u8],
) -> Result<(), AllocError>
    requires { ArePlaces places.now row.now }
    ensures { OnOk result (out.new.items ≡ out.old.items ++ written_row (picked places.now row.now)) }
{
    out.reserve(picked_size(row, places)?)?;
    append_picked(out, row, places)
}

/// Whether these places are those of all columns of a row of so many columns, in order, so that
/// such a row picked by them is itself. Takes no memory.
pub fn are_all(places: &[u8], count: usize) -> bool
    ensures { IsTrue result → (row : RowValue) → length row ≡ count → picked places.now row ≡ row }
{
    let mut next: usize = 0;
    for place in places {
        if usize::from(*place) != next {
            return false;
        }
        next += 1;
    }
    next == count
}
