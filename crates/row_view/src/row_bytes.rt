//! The bytes of a row.

ghost use Rattle.std.specs.Prelude.{◌≡◌, ◌<◌, ◌↔◌, IsTrue, IsOk, Ok, Some, length, slice_get};
ghost use Rattle.row_view.specs.ColumnValue.{column_value};
ghost use Rattle.row_view.specs.Picked.{picked, ArePlaces};
ghost use Rattle.row_view.specs.Row.{columns_in, row_of_message};
ghost use Rattle.row_view.specs.Private.Kept.{IsGood};

use crate::column::Column;
use crate::columns::Columns;
use crate::fault::RowFault;
use crate::found::{LENGTHS, VALUES, found_in};
use crate::row::RowView;
use crate::same::{are_picked, are_same};
use proto_wire::{last_text, pair_of};
use std::marker::Model;

/// The bytes of a message that is known to be a row, in 16 bytes: what is kept of a row. Seen in
/// contracts as the list of its columns' values, `None` for NULL, as a view of it is. Nothing is
/// copied.
#[derive(Drop)]
pub struct RowBytes<'b> {
    message: &'b [u8],
}

impl<'b> Model for RowBytes<'b> {
    ghost use Rattle.std.specs.Prelude.{ℕ, List, Option};
    ghost use Rattle.row_view.specs.Row.{columns_in};
    ghost use Rattle.row_view.specs.Private.Kept.{IsGood};

    ghost Value = { List (Option (List ℕ)) };

    ghost view = { λ a. columns_in a.message.now };

    ghost invariant = { λ a. IsGood a.message.now };
}

impl<'b> RowBytes<'b> {
    /// Reads a row message. Refused as `RowView::read` refuses it. Takes no memory.
    #[inline(always)]
    pub fn read(bytes: &'b [u8]) -> Result<RowBytes<'b>, RowFault>
        ensures { result ≡ row_of_message bytes.now }
    {
        let row = RowView::read(bytes)?;
        Ok(row.bytes())
    }

    /// The bytes of a row that was read before: that they are one is the caller's. Reads nothing and
    /// takes no memory.
    pub fn of_row(bytes: &'b [u8]) -> RowBytes<'b>
        requires { IsOk (row_of_message bytes.now) }
        ensures { row_of_message bytes.now ≡ Ok result }
    {
        RowBytes { message: bytes }
    }

    /// The bytes themselves.
    pub(crate) fn message(&self) -> &'b [u8]
        ensures good { IsGood result.now }
        ensures columns { columns_in result.now ≡ self.now }
    {
        self.message
    }

    /// The row itself. Reads its lengths once more, and takes no memory.
    #[inline(always)]
    pub fn view(&self) -> RowView<'b>
        ensures { result ≡ self.now }
    {
        RowView::of_row(self.message)
    }

    /// The columns of the row in order. Looks for the values once more, and takes no memory.
    pub fn columns(&self) -> Columns<'b>
        ensures { result ≡ self.now }
    {
        match pair_of(self.message, LENGTHS, VALUES) {
            Some((packed, values)) => Columns::behind(packed, &[], values),
            None => Columns::new(self.message, last_text(self.message, VALUES)),
        }
    }

    /// Column `i` of the row: NULL where its length is negative, else its value. Looks for the values once
    /// more and decodes the lengths up to its own; takes no memory. `i` is the place of a column.
    pub fn column(&self, i: usize) -> Column<'b>
        requires { i < length self.now }
        ensures { slice_get self.now i ≡ Some (column_value result) }
    {
        let mut columns = self.columns();
        for _ in 0..i {
            columns.next();
        }
        columns.next().unwrap()
    }

    /// The bytes of the same row again. Takes no memory.
    pub fn copy(&self) -> RowBytes<'b>
        ensures { result ≡ self.now }
    {
        RowBytes {
            message: self.message,
        }
    }

    /// Whether the other row has the same columns, NULL and empty bytes told apart. Equal
    /// bytes are the same row at once; else the columns are compared. Takes no memory.
    pub fn same(&self, other: &RowBytes<'_>) -> bool
        ensures { IsTrue result ↔ (self.now ≡ other.now) }
    {
        self.message == other.message || are_same(self.columns(), other.columns())
    }

    /// Whether this row is what the other one's columns at these places are, in the places' order.
    /// That each place is below the other's `len` is the caller's. Takes no memory.
    pub fn is_picked(&self, row: &RowView<'_>, places: &[u8]) -> bool
        requires { ArePlaces places.now row.now }
        ensures { IsTrue result ↔ (self.now ≡ picked places.now row.now) }
    {
        are_picked(self.columns(), row, places)
    }
}
