//! The columns of a row, one after another.

ghost use Rattle.std.specs.Prelude.{◌≡◌, ◌≤◌, length};
ghost use Rattle.std.specs.Iterator.{YieldsFirstBy, item_count};
ghost use Rattle.row_view.specs.ColumnValue.{column_value};
ghost use Rattle.row_view.specs.RowFields.{row_lengths};
ghost use Rattle.row_view.specs.Row.{size_of_all, columns_over};
ghost use Rattle.row_view.specs.Private.Marks.{lengths_left};

use crate::column::Column;
use crate::found::LENGTHS;
use proto_wire::Sint64s;
use std::marker::Model;

/// The columns of a row that are still to come. Seen in contracts as the list of their values,
/// `None` for NULL. Takes no memory.
#[derive(Drop)]
pub struct Columns<'b> {
    lengths: Sint64s<'b>,
    /// the values from the next column on
    values: &'b [u8],
}

impl<'b> Model for Columns<'b> {
    ghost use Rattle.std.specs.Prelude.{ℕ, ◌≤◌, List, Option, length};
    ghost use Rattle.row_view.specs.Row.{size_of_all, columns_over};

    ghost Value = { List (Option (List ℕ)) };

    ghost view = { λ a. columns_over a.values.now a.lengths };

    ghost invariant = { λ a. size_of_all a.lengths ≤ length a.values.now };
}

impl<'b> Columns<'b> {
    /// The columns of the lengths of a message, over these values.
    pub(crate) fn new(message: &'b [u8], values: &'b [u8]) -> Columns<'b>
        requires { size_of_all (row_lengths message.now) ≤ length values.now }
        ensures { result ≡ columns_over values.now (row_lengths message.now) }
    {
        Columns {
            lengths: Sint64s::new(message, LENGTHS),
            values,
        }
    }

    /// The columns from one on: what is left of the packed part that its length stands in, the fields
    /// behind that, and the values from its own on.
    pub(crate) fn behind(packed: &'b [u8], fields: &'b [u8], values: &'b [u8]) -> Columns<'b>
        requires { size_of_all (lengths_left packed.now fields.now) ≤ length values.now }
        ensures { result ≡ columns_over values.now (lengths_left packed.now fields.now) }
    {
        Columns {
            lengths: Sint64s::behind(packed, fields, LENGTHS),
            values,
        }
    }
}

impl<'b> Iterator for Columns<'b> {
    type Item = Column<'b>;

    ghost next_gives = { YieldsFirstBy column_value (λ s. s) };

    ghost remaining = { item_count (λ s. s) };

    #[inline(always)]
    fn next(&mut self) -> Option<Column<'b>> {
        let length = self.lengths.next()?;
        if length < 0 {
            return Some(Column::Null);
        }
        let (value, rest) = self.values.split_at(length as usize);
        self.values = rest;
        Some(Column::Bytes(value))
    }
}
