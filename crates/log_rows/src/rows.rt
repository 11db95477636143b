//! The changes of a row event.

ghost use Rattle.std.specs.Prelude.{◌≡◌, ◌<◌, length, map};
ghost use Rattle.std.specs.Result.{result_map_both};
ghost use Rattle.log_tables.specs.Column.{column_value};
ghost use Rattle.log_rows.specs.declared.change.RowsKind.TheVariants.{Update};
ghost use Rattle.log_rows.specs.Change.{change_at, changes_of};
ghost use Rattle.log_rows.specs.Written.{no_cells, cells_value, PutsChange, NextChange};

use crate::change::RowsKind;
use crate::fault::RowError;
use crate::image::put_image;
use crate::row::WrittenCells;
use log_tables::LogColumn;
use std::marker::Model;

/// Writes both rows of an update, and answers the bytes after them.
fn put_both<'b>(
    columns: &[LogColumn<'_>],
    bytes: &'b [u8],
    before: &mut WrittenCells,
    after: &mut WrittenCells,
) -> Result<&'b [u8], RowError>
    requires before { cells_value before.old ≡ no_cells }
    requires after { cells_value after.old ≡ no_cells }
    ensures { PutsChange (change_at Update (map column_value columns.now) bytes.now) (cells_value before.new) (cells_value after.new) (result_map_both (λ b. b.now) (λ e. e) result) }
{
    match put_image(before, columns, bytes) {
        Ok(rest) => put_image(after, columns, rest),
        Err(error) => Err(error),
    }
}

/// Writes the rows of the change at the front, and answers the bytes after it.
fn put_change<'b>(
    kind: RowsKind,
    columns: &[LogColumn<'_>],
    bytes: &'b [u8],
    before: &mut WrittenCells,
    after: &mut WrittenCells,
) -> Result<&'b [u8], RowError>
    ensures { PutsChange (change_at kind (map column_value columns.now) bytes.now) (cells_value before.new) (cells_value after.new) (result_map_both (λ b. b.now) (λ e. e) result) }
{
    before.clear();
    after.clear();
    match kind {
        RowsKind::Write => put_image(after, columns, bytes),
        RowsKind::Delete => put_image(before, columns, bytes),
        RowsKind::Update => put_both(columns, bytes, before, after),
    }
}

/// The changes of a row event that are still to come. Seen in contracts as that list, and the fault that ends it, if
/// one does.
#[derive(Drop)]
pub struct Rows<'c, 'b> {
    kind: RowsKind,
    columns: &'c [LogColumn<'b>],
    left: &'b [u8],
}

impl<'c, 'b> Model for Rows<'c, 'b> {
    ghost use Rattle.std.specs.Prelude.{◌<◌, length, map};
    ghost use Rattle.item_readers.specs.Reading.{Reading};
    ghost use Rattle.log_values.specs.declared.fault.ValueFault.{ValueFault};
    ghost use Rattle.log_tables.specs.Column.{column_value};
    ghost use Rattle.log_rows.specs.Change.{Change, changes_of};

    ghost Value = { Reading Change ValueFault };

    ghost view = { λ r. changes_of r.kind (map column_value r.columns.now) r.left.now };

    ghost invariant = { λ r. 0 < length r.columns.now };
}

impl<'c, 'b> Rows<'c, 'b> {
    /// The changes of these rows, under the columns of their table. Nothing is read yet, and no memory is taken.
    pub fn new(kind: RowsKind, columns: &'c [LogColumn<'b>], rows: &'b [u8]) -> Rows<'c, 'b>
        requires { 0 < length columns.now }
        ensures { result ≡ changes_of kind (map column_value columns.now) rows.now }
    {
        Rows {
            kind,
            columns,
            left: rows,
        }
    }

    /// Writes the rows of the next change, and answers whether there is one. After the end the end is answered
    /// again, and after a fault the same fault; neither changes anything but what stands in `before` and `after`.
    pub fn next_change(
        &mut self,
        before: &mut WrittenCells,
        after: &mut WrittenCells,
    ) -> Result<bool, RowError>
        ensures { NextChange self.old result self.new (cells_value before.new) (cells_value after.new) }
    {
        if self.left.is_empty() {
            return Ok(false);
        }
        match put_change(self.kind, self.columns, self.left, before, after) {
            Ok(rest) => {
                self.left = rest;
                Ok(true)
            }
            Err(error) => Err(error),
        }
    }
}
