//! Laws of written rows, each as the contract of a function that does nothing.

ghost use Rattle.row_view.specs.WrittenRow.{RowsAreReadAgain, RowsAreWithinLimits, PickedAreWithinLimits};

use proto_wire::{fields_are_read_again, numbers_are_read_again};

/// A row within the limits that is written is read as this row.
pub fn rows_are_read_again()
    ensures { RowsAreReadAgain }
{
    fields_are_read_again();
    numbers_are_read_again();
}

/// A row that was read is within the limits as it is written, however long its own spelling was; and so are
/// some of the columns of such a row, none of them twice, in any order.
pub fn rows_are_within_limits()
    ensures rows { RowsAreWithinLimits }
    ensures picked { PickedAreWithinLimits }
{}
