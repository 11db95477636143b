//! Row events: changes of one table's rows.

ghost use Rattle.std.specs.Prelude.{◌≡◌, None, IfSome, IsOk, option_copied, option_map, is_some};
ghost use Rattle.std.specs.Iterator.{YieldsFirstBy, item_count};
ghost use Rattle.std.specs.List.{list_all};
ghost use Rattle.proto_wire.specs.Parts.{parts};
ghost use Rattle.row_view.specs.Row.{row_of_message};
ghost use Rattle.vevent.specs.Fault.{change_fault, first_row_fault};
ghost use Rattle.vevent.specs.Message.{image_of, change_of, changes_of};
ghost use Rattle.vevent.specs.Columns.{have_columns};
ghost use Rattle.vevent.specs.Private.ColumnCount.{IsCountOf};

use crate::change_rows::rows_in;
use crate::column_count::ColumnCount;
use crate::messages::Messages;
use row_view::{RowBytes, RowView};
use std::marker::Model;

/// A row event (`binlogdata.proto`, RowEvent). Seen in contracts as the table's name and the list of
/// its row changes. It is made by reading an event alone, so each of its rows can be read, and how
/// many columns they have is known.
#[derive(Drop)]
pub struct RowEvent<'b> {
    table_name: &'b str,
    message: &'b [u8],
    columns: ColumnCount,
}

impl<'b> Model for RowEvent<'b> {
    ghost use Rattle.std.specs.Prelude.{◌≡◌, None};
    ghost use Rattle.vevent.specs.EventValue.{RowEventValue};
    ghost use Rattle.proto_wire.specs.Parts.{parts};
    ghost use Rattle.vevent.specs.Fault.{first_row_fault};
    ghost use Rattle.vevent.specs.Message.{changes_of};
    ghost use Rattle.vevent.specs.Private.ColumnCount.{IsCountOf};

    ghost Value = { RowEventValue };

    ghost view = { λ a. record { table_name = a.table_name.now; changes = changes_of a.message.now } };

    ghost invariant = { λ a. (first_row_fault (parts 2 a.message.now) ≡ None)
        × IsCountOf a.columns (changes_of a.message.now) };
}

impl<'b> RowEvent<'b> {
    /// The row event of a message whose rows can be read and have this count of columns.
    pub(crate) fn new(table_name: &'b str, message: &'b [u8], columns: ColumnCount) -> RowEvent<'b>
        requires sound { first_row_fault (parts 2 message.now) ≡ None }
        requires count { IsCountOf columns (changes_of message.now) }
        ensures name { result.table_name ≡ table_name.now }
        ensures changes { result.changes ≡ changes_of message.now }
    {
        RowEvent {
            table_name,
            message,
            columns,
        }
    }

    /// The name of the table whose rows change.
    pub fn table_name(&self) -> &'b str
        ensures { result.now ≡ self.now.table_name }
    {
        self.table_name
    }

    /// Whether each row of each change has so many columns. Nothing is read again.
    pub fn all_have(&self, columns: usize) -> bool
        ensures { result ≡ list_all (have_columns columns) self.now.changes }
    {
        self.columns.all_have(columns)
    }

    /// The row changes, in the order of the bytes. Takes no memory, and reads no row: the rows of a change
    /// are found when the change is taken.
    pub fn changes(&self) -> RowChanges<'b>
        ensures { result ≡ self.now.changes }
    {
        RowChanges {
            messages: Messages::new(self.message, 2),
        }
    }
}

/// The row changes of a row event that are still to come. Seen in contracts as the list of them.
#[derive(Drop)]
pub struct RowChanges<'b> {
    messages: Messages<'b>,
}

impl<'b> Model for RowChanges<'b> {
    ghost use Rattle.std.specs.Prelude.{◌≡◌, None, List, map};
    ghost use Rattle.vevent.specs.EventValue.{ChangeValue};
    ghost use Rattle.vevent.specs.Fault.{first_row_fault};
    ghost use Rattle.vevent.specs.Message.{change_of};

    ghost Value = { List ChangeValue };

    ghost view = { λ a. map change_of a.messages.items };

    ghost invariant = { λ a. first_row_fault a.messages.items ≡ None };
}

impl<'b> Iterator for RowChanges<'b> {
    type Item = RowChange<'b>;

    ghost next_gives = { YieldsFirstBy (λ change. change) (λ rest. rest) };

    ghost remaining = { item_count (λ rest. rest) };

    #[inline(always)]
    fn next(&mut self) -> Option<RowChange<'b>> {
        Some(row_change(self.messages.next()?))
    }
}

/// A row change (`binlogdata.proto`, RowChange): only `after` is an insert, both are an update, only
/// `before` is a delete. Seen in contracts as these two. It is made by reading an event alone, so each
/// of its rows can be read; a view of a row is made when it is asked for. It keeps the slices of its two
/// rows, so neither is looked for again.
#[derive(Drop)]
pub struct RowChange<'b> {
    before: Option<RowBytes<'b>>,
    after: Option<RowBytes<'b>>,
}

impl<'b> Model for RowChange<'b> {
    ghost use Rattle.vevent.specs.EventValue.{ChangeValue};

    ghost Value = { ChangeValue };

    ghost view = { λ a. record { before = a.before; after = a.after } };
}

impl<'b> RowChange<'b> {
    /// Whether there is a row before the change. Reads no row.
    pub fn has_before(&self) -> bool
        ensures { result ≡ is_some self.now.before }
    {
        self.before.is_some()
    }

    /// Whether there is a row after the change. Reads no row.
    pub fn has_after(&self) -> bool
        ensures { result ≡ is_some self.now.after }
    {
        self.after.is_some()
    }

    /// The bytes of the row before the change, or `None` for an insert. Reads no row.
    #[inline(always)]
    pub fn before_bytes(&self) -> Option<RowBytes<'b>>
        ensures { result ≡ self.now.before }
    {
        once_more(&self.before)
    }

    /// The bytes of the row after the change, or `None` for a delete. Reads no row.
    #[inline(always)]
    pub fn after_bytes(&self) -> Option<RowBytes<'b>>
        ensures { result ≡ self.now.after }
    {
        once_more(&self.after)
    }

    /// The row before the change, or `None` for an insert. Reads its lengths once more, and takes no
    /// memory.
    pub fn before(&self) -> Option<RowView<'b>>
        ensures { result ≡ self.now.before }
    {
        let row = self.before_bytes()?;
        Some(row.view())
    }

    /// The row after the change, or `None` for a delete. Reads its lengths once more, and takes no
    /// memory.
    pub fn after(&self) -> Option<RowView<'b>>
        ensures { result ≡ self.now.after }
    {
        let row = self.after_bytes()?;
        Some(row.view())
    }
}

/// The bytes of the same row once more, if there is one.
#[inline(always)]
fn once_more<'b>(row: &Option<RowBytes<'b>>) -> Option<RowBytes<'b>>
    ensures { result ≡ row.now }
{
    match row {
        None => None,
        Some(row) => Some(row.copy()),
    }
}

/// The row change of a message whose rows can be read: both are found by one walk over it.
#[inline(always)]
fn row_change(message: &[u8]) -> RowChange<'_>
    requires { change_fault message.now ≡ None }
    ensures { result ≡ change_of message.now }
{
    let rows = rows_in(message);
    RowChange {
        before: row_found(rows.before),
        after: row_found(rows.after),
    }
}

/// The bytes of a row that was found in a row change.
#[inline(always)]
fn row_found(row: Option<&[u8]>) -> Option<RowBytes<'_>>
    requires { IfSome (option_copied row) (λ found. IsOk (row_of_message found)) }
    ensures { result ≡ option_map image_of (option_copied row.entry) }
{
    Some(RowBytes::of_row(row?))
}
