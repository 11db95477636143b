//! The rows of a change, with what tells its table.

ghost use Rattle.std.specs.Prelude.{◌≡◌, ◌+◌, ◌||◌, true, false, is_some, IfSome, None};
ghost use Rattle.std.specs.Int.{from_bool};
ghost use Rattle.source_feed.specs.Private.TableRows.{table_of, rows_of};

use row_view::RowBytes;
use std::mem::size_of;
use vevent::RowChange;

/// The slices of the rows that a change has, with a number that tells its table.
#[derive(Drop)]
pub(crate) enum TableRows<'h> {
    Insert {
        table: u32,
        after: RowBytes<'h>,
    },
    Update {
        table: u32,
        before: RowBytes<'h>,
        after: RowBytes<'h>,
    },
    Delete {
        table: u32,
        before: RowBytes<'h>,
    },
}

const _: () = prove!(size_of::<TableRows<'static>>() == 40);

impl<'h> TableRows<'h> {
    /// The rows of a change of a table, if it has one.
    #[inline(always)]
    pub(crate) fn new(table: u32, change: &RowChange<'h>) -> Option<TableRows<'h>>
        ensures some { IfSome result (λ rows. (table_of rows ≡ table) × (rows_of rows ≡ change.now) × ((is_some change.now.before || is_some change.now.after) ≡ true)) }
        ensures none { result ≡ None → (is_some change.now.before || is_some change.now.after) ≡ false }
    {
        match (change.before_bytes(), change.after_bytes()) {
            (None, None) => None,
            (None, Some(after)) => Some(TableRows::Insert { table, after }),
            (Some(before), None) => Some(TableRows::Delete { table, before }),
            (Some(before), Some(after)) => {
                Some(TableRows::Update {
                    table,
                    before,
                    after,
                })
            }
        }
    }

    /// The number that tells the table.
    pub(crate) fn table(&self) -> u32
        ensures { result ≡ table_of self.now }
    {
        match self {
            TableRows::Insert { table, .. } => *table,
            TableRows::Update { table, .. } => *table,
            TableRows::Delete { table, .. } => *table,
        }
    }

    /// The bytes of the row before the change, or `None` for an insert. Reads no row.
    pub(crate) fn before(&self) -> Option<RowBytes<'h>>
        ensures { let rows = rows_of self.now in result ≡ rows.before }
    {
        match self {
            TableRows::Insert { .. } => None,
            TableRows::Update { before, .. } => Some(before.copy()),
            TableRows::Delete { before, .. } => Some(before.copy()),
        }
    }

    /// The bytes of the row after the change, or `None` for a delete. Reads no row.
    pub(crate) fn after(&self) -> Option<RowBytes<'h>>
        ensures { let rows = rows_of self.now in result ≡ rows.after }
    {
        match self {
            TableRows::Insert { after, .. } => Some(after.copy()),
            TableRows::Update { after, .. } => Some(after.copy()),
            TableRows::Delete { .. } => None,
        }
    }

    /// How many rows the change has.
    pub(crate) fn count(&self) -> usize
        ensures { let rows = rows_of self.now in result ≡ from_bool (is_some rows.before) + from_bool (is_some rows.after) }
    {
        match self {
            TableRows::Insert { .. } | TableRows::Delete { .. } => 1,
            TableRows::Update { .. } => 2,
        }
    }

    /// The same rows, whose table is told by another number.
    #[inline(always)]
    pub(crate) fn of_table(self, number: u32) -> TableRows<'h>
        ensures table { table_of result ≡ number }
        ensures rows { rows_of result ≡ rows_of self.entry }
    {
        match self {
            TableRows::Insert { after, .. } => {
                TableRows::Insert {
                    table: number,
                    after,
                }
            }
            TableRows::Update { before, after, .. } => {
                TableRows::Update {
                    table: number,
                    before,
                    after,
                }
            }
            TableRows::Delete { before, .. } => {
                TableRows::Delete {
                    table: number,
                    before,
                }
            }
        }
    }
}
