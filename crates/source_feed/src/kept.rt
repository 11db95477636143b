//! Groups as they are kept.

ghost use Rattle.std.specs.Prelude.{◌≡◌, [], ◌∷◌, None, IfSome};
ghost use Rattle.source_feed.specs.Private.KeptGroups.{kept_in};
ghost use Rattle.source_feed.specs.Private.TableRows.{table_of, rows_of};

use crate::feed_tables::FeedTables;
use crate::table_rows::TableRows;
use gtid_set::GtidSet;
use row_view::RowBytes;
use std::marker::Model;
use std::mem::size_of;
use vevent::RowChange;

/// A change of one row: its rows, with the place of its table among the feed's tables.
#[derive(Drop)]
pub(crate) struct KeptChange<'h> {
    rows: TableRows<'h>,
}

const _: () = prove!(size_of::<KeptChange<'static>>() == 40);

impl<'h> Model for KeptChange<'h> {
    ghost use Rattle.source_feed.specs.Private.KeptGroups.{KeptChangeValue};
    ghost use Rattle.source_feed.specs.Private.TableRows.{table_of, rows_of};

    ghost Value = { KeptChangeValue };

    ghost view = { λ c. record { place = table_of c.rows; rows = rows_of c.rows } };
}

impl<'h> KeptChange<'h> {
    /// A change of the table at a place, if it has a row.
    #[inline(always)]
    pub(crate) fn new(place: u32, change: &RowChange<'h>) -> Option<KeptChange<'h>>
        ensures some { IfSome result (λ kept. kept_in place change.now ≡ kept ∷ []) }
        ensures none { result ≡ None → kept_in place change.now ≡ [] }
    {
        let rows = TableRows::new(place, change)?;
        Some(KeptChange { rows })
    }

    /// The place of the change's table among the feed's tables.
    pub(crate) fn place(&self) -> u32
        ensures { result ≡ self.now.place }
    {
        self.rows.table()
    }

    /// The bytes of the row before the change, or `None` for an insert. Reads no row.
    pub(crate) fn before(&self) -> Option<RowBytes<'h>>
        ensures { result ≡ self.now.rows.before }
    {
        self.rows.before()
    }

    /// The bytes of the row after the change, or `None` for a delete. Reads no row.
    pub(crate) fn after(&self) -> Option<RowBytes<'h>>
        ensures { result ≡ self.now.rows.after }
    {
        self.rows.after()
    }

    /// The change's rows, with its table's place.
    pub(crate) fn into_rows(self) -> TableRows<'h>
        ensures table { table_of result ≡ self.entry.place }
        ensures rows { rows_of result ≡ self.entry.rows }
    {
        self.rows
    }
}

/// The changes of one transaction of the source, with the position after them; or a position alone.
#[derive(Drop)]
pub(crate) struct KeptGroup<'h> {
    pub(crate) number: u32,
    pub(crate) position: GtidSet,
    pub(crate) changes: Vec<KeptChange<'h>>,
}

impl<'h> Model for KeptGroup<'h> {
    ghost use Rattle.source_feed.specs.Private.KeptGroups.{KeptGroupValue};

    ghost Value = { KeptGroupValue };

    ghost view = { λ g. record { number = g.number; position = g.position; changes = g.changes.items } };
}

impl<'h> KeptGroup<'h> {
    /// The group's number in its feed, from 1.
    pub(crate) fn number(&self) -> u32
        ensures { result ≡ self.now.number }
    {
        self.number
    }

    /// The source's position after the group.
    pub(crate) fn position(&self) -> &GtidSet
        ensures { result.now ≡ self.now.position }
    {
        &self.position
    }

    /// The group's changes, in the feed's order.
    pub(crate) fn changes(&self) -> &[KeptChange<'h>]
        ensures { result.now ≡ self.now.changes }
    {
        self.changes.as_slice()
    }
}

/// The groups of a feed, with its tables.
#[derive(Drop)]
pub(crate) struct KeptGroups<'h> {
    pub(crate) tables: FeedTables<'h>,
    pub(crate) groups: Vec<KeptGroup<'h>>,
}
