//! Groups of changes, as they are lent.

ghost use Rattle.std.specs.Prelude.{◌≡◌, length};
ghost use Rattle.std.specs.Iterator.{YieldsFirstBy, item_count};
ghost use Rattle.source_feed.specs.Private.FeedTables.{names_in};
ghost use Rattle.source_feed.specs.Private.KeptGroups.{named, named_group};

use crate::feed_tables::FeedTables;
use crate::kept::{KeptChange, KeptGroup};
use gtid_set::GtidSet;
use row_view::{RowBytes, RowView};
use std::marker::Model;
use std::slice::Iter;

/// A change of one row of a table, lent. Nothing is copied: its name and its rows are slices of the feed's
/// buffer, and a view of a row is made when it is asked for.
#[derive(Drop)]
pub struct Change<'g, 'h> {
    table: &'h str,
    kept: &'g KeptChange<'h>,
}

impl<'g, 'h> Model for Change<'g, 'h> {
    ghost use Rattle.source_feed.specs.GroupValue.{TableChangeValue};

    ghost Value = { TableChangeValue };

    ghost view = { λ c. record { table = c.table.now; before = c.kept.now.rows.before; after = c.kept.now.rows.after } };
}

impl<'g, 'h> Change<'g, 'h> {
    /// The table's name, without the feed's keyspace and its dot.
    pub fn table(&self) -> &'h str
        ensures { result.now ≡ self.now.table }
    {
        self.table
    }

    /// The row before the change, or `None` for an insert. The view is made anew.
    pub fn before(&self) -> Option<RowView<'h>>
        ensures { result ≡ self.now.before }
    {
        let row = self.before_bytes()?;
        Some(row.view())
    }

    /// The row after the change, or `None` for a delete. The view is made anew.
    pub fn after(&self) -> Option<RowView<'h>>
        ensures { result ≡ self.now.after }
    {
        let row = self.after_bytes()?;
        Some(row.view())
    }

    /// The bytes of the row before the change, or `None` for an insert. Reads no row.
    pub fn before_bytes(&self) -> Option<RowBytes<'h>>
        ensures { result ≡ self.now.before }
    {
        self.kept.before()
    }

    /// The bytes of the row after the change, or `None` for a delete. Reads no row.
    pub fn after_bytes(&self) -> Option<RowBytes<'h>>
        ensures { result ≡ self.now.after }
    {
        self.kept.after()
    }
}

/// The changes of a group that are still to come. Seen in contracts as the list of them.
#[derive(Drop)]
pub struct GroupChanges<'g, 'h> {
    tables: &'g FeedTables<'h>,
    left: Iter<'g, KeptChange<'h>>,
}

impl<'g, 'h> Model for GroupChanges<'g, 'h> {
    ghost use Rattle.std.specs.Prelude.{List, map};
    ghost use Rattle.source_feed.specs.GroupValue.{TableChangeValue};
    ghost use Rattle.source_feed.specs.Private.FeedTables.{names_in};
    ghost use Rattle.source_feed.specs.Private.KeptGroups.{named};

    ghost Value = { List TableChangeValue };

    ghost view = { λ a. map (named (names_in a.tables.now)) a.left.rest.now };
}

impl<'g, 'h> GroupChanges<'g, 'h> {
    /// How many changes are still to come.
    pub fn len(&self) -> usize
        ensures { result ≡ length self.now }
    {
        self.left.len()
    }
}

impl<'g, 'h> Iterator for GroupChanges<'g, 'h> {
    type Item = Change<'g, 'h>;

    ghost next_gives = { YieldsFirstBy (λ change. change) (λ rest. rest) };

    ghost remaining = { item_count (λ rest. rest) };

    #[inline(always)]
    fn next(&mut self) -> Option<Change<'g, 'h>> {
        let kept = self.left.next()?;
        Some(change_of(self.tables, kept))
    }
}

/// A kept change with its table's name.
#[inline(always)]
fn change_of<'g, 'h>(tables: &'g FeedTables<'h>, kept: &'g KeptChange<'h>) -> Change<'g, 'h>
    ensures { result ≡ named (names_in tables.now) kept.now }
{
    Change {
        table: tables.name(kept.place()),
        kept,
    }
}

/// The changes of one transaction of the source, with the position after them, or a position alone; lent.
#[derive(Drop)]
pub struct Group<'g, 'h> {
    tables: &'g FeedTables<'h>,
    kept: &'g KeptGroup<'h>,
}

impl<'g, 'h> Model for Group<'g, 'h> {
    ghost use Rattle.source_feed.specs.GroupValue.{GroupValue};
    ghost use Rattle.source_feed.specs.Private.FeedTables.{names_in};
    ghost use Rattle.source_feed.specs.Private.KeptGroups.{named_group};

    ghost Value = { GroupValue };

    ghost view = { λ g. named_group (names_in g.tables.now) g.kept.now };
}

impl<'g, 'h> Group<'g, 'h> {
    /// A kept group with the feed's tables.
    pub(crate) fn new(tables: &'g FeedTables<'h>, kept: &'g KeptGroup<'h>) -> Group<'g, 'h>
        ensures { result ≡ named_group (names_in tables.now) kept.now }
    {
        Group { tables, kept }
    }

    /// The group's number in its feed, from 1.
    pub fn number(&self) -> u32
        ensures { result ≡ self.now.number }
    {
        self.kept.number()
    }

    /// The source's position after the group.
    pub fn position(&self) -> &'g GtidSet
        ensures { result.now ≡ self.now.position }
    {
        self.kept.position()
    }

    /// The group's changes, in the feed's order.
    pub fn changes(&self) -> GroupChanges<'g, 'h>
        ensures { result ≡ self.now.changes }
    {
        GroupChanges {
            tables: self.tables,
            left: self.kept.changes().iter(),
        }
    }
}
