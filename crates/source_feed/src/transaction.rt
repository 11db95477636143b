//! The open transaction of a feed.

ghost use Rattle.std.specs.Prelude.{◌≡◌, ℕ, ◌++◌, None, Some, OnOk, IfErr};
ghost use Rattle.std.specs.List.{list_all};
ghost use Rattle.list_laws.specs.Outcome.{IsFault};
ghost use Rattle.vevent.specs.Columns.{has_columns, have_columns};
ghost use Rattle.source_feed.specs.FaultNumber.{meant_of};
ghost use Rattle.source_feed.specs.declared.fault.FeedFault.TheVariants.{Memory};
ghost use Rattle.source_feed.specs.Private.FeedTables.{counted};
ghost use Rattle.source_feed.specs.Private.KeptGroups.{kept_in, all_kept, last_table};
ghost use Rattle.source_feed.specs.Groups.{row_fault};

use crate::fault::FeedFault;
use crate::kept::KeptChange;
use gtid_set::GtidSet;
use row_view::RowView;
use vevent::{RowChange, RowChanges, RowEvent};

/// What the open transaction has so far.
#[derive(Drop)]
pub(crate) struct Transaction<'h> {
    /// its last position
    pub(crate) position: Option<GtidSet>,
    pub(crate) changes: Vec<KeptChange<'h>>,
}

/// A row has so many columns, if there is one.
fn has_width(width: u16, row: &Option<RowView<'_>>) -> bool
    ensures { (columns : ℕ) → width ≡ counted columns → result ≡ has_columns columns row.now }
{
    match row {
        None => true,
        Some(row) => row.len() == usize::from(width),
    }
}

/// All rows have so many columns; each row is read for it.
fn all_have_width(rows: RowChanges<'_>, width: u16) -> bool
    ensures { (columns : ℕ) → width ≡ counted columns → result ≡ list_all (have_columns columns) rows.entry }
{
    for change in rows {
        if !(has_width(width, &change.before()) && has_width(width, &change.after())) {
            return false;
        }
    }
    true
}

/// All rows of a ROW event have so many columns. Reads no row, but for a table of 65,535 columns or more,
/// which no row can have.
fn rows_fit(row: &RowEvent<'_>, width: u16) -> bool
    ensures { (columns : ℕ) → width ≡ counted columns → result ≡ list_all (have_columns columns) row.now.changes }
{
    if width < u16::MAX {
        row.all_have(usize::from(width))
    } else {
        all_have_width(row.changes(), width)
    }
}

/// Puts a row change behind others, if it has a row.
fn push_change<'h>(
    changes: &mut Vec<KeptChange<'h>>,
    place: u32,
    rows: &RowChange<'h>,
) -> Result<(), FeedFault>
    ensures pushed { OnOk result (changes.new.items ≡ changes.old.items ++ kept_in place rows.now) }
    ensures err { IfErr result (λ fault. fault ≡ Memory) }
{
    if let Some(change) = KeptChange::new(place, rows) {
        changes.push(change)?;
    }
    Ok(())
}

/// Puts row changes of a table behind others.
fn push_changes<'h>(
    changes: &mut Vec<KeptChange<'h>>,
    place: u32,
    rows: RowChanges<'h>,
) -> Result<(), FeedFault>
    ensures pushed { OnOk result (changes.new.items ≡ changes.old.items ++ all_kept place rows.entry) }
    ensures err { IfErr result (λ fault. fault ≡ Memory) }
{
    for change in rows {
        push_change(changes, place, &change)?;
    }
    Ok(())
}

impl<'h> Transaction<'h> {
    /// The place of the last change's table, which the next row's mostly is; 0 where there is no change.
    pub(crate) fn last_table(&self) -> u32
        ensures { result ≡ last_table self.now.changes.items }
    {
        match self.changes.last() {
            None => 0,
            Some(change) => change.place(),
        }
    }

    /// Puts the changes of a ROW event behind the others, of the table at a place that has so many columns.
    /// All rows are judged before the first is put.
    pub(crate) fn put_row(
        &mut self,
        place: u32,
        width: u16,
        row: &RowEvent<'h>,
    ) -> Result<(), FeedFault>
        ensures fits { (columns : ℕ) → width ≡ counted columns → OnOk result (row_fault (Some columns) row.now.changes ≡ None) }
        ensures position { OnOk result (self.new.position ≡ self.old.position) }
        ensures changes { OnOk result (self.new.changes.items ≡ self.old.changes.items ++ all_kept place row.now.changes) }
        ensures err { (columns : ℕ) → width ≡ counted columns → IfErr result (λ fault. IsFault meant_of fault (row_fault (Some columns) row.now.changes)) }
    {
        if !rows_fit(row, width) {
            return Err(FeedFault::ColumnCount);
        }
        push_changes(&mut self.changes, place, row.changes())
    }
}
