//! The touches of a group.

ghost use Rattle.std.specs.Prelude.{◌≡◌, ◌-◌, ◌^◌, ◌<◌, ℕ, IsTrue, length, min, Some, slice_get};
ghost use Rattle.list_laws.specs.Outcome.{Gives, GivesUnless};
ghost use Rattle.vevent.specs.Columns.{has_columns};
ghost use Rattle.filter_rule.specs.PlanValue.{columns_of};
ghost use Rattle.source_feed.specs.FaultNumber.{meant_of};
ghost use Rattle.source_feed.specs.Planned.{PlannedChangeValue, IsChangeUnder};
ghost use Rattle.source_feed.specs.Touches.{key_in_group, passes_in, removal_of, put_of, touches_before, touches_after, touches_of_change, touches_of};
ghost use Rattle.source_feed.specs.Private.RowCounts.{rows_in};
ghost use Rattle.source_feed.specs.Private.TouchesBehind.{behind};

use crate::fault::FeedFault;
use crate::planned::{PlannedChange, PlannedGroup};
use crate::touch::Touch;
use filter_rule::Plan;
use pk_copy::{KeyView, LentKey, key_of_bytes};
use row_view::RowBytes;
use std::alloc::Global;

/// Where the rows of a change stand: what a refusal of one of them names.
#[derive(Clone, Copy)]
pub(crate) struct Place<'p> {
    pub(crate) plan: &'p Plan,
    pub(crate) group: u32,
    pub(crate) table: u8,
}

impl Place<'_> {
    /// A row is refused, by the number of its cause.
    fn refused(&self, cause: u8) -> FeedFault
        ensures { result ≡ FeedFault.BadRow self.now.group self.now.table cause }
    {
        FeedFault::BadRow {
            group: self.group,
            table: self.table,
            cause,
        }
    }

    /// The key of a row, to be kept.
    fn key<'h>(&self, alloc: Global, row: &RowBytes<'h>) -> Result<LentKey<'h>, FeedFault>
        requires table { self.now.table < length self.now.plan.now.tables }
        requires columns { length row.now ≡ length (columns_of self.now.plan.now self.now.table) }
        ensures { GivesUnless meant_of (λ key. key) result (key_in_group self.now.plan.now self.now.group self.now.table row.now) }
    {
        match LentKey::of_bytes(alloc, self.plan, self.table, row)? {
            Ok(key) => Ok(key),
            Err(fault) => Err(self.refused(fault.number())),
        }
    }

    /// The key of a row, lent. Takes no memory.
    pub(crate) fn key_view<'h>(&self, row: &RowBytes<'h>) -> Result<KeyView<'h>, FeedFault>
        requires table { self.now.table < length self.now.plan.now.tables }
        requires columns { length row.now ≡ length (columns_of self.now.plan.now self.now.table) }
        ensures { Gives (λ key. key) result (key_in_group self.now.plan.now self.now.group self.now.table row.now) }
    {
        match key_of_bytes(self.plan, self.table, row) {
            Ok(key) => Ok(key),
            Err(fault) => Err(self.refused(fault.number())),
        }
    }

    /// What the filter answers of a row. Takes no memory.
    pub(crate) fn passes(&self, row: &RowBytes<'_>) -> Result<bool, FeedFault>
        requires table { self.now.table < length self.now.plan.now.tables }
        requires columns { length row.now ≡ length (columns_of self.now.plan.now self.now.table) }
        ensures { Gives (λ passes. passes) result (passes_in self.now.plan.now self.now.group self.now.table row.now) }
    {
        match self.plan.passes(self.table, row) {
            Ok(passes) => Ok(passes),
            Err(fault) => Err(self.refused(fault.number())),
        }
    }

    /// The touch of a row before the change: its key alone.
    fn removal<'h>(&self, alloc: Global, row: &RowBytes<'h>) -> Result<Touch<'h>, FeedFault>
        requires table { self.now.table < length self.now.plan.now.tables }
        requires columns { length row.now ≡ length (columns_of self.now.plan.now self.now.table) }
        ensures { GivesUnless meant_of (λ touch. touch) result (removal_of self.now.plan.now self.now.group self.now.table row.now) }
    {
        let key = self.key(alloc, row)?;
        Ok(Touch::removal(key))
    }

    /// The touch of a row after the change: its key, and then the filter.
    fn replacement<'h>(&self, alloc: Global, row: RowBytes<'h>) -> Result<Touch<'h>, FeedFault>
        requires table { self.now.table < length self.now.plan.now.tables }
        requires columns { length row ≡ length (columns_of self.now.plan.now self.now.table) }
        ensures { GivesUnless meant_of (λ touch. touch) result (put_of self.now.plan.now self.now.group self.now.table row.entry) }
    {
        let key = self.key(alloc, &row)?;
        let passes = self.passes(&row)?;
        Ok(Touch::replacement(key, row, passes))
    }

    /// Puts the touch of the row before a change, if there is one, behind the earlier ones.
    fn put_before<'h>(
        &self,
        alloc: Global,
        row: Option<RowBytes<'h>>,
        touches: &mut Vec<Touch<'h>>,
    ) -> Result<(), FeedFault>
        requires table { self.now.table < length self.now.plan.now.tables }
        requires columns { IsTrue (has_columns (length (columns_of self.now.plan.now self.now.table)) row) }
        ensures { GivesUnless meant_of (λ _. touches.new.items) result (behind touches.old.items (touches_before self.now.plan.now self.now.group self.now.table row.entry)) }
    {
        if let Some(row) = row {
            touches.push(self.removal(alloc, &row)?)?;
        }
        Ok(())
    }

    /// Puts the touch of the row after a change, if there is one, behind the earlier ones.
    fn put_after<'h>(
        &self,
        alloc: Global,
        row: Option<RowBytes<'h>>,
        touches: &mut Vec<Touch<'h>>,
    ) -> Result<(), FeedFault>
        requires table { self.now.table < length self.now.plan.now.tables }
        requires columns { IsTrue (has_columns (length (columns_of self.now.plan.now self.now.table)) row) }
        ensures { GivesUnless meant_of (λ _. touches.new.items) result (behind touches.old.items (touches_after self.now.plan.now self.now.group self.now.table row.entry)) }
    {
        if let Some(row) = row {
            touches.push(self.replacement(alloc, row)?)?;
        }
        Ok(())
    }
}

/// Puts the touches of a change behind the earlier ones.
fn put_change<'h>(
    alloc: Global,
    plan: &Plan,
    group: u32,
    change: &PlannedChange<'h>,
    touches: &mut Vec<Touch<'h>>,
) -> Result<(), FeedFault>
    requires { IsChangeUnder plan.now change.now }
    ensures { GivesUnless meant_of (λ _. touches.new.items) result (behind touches.old.items (touches_of_change plan.now group change.now)) }
{
    let table = change.table();
    let place = Place { plan, group, table };
    place.put_before(alloc, change.before(), touches)?;
    place.put_after(alloc, change.after(), touches)?;
    Ok(())
}

/// How many rows the changes have, as far as a number goes.
fn count_rows(changes: &[PlannedChange<'_>]) -> usize
    ensures { result ≡ min (rows_in changes.now) (2 ^ 64 - 1) }
{
    let mut rows: usize = 0;
    for change in changes {
        rows = rows.saturating_add(change.row_count());
    }
    rows
}

/// The touches of a group, in order, in a block of their size.
pub(crate) fn touches_of<'h>(
    alloc: Global,
    plan: &Plan,
    group: &PlannedGroup<'h>,
) -> Result<Vec<Touch<'h>>, FeedFault>
    requires { (j : ℕ) (change : PlannedChangeValue) → slice_get group.now.changes j ≡ Some change → IsChangeUnder plan.now change }
    ensures { GivesUnless meant_of (λ touches. touches.items) result (touches_of plan.now group.now.number group.now.changes) }
{
    let changes = group.changes();
    let mut touches = Vec::with_capacity(alloc, count_rows(changes))?;
    for change in changes {
        put_change(alloc, plan, group.number(), change, &mut touches)?;
    }
    Ok(touches)
}
