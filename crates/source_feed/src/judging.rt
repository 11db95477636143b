//! What stands in a group that has no touches, found without memory.

ghost use Rattle.std.specs.Prelude.{◌≡◌, ◌<◌, ℕ, IsTrue, length, Some, slice_get};
ghost use Rattle.std.specs.Result.{result_err};
ghost use Rattle.vevent.specs.Columns.{has_columns};
ghost use Rattle.filter_rule.specs.PlanValue.{columns_of};
ghost use Rattle.source_feed.specs.Planned.{PlannedChangeValue, IsChangeUnder};
ghost use Rattle.source_feed.specs.Touches.{touches_before, touches_after, touches_of_change, touches_of};

use crate::fault::FeedFault;
use crate::planned::{PlannedChange, PlannedGroup};
use crate::preparing::Place;
use filter_rule::Plan;
use row_view::RowBytes;

impl Place<'_> {
    /// Refuses the row before a change, if there is one, where it has no key.
    fn judge_before(&self, row: Option<RowBytes<'_>>) -> Result<(), FeedFault>
        requires table { self.now.table < length self.now.plan.now.tables }
        requires columns { IsTrue (has_columns (length (columns_of self.now.plan.now self.now.table)) row) }
        ensures { result_err result ≡ result_err (touches_before self.now.plan.now self.now.group self.now.table row.entry) }
    {
        if let Some(row) = row {
            self.key_view(&row)?;
        }
        Ok(())
    }

    /// Refuses the row after a change, if there is one, where it has no key or the filter has no answer.
    fn judge_after(&self, row: Option<RowBytes<'_>>) -> Result<(), FeedFault>
        requires table { self.now.table < length self.now.plan.now.tables }
        requires columns { IsTrue (has_columns (length (columns_of self.now.plan.now self.now.table)) row) }
        ensures { result_err result ≡ result_err (touches_after self.now.plan.now self.now.group self.now.table row.entry) }
    {
        if let Some(row) = row {
            self.key_view(&row)?;
            self.passes(&row)?;
        }
        Ok(())
    }
}

/// Refuses a change that isn't sound.
fn judge_change(plan: &Plan, group: u32, change: &PlannedChange<'_>) -> Result<(), FeedFault>
    requires { IsChangeUnder plan.now change.now }
    ensures { result_err result ≡ result_err (touches_of_change plan.now group change.now) }
{
    let table = change.table();
    let place = Place { plan, group, table };
    place.judge_before(change.before())?;
    place.judge_after(change.after())?;
    Ok(())
}

/// Refuses a group that isn't sound, by the first row that has no key or no answer of the filter. Takes no
/// memory.
pub(crate) fn judge(plan: &Plan, group: &PlannedGroup<'_>) -> Result<(), FeedFault>
    requires { (j : ℕ) (change : PlannedChangeValue) → slice_get group.now.changes j ≡ Some change → IsChangeUnder plan.now change }
    ensures { result_err result ≡ result_err (touches_of plan.now group.now.number group.now.changes) }
{
    let changes = group.changes();
    for change in changes {
        judge_change(plan, group.number(), change)?;
    }
    Ok(())
}
