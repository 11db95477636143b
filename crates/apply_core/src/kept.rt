//! The kept columns of a row: in memory of their own, and beside those of another row.

ghost use Rattle.std.specs.Prelude.{◌≡◌, ◌↔◌, ◌<◌, length, IsTrue, IfOk};
ghost use Rattle.filter_rule.specs.PlanValue.{columns_of, kept_columns_of};
ghost use Rattle.row_view.specs.Picked.{picked};
ghost use Rattle.source_feed.specs.History.{RowValue, kept_of};
ghost use Rattle.apply_core.specs.Private.Changes.{IsOfTable};

use filter_rule::Plan;
use pk_copy::LentKey;
use row_view::{RowBuf, RowBytes, are_all};
use std::alloc::{AllocError, Global};

/// Whether all columns of table `t` are kept, in order. That `t` is a table of the plan is the caller's.
fn keeps_all(plan: &Plan, t: u8) -> bool
    requires { t < length plan.now.tables }
    ensures { IsTrue result → (row : RowValue) → length row ≡ length (columns_of plan.now t) → picked (kept_columns_of plan.now t) row ≡ row }
{
    are_all(plan.kept_columns(t), plan.columns(t).len())
}

/// The kept columns of a row, in memory of their own: its bytes where all are kept. That the key is of a
/// table of the plan and the row as wide as it is the caller's. An error is want of memory.
pub(crate) fn copy_kept(
    alloc: Global,
    plan: &Plan,
    key: &LentKey<'_>,
    row: &RowBytes<'_>,
) -> Result<RowBuf, AllocError>
    requires { IsOfTable plan.now key.now row.now }
    ensures { IfOk result (λ kept. kept ≡ kept_of plan.now key.now row.now) }
{
    let t = key.table();
    if keeps_all(plan, t) {
        return RowBuf::from_bytes(alloc, row);
    }
    RowBuf::pick(alloc, &row.view(), plan.kept_columns(t))
}

/// Whether a row is what is kept of another one. That the key is of a table of the plan and the other row
/// as wide as it is the caller's. Takes no memory.
pub(crate) fn is_kept(
    plan: &Plan,
    key: &LentKey<'_>,
    row: &RowBytes<'_>,
    kept: &RowBytes<'_>,
) -> bool
    requires { IsOfTable plan.now key.now row.now }
    ensures { IsTrue result ↔ (kept.now ≡ kept_of plan.now key.now row.now) }
{
    let t = key.table();
    if keeps_all(plan, t) {
        return kept.same(row);
    }
    kept.is_picked(&row.view(), plan.kept_columns(t))
}
