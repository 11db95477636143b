//! What a patch does.

ghost use Rattle.std.specs.List.{AllByRecursion};
ghost use Rattle.dump.specs.DumpReading.{FitsPlan};
ghost use Rattle.vdiff_patch.specs.Patch.{patch_of};
ghost use Rattle.vdiff_patch.specs.Repair.{IsRepair};

use dump::DumpRows;
use filter_rule::Plan;
use pk_copy::keys_tie_where_they_are_equal;

/// The patch of two sets of rows of a plan's tables, applied to the target's, gives the source's: each of its changes
/// can be made where the earlier ones were, and their keys rise. Takes no memory.
pub fn patches_repair(plan: &Plan, source: &DumpRows, target: &DumpRows)
    requires source { AllByRecursion (FitsPlan plan.now) source.now }
    requires target { AllByRecursion (FitsPlan plan.now) target.now }
    ensures { IsRepair source.now target.now (patch_of source.now target.now) }
{
    keys_tie_where_they_are_equal();
    let _plan = plan;
    let _source = source.as_slice();
    let _target = target.as_slice();
}
