//! The differences of two sets of rows as a person reads them, and the statements that repair them.

ghost use Rattle.std.specs.List.{AllByRecursion};
ghost use Rattle.dump.specs.DumpReading.{FitsPlan};
ghost use Rattle.vrepl_vdiff.specs.Shown.{IsDifferencesText, IsRepairText, PrintsSome};

use dump::DumpRows;
use filter_rule::Plan;
use printing::{Out, put_all};
use std::alloc::Global;
use vdiff_sql::repair_text;
use vdiff_text::differences_text;
use vrepl_main::CommandRefusal;

/// Prints the first `count` differences as a person reads them.
pub(crate) fn print_differences<W: Out>(
    alloc: Global,
    plan: &Plan,
    source: &DumpRows,
    target: &DumpRows,
    count: u32,
    out: &mut W,
) -> Result<(), CommandRefusal<'static>>
    ensures { PrintsSome (IsDifferencesText count (record { plan = plan.now; source = source.now; target = target.now })) result (W.written out.old) (W.written out.new) }
{
    let text = differences_text(alloc, plan.tables(), source, target, count)?;
    put_all(out, &text)?;
    Ok(())
}

/// Prints the statements that make the target's rows in a schema the source's.
pub(crate) fn print_repair<W: Out>(
    alloc: Global,
    schema: &str,
    plan: &Plan,
    source: &DumpRows,
    target: &DumpRows,
    out: &mut W,
) -> Result<(), CommandRefusal<'static>>
    requires source { AllByRecursion (FitsPlan plan.now) source.now }
    requires target { AllByRecursion (FitsPlan plan.now) target.now }
    ensures { PrintsSome (IsRepairText schema.now (record { plan = plan.now; source = source.now; target = target.now })) result (W.written out.old) (W.written out.new) }
{
    let text = repair_text(alloc, schema, plan, source, target)?;
    put_all(out, &text)?;
    Ok(())
}
