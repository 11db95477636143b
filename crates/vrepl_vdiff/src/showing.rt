//! The comparison of two sets of rows, printed by options.

ghost use Rattle.std.specs.Prelude.{◌≡◌, IfOk, map};
ghost use Rattle.std.specs.List.{AllByRecursion};
ghost use Rattle.dump.specs.DumpReading.{FitsPlan};
ghost use Rattle.vdiff.specs.NamedReports.{named_report};
ghost use Rattle.vrepl_vdiff.specs.Shown.{IsVerdict, PrintsShown, PrintsSome, by_form, reports_asked};

use crate::options::{Detail, Options};
use crate::repairing::{print_differences, print_repair};
use crate::text::print_text;
use dump::DumpRows;
use filter_rule::Plan;
use printing::{Out, put_all};
use std::alloc::{AllocError, Global};
use vdiff::{TableReport, comparison_line, first_difference, table_reports};
use vrepl_choices::ReportForm;
use vrepl_main::{CommandRefusal, Verdict};

/// Prints what the options show of two sets of rows. A refusal is want of memory, and then nothing was printed, or that
/// `out` can't be written.
pub(crate) fn print_shown<W: Out>(
    alloc: Global,
    options: &Options<'_>,
    plan: &Plan,
    source: &DumpRows,
    target: &DumpRows,
    out: &mut W,
) -> Result<(), CommandRefusal<'static>>
    requires source { AllByRecursion (FitsPlan plan.now) source.now }
    requires target { AllByRecursion (FitsPlan plan.now) target.now }
    ensures { PrintsShown options.now result (record { plan = plan.now; source = source.now; target = target.now }) (W.written out.old) (W.written out.new) }
{
    match options.detail {
        Detail::Comparison => print_comparison(alloc, options, plan, source, target, out),
        Detail::Text => {
            let count = options.first.unwrap_or(u32::MAX);
            print_differences(alloc, plan, source, target, count, out)
        }
        Detail::Sql(schema) => print_repair(alloc, schema, plan, source, target, out),
    }
}

/// Prints the comparison of two sets of rows by the options.
fn print_comparison<W: Out>(
    alloc: Global,
    options: &Options<'_>,
    plan: &Plan,
    source: &DumpRows,
    target: &DumpRows,
    out: &mut W,
) -> Result<(), CommandRefusal<'static>>
    ensures { PrintsSome (by_form options.now.report_form options.now (record { plan = plan.now; source = source.now; target = target.now })) result (W.written out.old) (W.written out.new) }
{
    match options.report_form {
        ReportForm::Json => {
            let count = options.first.unwrap_or(1);
            let line = comparison_line(alloc, plan, source, target, count)?;
            put_all(out, line.as_bytes())?;
            Ok(())
        }
        ReportForm::Lines => {
            let reports = asked_reports(alloc, options.tables, plan, source, target)?;
            let count = options.first.unwrap_or(0);
            print_text(out, plan, source, target, &reports, count)?;
            Ok(())
        }
    }
}

/// The counts of the tables, where they are asked for. An error is want of memory.
fn asked_reports<'p>(
    alloc: Global,
    asked: bool,
    plan: &'p Plan,
    source: &DumpRows,
    target: &DumpRows,
) -> Result<Vec<TableReport<'p>>, AllocError>
    ensures { IfOk result (λ reports. map named_report reports.items ≡ reports_asked asked (record { plan = plan.entry.now; source = source.now; target = target.now })) }
{
    if asked {
        table_reports(alloc, plan, source, target)
    } else {
        Ok(Vec::new(alloc))
    }
}

/// How two sets of rows compare. Takes no memory.
pub(crate) fn verdict_of(source: &DumpRows, target: &DumpRows) -> Verdict
    ensures { IsVerdict result source.now target.now }
{
    match first_difference(source, target) {
        None => Verdict::Same,
        Some(_) => Verdict::Differ,
    }
}
