//! Two sets of rows compared table by table.

ghost use Rattle.std.specs.Prelude.{◌≡◌, IfOk, map};
ghost use Rattle.vdiff.specs.NamedReports.{named_report};
ghost use Rattle.vdiff.specs.Reports.{reports_from};

use crate::report::{Report, compare_rows};
use dump::{DumpRows, place_of_other};
use filter_rule::Plan;
use std::alloc::{AllocError, Global};

/// A table's name, and how many of its keys there are of each kind.
#[derive(Clone, Copy)]
pub struct TableReport<'p> {
    pub name: &'p str,
    pub report: Report,
}

/// Compares two sets of rows table by table, in the plan's order, in one walk over both. An error is want of memory.
pub fn table_reports<'p>(
    alloc: Global,
    plan: &'p Plan,
    source: &DumpRows,
    target: &DumpRows,
) -> Result<Vec<TableReport<'p>>, AllocError>
    ensures { IfOk result (λ reports. map named_report reports.items ≡ reports_from 0 plan.entry.now.tables source.now target.now) }
{
    let tables = plan.tables();
    let mut reports = Vec::with_capacity(alloc, tables.len())?;
    let mut left = source.as_slice();
    let mut right = target.as_slice();
    for t in 0..tables.len() {
        let (ours, lefts) = left.split_at(place_of_other(left, t).unwrap_or(left.len()));
        let (theirs, rights) = right.split_at(place_of_other(right, t).unwrap_or(right.len()));
        reports.push(TableReport {
            name: tables[t].name(),
            report: compare_rows(ours, theirs),
        })?;
        left = lefts;
        right = rights;
    }
    Ok(reports)
}
