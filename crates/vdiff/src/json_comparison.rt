//! The comparison of two sets of rows as one line of JSON.

ghost use Rattle.std.specs.Prelude.{◌≡◌, codes, IfOk, map, List, string_bytes};
ghost use Rattle.serde_json.specs.Data.{array, member, no_members, object};
ghost use Rattle.serde_json.specs.View.{items_of, view};
ghost use Rattle.vdiff.specs.Report.{report_of};
ghost use Rattle.vdiff.specs.Json.{comparison_data, counts_before, json_line, table_data};
ghost use Rattle.vdiff.specs.Differences.{AreFirstDifferences, Difference};
ghost use Rattle.vdiff.specs.NamedReports.{named_report};
ghost use Rattle.vdiff.specs.Reports.{reports_from};

use crate::json_differences::differences_value;
use crate::json_line::line_of;
use crate::report::{Report, compare};
use crate::reports::{TableReport, table_reports};
use dump::DumpRows;
use filter_rule::Plan;
use serde_json::{Value, json};
use std::alloc::{AllocError, Global};

/// The line of JSON of a comparison: the first `count` keys at which the two differ with both rows, the five counts,
/// and those of each table in the plan's order. An error is want of memory.
pub fn comparison_line(
    alloc: Global,
    plan: &Plan,
    source: &DumpRows,
    target: &DumpRows,
    count: u32,
) -> Result<String, AllocError>
    ensures { IfOk result (λ line. (found : List Difference) × AreFirstDifferences count source.now target.now found
        × (string_bytes line ≡ json_line (comparison_data plan.now.tables (report_of source.now target.now) (reports_from 0 plan.now.tables source.now target.now) found))) }
{
    let report = compare(source, target);
    let differences = differences_value(alloc, plan.tables(), source, target, count)?;
    let reports = table_reports(alloc, plan, source, target)?;
    let tables = tables_value(alloc, &reports)?;
    let whole = comparison_value(alloc, &report, differences, tables)?;
    let line = line_of(alloc, &whole)?;
    Ok(line)
}

/// The object of a comparison.
fn comparison_value(
    alloc: Global,
    report: &Report,
    differences: Value,
    tables: Value,
) -> Result<Value, AllocError>
    ensures { IfOk result (λ made. view made ≡ object (member (codes "differences") (view differences) (counts_before report.now (member (codes "tables") (view tables) no_members)))) }
{
    json!(in alloc; {
        "differences": differences,
        "extra_source": report.extra_source,
        "extra_target": report.extra_target,
        "matching": report.matching,
        "mismatched": report.mismatched,
        "processed": report.processed,
        "tables": tables
    })
}

/// The tables, each with its counts.
fn tables_value(alloc: Global, reports: &[TableReport<'_>]) -> Result<Value, AllocError>
    ensures { IfOk result (λ made. view made ≡ array (items_of (map table_data (map named_report reports.now)))) }
{
    let mut tables = Vec::with_capacity(alloc, reports.len())?;
    for report in reports {
        let table = table_value(alloc, report)?;
        tables.push(table)?;
    }
    Ok(Value::Array(tables))
}

/// A table with its counts.
fn table_value(alloc: Global, table: &TableReport<'_>) -> Result<Value, AllocError>
    ensures { IfOk result (λ made. view made ≡ table_data (named_report table.now)) }
{
    let report = &table.report;
    json!(in alloc; {
        "extra_source": report.extra_source,
        "extra_target": report.extra_target,
        "matching": report.matching,
        "mismatched": report.mismatched,
        "processed": report.processed,
        "table": table.name
    })
}
