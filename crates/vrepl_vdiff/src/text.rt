//! A comparison as lines of text.

ghost use Rattle.std.specs.Prelude.{List, ℕ, map};
ghost use Rattle.std.specs.Option.{option_map};
ghost use Rattle.printing.specs.Printing.{Adds, Prints};
ghost use Rattle.vdiff.specs.NamedReports.{named_report};
ghost use Rattle.vrepl_main.specs.Comparison.{first_text};
ghost use Rattle.vrepl_vdiff.specs.Shown.{IsTextOf};

use dump::DumpRows;
use filter_rule::{Plan, Table};
use pk_copy::Key;
use printing::{Gathered, Out, OutFailed};
use vdiff::{
    TableReport, add_counts, add_differences, add_key_line, add_tables, compare, first_difference,
    first_differences_are_there,
};

/// Prints the lines of some tables, the five counts and the first key at which the two differ, and the first `count`
/// differences.
pub(crate) fn print_text<W: Out>(
    out: &mut W,
    plan: &Plan,
    source: &DumpRows,
    target: &DumpRows,
    reports: &[TableReport<'_>],
    count: u32,
) -> Result<(), OutFailed>
    ensures { (text : List ℕ) × IsTextOf (record { plan = plan.now; source = source.now; target = target.now }) (map named_report reports.now) count text
        × Prints result (W.written out.old) (W.written out.new) text }
{
    let report = compare(source, target);
    let first = first_difference(source, target);
    first_differences_are_there(source, target, count);
    let mut text = Gathered::new();
    add_tables(out, &mut text, reports)?;
    add_counts(out, &mut text, "\n", &report)?;
    add_first(out, &mut text, plan.tables(), first)?;
    add_differences(out, &mut text, plan.tables(), source, target, count)?;
    text.finish(out)
}

/// Adds the line of the first key at which the two differ, if there is one.
fn add_first<W: Out>(
    out: &mut W,
    text: &mut Gathered,
    tables: &[Table],
    first: Option<&Key>,
) -> Result<(), OutFailed>
    ensures { Adds result (W.written out.old) text.old (W.written out.new) text.new (first_text tables.now (option_map (λ key. key.now) first.entry)) }
{
    match first {
        None => Ok(()),
        Some(key) => add_key_line(out, text, tables, "first table ", key),
    }
}
