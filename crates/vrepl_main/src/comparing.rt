//! The subcommand `vdiff`: two dumps compared.

ghost use Rattle.std.specs.Prelude.{◌≡◌, ◌≢◌, IfOk, IfErr};
ghost use Rattle.std.specs.Option.{option_map};
ghost use Rattle.vrepl_main.specs.Adding.{AddsText, at};
ghost use Rattle.vrepl_main.specs.Comparison.{count_line, report_text, first_line, first_text, AreTextsReadOnce, IsComparedAs, PrintsComparison, RefusesDumps, ComparisonEnds};

use crate::key_text::print_key;
use crate::output::{put_all, put_between, put_str};
use crate::refusal::{CommandRefusal, refuse};
use crate::refused_text::name_of_table;
use dump::{DumpRows, read_dump_beside, read_lined_dump, texts_are_read_once};
use filter_rule::{Plan, Table};
use pace::Meter;
use pk_copy::Key;
use printing::{Gathered, Out, OutFailed};
use std::alloc::Global;
use vdiff::{Report, compare, first_difference};

/// How two dumps compare.
#[derive(Clone, Copy)]
pub enum Verdict {
    /// They are of the same rows.
    Same,
    /// They differ at a key.
    Differ,
}

/// Compares two dumps of a workflow's tables, and prints on `out` the five counts, one a line, and behind
/// them the least key at which the two differ, if there is one; or prints the line of a refusal on `err` and
/// then nothing on `out`, unless it is `out` that can't be written. The faults are found in this order: the
/// workflow file's, the source's, the target's. Of the workflow its tables alone count. Answers the status: 0
/// where the dumps are of the same rows, 3 where they differ, 1 after a refusal, also of memory. Each line of a dump is a part
/// that is done once it is read; that so many begin is the caller's to tell.
pub fn vdiff<M: Meter, W: Out, E: Out>(
    alloc: Global,
    workflow: &[u8],
    source: &[u8],
    target: &[u8],
    meter: &M,
    out: &mut W,
    err: &mut E,
) -> u8
    ensures ends { ComparisonEnds workflow.now source.now target.now result (W.written out.old) (W.written out.new) (E.written err.old) (E.written err.new) }
    ensures quiet { result ≢ 1 → err.new ≡ err.old }
    // The files are read as one thing alone.
    ensures determined { AreTextsReadOnce workflow.now source.now target.now }
{
    texts_are_read_once();
    match print_vdiff(alloc, workflow, source, target, meter, out) {
        Ok(Verdict::Same) => 0,
        Ok(Verdict::Differ) => 3,
        Err(refusal) => refuse(err, &refusal),
    }
}

/// Prints the comparison of two dumps, or nothing where one of the files is refused.
fn print_vdiff<M: Meter, W: Out>(
    alloc: Global,
    workflow: &[u8],
    source: &[u8],
    target: &[u8],
    meter: &M,
    out: &mut W,
) -> Result<Verdict, CommandRefusal<'static>>
    ensures compared { IfOk result (λ verdict. IsComparedAs verdict workflow.now source.now target.now (W.written out.old) (W.written out.new)) }
    ensures refused { IfErr result (λ refusal. RefusesDumps workflow.now source.now target.now refusal (W.written out.old) (W.written out.new)) }
{
    let plans = Plan::read_all(alloc, workflow)?;
    let plan = &plans[0];
    let source = read_lined_dump(alloc, plan, source, meter)?;
    let target = read_dump_beside(alloc, plan, target, &source, meter)?;
    let verdict = print_comparison(out, plan, source.rows(), &target)?;
    Ok(verdict)
}

/// Prints the comparison of rows.
fn print_comparison<W: Out>(
    out: &mut W,
    plan: &Plan,
    source: &DumpRows,
    target: &DumpRows,
) -> Result<Verdict, OutFailed>
    ensures { PrintsComparison result (record { plan = plan.now; source = source.now; target = target.now }) (W.written out.old) (W.written out.new) }
{
    let report = compare(source, target);
    let first = first_difference(source, target);
    let mut text = Gathered::new();
    print_report(out, &mut text, &report)?;
    print_first(out, &mut text, plan.tables(), first)?;
    text.finish(out)?;
    match first {
        None => Ok(Verdict::Same),
        Some(_) => Ok(Verdict::Differ),
    }
}

/// Adds the five counts.
fn print_report<W: Out>(out: &mut W, text: &mut Gathered, report: &Report) -> Result<(), OutFailed>
    ensures { AddsText result (at (W.written out.old) text.old) (at (W.written out.new) text.new) (report_text report.now) }
{
    print_count(out, text, "processed ", report.processed)?;
    print_count(out, text, "matching ", report.matching)?;
    print_count(out, text, "mismatched ", report.mismatched)?;
    print_count(out, text, "extra source ", report.extra_source)?;
    print_count(out, text, "extra target ", report.extra_target)
}

/// Adds the line of a count.
fn print_count<W: Out>(
    out: &mut W,
    text: &mut Gathered,
    name: &str,
    count: usize,
) -> Result<(), OutFailed>
    ensures { AddsText result (at (W.written out.old) text.old) (at (W.written out.new) text.new) (count_line name.now count) }
{
    put_between(out, text, name, count as u64, "\n")
}

/// Adds the line of the first difference, if there is one.
fn print_first<W: Out>(
    out: &mut W,
    text: &mut Gathered,
    tables: &[Table],
    first: Option<&Key>,
) -> Result<(), OutFailed>
    ensures { AddsText result (at (W.written out.old) text.old) (at (W.written out.new) text.new) (first_text tables.now (option_map (λ key. key.now) first.entry)) }
{
    match first {
        None => Ok(()),
        Some(key) => print_first_line(out, text, tables, key),
    }
}

/// Adds the table and the key of the first difference.
fn print_first_line<W: Out>(
    out: &mut W,
    text: &mut Gathered,
    tables: &[Table],
    key: &Key,
) -> Result<(), OutFailed>
    ensures { AddsText result (at (W.written out.old) text.old) (at (W.written out.new) text.new) (first_line tables.now key.now) }
{
    put_all(out, text, b"first table ")?;
    put_str(out, text, name_of_table(tables, key.table()))?;
    put_all(out, text, b" key ")?;
    print_key(out, text, key)?;
    put_all(out, text, b"\n")
}
