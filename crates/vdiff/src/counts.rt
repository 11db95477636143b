//! The five counts of a comparison as text.

ghost use Rattle.printing.specs.Printing.{Adds};
ghost use Rattle.vdiff.specs.Texts.{count_text, counts_text};

use crate::put::{put_number, put_str};
use crate::report::Report;
use printing::{Gathered, Out, OutFailed};

/// Adds the five counts behind their names, with `between` between them, and the end of the line. Takes no memory.
pub fn add_counts<O: Out>(
    out: &mut O,
    text: &mut Gathered,
    between: &str,
    report: &Report,
) -> Result<(), OutFailed>
    ensures { Adds result (O.written out.old) text.old (O.written out.new) text.new (counts_text between.now report.now) }
{
    add_count(out, text, "processed ", report.processed, between)?;
    add_count(out, text, "matching ", report.matching, between)?;
    add_count(out, text, "mismatched ", report.mismatched, between)?;
    add_count(out, text, "extra source ", report.extra_source, between)?;
    add_count(out, text, "extra target ", report.extra_target, "\n")
}

/// Adds a count between its name and what stands behind it.
fn add_count<O: Out>(
    out: &mut O,
    text: &mut Gathered,
    name: &str,
    count: usize,
    behind: &str,
) -> Result<(), OutFailed>
    ensures { Adds result (O.written out.old) text.old (O.written out.new) text.new (count_text name.now count behind.now) }
{
    put_str(out, text, name)?;
    put_number(out, text, count)?;
    put_str(out, text, behind)
}
