//! The counts of tables as text, a line a table.

ghost use Rattle.std.specs.Prelude.{map};
ghost use Rattle.printing.specs.Printing.{Adds};
ghost use Rattle.vdiff.specs.NamedReports.{named_report};
ghost use Rattle.vdiff.specs.Texts.{table_text, tables_text};

use crate::counts::add_counts;
use crate::put::put_str;
use crate::reports::TableReport;
use printing::{Gathered, Out, OutFailed};

/// Adds a line a table: its name and the five counts. Takes no memory.
pub fn add_tables<O: Out>(
    out: &mut O,
    text: &mut Gathered,
    tables: &[TableReport<'_>],
) -> Result<(), OutFailed>
    ensures { Adds result (O.written out.old) text.old (O.written out.new) text.new (tables_text (map named_report tables.now)) }
{
    for table in tables {
        add_table(out, text, table)?;
    }
    Ok(())
}

/// Adds the line of a table.
fn add_table<O: Out>(
    out: &mut O,
    text: &mut Gathered,
    table: &TableReport<'_>,
) -> Result<(), OutFailed>
    ensures { Adds result (O.written out.old) text.old (O.written out.new) text.new (table_text (named_report table.now)) }
{
    put_str(out, text, "table ")?;
    put_str(out, text, table.name)?;
    put_str(out, text, " ")?;
    add_counts(out, text, " ", &table.report)
}
