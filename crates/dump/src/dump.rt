//! The dump of rows: all tables of a plan as text.

ghost use Rattle.std.specs.Prelude.{◌≡◌, OnOk};
ghost use Rattle.pk_copy.specs.KeyOrder.{key_cmp};
ghost use Rattle.target_tables.specs.Rising.{IsRising};
ghost use Rattle.dump.specs.Dump.{row_line, row_lines, rows_of_table, table_line, table_lines, dump_of};
ghost use Rattle.printing.specs.Printing.{Prints, Adds};
ghost use Rattle.dump.specs.Private.Partings.{parting};
ghost use Rattle.dump.specs.Private.Tables.{AreFrom, behind_table};
ghost use Rattle.dump.specs.DumpRowsValue.{all_rows};

use crate::cells::add_cell;
use crate::lent_rows::{Later, LentRows};
use crate::rows::DumpRows;
use filter_rule::{Plan, Table};
use pk_copy::Key;
use printing::{Gathered, Out, OutFailed};
use row_view::{Columns, RowBuf};
use target_tables::Tables;

/// Writes the dump of the rows: for each table in the plan's order the line `table NAME`, then its rows
/// by key, one a line, the cells parted by one tab; a cell is `x` and the value in lower case
/// hexadecimal, or `N` for NULL. It is written in pieces of up to 4 KiB. After a fault, which comes only
/// of a write that failed in this call, what was written is a beginning of the dump. Takes no memory.
pub fn write_dump<O: Out>(out: &mut O, plan: &Plan, rows: &DumpRows) -> Result<(), OutFailed>
    ensures { Prints result (O.written out.old) (O.written out.new) (dump_of plan.now rows.now) }
{
    let lent = LentRows::new(Later::Own(rows.as_slice()));
    write_lent(out, plan, lent)
}

/// The same of all rows of a target, whoever owns them, as they lie there: none is copied.
pub fn write_target_dump<O: Out>(
    out: &mut O,
    plan: &Plan,
    target: &Tables<Key, RowBuf>,
) -> Result<(), OutFailed>
    ensures { Prints result (O.written out.old) (O.written out.new) (dump_of plan.now (all_rows target.now.entries)) }
{
    let lent = LentRows::new(Later::Target(target.iter()));
    write_lent(out, plan, lent)
}

/// The same of rows that are lent.
fn write_lent<O: Out>(out: &mut O, plan: &Plan, rows: LentRows<'_>) -> Result<(), OutFailed>
    requires { IsRising key_cmp rows }
    ensures { Prints result (O.written out.old) (O.written out.new) (dump_of plan.now rows.entry) }
{
    let mut text = Gathered::new();
    add_tables(out, &mut text, plan.tables(), rows)?;
    text.finish(out)
}

/// Adds the tables, each with its rows.
fn add_tables<O: Out>(
    out: &mut O,
    text: &mut Gathered,
    tables: &[Table],
    mut rows: LentRows<'_>,
) -> Result<(), OutFailed>
    requires { IsRising key_cmp rows }
    ensures { Adds result (O.written out.old) text.old (O.written out.new) text.new (table_lines 0 tables.now rows.entry) }
{
    for t in 0..tables.len() {
        add_table_line(out, text, tables[t].name())?;
        add_rows_of(out, text, t, &mut rows)?;
    }
    Ok(())
}

/// Adds the lines of the rows of table `t`, which no row is before, and leaves them behind.
fn add_rows_of<O: Out>(
    out: &mut O,
    text: &mut Gathered,
    t: usize,
    rows: &mut LentRows<'_>,
) -> Result<(), OutFailed>
    requires rising { IsRising key_cmp rows.old }
    requires from { AreFrom t rows.old }
    ensures added { Adds result (O.written out.old) text.old (O.written out.new) text.new (row_lines (rows_of_table t rows.old)) }
    ensures left { OnOk result (rows.new ≡ behind_table t rows.old) }
{
    while let Some(row) = rows.next_of(t) {
        add_row(out, text, row.columns())?;
    }
    Ok(())
}

/// Adds the line of a table's name.
fn add_table_line<O: Out>(out: &mut O, text: &mut Gathered, name: &str) -> Result<(), OutFailed>
    ensures { Adds result (O.written out.old) text.old (O.written out.new) text.new (table_line name.now) }
{
    text.put(out, b"table ")?;
    text.put(out, name.as_bytes())?;
    text.put(out, b"\n")
}

/// Adds a tab, but none before the first cell of a line.
#[inline(always)]
fn add_parting<O: Out>(out: &mut O, text: &mut Gathered, is_first: bool) -> Result<(), OutFailed>
    ensures { Adds result (O.written out.old) text.old (O.written out.new) text.new (parting is_first) }
{
    if is_first {
        return Ok(());
    }
    text.put(out, b"\t")
}

/// Adds the line of a row.
fn add_row<O: Out>(out: &mut O, text: &mut Gathered, columns: Columns<'_>) -> Result<(), OutFailed>
    ensures { Adds result (O.written out.old) text.old (O.written out.new) text.new (row_line columns.entry) }
{
    let mut is_first = true;
    for column in columns {
        add_parting(out, text, is_first)?;
        add_cell(out, text, &column)?;
        is_first = false;
    }
    text.put(out, b"\n")
}
