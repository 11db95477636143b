//! The first keys at which two sets of rows differ, with both rows, as text.

ghost use Rattle.std.specs.Prelude.{option_copied};
ghost use Rattle.printing.specs.Printing.{Adds};
ghost use Rattle.vdiff.specs.Found.{difference_of};
ghost use Rattle.vdiff.specs.AddedDifferences.{AddsFirst};
ghost use Rattle.vdiff.specs.Texts.{difference_text, side_line, side_text};

use crate::keys::add_key_line;
use crate::put::put_str;
use crate::walk::{Found, first_found};
use dump::{DumpRows, add_cells};
use filter_rule::Table;
use pk_copy::keys_tie_where_they_are_equal;
use printing::{Gathered, Out, OutFailed};
use row_view::{Columns, RowBuf};

/// Adds the first `count` keys at which the two differ, by rising key, each with the rows that stand there, in one walk
/// over both. Takes no memory.
pub fn add_differences<O: Out>(
    out: &mut O,
    text: &mut Gathered,
    tables: &[Table],
    source: &DumpRows,
    target: &DumpRows,
    count: u32,
) -> Result<(), OutFailed>
    ensures { AddsFirst result tables.now count source.now target.now (O.written out.old) text.old (O.written out.new) text.new }
{
    keys_tie_where_they_are_equal();
    let mut left = source.as_slice();
    let mut right = target.as_slice();
    for _ in 0..count {
        let Some(found) = first_found(left, right) else {
            return Ok(());
        };
        add_difference(out, text, tables, &found)?;
        left = found.source_left;
        right = found.target_left;
    }
    Ok(())
}

/// Adds a key at which the two differ, with the rows that stand there.
fn add_difference<O: Out>(
    out: &mut O,
    text: &mut Gathered,
    tables: &[Table],
    found: &Found<'_>,
) -> Result<(), OutFailed>
    ensures { Adds result (O.written out.old) text.old (O.written out.new) text.new (difference_text tables.now (difference_of found.now)) }
{
    add_key_line(out, text, tables, "differs table ", found.key)?;
    add_side(out, text, "source", found.source)?;
    add_side(out, text, "target", found.target)
}

/// Adds the line of a row, where there is one.
fn add_side<O: Out>(
    out: &mut O,
    text: &mut Gathered,
    word: &str,
    row: Option<&RowBuf>,
) -> Result<(), OutFailed>
    ensures { Adds result (O.written out.old) text.old (O.written out.new) text.new (side_text word.now (option_copied row.entry)) }
{
    match row {
        None => Ok(()),
        Some(row) => add_row(out, text, word, row.columns()),
    }
}

/// Adds the line of a row: a word and its cells.
fn add_row<O: Out>(
    out: &mut O,
    text: &mut Gathered,
    word: &str,
    columns: Columns<'_>,
) -> Result<(), OutFailed>
    ensures { Adds result (O.written out.old) text.old (O.written out.new) text.new (side_line word.now columns.entry) }
{
    put_str(out, text, word)?;
    add_cells(out, text, columns)?;
    put_str(out, text, "\n")
}
