//! Text behind text that waits for a writer: the whole of it, or after a write that failed a beginning. No call takes
//! memory.

ghost use Rattle.std.specs.Prelude.{◌++◌, decimal};
ghost use Rattle.row_view.specs.ColumnValue.{column_value};
ghost use Rattle.dump.specs.Cells.{cell, cells};
ghost use Rattle.vrepl_main.specs.Adding.{AddsText, at};

use dump::{add_cell, add_cells};
use printing::{Gathered, Out, OutFailed};
use row_view::{Column, Columns};

/// Adds all the bytes.
pub(crate) fn put_all<W: Out>(
    out: &mut W,
    text: &mut Gathered,
    bytes: &[u8],
) -> Result<(), OutFailed>
    ensures { AddsText result (at (W.written out.old) text.old) (at (W.written out.new) text.new) bytes.now }
{
    text.put(out, bytes)
}

/// Adds a text.
pub(crate) fn put_str<W: Out>(
    out: &mut W,
    text: &mut Gathered,
    piece: &str,
) -> Result<(), OutFailed>
    ensures { AddsText result (at (W.written out.old) text.old) (at (W.written out.new) text.new) piece.now }
{
    put_all(out, text, piece.as_bytes())
}

/// Adds a number in decimal digits.
pub(crate) fn put_number<W: Out>(
    out: &mut W,
    text: &mut Gathered,
    number: u64,
) -> Result<(), OutFailed>
    ensures { AddsText result (at (W.written out.old) text.old) (at (W.written out.new) text.new) (decimal number) }
{
    let mut digits = itoa::Buffer::new();
    put_str(out, text, digits.format(number))
}

/// Adds each column as a cell behind a tab.
pub(crate) fn print_cells<W: Out>(
    out: &mut W,
    text: &mut Gathered,
    columns: Columns<'_>,
) -> Result<(), OutFailed>
    ensures { AddsText result (at (W.written out.old) text.old) (at (W.written out.new) text.new) (cells columns.entry) }
{
    add_cells(out, text, columns)
}

/// Adds a column as a cell.
pub(crate) fn print_cell<W: Out>(
    out: &mut W,
    text: &mut Gathered,
    column: &Column<'_>,
) -> Result<(), OutFailed>
    ensures { AddsText result (at (W.written out.old) text.old) (at (W.written out.new) text.new) (cell (column_value column.now)) }
{
    add_cell(out, text, column)
}

/// Adds a number behind a word.
pub(crate) fn put_named<W: Out>(
    out: &mut W,
    text: &mut Gathered,
    word: &str,
    number: u64,
) -> Result<(), OutFailed>
    ensures { AddsText result (at (W.written out.old) text.old) (at (W.written out.new) text.new) (word.now ++ decimal number) }
{
    put_str(out, text, word)?;
    put_number(out, text, number)
}

/// Adds a number between two words.
pub(crate) fn put_between<W: Out>(
    out: &mut W,
    text: &mut Gathered,
    before: &str,
    number: u64,
    behind: &str,
) -> Result<(), OutFailed>
    ensures { AddsText result (at (W.written out.old) text.old) (at (W.written out.new) text.new) (before.now ++ decimal number ++ behind.now) }
{
    put_named(out, text, before, number)?;
    put_str(out, text, behind)
}
