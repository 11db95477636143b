//! The columns of a row as text.

ghost use Rattle.row_view.specs.ColumnValue.{column_value};
ghost use Rattle.dump.specs.Cells.{cell, cells};
ghost use Rattle.printing.specs.Printing.{Adds};

use printing::{Gathered, Out, OutFailed};
use row_view::{Column, Columns};

/// Adds each column as a cell behind a tab.
pub fn add_cells<O: Out>(
    out: &mut O,
    text: &mut Gathered,
    columns: Columns<'_>,
) -> Result<(), OutFailed>
    ensures { Adds result (O.written out.old) text.old (O.written out.new) text.new (cells columns.entry) }
{
    for column in columns {
        text.put(out, b"\t")?;
        add_cell(out, text, &column)?;
    }
    Ok(())
}

/// Adds a column: `N` for NULL, else `x` and its bytes in lower case hexadecimal.
#[inline(always)]
pub fn add_cell<O: Out>(
    out: &mut O,
    text: &mut Gathered,
    column: &Column<'_>,
) -> Result<(), OutFailed>
    ensures { Adds result (O.written out.old) text.old (O.written out.new) text.new (cell (column_value column.now)) }
{
    match column {
        Column::Null => text.put(out, b"N"),
        Column::Bytes(value) => {
            text.put(out, b"x")?;
            text.put_hex(out, value)
        }
    }
}
