//! The values of a row.

ghost use Rattle.std.specs.Prelude.{◌≡◌, ◌++◌, true, OnOk, codes, slice_get};
ghost use Rattle.vdiff_sql.specs.Columns.{listed, name_of, row_literals, row_names};

use crate::columns::{push_name_of, push_parting, row_column, type_of};
use crate::literals::push_literal;
use filter_rule::Table;
use row_view::RowView;
use std::alloc::{AllocError, Global};

/// Adds the names of a row's columns. An error is want of memory.
pub(crate) fn push_row_names(text: &mut Vec<u8>, table: &Table) -> Result<(), AllocError>
    ensures { OnOk result (text.new.items ≡ text.old.items ++ listed (codes ", ") true (row_names table.now)) }
{
    let mut is_first = true;
    for place in table.kept() {
        push_parting(text, is_first, b", ")?;
        push_name_at(text, table, *place)?;
        is_first = false;
    }
    Ok(())
}

/// Adds the name of the column at a place of a table.
fn push_name_at(text: &mut Vec<u8>, table: &Table, place: u8) -> Result<(), AllocError>
    ensures { OnOk result (text.new.items ≡ text.old.items ++ name_of (slice_get table.now.columns place)) }
{
    push_name_of(text, table.columns().get(usize::from(place)))
}

/// Adds the values of a row. An error is want of memory.
pub(crate) fn push_row_literals(
    alloc: Global,
    text: &mut Vec<u8>,
    table: &Table,
    row: &RowView<'_>,
) -> Result<(), AllocError>
    ensures { OnOk result (text.new.items ≡ text.old.items ++ listed (codes ", ") true (row_literals table.now 0 row.now)) }
{
    for i in 0..row.len() {
        push_parting(text, i == 0, b", ")?;
        push_literal(alloc, text, type_of(row_column(table, i)), &row.column(i))?;
    }
    Ok(())
}
