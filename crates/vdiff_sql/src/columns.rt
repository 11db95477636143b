//! The columns of a table as statements name them.

ghost use Rattle.std.specs.Prelude.{◌≡◌, ◌++◌, OnOk, option_copied};
ghost use Rattle.std.specs.Option.{option_map_or};
ghost use Rattle.vdiff_sql.specs.Columns.{key_column, name_of, parting, row_column, type_of};

use crate::names::push_name;
use filter_rule::{ColumnDef, Table};
use std::alloc::AllocError;

/// The column of a table that has a place in its rows.
pub(crate) fn row_column(table: &Table, i: usize) -> Option<&ColumnDef>
    ensures { option_copied result ≡ row_column table.now i }
{
    let place = table.kept().get(i)?;
    table.columns().get(usize::from(*place))
}

/// The column of a table that has a place in its key.
pub(crate) fn key_column(table: &Table, i: usize) -> Option<&ColumnDef>
    ensures { option_copied result ≡ key_column table.now i }
{
    let place = table.key().get(i)?;
    table.columns().get(usize::from(*place))
}

/// The type number of a column.
pub(crate) fn type_of(column: Option<&ColumnDef>) -> u32
    ensures { result ≡ type_of (option_copied column.entry) }
{
    match column {
        None => 0,
        Some(column) => column.type_number(),
    }
}

/// Adds the name of a column. An error is want of memory.
pub(crate) fn push_name_of(text: &mut Vec<u8>, column: Option<&ColumnDef>) -> Result<(), AllocError>
    ensures { OnOk result (text.new.items ≡ text.old.items ++ name_of (option_copied column.entry)) }
{
    match column {
        None => push_name(text, ""),
        Some(column) => push_name(text, column.name()),
    }
}

/// Adds what parts a text of a list from the one before it. An error is want of memory.
pub(crate) fn push_parting(
    text: &mut Vec<u8>,
    is_first: bool,
    between: &[u8],
) -> Result<(), AllocError>
    ensures { OnOk result (text.new.items ≡ text.old.items ++ parting is_first between.now) }
{
    if is_first {
        return Ok(());
    }
    text.extend_from_slice(between)?;
    Ok(())
}
