//! The statement of a change.

ghost use Rattle.std.specs.Prelude.{◌≡◌, ◌++◌, OnOk, option_copied};
ghost use Rattle.vdiff_patch.specs.Patch.{change_at, change_of, differing_from};
ghost use Rattle.vdiff_sql.specs.Statements.{delete_text, insert_front, insert_names, insert_text, statement, statement_at, table_text, update_front, update_text};
ghost use Rattle.vdiff.specs.Found.{difference_of};

use crate::differing::push_assignments;
use crate::keys::push_where;
use crate::names::push_name;
use crate::rows::{push_row_literals, push_row_names};
use filter_rule::Table;
use pk_copy::Key;
use row_view::RowBuf;
use std::alloc::{AllocError, Global};
use vdiff::Found;

/// Adds the statement of the change at a key at which two sets of rows differ. An error is want of memory.
pub(crate) fn push_statement_at(
    alloc: Global,
    text: &mut Vec<u8>,
    schema: &str,
    tables: &[Table],
    found: &Found<'_>,
) -> Result<(), AllocError>
    ensures { OnOk result (text.new.items ≡ text.old.items ++ statement_at schema.now tables.now (change_at (difference_of found.now))) }
{
    match tables.get(usize::from(found.key.table())) {
        None => Ok(()),
        Some(table) => push_statement(alloc, text, schema, table, found),
    }
}

/// Adds the statement of the change at a key of a table.
fn push_statement(
    alloc: Global,
    text: &mut Vec<u8>,
    schema: &str,
    table: &Table,
    found: &Found<'_>,
) -> Result<(), AllocError>
    ensures { OnOk result (text.new.items ≡ text.old.items ++ statement schema.now table.now found.now.key.now (change_of (option_copied found.now.source) (option_copied found.now.target))) }
{
    match (found.source, found.target) {
        (None, _) => push_delete(alloc, text, schema, table, found.key),
        (Some(row), None) => push_insert(alloc, text, schema, table, row),
        (Some(row), Some(there)) => {
            push_update(alloc, text, schema, table, found.key, row, there)
        }
    }
}

/// Adds the statement that writes the values of a row that differ over another row.
fn push_update(
    alloc: Global,
    text: &mut Vec<u8>,
    schema: &str,
    table: &Table,
    key: &Key,
    row: &RowBuf,
    there: &RowBuf,
) -> Result<(), AllocError>
    ensures { OnOk result (text.new.items ≡ text.old.items ++ update_text schema.now table.now key.now (differing_from 0 row.now there.now)) }
{
    push_update_front(text, schema, table)?;
    push_assignments(alloc, text, table, &row.view(), &there.view())?;
    push_where(alloc, text, table, key)
}

/// Adds the beginning of such a statement.
fn push_update_front(text: &mut Vec<u8>, schema: &str, table: &Table) -> Result<(), AllocError>
    ensures { OnOk result (text.new.items ≡ text.old.items ++ update_front schema.now table.now) }
{
    text.extend_from_slice(b"UPDATE ")?;
    push_table(text, schema, table)?;
    text.extend_from_slice(b" SET ")?;
    Ok(())
}

/// Adds the statement that puts a row.
fn push_insert(
    alloc: Global,
    text: &mut Vec<u8>,
    schema: &str,
    table: &Table,
    row: &RowBuf,
) -> Result<(), AllocError>
    ensures { OnOk result (text.new.items ≡ text.old.items ++ insert_text schema.now table.now row.now) }
{
    push_insert_names(text, schema, table)?;
    push_row_literals(alloc, text, table, &row.view())?;
    text.extend_from_slice(b");\n")?;
    Ok(())
}

/// Adds the beginning of such a statement, up to the row's values.
fn push_insert_names(text: &mut Vec<u8>, schema: &str, table: &Table) -> Result<(), AllocError>
    ensures { OnOk result (text.new.items ≡ text.old.items ++ insert_names schema.now table.now) }
{
    push_insert_front(text, schema, table)?;
    push_row_names(text, table)?;
    text.extend_from_slice(b") VALUES (")?;
    Ok(())
}

/// Adds its beginning up to the names of the columns.
fn push_insert_front(text: &mut Vec<u8>, schema: &str, table: &Table) -> Result<(), AllocError>
    ensures { OnOk result (text.new.items ≡ text.old.items ++ insert_front schema.now table.now) }
{
    text.extend_from_slice(b"INSERT INTO ")?;
    push_table(text, schema, table)?;
    text.extend_from_slice(b" (")?;
    Ok(())
}

/// Adds the statement that takes a row away.
fn push_delete(
    alloc: Global,
    text: &mut Vec<u8>,
    schema: &str,
    table: &Table,
    key: &Key,
) -> Result<(), AllocError>
    ensures { OnOk result (text.new.items ≡ text.old.items ++ delete_text schema.now table.now key.now) }
{
    text.extend_from_slice(b"DELETE FROM ")?;
    push_table(text, schema, table)?;
    push_where(alloc, text, table, key)
}

/// Adds the name of a table of a schema.
fn push_table(text: &mut Vec<u8>, schema: &str, table: &Table) -> Result<(), AllocError>
    ensures { OnOk result (text.new.items ≡ text.old.items ++ table_text schema.now table.now) }
{
    push_name(text, schema)?;
    text.push(b'.')?;
    push_name(text, table.name())
}
