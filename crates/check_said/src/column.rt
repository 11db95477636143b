//! The column in which a FIELD event differs, in words.

ghost use Rattle.std.specs.Prelude.{◌≡◌, ◌++◌, IfOk, Some, None, codes, decimal, slice_get};
ghost use Rattle.std.specs.Option.{option_map};
ghost use Rattle.std.specs.String.{string_bytes};
ghost use Rattle.vevent.specs.ColumnView.{field_value};
ghost use Rattle.check_said.specs.Differing.{other_text, column_text, table_text, differing_value, differing_text};

use crate::field::Differing;
use filter_rule::{ColumnDef, Plan, Table};
use shown_text::shown;
use std::alloc::{AllocError, Global};
use vevent::ColumnField;

/// A column of the feed that has another type than that of the workflow.
fn type_text(alloc: Global, name: &str, said: u64, wanted: u32) -> Result<String, AllocError>
    ensures { IfOk result (λ text. string_bytes text ≡ codes "column " ++ name.now ++ codes " type " ++ decimal said ++ codes " wanted " ++ decimal wanted) }
{
    let text = format!(in alloc; "column {name} type {said} wanted {wanted}")?;
    Ok(text)
}

/// A column of the feed beside that of the workflow.
fn other_text(
    alloc: Global,
    column: &ColumnDef,
    field: &ColumnField<'_>,
) -> Result<String, AllocError>
    ensures { IfOk result (λ text. string_bytes text ≡ other_text column.now (field_value field.now)) }
{
    let name = shown(alloc, column.name().as_bytes())?;
    if column.name() == field.name {
        type_text(alloc, &name, field.type_number, column.type_number())
    } else {
        let said = shown(alloc, field.name.as_bytes())?;
        let text = format!(in alloc; "column {said} wanted {name}")?;
        Ok(text)
    }
}

/// What the feed has in the place of a column of the workflow, if it has something there.
fn beside_text(
    alloc: Global,
    column: &ColumnDef,
    field: Option<ColumnField<'_>>,
) -> Result<String, AllocError>
    ensures { IfOk result (λ text. string_bytes text ≡ column_text (Some column.now) (option_map field_value field.entry)) }
{
    match field {
        Some(field) => other_text(alloc, column, &field),
        None => {
            let name = shown(alloc, column.name().as_bytes())?;
            let text = format!(in alloc; "column {name} missing")?;
            Ok(text)
        }
    }
}

/// What the feed has where the workflow has no column.
fn unwanted_text(alloc: Global, field: Option<ColumnField<'_>>) -> Result<String, AllocError>
    ensures { IfOk result (λ text. string_bytes text ≡ column_text None (option_map field_value field.entry)) }
{
    match field {
        Some(field) => {
            let said = shown(alloc, field.name.as_bytes())?;
            let text = format!(in alloc; "column {said} unwanted")?;
            Ok(text)
        }
        None => Ok(String::new(alloc)),
    }
}

/// What the feed has in a column's place, and what the workflow has there.
fn column_text(
    alloc: Global,
    columns: &[ColumnDef],
    found: &Differing<'_>,
) -> Result<String, AllocError>
    ensures { IfOk result (λ text. string_bytes text ≡ column_text (slice_get columns.now found.now.place) (option_map field_value found.now.said)) }
{
    match columns.get(found.place) {
        Some(column) => beside_text(alloc, column, found.said),
        None => unwanted_text(alloc, found.said),
    }
}

/// The table and the column in which a FIELD event differs.
fn table_text(alloc: Global, table: &Table, found: &Differing<'_>) -> Result<String, AllocError>
    ensures { IfOk result (λ text. string_bytes text ≡ table_text (differing_value found.now) table.now) }
{
    let name = shown(alloc, table.name().as_bytes())?;
    let column = column_text(alloc, table.columns(), found)?;
    let text = format!(in alloc; "table {name} {column}")?;
    Ok(text)
}

/// The table and the column in which a FIELD event differs, with what stands there and what is wanted.
pub(crate) fn differing_text(
    alloc: Global,
    plan: &Plan,
    found: &Differing<'_>,
) -> Result<String, AllocError>
    ensures { IfOk result (λ text. string_bytes text ≡ differing_text plan.now (differing_value found.now)) }
{
    match plan.tables().get(usize::from(found.table)) {
        None => Ok(String::new(alloc)),
        Some(table) => table_text(alloc, table, found),
    }
}
