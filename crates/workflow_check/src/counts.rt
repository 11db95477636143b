//! Where a workflow file has too many or too few of something.

ghost use Rattle.std.specs.Prelude.{◌≡◌, ◌++◌, IfOk, codes};
ghost use Rattle.std.specs.String.{string_bytes};
ghost use Rattle.serde_json.specs.View.{view};
ghost use Rattle.workflow_check.specs.Counts.{above_text, count_told, columns_counted, key_counted, streams_counted, tables_counted, each_counted, file_counted};

use crate::json::items_at;
use crate::note::number_text;
use crate::shape::{Shape, told_from};
use crate::told::{Told, here, within};
use serde_json::Value;
use std::alloc::{AllocError, Global};

/// How many columns a table has.
struct TableCounts;

/// So many of a kind, above the most.
fn above(alloc: Global, most: usize, items: &str, count: usize) -> Result<String, AllocError>
    ensures { IfOk result (λ text. string_bytes text ≡ above_text most items.now count) }
{
    let most = number_text(alloc, most)?;
    let mut text = number_text(alloc, count)?;
    text.push_str(" ")?;
    text.push_str(items)?;
    text.push_str(", at most ")?;
    text.push_str(&most)?;
    Ok(text)
}

/// None of a kind.
fn none_text(alloc: Global, items: &str) -> Result<String, AllocError>
    ensures { IfOk result (λ text. string_bytes text ≡ codes "0 " ++ items.now ++ codes ", at least 1") }
{
    let mut text = String::from_str(alloc, "0 ")?;
    text.push_str(items)?;
    text.push_str(", at least 1")?;
    Ok(text)
}

/// Told of so many of a kind, if they aren't 1 to the most.
fn count_told(
    alloc: Global,
    most: usize,
    items: &str,
    count: usize,
) -> Result<Option<Told>, AllocError>
    ensures { IfOk result (λ told. told ≡ count_told most items.now count) }
{
    if count == 0 {
        let what = none_text(alloc, items)?;
        return Ok(here(alloc, what));
    }
    if count <= most {
        return Ok(None);
    }
    let what = above(alloc, most, items, count)?;
    Ok(here(alloc, what))
}

/// Told of a table's columns.
fn columns_counted(alloc: Global, table: &Value) -> Result<Option<Told>, AllocError>
    ensures { IfOk result (λ told. told ≡ columns_counted (view table.now)) }
{
    let told = count_told(alloc, 256, "columns", items_at(table, "columns").len())?;
    within(alloc, ".columns", told)
}

/// Told of a table's key.
fn key_counted(alloc: Global, table: &Value) -> Result<Option<Told>, AllocError>
    ensures { IfOk result (λ told. told ≡ key_counted (view table.now)) }
{
    let told = count_told(alloc, 8, "columns", items_at(table, "key").len())?;
    within(alloc, ".key", told)
}

impl Shape for TableCounts {
    ghost use Rattle.workflow_check.specs.Counts.{table_counted};

    ghost tells = { table_counted };

    fn told(alloc: Global, value: &Value) -> Result<Option<Told>, AllocError> {
        if let Some(told) = columns_counted(alloc, value)? {
            return Ok(Some(told));
        }
        key_counted(alloc, value)
    }
}

/// Told of the streams.
fn streams_counted(alloc: Global, file: &Value) -> Result<Option<Told>, AllocError>
    ensures { IfOk result (λ told. told ≡ streams_counted (view file.now)) }
{
    let told = count_told(alloc, 64, "streams", items_at(file, "streams").len())?;
    within(alloc, "streams", told)
}

/// Told of the tables.
fn tables_counted(alloc: Global, file: &Value) -> Result<Option<Told>, AllocError>
    ensures { IfOk result (λ told. told ≡ tables_counted (view file.now)) }
{
    let told = count_told(alloc, 64, "tables", items_at(file, "tables").len())?;
    within(alloc, "tables", told)
}

/// Told of each table.
fn each_counted(alloc: Global, file: &Value) -> Result<Option<Told>, AllocError>
    ensures { IfOk result (λ told. told ≡ each_counted (view file.now)) }
{
    let told = told_from::<TableCounts>(alloc, items_at(file, "tables"))?;
    within(alloc, "tables", told)
}

/// Where a file has too many or too few of something.
pub(crate) fn file_counted(alloc: Global, file: &Value) -> Result<Option<Told>, AllocError>
    ensures { IfOk result (λ told. told ≡ file_counted (view file.now)) }
{
    if let Some(told) = streams_counted(alloc, file)? {
        return Ok(Some(told));
    }
    if let Some(told) = tables_counted(alloc, file)? {
        return Ok(Some(told));
    }
    each_counted(alloc, file)
}
