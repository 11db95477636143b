//! Where a table of a workflow file has a fault.

use filter_text::{Filter, Rows};
use serde_json::Value;
use shown_text::shown;
use std::alloc::{AllocError, Global};

/// The items of a member that is a list, none where it isn't.
pub(crate) fn items<'v>(value: &'v Value, key: &str) -> &'v [Value] {
    match value.get(key) {
        None => &[],
        Some(found) => match found.as_array() {
            None => &[],
            Some(list) => list.as_slice(),
        },
    }
}

/// A member that is a text, empty where it isn't.
pub(crate) fn text<'v>(value: &'v Value, key: &str) -> &'v str {
    match value.get(key) {
        None => "",
        Some(found) => found.as_str().unwrap_or(""),
    }
}

/// The number of the table of a name.
fn number_of(tables: &[Value], name: &str) -> Option<usize> {
    for t in 0..tables.len() {
        if text(&tables[t], "name") == name {
            return Some(t);
        }
    }
    None
}

/// Whether a value is this text.
fn is_text(value: Option<&Value>, wanted: &str) -> bool {
    match value {
        None => false,
        Some(value) => value.as_str() == Some(wanted),
    }
}

/// The number of a key column.
fn key_number(table: &Value, column: &str) -> Option<usize> {
    let key = items(table, "key");
    for k in 0..key.len() {
        if is_text(Some(&key[k]), column) {
            return Some(k);
        }
    }
    None
}

/// Whether a filter lists or asks a column.
fn names_column(alloc: Global, filter: &str, column: &str) -> bool {
    let Ok(read) = Filter::parse(alloc, filter) else {
        return false;
    };
    let is_listed = match &read.columns {
        None => false,
        Some(columns) => columns.has(column),
    };
    let is_asked = match &read.rows {
        Rows::Named { column: asked, .. } => *asked == column,
        _ => false,
    };
    is_listed || is_asked
}

/// The first rule that names a column, of those that match a table.
fn rule_with(
    alloc: Global,
    file: &Value,
    table: &str,
    column: &str,
) -> Result<Option<String>, AllocError> {
    let streams = items(file, "streams");
    for s in 0..streams.len() {
        let Some(filter) = streams[s].get("filter") else {
            continue;
        };
        let rules = items(filter, "rules");
        for r in 0..rules.len() {
            let matches = text(&rules[r], "match");
            let is_of_table = matches == table || matches == "/.*";
            if is_of_table && names_column(alloc, text(&rules[r], "filter"), column) {
                return Ok(Some(format!(in alloc; "streams[{s}].filter.rules[{r}].filter")?));
            }
        }
    }
    Ok(None)
}

/// Where a table's column is named: in its key, as its vindex, or in a filter.
fn path_of(
    alloc: Global,
    file: &Value,
    t: usize,
    table: &str,
    column: &str,
) -> Result<String, AllocError> {
    let tables = items(file, "tables");
    if let Some(value) = tables.get(t) {
        if let Some(k) = key_number(value, column) {
            return format!(in alloc; "tables[{t}].key[{k}]");
        }
        if is_text(items(value, "vindex").first(), column) {
            return format!(in alloc; "tables[{t}].vindex[0]");
        }
    }
    match rule_with(alloc, file, table, column)? {
        Some(path) => Ok(path),
        None => format!(in alloc; "tables[{t}]"),
    }
}

/// Where a table's column is named that isn't there.
pub(crate) fn missing_column(
    alloc: Global,
    file: &Value,
    table: &str,
    column: &str,
) -> Result<Option<String>, AllocError> {
    let Some(t) = number_of(items(file, "tables"), table) else {
        return Ok(None);
    };
    let path = path_of(alloc, file, t, table, column)?;
    let table = shown(alloc, table.as_bytes())?;
    let column = shown(alloc, column.as_bytes())?;
    let told = format!(in alloc; "{path}: no column \"{column}\" in table \"{table}\"")?;
    Ok(Some(told))
}

/// The number of a column of a table.
fn column_number(table: &Value, name: &str) -> Option<usize> {
    let columns = items(table, "columns");
    for c in 0..columns.len() {
        if let Some(pair) = columns[c].as_array() {
            if is_text(pair.as_slice().first(), name) {
                return Some(c);
            }
        }
    }
    None
}

/// Where a column stands whose type doesn't fit.
pub(crate) fn unfit_type(
    alloc: Global,
    file: &Value,
    table: &str,
    column: &str,
) -> Result<Option<String>, AllocError> {
    let tables = items(file, "tables");
    let Some(t) = number_of(tables, table) else {
        return Ok(None);
    };
    let Some(value) = tables.get(t) else {
        return Ok(None);
    };
    let Some(c) = column_number(value, column) else {
        return Ok(None);
    };
    let path = path_of(alloc, file, t, table, column)?;
    let told = format!(in alloc;
        "tables[{t}].columns[{c}][1]: a type that {path} can't have: wanted is a whole number, of a key also VARCHAR, CHAR, VARBINARY or BINARY, of binary and binary_md5 any type that has a name"
    )?;
    Ok(Some(told))
}

/// Where a table stands of which the streams keep different columns.
pub(crate) fn columns_differ(
    alloc: Global,
    file: &Value,
    table: &str,
) -> Result<Option<String>, AllocError> {
    let Some(t) = number_of(items(file, "tables"), table) else {
        return Ok(None);
    };
    let told = format!(in alloc;
        "tables[{t}]: the streams keep different columns of it, or in another order: wanted is one list in all first rules that match it"
    )?;
    Ok(Some(told))
}
