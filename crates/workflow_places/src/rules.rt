//! Where a rule of a workflow file has a fault.

use crate::filter_form::form_text;
use crate::tables::{items, text};
use filter_rule::uses_hash;
use filter_text::{Filter, Rows};
use serde_json::Value;
use shown_text::shown;
use std::alloc::{AllocError, Global};
use vindex::Vindex;

/// What is wanted of a filter's table, where it isn't that of `match`.
fn table_wants(table: &str, matches: &str) -> Option<&'static str> {
    if matches == "/.*" {
        return Some("a `select` under the pattern `/.*`: wanted is the table's name as `match`");
    }
    if table != matches {
        return Some("another table than that of `match`: wanted is the same");
    }
    None
}

/// What is wanted of a filter's rows, in a file that says that it uses `hash` or doesn't.
fn rows_want(rows: &Rows<'_>, says_hash: bool) -> &'static str {
    match rows {
        Rows::OwnVindex { .. } => {
            "a range without a vindex: wanted is a member `vindex` of each table that the rule is first for"
        }
        Rows::Named {
            vindex: Vindex::Hash,
            ..
        } => {
            if says_hash {
                "a list without each key column: wanted are all key columns of the table"
            } else {
                "vindex 'hash': wanted is the file's member \"vindexes\": [\"hash\"]"
            }
        }
        _ => "a list without each key column: wanted are all key columns of the table",
    }
}

/// What is wanted of a rule whose filter is one of the forms.
fn filter_wants(filter: &Filter<'_>, matches: &str, says_hash: bool) -> &'static str {
    if let Some(table) = filter.table {
        if let Some(told) = table_wants(table, matches) {
            return told;
        }
    }
    rows_want(&filter.rows, says_hash)
}

/// What is wanted of a rule's filter.
fn filter_told(
    alloc: Global,
    filter: &str,
    matches: &str,
    says_hash: bool,
) -> Result<Option<String>, AllocError> {
    if let Some(told) = form_text(alloc, filter)? {
        return Ok(Some(told));
    }
    match Filter::parse(alloc, filter) {
        Err(_) => Ok(None),
        Ok(read) => Ok(Some(String::from_str(alloc, filter_wants(&read, matches, says_hash))?)),
    }
}

/// What is wrong with a rule, and of which of its members it is told.
fn rule_told(alloc: Global, rule: &Value, says_hash: bool) -> Result<Option<String>, AllocError> {
    let matches = text(rule, "match");
    if matches.starts_with('/') && matches != "/.*" {
        let matches = shown(alloc, matches.as_bytes())?;
        let told = format!(in alloc;
            "match: no pattern \"{matches}\": wanted is a table's name, or `/.*` for every table"
        )?;
        return Ok(Some(told));
    }
    match filter_told(alloc, text(rule, "filter"), matches, says_hash)? {
        None => Ok(None),
        Some(told) => Ok(Some(format!(in alloc; "filter: {told}")?)),
    }
}

/// Where a rule of a stream, both from 0, isn't one of the forms or doesn't fit its tables.
pub(crate) fn bad_rule(
    alloc: Global,
    file: &Value,
    stream: usize,
    rule: usize,
) -> Result<Option<String>, AllocError> {
    let Some(value) = items(file, "streams").get(stream) else {
        return Ok(None);
    };
    let Some(filter) = value.get("filter") else {
        return Ok(None);
    };
    let Some(found) = items(filter, "rules").get(rule) else {
        return Ok(None);
    };
    match rule_told(alloc, found, uses_hash(file))? {
        None => Ok(None),
        Some(told) => {
            let place = format!(in alloc; "streams[{stream}].filter.rules[{rule}].{told}")?;
            Ok(Some(place))
        }
    }
}
