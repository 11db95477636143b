//! The kinds of values of a workflow file.

ghost use Rattle.std.specs.Prelude.{◌≡◌, IfOk, is_some};
ghost use Rattle.serde_json.specs.View.{view};
ghost use Rattle.filter_rule.specs.Document.{is_name, is_fit};
ghost use Rattle.filter_rule.specs.TypeNumbers.{type_of_name};
ghost use Rattle.std.specs.List.{list_all};
ghost use Rattle.workflow_check.specs.Shape.{shape_told};

use crate::json::{items_in, text_at, text_in};
use crate::shape::{Named, Shape, list_in, list_told, pair_told, told_from, told_if, told_in};
use crate::told::{Told, here, quoted, said};
use serde_json::Value;
use std::alloc::{AllocError, Global};
use vindex::Vindex;

/// A text.
struct Text;

/// A name of a table or a column.
struct Name;

/// A type of a column, by its name or its number.
struct Kind;

/// The name of a vindex.
struct VindexName;

/// A column: its name and its type.
struct Column;

/// The columns of a table.
struct Columns;

/// The key of a table.
struct Key;

/// The vindex of a table.
struct OwnVindex;

/// A table.
struct Table;

/// All tables.
struct Tables;

/// A rule of a filter.
struct Rule;

/// The rules of a filter.
struct Rules;

/// The filter of a stream.
struct StreamFilter;

/// A stream.
struct Stream;

/// All streams.
struct Streams;

/// No control character of ASCII.
fn is_fit(byte: u8) -> bool
    ensures { result ≡ is_fit byte }
{
    byte >= b' ' && byte != 0x7f
}

fn are_fit(bytes: &[u8]) -> bool
    ensures { result ≡ list_all is_fit bytes.now }
{
    bytes.iter().all(|byte| is_fit(*byte))
}

/// 1 to 256 bytes without control characters.
fn is_name(text: &str) -> bool
    ensures { result ≡ is_name text.now }
{
    let bytes = text.as_bytes();
    !bytes.is_empty() && bytes.len() <= 256 && are_fit(bytes)
}

/// Whether a type has this name.
fn is_type(name: &str) -> bool
    ensures { result ≡ is_some (type_of_name name.now) }
{
    matches!(
        name,
        "INT8"
            | "INT16"
            | "INT24"
            | "INT32"
            | "INT64"
            | "UINT8"
            | "UINT16"
            | "UINT24"
            | "UINT32"
            | "UINT64"
            | "TEXT"
            | "VARCHAR"
            | "CHAR"
            | "BLOB"
            | "VARBINARY"
            | "BINARY"
    )
}

impl Shape for Text {
    ghost use Rattle.workflow_check.specs.Shape.{text_told};

    ghost tells = { text_told };

    fn told(alloc: Global, value: &Value) -> Result<Option<Told>, AllocError> {
        match value.as_str() {
            None => said(alloc, "no text"),
            Some(_) => Ok(None),
        }
    }
}

impl Shape for Name {
    ghost use Rattle.workflow_check.specs.Shape.{name_told};

    ghost tells = { name_told };

    fn told(alloc: Global, value: &Value) -> Result<Option<Told>, AllocError> {
        match value.as_str() {
            None => said(alloc, "no text"),
            Some(name) => {
                if is_name(name) {
                    Ok(None)
                } else {
                    said(
                        alloc,
                        "no name of 1 to 256 bytes without control characters",
                    )
                }
            }
        }
    }
}

impl Named for Name {
    ghost use Rattle.workflow_check.specs.Json.{text_said};

    ghost named = { text_said };

    fn name(value: &Value) -> &str {
        text_in(value)
    }
}

impl Shape for Kind {
    ghost use Rattle.workflow_check.specs.Shape.{type_told};

    ghost tells = { type_told };

    fn told(alloc: Global, value: &Value) -> Result<Option<Told>, AllocError> {
        if let Some(name) = value.as_str() {
            if is_type(name) {
                return Ok(None);
            }
            let what = quoted(alloc, "no type", name)?;
            return Ok(here(alloc, what));
        }
        match value.as_u64() {
            Some(number) if number < 1 << 32 => Ok(None),
            _ => said(alloc, "no type"),
        }
    }
}

impl Shape for VindexName {
    ghost use Rattle.workflow_check.specs.Shape.{vindex_name_told};

    ghost tells = { vindex_name_told };

    fn told(alloc: Global, value: &Value) -> Result<Option<Told>, AllocError> {
        match value.as_str() {
            None => said(alloc, "no text"),
            Some(name) => {
                if Vindex::parse(name).is_ok() {
                    return Ok(None);
                }
                let what = quoted(alloc, "no vindex", name)?;
                Ok(here(alloc, what))
            }
        }
    }
}

impl Shape for Column {
    ghost use Rattle.workflow_check.specs.Shape.{column_told};

    ghost tells = { column_told };

    fn told(alloc: Global, value: &Value) -> Result<Option<Told>, AllocError> {
        pair_told::<Name, Kind>(alloc, value)
    }
}

impl Named for Column {
    ghost use Rattle.workflow_check.specs.Shape.{column_name};

    ghost named = { column_name };

    fn name(value: &Value) -> &str {
        match items_in(value) {
            [] => "",
            [first, ..] => text_in(first),
        }
    }
}

impl Shape for Columns {
    ghost use Rattle.workflow_check.specs.Shape.{columns_told};

    ghost tells = { columns_told };

    fn told(alloc: Global, value: &Value) -> Result<Option<Told>, AllocError> {
        list_told::<Column>(alloc, value)
    }
}

impl Shape for Key {
    ghost use Rattle.workflow_check.specs.Shape.{key_told};

    ghost tells = { key_told };

    fn told(alloc: Global, value: &Value) -> Result<Option<Told>, AllocError> {
        list_told::<Name>(alloc, value)
    }
}

impl Shape for OwnVindex {
    ghost use Rattle.workflow_check.specs.Shape.{vindex_told};

    ghost tells = { vindex_told };

    fn told(alloc: Global, value: &Value) -> Result<Option<Told>, AllocError> {
        pair_told::<Name, VindexName>(alloc, value)
    }
}

impl Shape for Table {
    ghost use Rattle.workflow_check.specs.Shape.{table_told};

    ghost tells = { table_told };

    fn told(alloc: Global, value: &Value) -> Result<Option<Told>, AllocError> {
        if let Some(told) = told_in::<Name>(alloc, value, "name", ".name")? {
            return Ok(Some(told));
        }
        if let Some(told) = told_if::<OwnVindex>(alloc, value, "vindex", ".vindex")? {
            return Ok(Some(told));
        }
        if let Some(told) = told_in::<Columns>(alloc, value, "columns", ".columns")? {
            return Ok(Some(told));
        }
        told_in::<Key>(alloc, value, "key", ".key")
    }
}

impl Named for Table {
    ghost use Rattle.std.specs.Prelude.{codes};
    ghost use Rattle.workflow_check.specs.Json.{text_at as member_said};

    ghost named = { member_said (codes "name") };

    fn name(value: &Value) -> &str {
        text_at(value, "name")
    }
}

impl Shape for Tables {
    ghost use Rattle.workflow_check.specs.Shape.{tables_told};

    ghost tells = { tables_told };

    fn told(alloc: Global, value: &Value) -> Result<Option<Told>, AllocError> {
        list_told::<Table>(alloc, value)
    }
}

impl Shape for Rule {
    ghost use Rattle.workflow_check.specs.Shape.{rule_told};

    ghost tells = { rule_told };

    fn told(alloc: Global, value: &Value) -> Result<Option<Told>, AllocError> {
        if let Some(told) = told_in::<Text>(alloc, value, "match", ".match")? {
            return Ok(Some(told));
        }
        told_if::<Text>(alloc, value, "filter", ".filter")
    }
}

impl Shape for Rules {
    ghost use Rattle.workflow_check.specs.Shape.{rules_told};

    ghost tells = { rules_told };

    fn told(alloc: Global, value: &Value) -> Result<Option<Told>, AllocError> {
        match list_in(value) {
            None => said(alloc, "no list"),
            Some(values) => told_from::<Rule>(alloc, values),
        }
    }
}

impl Shape for StreamFilter {
    ghost use Rattle.workflow_check.specs.Shape.{filter_told};

    ghost tells = { filter_told };

    fn told(alloc: Global, value: &Value) -> Result<Option<Told>, AllocError> {
        told_in::<Rules>(alloc, value, "rules", ".rules")
    }
}

impl Shape for Stream {
    ghost use Rattle.workflow_check.specs.Shape.{stream_told};

    ghost tells = { stream_told };

    fn told(alloc: Global, value: &Value) -> Result<Option<Told>, AllocError> {
        if let Some(told) = told_in::<Text>(alloc, value, "shard", ".shard")? {
            return Ok(Some(told));
        }
        told_in::<StreamFilter>(alloc, value, "filter", ".filter")
    }
}

impl Named for Stream {
    ghost use Rattle.std.specs.Prelude.{codes};
    ghost use Rattle.workflow_check.specs.Json.{text_at as member_said};

    ghost named = { member_said (codes "shard") };

    fn name(value: &Value) -> &str {
        text_at(value, "shard")
    }
}

impl Shape for Streams {
    ghost use Rattle.workflow_check.specs.Shape.{streams_told};

    ghost tells = { streams_told };

    fn told(alloc: Global, value: &Value) -> Result<Option<Told>, AllocError> {
        list_told::<Stream>(alloc, value)
    }
}

/// Where a file hasn't the shape of a document.
pub(crate) fn shape_told(alloc: Global, file: &Value) -> Result<Option<Told>, AllocError>
    ensures { IfOk result (λ told. told ≡ shape_told (view file.now)) }
{
    if let Some(told) = told_in::<Text>(alloc, file, "keyspace", "keyspace")? {
        return Ok(Some(told));
    }
    if let Some(told) = told_in::<Tables>(alloc, file, "tables", "tables")? {
        return Ok(Some(told));
    }
    told_in::<Streams>(alloc, file, "streams", "streams")
}
