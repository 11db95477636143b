//! Members of a workflow file that aren't read.

ghost use Rattle.std.specs.Prelude.{◌≡◌, ◌++◌, IfOk, OnOk, map};
ghost use Rattle.std.specs.Option.{option_map};
ghost use Rattle.std.specs.String.{string_bytes};
ghost use Rattle.serde_json.specs.View.{view, members_view};
ghost use Rattle.workflow_check.specs.Ignored.{has_meaning, other_member, others_of, others_in, in_item, rules_ignored, filter_others, filter_ignored, stream_ignored, streams_ignored, tables_ignored, ignored_in};

use crate::json::items_at;
use crate::note::{Flaw, Note, item_place};
use serde_json::{Map, Value};
use std::alloc::{AllocError, Global};

/// An object of the file, by its place.
#[derive(Clone, Copy)]
pub(crate) enum Object {
    /// The file.
    File,
    /// A table.
    Table,
    /// A stream.
    Stream,
    /// A stream's filter.
    Filter,
    /// A rule of a filter.
    Rule,
}

/// Whether a member of this name is read in an object.
fn is_read(object: Object, key: &str) -> bool
    ensures { result ≡ has_meaning object key.now }
{
    match object {
        Object::File => {
            key == "keyspace" || key == "tables" || key == "streams" || key == "vindexes"
        }
        Object::Table => key == "name" || key == "columns" || key == "key" || key == "vindex",
        Object::Stream => key == "shard" || key == "filter",
        Object::Filter => key == "rules",
        Object::Rule => key == "match" || key == "filter",
    }
}

/// Puts a member behind the notes, if it isn't read.
fn push_other(
    alloc: Global,
    object: Object,
    path: &str,
    key: &str,
    notes: &mut Vec<Note>,
) -> Result<(), AllocError>
    ensures { OnOk result (notes.new.items ≡ notes.old.items ++ other_member object path.now key.now) }
{
    if !is_read(object, key) {
        let place = format!(in alloc; "{path}{key}")?;
        notes.push(Note::new(alloc, place, Flaw::Ignored, "")?)?;
    }
    Ok(())
}

/// Puts the members that aren't read behind the notes.
fn push_members(
    alloc: Global,
    object: Object,
    path: &str,
    members: &Map<String, Value>,
    notes: &mut Vec<Note>,
) -> Result<(), AllocError>
    ensures { OnOk result (notes.new.items ≡ notes.old.items ++ others_of object path.now (members_view members.now.entries)) }
{
    for (key, _member) in members.iter() {
        push_other(alloc, object, path, key.as_str(), notes)?;
    }
    Ok(())
}

/// Puts the members of a value that aren't read behind the notes, if it is an object.
fn push_others(
    alloc: Global,
    object: Object,
    path: &str,
    value: &Value,
    notes: &mut Vec<Note>,
) -> Result<(), AllocError>
    ensures { OnOk result (notes.new.items ≡ notes.old.items ++ others_in object path.now (view value.now)) }
{
    match value.as_object() {
        None => Ok(()),
        Some(members) => push_members(alloc, object, path, members, notes),
    }
}

/// The path of a member of an item.
pub(crate) fn in_item(alloc: Global, list: &str, i: usize) -> Result<String, AllocError>
    ensures { IfOk result (λ text. string_bytes text ≡ in_item list.now i) }
{
    let mut path = item_place(alloc, list, i)?;
    path.push_str(".")?;
    Ok(path)
}

/// Puts what isn't read of rules behind the notes.
fn push_rules(
    alloc: Global,
    list: &str,
    rules: &[Value],
    notes: &mut Vec<Note>,
) -> Result<(), AllocError>
    ensures { OnOk result (notes.new.items ≡ notes.old.items ++ rules_ignored list.now 0 (map view rules.now)) }
{
    for j in 0..rules.len() {
        let path = in_item(alloc, list, j)?;
        push_others(alloc, Object::Rule, &path, &rules[j], notes)?;
    }
    Ok(())
}

/// A path with one more step.
fn longer(alloc: Global, path: &str, step: &str) -> Result<String, AllocError>
    ensures { IfOk result (λ text. string_bytes text ≡ path.now ++ step.now) }
{
    let mut text = String::from_str(alloc, path)?;
    text.push_str(step)?;
    Ok(text)
}

/// Puts what isn't read of a stream's filter behind the notes.
fn push_filter_of(
    alloc: Global,
    path: &str,
    filter: &Value,
    notes: &mut Vec<Note>,
) -> Result<(), AllocError>
    ensures { OnOk result (notes.new.items ≡ notes.old.items ++ filter_others path.now (view filter.now)) }
{
    let inner = longer(alloc, path, "filter.")?;
    push_others(alloc, Object::Filter, &inner, filter, notes)?;
    let list = longer(alloc, path, "filter.rules")?;
    push_rules(alloc, &list, items_at(filter, "rules"), notes)?;
    Ok(())
}

/// The same of a filter, if there is one.
fn push_filter(
    alloc: Global,
    path: &str,
    filter: Option<&Value>,
    notes: &mut Vec<Note>,
) -> Result<(), AllocError>
    ensures { OnOk result (notes.new.items ≡ notes.old.items ++ filter_ignored path.now (option_map (λ v. view v.now) filter.entry)) }
{
    match filter {
        None => Ok(()),
        Some(filter) => push_filter_of(alloc, path, filter, notes),
    }
}

/// Puts what isn't read of a stream behind the notes.
fn push_stream(
    alloc: Global,
    path: &str,
    stream: &Value,
    notes: &mut Vec<Note>,
) -> Result<(), AllocError>
    ensures { OnOk result (notes.new.items ≡ notes.old.items ++ stream_ignored path.now (view stream.now)) }
{
    push_others(alloc, Object::Stream, path, stream, notes)?;
    push_filter(alloc, path, stream.get("filter"), notes)?;
    Ok(())
}

/// Puts what isn't read of the streams behind the notes.
fn push_streams(alloc: Global, streams: &[Value], notes: &mut Vec<Note>) -> Result<(), AllocError>
    ensures { OnOk result (notes.new.items ≡ notes.old.items ++ streams_ignored 0 (map view streams.now)) }
{
    for i in 0..streams.len() {
        let path = in_item(alloc, "streams", i)?;
        push_stream(alloc, &path, &streams[i], notes)?;
    }
    Ok(())
}

/// Puts what isn't read of the tables behind the notes.
fn push_tables(alloc: Global, tables: &[Value], notes: &mut Vec<Note>) -> Result<(), AllocError>
    ensures { OnOk result (notes.new.items ≡ notes.old.items ++ tables_ignored 0 (map view tables.now)) }
{
    for i in 0..tables.len() {
        let path = in_item(alloc, "tables", i)?;
        push_others(alloc, Object::Table, &path, &tables[i], notes)?;
    }
    Ok(())
}

/// Puts the members of a file that aren't read behind the notes.
pub(crate) fn push_ignored(
    alloc: Global,
    file: &Value,
    notes: &mut Vec<Note>,
) -> Result<(), AllocError>
    ensures { OnOk result (notes.new.items ≡ notes.old.items ++ ignored_in (view file.now)) }
{
    push_others(alloc, Object::File, "", file, notes)?;
    push_tables(alloc, items_at(file, "tables"), notes)?;
    push_streams(alloc, items_at(file, "streams"), notes)?;
    Ok(())
}
