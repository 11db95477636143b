//! What is told of a workflow file.

ghost use Rattle.std.specs.Prelude.{◌≡◌, IfOk};
ghost use Rattle.std.specs.Option.{option_map};
ghost use Rattle.std.specs.String.{string_bytes};
ghost use Rattle.serde_json.specs.View.{view};
ghost use Rattle.workflow_check.specs.Counts.{fault_told, told_text, fault_text};
ghost use Rattle.workflow_check.specs.File.{value_in, notes_in, notes_of, note_lines, rules_text};

use crate::counts::file_counted;
use crate::further::{file_further, file_unsaid};
use crate::ignored::push_ignored;
use crate::json::items_at;
use crate::kinds::shape_told;
use crate::note::{Note, push_line};
use crate::passing::push_rule_lines;
use crate::ranges::{push_undecided, push_untiled};
use crate::rules::{names_in, push_all_unmatched};
use crate::told::Told;
use serde_json::Value;
use std::alloc::{AllocError, Global};

/// The JSON value of a text, if it has one.
pub(crate) fn value_in(alloc: Global, text: &[u8]) -> Result<Option<Value>, AllocError>
    ensures { IfOk result (λ value. option_map view value ≡ value_in text.now) }
{
    match Value::from_slice(alloc, text) {
        Ok(value) => Ok(Some(value)),
        Err(e) if e.is_memory() => Err(AllocError),
        Err(_) => Ok(None),
    }
}

/// What is told of a file.
fn notes_in(alloc: Global, file: &Value) -> Result<Vec<Note>, AllocError>
    ensures { IfOk result (λ notes. notes.items ≡ notes_in (view file.now)) }
{
    let tables = items_at(file, "tables");
    let streams = items_at(file, "streams");
    let names = names_in(alloc, tables)?;
    let mut notes = Vec::new(alloc);
    push_ignored(alloc, file, &mut notes)?;
    push_all_unmatched(alloc, &names, streams, &mut notes)?;
    push_undecided(alloc, &names, streams, &mut notes)?;
    push_untiled(alloc, streams, tables, &mut notes)?;
    Ok(notes)
}

/// What is told of a workflow file that is read: members that aren't read, rules that match no table, tables for
/// which a stream has no rule, and tables of which the streams' key ranges don't lie end to end. The last is
/// asked where each stream passes a range of the table, by one vindex of one column, and they aren't all the same.
/// An error is want of memory.
pub fn notes_of(alloc: Global, text: &[u8]) -> Result<Vec<Note>, AllocError>
    ensures { IfOk result (λ notes. notes.items ≡ notes_of text.now) }
{
    match value_in(alloc, text)? {
        None => Ok(Vec::new(alloc)),
        Some(file) => notes_in(alloc, &file),
    }
}

/// The lines of notes. An error is want of memory.
pub fn note_lines(alloc: Global, notes: &[Note]) -> Result<String, AllocError>
    ensures { IfOk result (λ text. string_bytes text ≡ note_lines notes.now) }
{
    let mut text = String::new(alloc);
    for note in notes {
        push_line(alloc, note, &mut text)?;
    }
    Ok(text)
}

/// The rows of each table that each stream passes, in words, a line each. An error is want of memory.
pub fn rules_of(alloc: Global, text: &[u8]) -> Result<String, AllocError>
    ensures { IfOk result (λ lines. string_bytes lines ≡ rules_text text.now) }
{
    let mut lines = String::new(alloc);
    if let Some(file) = value_in(alloc, text)? {
        let tables = items_at(&file, "tables");
        push_rule_lines(alloc, tables, items_at(&file, "streams"), &mut lines)?;
    }
    Ok(lines)
}

/// Where a file is at fault.
fn fault_told(alloc: Global, file: &Value) -> Result<Option<Told>, AllocError>
    ensures { IfOk result (λ told. told ≡ fault_told (view file.now)) }
{
    if let Some(told) = shape_told(alloc, file)? {
        return Ok(Some(told));
    }
    if let Some(told) = file_unsaid(alloc, file)? {
        return Ok(Some(told));
    }
    if let Some(told) = file_further(alloc, file)? {
        return Ok(Some(told));
    }
    file_counted(alloc, file)
}

/// The path, and what is wrong there.
fn told_text(alloc: Global, told: &Told) -> Result<String, AllocError>
    ensures { IfOk result (λ text. string_bytes text ≡ told_text told.now) }
{
    let mut text = String::from_str(alloc, told.at())?;
    text.push_str(": ")?;
    text.push_str(told.what())?;
    Ok(text)
}

/// Where a workflow file hasn't the shape of a document or is past a limit, and what was expected there, as
/// `tables[3].columns[2][1]: no type "DECIMAL"`; nothing where it isn't JSON. An error is want of memory.
pub fn fault_text(alloc: Global, text: &[u8]) -> Result<Option<String>, AllocError>
    ensures { IfOk result (λ place. option_map string_bytes place ≡ fault_text text.now) }
{
    let Some(file) = value_in(alloc, text)? else {
        return Ok(None);
    };
    match fault_told(alloc, &file)? {
        None => Ok(None),
        Some(told) => Ok(Some(told_text(alloc, &told)?)),
    }
}
