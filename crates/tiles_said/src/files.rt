//! The workflow files: whether each is read, and what it says.

ghost use Rattle.std.specs.Prelude.{◌≡◌, IfOk, IfErr, map};
ghost use Rattle.std.specs.List.{AllByRecursion};
ghost use Rattle.std.specs.Option.{option_map};
ghost use Rattle.serde_json.specs.View.{view};
ghost use Rattle.workflow_check.specs.File.{value_in};
ghost use Rattle.tiles_said.specs.Said.{IsRead, IsRefusal, IsRefusalOf};
ghost use Rattle.tiles_said.specs.Sources.{file_in};

use crate::fault::TilesFault;
use filter_rule::{Plan, PlanFault};
use serde_json::Value;
use std::alloc::{AllocError, Global};

/// Whether a file is read, which has this number.
fn check_file(alloc: Global, file: usize, text: &[u8]) -> Result<(), TilesFault>
    ensures read { IfOk result (λ _. IsRead text.now) }
    ensures refused { IfErr result (λ fault. IsRefusalOf file text.now fault) }
{
    match Plan::read_all(alloc, text) {
        Ok(_plans) => Ok(()),
        Err(PlanFault::Memory) => Err(TilesFault::Memory),
        Err(fault) => Err(TilesFault::Workflow { file, fault }),
    }
}

/// Whether all files are read.
pub(crate) fn check_files(alloc: Global, texts: &[Vec<u8>]) -> Result<(), TilesFault>
    ensures read { IfOk result (λ _. AllByRecursion IsRead (map (λ text. text.items) texts.now)) }
    ensures refused { IfErr result (IsRefusal (map (λ text. text.items) texts.now)) }
{
    for i in 0..texts.len() {
        check_file(alloc, i, &texts[i])?;
    }
    Ok(())
}

/// The JSON value of a text, if it has one.
fn value_in(alloc: Global, text: &[u8]) -> Result<Option<Value>, AllocError>
    ensures { IfOk result (λ value. option_map view value ≡ value_in text.now) }
{
    match Value::from_slice(alloc, text) {
        Ok(value) => Ok(Some(value)),
        Err(e) if e.is_memory() => Err(AllocError),
        Err(_) => Ok(None),
    }
}

/// The JSON value of a text, null where it has none.
fn file_in(alloc: Global, text: &[u8]) -> Result<Value, AllocError>
    ensures { IfOk result (λ file. view file ≡ file_in text.now) }
{
    match value_in(alloc, text)? {
        Some(value) => Ok(value),
        None => Ok(Value::Null),
    }
}

/// The JSON values of texts.
pub(crate) fn files_in(alloc: Global, texts: &[Vec<u8>]) -> Result<Vec<Value>, AllocError>
    ensures { IfOk result (λ files. map view files.items ≡ map file_in (map (λ text. text.items) texts.now)) }
{
    let mut files = Vec::with_capacity(alloc, texts.len())?;
    for text in texts {
        files.push(file_in(alloc, text)?)?;
    }
    Ok(files)
}
