//! The place of a workflow file's fault.

ghost use Rattle.std.specs.Prelude.{◌≡◌, IfOk, true};
ghost use Rattle.std.specs.Option.{option_map};
ghost use Rattle.std.specs.String.{string_bytes};
ghost use Rattle.workflow_check.specs.Counts.{fault_text};
ghost use Rattle.workflow_places.specs.Places.{is_of_shape};

use crate::rules::bad_rule;
use crate::tables::{columns_differ, missing_column, unfit_type};
use filter_rule::PlanFault;
use serde_json::Value;
use std::alloc::{AllocError, Global};
use workflow_check::fault_text;

/// Where a text isn't JSON.
fn json_place(alloc: Global, text: &[u8]) -> Result<Option<String>, AllocError> {
    match Value::from_slice(alloc, text) {
        Ok(_) => Ok(None),
        Err(e) if e.is_memory() => Err(AllocError),
        Err(e) => {
            let line = e.line();
            let column = e.column();
            Ok(Some(format!(in alloc; "line {line} column {column}: no JSON")?))
        }
    }
}

/// The place of a fault that is found in the file's value.
fn value_place(
    alloc: Global,
    text: &[u8],
    fault: &PlanFault,
) -> Result<Option<String>, AllocError> {
    let file = match Value::from_slice(alloc, text) {
        Ok(file) => file,
        Err(e) if e.is_memory() => return Err(AllocError),
        Err(_) => return Ok(None),
    };
    match fault {
        PlanFault::NoSuchColumn { table, column } => missing_column(alloc, &file, table, column),
        PlanFault::KeyType { table, column } => unfit_type(alloc, &file, table, column),
        PlanFault::BadRule { stream, rule } => bad_rule(alloc, &file, *stream, *rule),
        PlanFault::ColumnsDiffer { table } => columns_differ(alloc, &file, table),
        _ => Ok(None),
    }
}

/// Where a workflow file has the fault that it is refused for, and what is wanted there: the path of a value, as
/// `tables[3].columns[2][1]`, or the line and the column at which it is no JSON. Of a rule whose filter is none of the forms
/// it has the token at which it isn't. Nothing is told where the fault isn't the file's. An error is want of memory.
pub fn place_of(alloc: Global, text: &[u8], fault: &PlanFault) -> Result<Option<String>, AllocError>
    ensures { is_of_shape fault.now ≡ true → IfOk result (λ place. option_map string_bytes place ≡ fault_text text.now) }
{
    match fault {
        PlanFault::Shape | PlanFault::Limit => fault_text(alloc, text),
        PlanFault::Json => json_place(alloc, text),
        _ => value_place(alloc, text, fault),
    }
}
