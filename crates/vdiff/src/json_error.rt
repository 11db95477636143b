//! A refusal as one line of JSON.

ghost use Rattle.std.specs.Prelude.{◌≡◌, IfOk, string_bytes};
ghost use Rattle.serde_json.specs.View.{view};
ghost use Rattle.vdiff.specs.Json.{error_data, json_line};

use crate::json_line::line_of;
use serde_json::{Value, json};
use std::alloc::{AllocError, Global};

/// The line of JSON of the refusal of a file: its number, and the file's name. An error is want of memory.
pub fn error_line(alloc: Global, number: u8, file: &str) -> Result<String, AllocError>
    ensures { IfOk result (λ line. string_bytes line ≡ json_line (error_data number file.now)) }
{
    let error = error_value(alloc, number, file)?;
    line_of(alloc, &error)
}

/// The object of the refusal of a file.
fn error_value(alloc: Global, number: u8, file: &str) -> Result<Value, AllocError>
    ensures { IfOk result (λ error. view error ≡ error_data number file.now) }
{
    json!(in alloc; {"error": {"file": file, "number": number}})
}
