//! What is said of checkpoints.

ghost use Rattle.std.specs.Prelude.{◌≡◌, IfOk, map};
ghost use Rattle.std.specs.String.{string_bytes};
ghost use Rattle.status_said.specs.Said as said;
ghost use Rattle.status_said.specs.Said.{IsGiven, status_text};

use crate::fault::StatusFault;
use crate::json::status_line;
use crate::lines::status_lines;
use crate::reading::stands_in;
use checkpoint_places::CheckpointStand;
use std::alloc::{AllocError, Global};
use vrepl_choices::ReportForm;

/// What is said of checkpoints that are read.
fn status_text(
    alloc: Global,
    form: ReportForm,
    names: &[&str],
    stands: &[CheckpointStand<'_>],
) -> Result<String, AllocError>
    ensures { IfOk result (λ text. string_bytes text ≡ status_text form (map (λ name. name.now) names.now) stands.now) }
{
    match form {
        ReportForm::Lines => status_lines(alloc, names, stands),
        ReportForm::Json => status_line(alloc, names, stands),
    }
}

/// What is said of checkpoints by their bytes alone, whose files have these names: for each its version and its streams,
/// each with its shard, its phase, its position and how far its tables are copied, with how many rows; and behind all of
/// them for each shard the least position, the one that lies within those of all its streams. In lines, or as one line of
/// JSON. Nothing is said where one of them is no checkpoint, the first of these; an error may be want of memory too.
pub fn status_said(
    alloc: Global,
    form: ReportForm,
    names: &[&str],
    texts: &[Vec<u8>],
) -> Result<String, StatusFault>
    ensures { IsGiven string_bytes result (said.status_said form (map (λ name. name.now) names.now) (map (λ text. text.items) texts.now)) }
{
    let stands = stands_in(alloc, texts)?;
    let text = status_text(alloc, form, names, &stands)?;
    Ok(text)
}
