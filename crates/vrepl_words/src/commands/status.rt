//! `status` says where the streams of checkpoints stand.

ghost use Rattle.std.specs.Prelude.{◌≡◌, IfOk};
ghost use Rattle.clap.specs.Words.{found_of, rows_of};
ghost use Rattle.vrepl_words.specs.Built.{IsSubcommand};
ghost use Rattle.vrepl_words.specs.commands.Status.{status_given, status_subcommand, status_value};

use crate::arguments::{bare, flag, operands, with_arg};
use crate::choices::report_form_given;
use crate::given::texts;
use clap::{ArgMatches, Command};
use std::alloc::{AllocError, Global};
use vrepl_choices::ReportForm;

/// The words of `status`.
#[derive(Drop)]
pub struct Status<'w> {
    /// How it is printed.
    pub report_form: ReportForm,
    /// The checkpoints' files.
    pub checkpoints: Vec<&'w str>,
}

/// A call of `status`.
const HELP: &str = "\
Example:
  $ vrepl status examples/checkpoints/two_rows.checkpoint

Neither a workflow nor feeds are needed. Behind the streams of all checkpoints
stands the least position of each shard: from there on a feed still serves each
of them.

Status:
  0  all of it was printed
  1  refused; `vrepl explain NUMBER` says what the line's number means
  2  a fault of usage";

pub(crate) fn status_command<'w>(alloc: Global) -> Result<Command<'w>, AllocError>
    ensures { IfOk result (IsSubcommand status_subcommand) }
{
    let about = "Says where the streams of checkpoints stand";
    let json_help = "Prints all of it as one JSON object";
    let checkpoint_help = "A checkpoint's file";
    let command = Ok(bare(alloc, "status", about, HELP));
    let command = with_arg(command, flag(alloc, "json", json_help));
    with_arg(
        command,
        operands(alloc, "checkpoint", "CHECKPOINT", checkpoint_help),
    )
}

pub(crate) fn status_words<'w>(
    alloc: Global,
    given: &ArgMatches<'w>,
) -> Result<Status<'w>, AllocError>
    ensures { IfOk result (λ words. status_value words ≡ status_given (rows_of (found_of given.now))) }
{
    let checkpoints = texts(alloc, given, "checkpoint")?;
    Ok(Status {
        report_form: report_form_given(given),
        checkpoints,
    })
}
