//! `check` looks for what can't be so in a workflow's feeds.

ghost use Rattle.std.specs.Prelude.{◌≡◌, IfOk};
ghost use Rattle.clap.specs.Words.{found_of, rows_of};
ghost use Rattle.vrepl_words.specs.Built.{IsSubcommand};
ghost use Rattle.vrepl_words.specs.commands.Check.{check_given, check_subcommand, check_value};

use crate::arguments::{bare, flag, hex, with_arg, with_streams, with_telling};
use crate::choices::{Telling, report_form_given, telling_given};
use crate::commands::step::{Step, step_words};
use crate::given::has_flag;
use clap::{ArgMatches, Command};
use std::alloc::{AllocError, Global};
use vrepl_choices::ReportForm;

/// The words of `check`.
#[derive(Drop)]
pub struct Check<'w> {
    /// How the report is printed.
    pub report_form: ReportForm,
    /// Whether notes are as warnings.
    pub strict: bool,
    /// Whether it is told how far it is.
    pub telling: Telling,
    /// The other words, which are those of `step`.
    pub step: Step<'w>,
}

/// A call of `check`.
const HELP: &str = "\
Example:
  $ vrepl check --hex examples/workflows/two_shards.json \\
      examples/two_shards/lower.hex examples/two_shards/upper.hex

Prints a line for each stream and each of its tables, a line `note ..` for what
may well be so, as where a feed starts, and a line `warning ..` for each thing
that can't be so, of a kind the first ten. With --json all of it is one object,
which has every one of them.

Status:
  0  nothing is warned of, and with --strict nothing is noted
  1  refused; `vrepl explain NUMBER` says what the line's number means
  2  a fault of usage
  3  something is warned of, or with --strict noted";

pub(crate) fn check_command<'w>(alloc: Global) -> Result<Command<'w>, AllocError>
    ensures { IfOk result (IsSubcommand check_subcommand) }
{
    let about = "Warns of what can't be so in a workflow's feeds";
    let json_help = "Prints all of it as one JSON object";
    let strict_help = "Ends with status 3 for notes too";
    let command = Ok(bare(alloc, "check", about, HELP));
    let command = with_arg(command, hex(alloc));
    let command = with_arg(command, flag(alloc, "json", json_help));
    let command = with_arg(command, flag(alloc, "strict", strict_help));
    with_streams(alloc, with_telling(alloc, command))
}

pub(crate) fn check_words<'w>(
    alloc: Global,
    given: &ArgMatches<'w>,
) -> Result<Check<'w>, AllocError>
    ensures { IfOk result (λ words. check_value words ≡ check_given (rows_of (found_of given.now))) }
{
    let step = step_words(alloc, given)?;
    Ok(Check {
        report_form: report_form_given(given),
        strict: has_flag(given, "strict"),
        telling: telling_given(given),
        step,
    })
}
