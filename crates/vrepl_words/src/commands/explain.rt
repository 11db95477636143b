//! `explain` prints what is said of a refusal's number, or the list of all.

ghost use Rattle.std.specs.Prelude.{◌≡◌, IfOk};
ghost use Rattle.clap.specs.Words.{found_of, rows_of};
ghost use Rattle.vrepl_words.specs.Built.{IsSubcommand};
ghost use Rattle.vrepl_words.specs.Subcommand.{Reads};
ghost use Rattle.vrepl_words.specs.commands.Explain.{explain_given, explain_subcommand, explain_value};

use crate::arguments::{bare, flag, optional, with_arg};
use crate::choices::report_form_given;
use crate::numbers::{bad_number, refusal_given};
use clap::{ArgMatches, Command, Error};
use std::alloc::{AllocError, Global};
use vrepl_choices::ReportForm;

/// The words of `explain`.
#[derive(Clone, Copy)]
pub struct Explain {
    /// How it is printed.
    pub report_form: ReportForm,
    /// The number of a refusal; all of them unless given.
    pub number: Option<u64>,
}

/// A call of `explain` and what it prints.
const HELP: &str = "\
Example:
  $ vrepl explain 119
  119  there aren't as many feeds as streams

  There aren't as many feeds on the command line as the workflow has streams.
  Usual causes: a feed left out, or the workflow left out, so that the first
  feed is taken for it; a pattern of the shell that matches more files.
  What to do: give one feed a stream, in the order of the workflow's streams.

A number that stands behind the word `cause` in a line is explained as well.
With --json it is one object on one line, with the members `refused`, `text`,
`means`, `causes` and `do`; without a number an object a line for each.

Status:
  0  the text was printed
  1  it can't be written
  2  a fault of usage, or a number that no refusal has";

/// What is told of a number that no refusal has.
const NO_REFUSAL: &str = "no refusal has this number; `vrepl explain` lists those that there are";

pub(crate) fn explain_command<'w>(alloc: Global) -> Result<Command<'w>, AllocError>
    ensures { IfOk result (IsSubcommand explain_subcommand) }
{
    let about = "Says what a refusal's number means, and what to do next";
    let json_help = "Prints a JSON object a line, one a number";
    let number_help = "The number of a line `refused NUMBER`; all of them unless given";
    let command = Ok(bare(alloc, "explain", about, HELP));
    let command = with_arg(command, flag(alloc, "json", json_help));
    with_arg(command, optional(alloc, "number", "NUMBER", number_help))
}

/// The fault of usage is that of a number that no refusal has.
pub(crate) fn explain_words(alloc: Global, given: &ArgMatches<'_>) -> Result<Explain, Error>
    ensures { Reads explain_value (explain_subcommand.meaning (rows_of (found_of given.now))) result }
{
    match refusal_given(given, "number") {
        Some(number) => Ok(explain_of(given, number)),
        None => Err(bad_number(explain_command(alloc), "vrepl explain", NO_REFUSAL)),
    }
}

/// What is given to `explain`, with this number, if there is one.
fn explain_of(given: &ArgMatches<'_>, number: Option<u64>) -> Explain
    ensures { explain_value result ≡ explain_given (rows_of (found_of given.now)) number }
{
    Explain {
        report_form: report_form_given(given),
        number,
    }
}
