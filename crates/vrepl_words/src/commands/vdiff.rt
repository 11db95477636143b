//! `vdiff` compares two dumps.

ghost use Rattle.std.specs.Prelude.{◌≡◌, IfOk};
ghost use Rattle.clap.specs.Words.{found_of, rows_of};
ghost use Rattle.vrepl_words.specs.Built.{IsSubcommand};
ghost use Rattle.vrepl_words.specs.Subcommand.{Reads};
ghost use Rattle.vrepl_words.specs.commands.Vdiff.{vdiff_given, vdiff_subcommand, vdiff_value};

use crate::arguments::{bare, flag, operand, option, with_arg, with_telling, workflow};
use crate::choices::{Telling, report_form_given, telling_given};
use crate::given::{has_flag, text, text_if};
use crate::numbers::{bad_number, count_given};
use clap::{ArgMatches, Command, Error};
use std::alloc::{AllocError, Global};
use vrepl_choices::ReportForm;

/// The words of `vdiff`.
#[derive(Clone, Copy)]
pub struct Vdiff<'w> {
    /// The workflow's file.
    pub workflow: &'w str,
    /// Whether the counts of each table are printed too.
    pub tables: bool,
    /// How many keys at which the dumps differ are printed with their rows, where a number is given.
    pub first: Option<u32>,
    /// How the comparison is printed.
    pub report_form: ReportForm,
    /// Whether the differences are printed as a person reads them.
    pub readable: bool,
    /// The schema whose rows the printed statements make the source's, if one is given.
    pub sql: Option<&'w str>,
    /// Whether it is told how far it is.
    pub telling: Telling,
    /// The file of the source's dump, or `-` for standard input.
    pub source: &'w str,
    /// The file of the target's dump, or `-` for standard input, unless that is the source's.
    pub target: &'w str,
}

/// A call of `vdiff` and what it prints.
const HELP: &str = "\
Example:
  $ vrepl vdiff examples/workflows/one_shard.json \\
      examples/dumps/source.dump examples/dumps/target.dump
  processed 4
  matching 1
  mismatched 1
  extra source 1
  extra target 1
  first table t key x32

With --tables a line a table stands above that, with --first N the differing
keys below it, and with --json all of it is one object; one of the dumps may be
`-`, standard input. With --text the differences alone are printed, a line a
column, all of them or the first N. With --sql SCHEMA the statements alone are
printed that make the rows of SCHEMA, which are the target's, the source's:
  $ vrepl vdiff --sql shop shop.json source.dump target.dump | mariadb

Status:
  0  the dumps are of the same rows
  1  refused; `vrepl explain NUMBER` says what the line's number means
  2  a fault of usage
  3  the dumps differ";

/// What is told of a number of differences that is none.
const FIRST: &str = "--first is a number of 1 to 1000000";

pub(crate) fn vdiff_command<'w>(alloc: Global) -> Result<Command<'w>, AllocError>
    ensures { IfOk result (IsSubcommand vdiff_subcommand) }
{
    let about = "Compares two dumps of a workflow's tables";
    let tables_help = "Prints the counts of each table too, a line a table";
    let first_help = "Prints the first N differing keys too, with both rows";
    let source_help = "The source's dump, or - for standard input";
    let target_help = "The target's dump, or - for standard input";
    let json_help = "Prints all of it as one JSON object";
    let text_help = "Prints the columns that differ, a line each";
    let sql_help = "Prints SQL that makes SCHEMA's rows the source's";
    let command = Ok(bare(alloc, "vdiff", about, HELP));
    let command = with_arg(command, flag(alloc, "tables", tables_help));
    let command = with_arg(command, option(alloc, "first", "N", first_help));
    let command = with_arg(command, flag(alloc, "json", json_help));
    let command = with_arg(command, flag(alloc, "text", text_help));
    let command = with_arg(command, option(alloc, "sql", "SCHEMA", sql_help));
    let command = with_telling(alloc, command);
    let command = with_arg(command, workflow(alloc));
    let source = operand(alloc, "source", "SOURCE", source_help);
    let command = with_arg(command, source);
    with_arg(command, operand(alloc, "target", "TARGET", target_help))
}

/// The fault of usage is that of a number of differences that is none.
pub(crate) fn vdiff_words<'w>(alloc: Global, given: &ArgMatches<'w>) -> Result<Vdiff<'w>, Error>
    ensures { Reads vdiff_value (vdiff_subcommand.meaning (rows_of (found_of given.now))) result }
{
    match count_given(given, "first") {
        Some(first) => Ok(vdiff_of(given, first)),
        None => Err(bad_number(vdiff_command(alloc), "vrepl vdiff", FIRST)),
    }
}

/// What is given to `vdiff`, with this number of differences.
fn vdiff_of<'w>(given: &ArgMatches<'w>, first: Option<u32>) -> Vdiff<'w>
    ensures { vdiff_value result ≡ vdiff_given (rows_of (found_of given.now)) first }
{
    Vdiff {
        tables: has_flag(given, "tables"),
        first,
        report_form: report_form_given(given),
        readable: has_flag(given, "text"),
        sql: text_if(given, "sql"),
        telling: telling_given(given),
        workflow: text(given, "workflow"),
        source: text(given, "source"),
        target: text(given, "target"),
    }
}
