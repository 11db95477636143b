//! `run` runs the streams of a workflow over its feeds to their ends.

ghost use Rattle.std.specs.Prelude.{◌≡◌, IfOk, option_map};
ghost use Rattle.clap.specs.Words.{found_of, rows_of};
ghost use Rattle.vrepl_words.specs.Built.{IsSubcommand};
ghost use Rattle.vrepl_words.specs.Portions.{portions_value};
ghost use Rattle.vrepl_words.specs.Subcommand.{Reads};
ghost use Rattle.vrepl_words.specs.commands.Run.{bad_run, run_given, run_numbers, run_subcommand, run_value};

use crate::arguments::{bare, flag, hex, option, until, with_arg, with_streams, with_telling};
use crate::choices::{Telling, feed_form_given, telling_given, threading_given};
use crate::given::{given_portions, text, texts};
use crate::numbers::{bad_number, bad_portion};
use crate::portions::Portions;
use crate::untils::{gives_untils, untils_given};
use clap::{ArgMatches, Command, Error};
use std::alloc::{AllocError, Global};
use vrepl_choices::{FeedForm, Threading, Until};

/// The words of `run`.
#[derive(Drop)]
pub struct Run<'w> {
    /// How the feeds are given.
    pub feed_form: FeedForm,
    /// How the streams run.
    pub threading: Threading,
    /// Whether it is told how far they are.
    pub telling: Telling,
    /// In what portions a stream is run.
    pub portions: Portions,
    /// Up to which positions the feeds are read.
    pub until: Vec<Until<'w>>,
    /// The workflow's file.
    pub workflow: &'w str,
    /// The feeds' files, in the order of the streams.
    pub feeds: Vec<&'w str>,
}

/// A call of `run` and what it prints.
const HELP: &str = "\
Example:
  $ vrepl run --hex examples/workflows/two_shards.json \\
      examples/two_shards/lower.hex examples/two_shards/upper.hex
  table t
  x31\tx61
  x32\tx62
  x3131\tx6b
  x3132\tx6c

With --until POSITION of each feed the groups that lie within POSITION are run,
and no more: rows as they stood there. A feed that doesn't reach it is refused.
--until S=POSITION is for stream S alone; the last that is for a stream counts.

Status:
  0  all rows were printed
  1  refused; `vrepl explain NUMBER` says what the line's number means
  2  a fault of usage";

/// What is told of a position of `--until` whose stream is none.
const UNTIL: &str = "--until is a position, or S=POSITION with S a number of 0 to 63";

pub(crate) fn run_command<'w>(alloc: Global) -> Result<Command<'w>, AllocError>
    ensures { IfOk result (IsSubcommand run_subcommand) }
{
    let alone_help = "Runs the streams one after another, without threads";
    let rows_help = "Rows that are copied at a time, 1000 unless given";
    let ahead_help = "Groups read before a snapshot, 100 unless given";
    let chunks_help = "Chunks that are copied of a snapshot, 4 unless given";
    let about = "Runs a workflow's streams to their feeds' ends, and prints the rows";
    let command = Ok(bare(alloc, "run", about, HELP));
    let command = with_arg(command, hex(alloc));
    let command = with_arg(command, flag(alloc, "alone", alone_help));
    let command = with_telling(alloc, command);
    let command = with_arg(command, option(alloc, "rows", "N", rows_help));
    let command = with_arg(command, option(alloc, "ahead", "N", ahead_help));
    let command = with_arg(command, option(alloc, "chunks", "N", chunks_help));
    with_streams(alloc, with_arg(command, until(alloc)))
}

/// The fault of usage is that of a portion that is none, or of the stream of a position.
pub(crate) fn run_words<'w>(alloc: Global, given: &ArgMatches<'w>) -> Result<Run<'w>, Error>
    ensures { Reads run_value (run_subcommand.meaning (rows_of (found_of given.now))) result }
{
    match run_numbers(given) {
        Some(portions) => Ok(run_of(alloc, given, portions)?),
        None => Err(bad_number(run_command(alloc), "vrepl run", bad_run(given))),
    }
}

/// The portions that were given, or the usual ones. None where one is none, or the stream of a position.
pub(crate) fn run_numbers(given: &ArgMatches<'_>) -> Option<Portions>
    ensures { option_map portions_value result ≡ run_numbers (rows_of (found_of given.now)) }
{
    if gives_untils(given, "until") {
        given_portions(given)
    } else {
        None
    }
}

/// What is given to `run`, with these portions. An error is want of memory.
pub(crate) fn run_of<'w>(
    alloc: Global,
    given: &ArgMatches<'w>,
    portions: Portions,
) -> Result<Run<'w>, AllocError>
    ensures { IfOk result (λ run. run_value run ≡ run_given (rows_of (found_of given.now)) (portions_value portions)) }
{
    let until = untils_given(alloc, given, "until")?;
    let feeds = texts(alloc, given, "feed")?;
    Ok(Run {
        feed_form: feed_form_given(given),
        threading: threading_given(given),
        telling: telling_given(given),
        portions,
        until,
        workflow: text(given, "workflow"),
        feeds,
    })
}

/// What is told of the first number of `run` that is none.
pub(crate) fn bad_run(given: &ArgMatches<'_>) -> &'static str
    ensures { result.now ≡ bad_run (rows_of (found_of given.now)) }
{
    if given_portions(given).is_some() {
        UNTIL
    } else {
        bad_portion(given)
    }
}
