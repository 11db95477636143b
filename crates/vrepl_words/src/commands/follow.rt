//! `follow` moves a checkpoint on to the feeds' ends.

ghost use Rattle.std.specs.Prelude.{◌≡◌, IfOk, option_map};
ghost use Rattle.clap.specs.Words.{found_of, rows_of};
ghost use Rattle.vrepl_words.specs.Built.{IsSubcommand};
ghost use Rattle.vrepl_words.specs.Portions.{portions_value};
ghost use Rattle.vrepl_words.specs.Subcommand.{Reads};
ghost use Rattle.vrepl_words.specs.commands.Follow.{bad_follow, follow_given, follow_numbers, follow_subcommand, follow_value};

use crate::arguments::{
    bare, flag, hex, needed, option, until, with_arg, with_streams, with_telling,
};
use crate::commands::run::{Run, bad_run, run_numbers, run_of};
use crate::given::{given_portions, has_flag, text, text_if};
use crate::numbers::{bad_number, bad_portion};
use crate::portions::Portions;
use crate::streams::{gives_streams, streams_given};
use clap::{ArgMatches, Command, Error};
use std::alloc::{AllocError, Global};

/// The words of `follow`.
#[derive(Drop)]
pub struct Follow<'w> {
    /// The words that are those of `run`.
    pub run: Run<'w>,
    /// Whether the target's rows are printed too.
    pub dump: bool,
    /// The streams that are run alone, where some are named.
    pub only: Option<Vec<u8>>,
    /// The file of the checkpoint to go on from, where there is one.
    pub checkpoint: Option<&'w str>,
    /// The file that the new checkpoint takes the place of.
    pub save_to: &'w str,
}

/// A call of `follow`.
const HELP: &str = "\
Example:
  $ vrepl follow --hex --checkpoint shards.checkpoint \\
      --save-to shards.checkpoint examples/workflows/two_shards.json \\
      examples/two_shards/lower.hex examples/two_shards/upper.hex

The file is replaced once the new checkpoint is whole, and never in part. The
streams that --only leaves out stay as the checkpoint has them. With --until
POSITION of each feed the groups that lie within POSITION are run, and no more;
--until S=POSITION is for stream S alone. On a terminal a line tells meanwhile
how far the streams are, and at the end one where they stand, on standard
error; with --progress also into a file.

Status:
  0  the new checkpoint stands in the file
  1  refused; `vrepl explain NUMBER` says what the line's number means
  2  a fault of usage";

/// What is told of streams that are none.
const ONLY: &str = "--only is numbers of 0 to 63 with commas between them";

pub(crate) fn follow_command<'w>(alloc: Global) -> Result<Command<'w>, AllocError>
    ensures { IfOk result (IsSubcommand follow_subcommand) }
{
    let alone_help = "Runs the streams one after another, without threads";
    let dump_help = "Prints the target's rows too, as `run` does";
    let rows_help = "Rows that are copied at a time, 1000 unless given";
    let ahead_help = "Groups read before a snapshot, 100 unless given";
    let chunks_help = "Chunks that are copied of a snapshot, 4 unless given";
    let only_help = "Runs these streams alone, as 0,2; all unless given";
    let checkpoint_help = "The checkpoint to go on from; nothing unless given";
    let save_help = "The file that the new checkpoint takes the place of";
    let about = "Moves a checkpoint on to the feeds' ends";
    let command = Ok(bare(alloc, "follow", about, HELP));
    let command = with_arg(command, hex(alloc));
    let command = with_arg(command, flag(alloc, "alone", alone_help));
    let command = with_telling(alloc, command);
    let command = with_arg(command, flag(alloc, "dump", dump_help));
    let command = with_arg(command, option(alloc, "rows", "N", rows_help));
    let command = with_arg(command, option(alloc, "ahead", "N", ahead_help));
    let command = with_arg(command, option(alloc, "chunks", "N", chunks_help));
    let command = with_arg(command, until(alloc));
    let command = with_arg(command, option(alloc, "only", "S,..", only_help));
    let command = with_arg(
        command,
        option(alloc, "checkpoint", "FILE", checkpoint_help),
    );
    with_streams(
        alloc,
        with_arg(command, needed(alloc, "save-to", "FILE", save_help)),
    )
}

/// The fault of usage is that of a portion that is none, or a stream, or the stream of a position.
pub(crate) fn follow_words<'w>(alloc: Global, given: &ArgMatches<'w>) -> Result<Follow<'w>, Error>
    ensures { Reads follow_value (follow_subcommand.meaning (rows_of (found_of given.now))) result }
{
    match follow_numbers(given) {
        Some(portions) => Ok(follow_of(alloc, given, portions)?),
        None => Err(bad_number(follow_command(alloc), "vrepl follow", bad_follow(given))),
    }
}

/// The portions that were given, or the usual ones. None where one is none, or a stream, or the stream of a position.
fn follow_numbers(given: &ArgMatches<'_>) -> Option<Portions>
    ensures { option_map portions_value result ≡ follow_numbers (rows_of (found_of given.now)) }
{
    if gives_streams(given, "only") {
        run_numbers(given)
    } else {
        None
    }
}

/// What is given to `follow`, with these portions. An error is want of memory.
fn follow_of<'w>(
    alloc: Global,
    given: &ArgMatches<'w>,
    portions: Portions,
) -> Result<Follow<'w>, AllocError>
    ensures { IfOk result (λ follow. follow_value follow ≡ follow_given (rows_of (found_of given.now)) (portions_value portions)) }
{
    let run = run_of(alloc, given, portions)?;
    let only = streams_given(alloc, given, "only")?;
    Ok(Follow {
        run,
        dump: has_flag(given, "dump"),
        only,
        checkpoint: text_if(given, "checkpoint"),
        save_to: text(given, "save-to"),
    })
}

/// What is told of the first number of `follow` that is none.
fn bad_follow(given: &ArgMatches<'_>) -> &'static str
    ensures { result.now ≡ bad_follow (rows_of (found_of given.now)) }
{
    if gives_streams(given, "only") {
        bad_run(given)
    } else if given_portions(given).is_some() {
        ONLY
    } else {
        bad_portion(given)
    }
}
