//! `live` answers requests over a target that goes on with its feeds.

ghost use Rattle.std.specs.Prelude.{◌≡◌, IfOk};
ghost use Rattle.clap.specs.Words.{found_of, rows_of};
ghost use Rattle.vrepl_words.specs.Built.{IsSubcommand};
ghost use Rattle.vrepl_words.specs.Portions.{portions_value};
ghost use Rattle.vrepl_words.specs.Subcommand.{Reads};
ghost use Rattle.vrepl_words.specs.commands.Live.{live_given, live_subcommand, live_value};

use crate::arguments::{bare, flag, option, with_arg, with_streams};
use crate::choices::threading_given;
use crate::given::{given_portions, text, text_if, texts};
use crate::numbers::{bad_number, bad_portion};
use crate::portions::Portions;
use clap::{ArgMatches, Command, Error};
use std::alloc::{AllocError, Global};
use vrepl_choices::Threading;

/// The words of `live`.
#[derive(Drop)]
pub struct Live<'w> {
    /// How the streams run.
    pub threading: Threading,
    /// In what portions they run.
    pub portions: Portions,
    /// The file of the checkpoint to go on from, where there is one.
    pub checkpoint: Option<&'w str>,
    /// The file that checkpoints take the place of, where there is one.
    pub save_to: Option<&'w str>,
    /// The workflow's file.
    pub workflow: &'w str,
    /// The feeds' files.
    pub feeds: Vec<&'w str>,
}

/// A session of `live` and what it answers.
const HELP: &str = "\
Example:
  $ xxd -r -p examples/one_insert.hex > one_insert.feed
  $ printf 'row\\tt\\tx31\\nend\\n' | vrepl live \\
      examples/workflows/one_shard.json one_insert.feed
  {\"ok\":{\"row\":[\"x31\",\"x6162\"],\"stream\":0}}
  {\"ok\":{}}

Requests come on standard input, a line each, their words parted by a tab, and
each is answered by one line of JSON:
  more [GROUPS]               reads on what was appended to the feeds
  state                       where the streams stand
  changes, told               what changed since the last of these two
  rows TABLE [LIMIT [KEY]]    rows by key, from KEY on; 100 unless LIMIT is given
  row TABLE KEY               the row at a key
  counts                      how many rows there are
  save                        puts the checkpoint into the file of --save-to
  end                         ends the session, as the end of the input does
A refused request changes nothing, and the session goes on. Feeds are bytes, to
whose end others may append meanwhile.

Status:
  0  the session ended
  1  refused; `vrepl explain NUMBER` says what the line's number means
  2  a fault of usage";

pub(crate) fn live_command<'w>(alloc: Global) -> Result<Command<'w>, AllocError>
    ensures { IfOk result (IsSubcommand live_subcommand) }
{
    let alone_help = "Runs the streams one after another, without threads";
    let rows_help = "Rows that are copied at a time, 1000 unless given";
    let ahead_help = "Groups read before a snapshot, 100 unless given";
    let chunks_help = "Chunks that are copied of a snapshot, 4 unless given";
    let checkpoint_help = "The checkpoint to go on from; nothing unless given";
    let save_help = "The file that a saved checkpoint takes the place of";
    let about = "Answers requests over a target that goes on with its feeds";
    let command = Ok(bare(alloc, "live", about, HELP));
    let command = with_arg(command, flag(alloc, "alone", alone_help));
    let command = with_arg(command, option(alloc, "rows", "N", rows_help));
    let command = with_arg(command, option(alloc, "ahead", "N", ahead_help));
    let command = with_arg(command, option(alloc, "chunks", "N", chunks_help));
    let command = with_arg(
        command,
        option(alloc, "checkpoint", "FILE", checkpoint_help),
    );
    with_streams(
        alloc,
        with_arg(command, option(alloc, "save-to", "FILE", save_help)),
    )
}

/// The fault of usage is that of a portion that is none.
pub(crate) fn live_words<'w>(alloc: Global, given: &ArgMatches<'w>) -> Result<Live<'w>, Error>
    ensures { Reads live_value (live_subcommand.meaning (rows_of (found_of given.now))) result }
{
    match given_portions(given) {
        Some(portions) => Ok(live_of(alloc, given, portions)?),
        None => Err(bad_number(live_command(alloc), "vrepl live", bad_portion(given))),
    }
}

/// What is given to `live`, with these portions. An error is want of memory.
fn live_of<'w>(
    alloc: Global,
    given: &ArgMatches<'w>,
    portions: Portions,
) -> Result<Live<'w>, AllocError>
    ensures { IfOk result (λ live. live_value live ≡ live_given (rows_of (found_of given.now)) (portions_value portions)) }
{
    let feeds = texts(alloc, given, "feed")?;
    Ok(Live {
        threading: threading_given(given),
        portions,
        checkpoint: text_if(given, "checkpoint"),
        save_to: text_if(given, "save-to"),
        workflow: text(given, "workflow"),
        feeds,
    })
}
