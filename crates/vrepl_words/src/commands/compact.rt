//! `compact` puts one group in the place of a feed's first ones.

ghost use Rattle.std.specs.Prelude.{◌≡◌, IfOk};
ghost use Rattle.clap.specs.Words.{found_of, rows_of};
ghost use Rattle.vrepl_words.specs.Built.{IsSubcommand};
ghost use Rattle.vrepl_words.specs.Subcommand.{Reads};
ghost use Rattle.vrepl_words.specs.commands.Compact.{compact_given, compact_subcommand, compact_value};

use crate::arguments::{
    bare, flag, further, hex, operand, option, with_arg, with_telling, workflow,
};
use crate::choices::{Telling, feed_form_given, telling_given};
use crate::given::{has_flag, text, text_if, texts};
use crate::numbers::{STREAM, bad_number};
use crate::streams::stream_given;
use clap::{ArgMatches, Command, Error};
use std::alloc::{AllocError, Global};
use vrepl_choices::FeedForm;

/// The words of `compact`.
#[derive(Drop)]
pub struct Compact<'w> {
    /// How the feed is given.
    pub feed_form: FeedForm,
    /// The file that the compacted feed takes the place of; standard output unless given.
    pub save_to: Option<&'w str>,
    /// The stream whose feed it is, from 0.
    pub stream: u8,
    /// The position up to which the feed is compacted; its end unless given.
    pub at: Option<&'w str>,
    /// The files of checkpoints that are to go on.
    pub checkpoints: Vec<&'w str>,
    /// Whether rows of tables that the workflow lacks are left out.
    pub drop_unknown: bool,
    /// Whether it is told how far it is.
    pub telling: Telling,
    /// The workflow's file.
    pub workflow: &'w str,
    /// The feed's file.
    pub feed: &'w str,
}

/// A call of `compact` and what it tells.
const HELP: &str = "\
Example:
  $ vrepl compact --hex --save-to short.feed \\
      examples/workflows/one_shard.json examples/feeds/four_groups.hex
  compacted 4 groups up to 3e11fa47-71ca-11e1-9e33-c80aa9429562:1-4 into 4 rows: 438 bytes to 148

The first groups become one, which inserts the rows that they leave, at the
position of the last of them. The file is replaced once the new feed is whole,
and may be the feed's own; without --save-to the new feed is printed. A
checkpoint from before that position is refused over the new feed: name all
that are to go on by --checkpoint, and keep the old feed for others.

Status:
  0  the new feed was written
  1  refused; `vrepl explain NUMBER` says what the line's number means
  2  a fault of usage";

pub(crate) fn compact_command<'w>(alloc: Global) -> Result<Command<'w>, AllocError>
    ensures { IfOk result (IsSubcommand compact_subcommand) }
{
    let about = "Puts one group in the place of a feed's first ones";
    let save_help = "The new feed's file; standard output unless given";
    let stream_help = "The stream whose feed it is, 0 unless given";
    let at_help = "The position up to which it is compacted, its end unless given";
    let checkpoint_help = "A checkpoint that is to go on; may be given again";
    let unknown_help = "Leaves out rows of tables that the workflow lacks";
    let feed_help = "The feed's file";
    let command = Ok(bare(alloc, "compact", about, HELP));
    let command = with_arg(command, hex(alloc));
    let command = with_arg(command, option(alloc, "save-to", "NEW", save_help));
    let command = with_arg(command, option(alloc, "stream", "S", stream_help));
    let command = with_arg(command, option(alloc, "at", "POSITION", at_help));
    let command = with_arg(
        command,
        further(alloc, "checkpoint", "FILE", checkpoint_help),
    );
    let command = with_arg(command, flag(alloc, "drop-unknown", unknown_help));
    let command = with_telling(alloc, command);
    let command = with_arg(command, workflow(alloc));
    with_arg(command, operand(alloc, "feed", "FEED", feed_help))
}

/// The fault of usage is that of a stream that is none.
pub(crate) fn compact_words<'w>(alloc: Global, given: &ArgMatches<'w>) -> Result<Compact<'w>, Error>
    ensures { Reads compact_value (compact_subcommand.meaning (rows_of (found_of given.now))) result }
{
    match stream_given(given, "stream") {
        Some(stream) => Ok(compact_of(alloc, given, stream)?),
        None => Err(bad_number(compact_command(alloc), "vrepl compact", STREAM)),
    }
}

/// What is given to `compact`, of this stream. An error is want of memory.
fn compact_of<'w>(
    alloc: Global,
    given: &ArgMatches<'w>,
    stream: u8,
) -> Result<Compact<'w>, AllocError>
    ensures { IfOk result (λ compact. compact_value compact ≡ compact_given (rows_of (found_of given.now)) stream) }
{
    let checkpoints = texts(alloc, given, "checkpoint")?;
    Ok(Compact {
        feed_form: feed_form_given(given),
        save_to: text_if(given, "save-to"),
        stream,
        at: text_if(given, "at"),
        checkpoints,
        drop_unknown: has_flag(given, "drop-unknown"),
        telling: telling_given(given),
        workflow: text(given, "workflow"),
        feed: text(given, "feed"),
    })
}
