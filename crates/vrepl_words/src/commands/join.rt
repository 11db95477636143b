//! `join` writes the checkpoint of the join of two checkpoints' boards.

ghost use Rattle.std.specs.Prelude.{◌≡◌, IfOk};
ghost use Rattle.clap.specs.Words.{found_of, rows_of};
ghost use Rattle.vrepl_words.specs.Built.{IsSubcommand};
ghost use Rattle.vrepl_words.specs.commands.Join.{join_given, join_subcommand, join_value};

use crate::arguments::{
    bare, further, hex, operand, operands, save_to, with_arg, with_telling, workflow,
};
use crate::choices::{Telling, feed_form_given, telling_given};
use crate::given::{text, text_if, texts};
use clap::{ArgMatches, Command};
use std::alloc::{AllocError, Global};
use vrepl_choices::FeedForm;

/// The words of `join`.
#[derive(Drop)]
pub struct Join<'w> {
    /// How the feeds are given.
    pub feed_form: FeedForm,
    /// The workflow's file.
    pub workflow: &'w str,
    /// The file of the one checkpoint.
    pub one: &'w str,
    /// The file of the other checkpoint.
    pub other: &'w str,
    /// The files of further checkpoints.
    pub more: Vec<&'w str>,
    /// The file that the new checkpoint takes the place of; standard output unless given.
    pub save_to: Option<&'w str>,
    /// Whether it is told how far it is.
    pub telling: Telling,
    /// The feeds' files, in the order of the streams.
    pub feeds: Vec<&'w str>,
}

/// A call of `join`.
const HELP: &str = "\
Example:
  $ vrepl join --hex --save-to both.checkpoint \\
      examples/workflows/two_shards.json \\
      examples/checkpoints/lower.checkpoint \\
      examples/checkpoints/upper.checkpoint \\
      examples/two_shards/lower.hex examples/two_shards/upper.hex

Each stream, with its rows, is that of the checkpoint in which it is further on.
The order of the checkpoints doesn't matter, and the feeds are read once. The
file may be one of theirs: it is replaced once the new checkpoint is whole.

Status:
  0  the whole checkpoint was written
  1  refused; `vrepl explain NUMBER` says what the line's number means
  2  a fault of usage";

pub(crate) fn join_command<'w>(alloc: Global) -> Result<Command<'w>, AllocError>
    ensures { IfOk result (IsSubcommand join_subcommand) }
{
    let about = "Writes the checkpoint of the join of checkpoints' boards";
    let feed_help = "A feed's file for each stream, in their order";
    let command = Ok(bare(alloc, "join", about, HELP));
    let also_help = "A further checkpoint's file; may be given again";
    let command = with_arg(command, hex(alloc));
    let command = with_arg(command, further(alloc, "also", "FILE", also_help));
    let command = with_arg(command, save_to(alloc));
    let command = with_telling(alloc, command);
    let command = with_arg(command, workflow(alloc));
    let one = operand(alloc, "one", "A", "The one checkpoint's file");
    let command = with_arg(command, one);
    let other = operand(alloc, "other", "B", "The other checkpoint's file");
    let command = with_arg(command, other);
    with_arg(command, operands(alloc, "feed", "FEED", feed_help))
}

pub(crate) fn join_words<'w>(alloc: Global, given: &ArgMatches<'w>) -> Result<Join<'w>, AllocError>
    ensures { IfOk result (λ words. join_value words ≡ join_given (rows_of (found_of given.now))) }
{
    let more = texts(alloc, given, "also")?;
    let feeds = texts(alloc, given, "feed")?;
    Ok(Join {
        feed_form: feed_form_given(given),
        workflow: text(given, "workflow"),
        one: text(given, "one"),
        other: text(given, "other"),
        more,
        save_to: text_if(given, "save-to"),
        telling: telling_given(given),
        feeds,
    })
}
