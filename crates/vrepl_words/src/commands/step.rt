//! `step` takes the steps of a script on a board over a workflow and its feeds.

ghost use Rattle.std.specs.Prelude.{◌≡◌, IfOk};
ghost use Rattle.clap.specs.Words.{found_of, rows_of};
ghost use Rattle.vrepl_words.specs.Built.{IsSubcommand};
ghost use Rattle.vrepl_words.specs.commands.Step.{step_given, step_subcommand, step_value};

use crate::arguments::{bare, hex, with_arg, with_streams};
use crate::choices::feed_form_given;
use crate::given::{text, texts};
use clap::{ArgMatches, Command};
use std::alloc::{AllocError, Global};
use vrepl_choices::FeedForm;

/// The words of `step`.
#[derive(Drop)]
pub struct Step<'w> {
    /// How the feeds are given.
    pub feed_form: FeedForm,
    /// The workflow's file.
    pub workflow: &'w str,
    /// The feeds' files, in the order of the streams.
    pub feeds: Vec<&'w str>,
}

/// A call of `step` and what it prints.
const HELP: &str = "\
Example:
  $ vrepl step --hex examples/workflows/one_shard.json examples/one_insert.hex \\
      < examples/copy_one.script
  read 1
  applied 1
  snapshot 1
  copied 1 done
  table t
  x31\tx6162

The script comes on standard input. A step that is refused is answered by its
line, and the script goes on.

Status:
  0  each step has its reply
  1  refused; `vrepl explain NUMBER` says what the line's number means
  2  a fault of usage";

pub(crate) fn step_command<'w>(alloc: Global) -> Result<Command<'w>, AllocError>
    ensures { IfOk result (IsSubcommand step_subcommand) }
{
    let about = "Takes the steps of a script over a workflow and its feeds";
    let command = Ok(bare(alloc, "step", about, HELP));
    with_streams(alloc, with_arg(command, hex(alloc)))
}

pub(crate) fn step_words<'w>(alloc: Global, given: &ArgMatches<'w>) -> Result<Step<'w>, AllocError>
    ensures { IfOk result (λ words. step_value words ≡ step_given (rows_of (found_of given.now))) }
{
    let feeds = texts(alloc, given, "feed")?;
    Ok(Step {
        feed_form: feed_form_given(given),
        workflow: text(given, "workflow"),
        feeds,
    })
}
