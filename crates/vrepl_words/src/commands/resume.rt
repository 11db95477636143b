//! `resume` takes the steps of a script on the board of a checkpoint.

ghost use Rattle.std.specs.Prelude.{◌≡◌, IfOk};
ghost use Rattle.clap.specs.Words.{found_of, rows_of};
ghost use Rattle.vrepl_words.specs.Built.{IsSubcommand};
ghost use Rattle.vrepl_words.specs.commands.Resume.{resume_given, resume_subcommand, resume_value};

use crate::arguments::{bare, hex, needed, with_arg, with_streams, with_telling};
use crate::choices::{Telling, telling_given};
use crate::commands::step::{Step, step_words};
use crate::given::text;
use clap::{ArgMatches, Command};
use std::alloc::{AllocError, Global};

/// The words of `resume`.
#[derive(Drop)]
pub struct Resume<'w> {
    /// The checkpoint's file.
    pub checkpoint: &'w str,
    /// Whether it is told how far it is.
    pub telling: Telling,
    /// The other words, which are those of `step`.
    pub step: Step<'w>,
}

/// A call of `resume` and what it prints.
const HELP: &str = "\
Example:
  $ printf 'offer 0 3\\nadvance 0\\ndump\\n' | vrepl resume --hex \\
      --checkpoint examples/checkpoints/two_rows.checkpoint \\
      examples/workflows/one_shard.json examples/feeds/four_groups.hex
  read 3
  applied 3
  table t
  x31\tx61
  x32\tx62
  x33\tx63

The script comes on standard input. The rows of the checkpoint are compared with
those that the feeds leave.

Status:
  0  each step has its reply
  1  refused; `vrepl explain NUMBER` says what the line's number means
  2  a fault of usage";

pub(crate) fn resume_command<'w>(alloc: Global) -> Result<Command<'w>, AllocError>
    ensures { IfOk result (IsSubcommand resume_subcommand) }
{
    let about = "Takes the steps of a script on the board of a checkpoint";
    let command = Ok(bare(alloc, "resume", about, HELP));
    let command = with_arg(command, hex(alloc));
    let checkpoint = needed(alloc, "checkpoint", "FILE", "The checkpoint's file");
    let command = with_arg(command, checkpoint);
    with_streams(alloc, with_telling(alloc, command))
}

pub(crate) fn resume_words<'w>(
    alloc: Global,
    given: &ArgMatches<'w>,
) -> Result<Resume<'w>, AllocError>
    ensures { IfOk result (λ words. resume_value words ≡ resume_given (rows_of (found_of given.now))) }
{
    let step = step_words(alloc, given)?;
    Ok(Resume {
        checkpoint: text(given, "checkpoint"),
        telling: telling_given(given),
        step,
    })
}
