//! `save` writes the checkpoint of the board behind a script.

ghost use Rattle.std.specs.Prelude.{◌≡◌, IfOk};
ghost use Rattle.clap.specs.Words.{found_of, rows_of};
ghost use Rattle.vrepl_words.specs.Built.{IsSubcommand};
ghost use Rattle.vrepl_words.specs.commands.Save.{save_given, save_subcommand, save_value};

use crate::arguments::{bare, flag, hex, save_to, with_arg, with_streams};
use crate::commands::step::{Step, step_words};
use crate::given::{has_flag, text_if};
use clap::{ArgMatches, Command};
use std::alloc::{AllocError, Global};

/// The words of `save`.
#[derive(Drop)]
pub struct Save<'w> {
    /// The file that the checkpoint takes the place of; standard output unless given.
    pub save_to: Option<&'w str>,
    /// Whether refused steps are as a refusal.
    pub strict: bool,
    /// The other words, which are those of `step`.
    pub step: Step<'w>,
}

/// A call of `save`.
const HELP: &str = "\
Example:
  $ vrepl save --hex examples/workflows/one_shard.json examples/one_insert.hex \\
      --save-to one_row.checkpoint < examples/copy_one.script

The script comes on standard input. The replies to it aren't printed; where
steps were refused a line on standard error says how many. The file is replaced
once the checkpoint is whole; with `> FILE` in place of --save-to it is empty
before a refusal is known.

Status:
  0  the whole checkpoint was written
  1  refused; `vrepl explain NUMBER` says what the line's number means; or with
     --strict a step was refused, and the whole checkpoint was written
  2  a fault of usage";

pub(crate) fn save_command<'w>(alloc: Global) -> Result<Command<'w>, AllocError>
    ensures { IfOk result (IsSubcommand save_subcommand) }
{
    let about = "Writes the checkpoint of the board behind a script";
    let strict_help = "Ends with status 1 where a step was refused";
    let command = Ok(bare(alloc, "save", about, HELP));
    let command = with_arg(command, hex(alloc));
    let command = with_arg(command, save_to(alloc));
    with_streams(alloc, with_arg(command, flag(alloc, "strict", strict_help)))
}

pub(crate) fn save_words<'w>(alloc: Global, given: &ArgMatches<'w>) -> Result<Save<'w>, AllocError>
    ensures { IfOk result (λ words. save_value words ≡ save_given (rows_of (found_of given.now))) }
{
    let step = step_words(alloc, given)?;
    Ok(Save {
        save_to: text_if(given, "save-to"),
        strict: has_flag(given, "strict"),
        step,
    })
}
