//! `tiles` says whether the targets of workflows share the ids of their sources.

ghost use Rattle.std.specs.Prelude.{◌≡◌, IfOk};
ghost use Rattle.clap.specs.Words.{found_of, rows_of};
ghost use Rattle.vrepl_words.specs.Built.{IsSubcommand};
ghost use Rattle.vrepl_words.specs.commands.Tiles.{tiles_given, tiles_subcommand, tiles_value};

use crate::arguments::{bare, operands, with_arg};
use crate::given::texts;
use clap::{ArgMatches, Command};
use std::alloc::{AllocError, Global};

/// The words of `tiles`.
#[derive(Drop)]
pub struct Tiles<'w> {
    /// The workflows' files, one a target.
    pub workflows: Vec<&'w str>,
}

/// A call of `tiles`.
const HELP: &str = "\
Example:
  $ vrepl tiles -40.json 40-80.json

Prints a line for each table of each source shard whose ids are in one target
each, or whose rows all targets have, and a line for each range of its ids that
is in no target, or in several.

Status:
  0  nothing is warned of
  1  refused; `vrepl explain NUMBER` says what the line's number means
  2  a fault of usage
  3  something is warned of";

pub(crate) fn tiles_command<'w>(alloc: Global) -> Result<Command<'w>, AllocError>
    ensures { IfOk result (IsSubcommand tiles_subcommand) }
{
    let about = "Says whether targets' key ranges have each id of a source once";
    let workflow_help = "The workflow's file of each target";
    let command = Ok(bare(alloc, "tiles", about, HELP));
    with_arg(
        command,
        operands(alloc, "workflow", "WORKFLOW", workflow_help),
    )
}

pub(crate) fn tiles_words<'w>(
    alloc: Global,
    given: &ArgMatches<'w>,
) -> Result<Tiles<'w>, AllocError>
    ensures { IfOk result (λ words. tiles_value words ≡ tiles_given (rows_of (found_of given.now))) }
{
    let workflows = texts(alloc, given, "workflow")?;
    Ok(Tiles { workflows })
}
