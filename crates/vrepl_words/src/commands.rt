//! The commands: what words ask for, and the program as `clap` is given it.
//!
//! Each command has a file: its words, its help, its arguments and their reader. Here is the list of all.

pub mod check;
pub mod compact;
pub mod explain;
pub mod feed;
pub mod follow;
pub mod join;
pub mod live;
pub mod resume;
pub mod run;
pub mod save;
pub mod show;
pub mod status;
pub mod step;
pub mod tiles;
pub mod transcribe;
pub mod vdiff;

ghost use Rattle.std.specs.Prelude.{◌∷◌, [], IfOk, Some};
ghost use Rattle.clap.specs.Words.{HasKind, found_of, rows_of, subcommand_rows_of};
ghost use Rattle.clap.specs.declared.error.kind.ErrorKind.TheVariants.{ValueValidation};
ghost use Rattle.vrepl_words.specs.Built.{HasApp, HasOneMore, bare_app};
ghost use Rattle.vrepl_words.specs.Subcommand.{Reads};
ghost use Rattle.vrepl_words.specs.commands.{asked_by, program_app, value_of_words};

use crate::numbers::bad_number;
use clap::{ArgMatches, Command, Error};
use std::alloc::{AllocError, Global};

/// What the words ask for.
#[derive(Drop)]
pub enum Words<'w> {
    /// `show`: print the groups of one feed.
    Show(show::Show<'w>),
    /// `step`: take the steps of a script on a board over a workflow and its feeds.
    Step(step::Step<'w>),
    /// `run`: run the streams of a workflow over its feeds to their ends.
    Run(run::Run<'w>),
    /// `save`: write the checkpoint of the board behind a script.
    Save(save::Save<'w>),
    /// `resume`: take the steps of a script on the board of a checkpoint.
    Resume(resume::Resume<'w>),
    /// `join`: write the checkpoint of the join of two checkpoints' boards.
    Join(join::Join<'w>),
    /// `follow`: move a checkpoint on to the feeds' ends.
    Follow(follow::Follow<'w>),
    /// `live`: answer requests over a target that goes on with its feeds.
    Live(live::Live<'w>),
    /// `vdiff`: compare two dumps.
    Vdiff(vdiff::Vdiff<'w>),
    /// `compact`: put one group in the place of a feed's first ones.
    Compact(compact::Compact<'w>),
    /// `transcribe`: make a feed of a server's binary logs.
    Transcribe(transcribe::Transcribe<'w>),
    /// `feed`: write the feed of which `show` prints a text.
    Feed(feed::Feed<'w>),
    /// `check`: look for what can't be so in a workflow's feeds.
    Check(check::Check<'w>),
    /// `tiles`: say whether the targets of workflows share the ids of their sources.
    Tiles(tiles::Tiles<'w>),
    /// `status`: say where the streams of checkpoints stand.
    Status(status::Status<'w>),
    /// `explain`: print what is said of a refusal's number, or the list of all.
    Explain(explain::Explain),
}

/// The program's version, and the sum of the sources that it is built of, which `scripts/stamp` writes over the zeros.
const VERSION: &str =
    "1.0.0, sources 0000000000000000000000000000000000000000000000000000000000000000";

/// The statuses of the program.
const STATUSES: &str = "\
Status:
  0  what was asked for was printed
  1  a line `refused NUMBER` on standard error, or with --json an object on a
     line; `vrepl explain NUMBER` says what the number means, what the usual
     causes are, and what to do next
  2  a fault of usage
  3  `vdiff` found a difference, or `check` or `tiles` something to warn of";

/// The program: its words are those of a subcommand.
pub(crate) fn program<'w>(alloc: Global) -> Result<Command<'w>, AllocError>
    ensures { IfOk result (HasApp program_app) }
{
    let command = bare_program(alloc);
    let command = with_subcommand(command, show::show_command(alloc));
    let command = with_subcommand(command, step::step_command(alloc));
    let command = with_subcommand(command, run::run_command(alloc));
    let command = with_subcommand(command, vdiff::vdiff_command(alloc));
    let command = with_subcommand(command, save::save_command(alloc));
    let command = with_subcommand(command, resume::resume_command(alloc));
    let command = with_subcommand(command, join::join_command(alloc));
    let command = with_subcommand(command, follow::follow_command(alloc));
    let command = with_subcommand(command, live::live_command(alloc));
    let command = with_subcommand(command, check::check_command(alloc));
    let command = with_subcommand(command, tiles::tiles_command(alloc));
    let command = with_subcommand(command, status::status_command(alloc));
    let command = with_subcommand(command, compact::compact_command(alloc));
    let command = with_subcommand(command, transcribe::transcribe_command(alloc));
    let command = with_subcommand(command, feed::feed_command(alloc));
    with_subcommand(command, explain::explain_command(alloc))
}

/// The program without its subcommands.
fn bare_program<'w>(alloc: Global) -> Result<Command<'w>, AllocError>
    ensures { IfOk result (HasApp bare_app) }
{
    let command = Command::new(alloc, "vrepl").bin_name("vrepl")?;
    Ok(
        command
            .about("The target side of VReplication over recorded VStream feeds")
            .after_help(STATUSES)
            .version(VERSION)
            .no_binary_name(true)
            .subcommand_required(true),
    )
}

/// The command with one more subcommand, unless memory ran out for one of the two.
fn with_subcommand<'w>(
    command: Result<Command<'w>, AllocError>,
    sub: Result<Command<'w>, AllocError>,
) -> Result<Command<'w>, AllocError>
    ensures { HasOneMore command.entry sub.entry result }
{
    let command = command?;
    let sub = sub?;
    command.subcommand(sub)
}

/// What the subcommand that was met asks for.
pub(crate) fn asked<'w>(alloc: Global, matches: &ArgMatches<'w>) -> Result<Words<'w>, Error>
    ensures { Reads value_of_words (asked_by (subcommand_rows_of matches.now)) result }
{
    match matches.subcommand() {
        Some((name, given)) => asked_by_name(alloc, name, given),
        None => Err(no_command(alloc)),
    }
}

/// What the subcommand of this name asks for.
#[tactic(auto, using(crate::proofs::MetSubcommand::other_text), unfolding(crate::specs::commands::asked_by))]
fn asked_by_name<'w>(alloc: Global, name: &str, given: &ArgMatches<'w>) -> Result<Words<'w>, Error>
    ensures { Reads value_of_words (asked_by (Some (name.now, rows_of (found_of given.now)))) result }
{
    match name {
        "show" => Ok(Words::Show(show::show_words(given))),
        "step" => Ok(Words::Step(step::step_words(alloc, given)?)),
        "run" => Ok(Words::Run(run::run_words(alloc, given)?)),
        "save" => Ok(Words::Save(save::save_words(alloc, given)?)),
        "resume" => Ok(Words::Resume(resume::resume_words(alloc, given)?)),
        "join" => Ok(Words::Join(join::join_words(alloc, given)?)),
        "follow" => Ok(Words::Follow(follow::follow_words(alloc, given)?)),
        "live" => Ok(Words::Live(live::live_words(alloc, given)?)),
        "vdiff" => Ok(Words::Vdiff(vdiff::vdiff_words(alloc, given)?)),
        "check" => Ok(Words::Check(check::check_words(alloc, given)?)),
        "tiles" => Ok(Words::Tiles(tiles::tiles_words(alloc, given)?)),
        "status" => Ok(Words::Status(status::status_words(alloc, given)?)),
        "compact" => Ok(Words::Compact(compact::compact_words(alloc, given)?)),
        "transcribe" => Ok(Words::Transcribe(transcribe::transcribe_words(alloc, given)?)),
        "feed" => Ok(Words::Feed(feed::feed_words(alloc, given)?)),
        "explain" => Ok(Words::Explain(explain::explain_words(alloc, given)?)),
        _ => Err(no_command(alloc)),
    }
}

/// The fault of usage where there is no subcommand of the name, of which `clap` has told before.
fn no_command(alloc: Global) -> Error
    ensures { HasKind (ValueValidation ∷ []) result }
{
    bad_number(program(alloc), "vrepl", "there is no such subcommand")
}
