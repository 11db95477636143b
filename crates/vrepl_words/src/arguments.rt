//! The arguments of the subcommands, as `clap` is given them.

ghost use Rattle.std.specs.Prelude.{IfOk, codes};
ghost use Rattle.clap.specs.Words.{App, Rule, new_app, with_rule};
ghost use Rattle.vrepl_words.specs.Arguments.{flag_rule, further_rule, needed_rule, operand_rule, operands_rule, option_rule, optional_rule};
ghost use Rattle.vrepl_words.specs.Built.{HasApp, HasRule};

use clap::{Arg, ArgAction, Command};
use std::alloc::{AllocError, Global};

/// A subcommand without its arguments.
pub(crate) fn bare<'w>(
    alloc: Global,
    name: &'w str,
    about: &'w str,
    example: &'w str,
) -> Command<'w>
    ensures { HasApp (new_app name.entry.now) result }
{
    Command::new(alloc, name).about(about).after_help(example)
}

/// The command with one more argument, unless memory ran out.
pub(crate) fn with_arg<'w>(
    command: Result<Command<'w>, AllocError>,
    arg: Arg<'w>,
) -> Result<Command<'w>, AllocError>
    ensures { (app : App) (rule : Rule) → IfOk command.entry (HasApp app) → HasRule rule arg.entry → IfOk result (HasApp (with_rule app rule)) }
{
    let command = command?;
    command.arg(arg)
}

/// The command with a workflow and the feeds of its streams, unless memory ran out.
pub(crate) fn with_streams<'w>(
    alloc: Global,
    command: Result<Command<'w>, AllocError>,
) -> Result<Command<'w>, AllocError>
    ensures { (app : App) → IfOk command.entry (HasApp app) → IfOk result (HasApp (with_rule (with_rule app (operand_rule (codes "workflow"))) (operands_rule (codes "feed")))) }
{
    let feed_help = "A feed's file for each stream, in their order";
    let command = with_arg(command, workflow(alloc));
    with_arg(command, operands(alloc, "feed", "FEED", feed_help))
}

/// The command with the flags that say whether it tells how far it is, unless memory ran out.
pub(crate) fn with_telling<'w>(
    alloc: Global,
    command: Result<Command<'w>, AllocError>,
) -> Result<Command<'w>, AllocError>
    ensures { (app : App) → IfOk command.entry (HasApp app) → IfOk result (HasApp (with_rule (with_rule app (flag_rule (codes "progress"))) (flag_rule (codes "quiet")))) }
{
    let progress_help = "Tells how far it is, also into a file";
    let quiet_help = "Tells nothing of that, also on a terminal";
    let command = with_arg(command, flag(alloc, "progress", progress_help));
    with_arg(command, flag(alloc, "quiet", quiet_help))
}

/// Whether feeds are hexadecimal text.
pub(crate) fn hex<'w>(alloc: Global) -> Arg<'w>
    ensures { HasRule (flag_rule (codes "hex")) result }
{
    flag(alloc, "hex", "Reads feeds as hexadecimal text")
}

/// The file of what is written, which may be left out.
pub(crate) fn save_to<'w>(alloc: Global) -> Arg<'w>
    ensures { HasRule (option_rule (codes "save-to")) result }
{
    let help = "The checkpoint's file; standard output unless given";
    option(alloc, "save-to", "FILE", help)
}

/// A position up to which feeds are read, which may be there several times.
pub(crate) fn until<'w>(alloc: Global) -> Arg<'w>
    ensures { HasRule (further_rule (codes "until")) result }
{
    let help = "Reads feeds up to it, as S=POSITION stream S's alone";
    further(alloc, "until", "POSITION", help)
}

/// The workflow's file.
pub(crate) fn workflow<'w>(alloc: Global) -> Arg<'w>
    ensures { HasRule (operand_rule (codes "workflow")) result }
{
    operand(alloc, "workflow", "WORKFLOW", "The workflow's file")
}

/// `--name`.
pub(crate) fn flag<'w>(alloc: Global, name: &'w str, help: &'w str) -> Arg<'w>
    ensures { HasRule (flag_rule name.entry.now) result }
{
    Arg::new(alloc, name)
        .long(name)
        .action(ArgAction::SetTrue)
        .help(help)
}

/// `--name TEXT`, which may be left out.
pub(crate) fn option<'w>(alloc: Global, name: &'w str, value: &'w str, help: &'w str) -> Arg<'w>
    ensures { HasRule (option_rule name.entry.now) result }
{
    Arg::new(alloc, name)
        .long(name)
        .value_name(value)
        .help(help)
}

/// `--name TEXT`, which may be there several times.
pub(crate) fn further<'w>(alloc: Global, name: &'w str, value: &'w str, help: &'w str) -> Arg<'w>
    ensures { HasRule (further_rule name.entry.now) result }
{
    option(alloc, name, value, help).action(ArgAction::Append)
}

/// `--name TEXT`, which has to be there.
pub(crate) fn needed<'w>(alloc: Global, name: &'w str, value: &'w str, help: &'w str) -> Arg<'w>
    ensures { HasRule (needed_rule name.entry.now) result }
{
    option(alloc, name, value, help).required(true)
}

/// `TEXT` in its place, which has to be there.
pub(crate) fn operand<'w>(alloc: Global, name: &'w str, value: &'w str, help: &'w str) -> Arg<'w>
    ensures { HasRule (operand_rule name.entry.now) result }
{
    Arg::new(alloc, name)
        .value_name(value)
        .required(true)
        .help(help)
}

/// `TEXT` in its place, which may be left out.
pub(crate) fn optional<'w>(alloc: Global, name: &'w str, value: &'w str, help: &'w str) -> Arg<'w>
    ensures { HasRule (optional_rule name.entry.now) result }
{
    Arg::new(alloc, name).value_name(value).help(help)
}

/// `TEXT..` in its place, once or more often.
pub(crate) fn operands<'w>(alloc: Global, name: &'w str, value: &'w str, help: &'w str) -> Arg<'w>
    ensures { HasRule (operands_rule name.entry.now) result }
{
    operand(alloc, name, value, help).num_args(1..)
}
