//! `transcribe` makes a feed of a server's binary logs.

ghost use Rattle.std.specs.Prelude.{◌≡◌, IfOk};
ghost use Rattle.clap.specs.Words.{found_of, rows_of};
ghost use Rattle.vrepl_words.specs.Built.{IsSubcommand};
ghost use Rattle.vrepl_words.specs.commands.Transcribe.{transcribe_given, transcribe_subcommand, transcribe_value};

use crate::arguments::{bare, needed, operands, option, with_arg, workflow};
use crate::given::{text, text_if, texts};
use clap::{ArgMatches, Command};
use std::alloc::{AllocError, Global};

/// The words of `transcribe`.
#[derive(Drop)]
pub struct Transcribe<'w> {
    /// The file that the feed takes the place of; standard output unless given.
    pub save_to: Option<&'w str>,
    /// The feed's file behind which to go on, if there is one.
    pub after: Option<&'w str>,
    /// The shard of the stream whose feed it is.
    pub shard: &'w str,
    /// The schema that the logs have its tables in; the keyspace's name unless given.
    pub schema: Option<&'w str>,
    /// The workflow's file.
    pub workflow: &'w str,
    /// The logs' files, in their order.
    pub logs: Vec<&'w str>,
}

/// A call of `transcribe` and what it tells.
const HELP: &str = "\
Example:
  $ vrepl transcribe --save-to log.feed --shard=-80 \\
      examples/workflows/one_shard.json \\
      examples/logs/binlog.000001 examples/logs/binlog.000002

Reads the binary logs of a server as files, from the first one on, in row
format with full images. The feed has each committed transaction that changes
the workflow's tables. The file is replaced once the feed is whole; without
--save-to it is printed. A line of a refusal names the file, the byte in it and
the table.

With --after FEED only what the feed doesn't have is written: messages that are
to be appended to it. The logs then may begin anywhere before its end.

Status:
  0  the feed was written
  1  refused; `vrepl explain NUMBER` says what the line's number means
  2  a fault of usage";

pub(crate) fn transcribe_command<'w>(alloc: Global) -> Result<Command<'w>, AllocError>
    ensures { IfOk result (IsSubcommand transcribe_subcommand) }
{
    let about = "Makes the feed of a stream of a server's binary logs";
    let save_help = "The feed's file; standard output unless given";
    let after_help = "The feed behind which to go on; it stays as it is";
    let shard_help = "The shard of the stream whose feed it is";
    let schema_help = "The tables' schema there, the keyspace's name unless given";
    let logs_help = "The files of the logs, in their order";
    let command = Ok(bare(alloc, "transcribe", about, HELP));
    let command = with_arg(command, option(alloc, "save-to", "NEW", save_help));
    let command = with_arg(command, option(alloc, "after", "FEED", after_help));
    let command = with_arg(command, needed(alloc, "shard", "S", shard_help));
    let command = with_arg(command, option(alloc, "schema", "NAME", schema_help));
    let command = with_arg(command, workflow(alloc));
    with_arg(command, operands(alloc, "log", "LOG", logs_help))
}

pub(crate) fn transcribe_words<'w>(
    alloc: Global,
    given: &ArgMatches<'w>,
) -> Result<Transcribe<'w>, AllocError>
    ensures { IfOk result (λ words. transcribe_value words ≡ transcribe_given (rows_of (found_of given.now))) }
{
    let logs = texts(alloc, given, "log")?;
    Ok(Transcribe {
        save_to: text_if(given, "save-to"),
        after: text_if(given, "after"),
        shard: text(given, "shard"),
        schema: text_if(given, "schema"),
        workflow: text(given, "workflow"),
        logs,
    })
}
