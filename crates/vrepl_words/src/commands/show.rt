//! `show` prints the groups of one feed.

ghost use Rattle.std.specs.Prelude.{◌≡◌, IfOk};
ghost use Rattle.clap.specs.Words.{found_of, rows_of};
ghost use Rattle.vrepl_words.specs.Built.{IsSubcommand};
ghost use Rattle.vrepl_words.specs.commands.Show.{show_given, show_subcommand, show_value};

use crate::arguments::{bare, flag, hex, operand, option, with_arg};
use crate::choices::{feed_form_given, report_form_given};
use crate::given::text;
use clap::{ArgMatches, Command};
use std::alloc::{AllocError, Global};
use vrepl_choices::{FeedForm, ReportForm};

/// The words of `show`.
#[derive(Clone, Copy)]
pub struct Show<'w> {
    /// How the feed is given.
    pub feed_form: FeedForm,
    /// How the groups are printed.
    pub report_form: ReportForm,
    /// The keyspace that the feed is of, empty unless given.
    pub keyspace: &'w str,
    /// The shard that the feed is of, empty unless given.
    pub shard: &'w str,
    /// The feed's file, or `-` for standard input.
    pub feed: &'w str,
}

/// A call of `show` and what it prints.
const HELP: &str = "\
Example:
  $ vrepl show --hex examples/one_insert.hex
  group 1 3e11fa47-71ca-11e1-9e33-c80aa9429562:1
  + t\tx31\tx6162

With --json it is
  {\"changes\":[{\"after\":{\"id\":\"1\",\"v\":\"ab\"},\"before\":null,\"table\":\"t\"}],
   \"group\":1,\"position\":\"3e11fa47-71ca-11e1-9e33-c80aa9429562:1\"}
on one line; a value that is no printable text is {\"bytes\":\"x00ff\"}.

Names of tables are printed as they stand, with line feeds and control
characters: look at a feed that isn't trusted by `| cat -v`.

Status:
  0  the whole feed was printed
  1  refused; `vrepl explain NUMBER` says what the line's number means
  2  a fault of usage";

pub(crate) fn show_command<'w>(alloc: Global) -> Result<Command<'w>, AllocError>
    ensures { IfOk result (IsSubcommand show_subcommand) }
{
    let feed_help = "The feed's file, or - for standard input";
    let about = "Prints the transactions of a feed with their positions";
    let json_help = "Prints a JSON object a line, one a transaction";
    let command = Ok(bare(alloc, "show", about, HELP));
    let command = with_arg(command, hex(alloc));
    let command = with_arg(command, flag(alloc, "json", json_help));
    let command = with_arg(
        command,
        option(alloc, "keyspace", "K", "The feed's keyspace"),
    );
    let shard_help = "The feed's shard, as --shard=-80";
    let command = with_arg(command, option(alloc, "shard", "S", shard_help));
    with_arg(command, operand(alloc, "feed", "FEED", feed_help))
}

pub(crate) fn show_words<'w>(given: &ArgMatches<'w>) -> Show<'w>
    ensures { show_value result ≡ show_given (rows_of (found_of given.now)) }
{
    Show {
        feed_form: feed_form_given(given),
        report_form: report_form_given(given),
        keyspace: text(given, "keyspace"),
        shard: text(given, "shard"),
        feed: text(given, "feed"),
    }
}
