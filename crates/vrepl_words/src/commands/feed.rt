//! `feed` writes the feed of which `show` prints a text.

ghost use Rattle.std.specs.Prelude.{◌≡◌, IfOk};
ghost use Rattle.clap.specs.Words.{found_of, rows_of};
ghost use Rattle.vrepl_words.specs.Built.{IsSubcommand};
ghost use Rattle.vrepl_words.specs.Subcommand.{Reads};
ghost use Rattle.vrepl_words.specs.commands.Feed.{feed_given, feed_subcommand, feed_value};

use crate::arguments::{bare, option, optional, with_arg};
use crate::given::text_if;
use crate::numbers::{STREAM, bad_number};
use crate::streams::stream_given;
use clap::{ArgMatches, Command, Error};
use std::alloc::{AllocError, Global};

/// The words of `feed`.
#[derive(Drop)]
pub struct Feed<'w> {
    /// The stream whose feed it is, from 0, where there is a workflow.
    pub stream: u8,
    /// The workflow's file; none for a feed of the empty keyspace and shard.
    pub workflow: Option<&'w str>,
}

/// A call of `feed` and what becomes of it.
const HELP: &str = "\
Example:
  $ vrepl feed examples/workflows/one_shard.json < my.txt > my.feed
  $ vrepl show --keyspace ks --shard=-80 my.feed | diff - my.txt

The text is on standard input, each line of it as `show` prints it: a group with
its number and position, then its rows behind a - or a +.
The feed is printed, or where a line isn't as `show` prints it, a refusal that
names the line and the byte of it. A - and behind it a + of one table are an
update. With a workflow the feed has its keyspace, the stream's shard and the
columns of its tables; of any other table a column has its place as its name.

Status:
  0  the feed was printed
  1  refused; `vrepl explain NUMBER` says what the line's number means
  2  a fault of usage";

pub(crate) fn feed_command<'w>(alloc: Global) -> Result<Command<'w>, AllocError>
    ensures { IfOk result (IsSubcommand feed_subcommand) }
{
    let about = "Writes the feed of which show prints a text";
    let stream_help = "The stream whose feed it is, 0 unless given";
    let workflow_help = "The workflow's file; no keyspace and shard without it";
    let command = Ok(bare(alloc, "feed", about, HELP));
    let command = with_arg(command, option(alloc, "stream", "S", stream_help));
    with_arg(
        command,
        optional(alloc, "workflow", "WORKFLOW", workflow_help),
    )
}

/// The fault of usage is that of a stream that is none.
pub(crate) fn feed_words<'w>(alloc: Global, given: &ArgMatches<'w>) -> Result<Feed<'w>, Error>
    ensures { Reads feed_value (feed_subcommand.meaning (rows_of (found_of given.now))) result }
{
    match stream_given(given, "stream") {
        Some(stream) => Ok(feed_of(given, stream)),
        None => Err(bad_number(feed_command(alloc), "vrepl feed", STREAM)),
    }
}

/// What is given to `feed`, of this stream.
fn feed_of<'w>(given: &ArgMatches<'w>, stream: u8) -> Feed<'w>
    ensures { feed_value result ≡ feed_given (rows_of (found_of given.now)) stream }
{
    Feed {
        stream,
        workflow: text_if(given, "workflow"),
    }
}
