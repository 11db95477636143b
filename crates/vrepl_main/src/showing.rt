//! The subcommand `show`: the text of a feed's groups.

ghost use Rattle.std.specs.Prelude.{◌≡◌, Some};
ghost use Rattle.vrepl_main.specs.HexText.{hex_bytes};
ghost use Rattle.feed_text.specs.Shown.{shown};
ghost use Rattle.vrepl_main.specs.Show.{shown_feed, shown_bytes, shown_source};
ghost use Rattle.printing.specs.Printing.{Prints};
ghost use Rattle.vrepl_main.specs.Command.{PrintsText, TextEnds};

use crate::hex_text::bytes_of_hex;
use crate::refusal::{CommandRefusal, refuse};
use crate::shown::print_groups;
use printing::{Gathered, Out, OutFailed};
use source_feed::{Groups, read_groups};
use std::alloc::Global;
use vrepl_choices::FeedForm;

/// Prints all the groups.
fn print_whole<W: Out>(out: &mut W, groups: &Groups<'_>) -> Result<(), OutFailed>
    ensures { Prints result (W.written out.old) (W.written out.new) (shown groups.now.items) }
{
    let mut text = Gathered::new();
    print_groups(out, &mut text, groups)?;
    text.finish(out)
}

/// Prints the groups of a feed of bytes, or nothing where it is refused.
fn print_bytes<W: Out>(
    alloc: Global,
    feed: &[u8],
    keyspace: &str,
    shard: &str,
    out: &mut W,
) -> Result<(), CommandRefusal<'static>>
    ensures { PrintsText result (shown_bytes (shown_source keyspace.now shard.now) (Some feed.now)) (W.written out.old) (W.written out.new) }
{
    let groups = read_groups(alloc, feed, keyspace, shard)?;
    print_whole(out, &groups)?;
    Ok(())
}

/// The same of a feed of hexadecimal text.
fn print_hex<W: Out>(
    alloc: Global,
    feed: &[u8],
    keyspace: &str,
    shard: &str,
    out: &mut W,
) -> Result<(), CommandRefusal<'static>>
    ensures { PrintsText result (shown_bytes (shown_source keyspace.now shard.now) (hex_bytes feed.now)) (W.written out.old) (W.written out.new) }
{
    let bytes = bytes_of_hex(alloc, feed)?;
    print_bytes(alloc, &bytes, keyspace, shard, out)
}

/// Prints the groups of a feed that is given in this form, or nothing where it is refused.
fn print_feed<W: Out>(
    alloc: Global,
    form: FeedForm,
    feed: &[u8],
    keyspace: &str,
    shard: &str,
    out: &mut W,
) -> Result<(), CommandRefusal<'static>>
    ensures { PrintsText result (shown_feed form feed.now (shown_source keyspace.now shard.now)) (W.written out.old) (W.written out.new) }
{
    match form {
        FeedForm::Bytes => print_bytes(alloc, feed, keyspace, shard, out),
        FeedForm::Hex => print_hex(alloc, feed, keyspace, shard, out),
    }
}

/// Prints the groups of a feed, given in this form, that was recorded from a shard of a keyspace (both may be empty) on
/// `out` in pieces of up to 4 KiB, or prints the line of its refusal on `err` and nothing on `out`. Answers the status: 0,
/// or 1 after a refusal, also of memory or where `out` can't be written.
pub fn show<W: Out, E: Out>(
    alloc: Global,
    form: FeedForm,
    feed: &[u8],
    keyspace: &str,
    shard: &str,
    out: &mut W,
    err: &mut E,
) -> u8
    ensures ends { TextEnds (shown_feed form feed.now (shown_source keyspace.now shard.now)) result (W.written out.old) (W.written out.new) (E.written err.old) (E.written err.new) }
    ensures quiet { result ≡ 0 → err.new ≡ err.old }
{
    match print_feed(alloc, form, feed, keyspace, shard, out) {
        Ok(()) => 0,
        Err(refusal) => refuse(err, &refusal),
    }
}
