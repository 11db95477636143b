//! The groups of a feed, printed as lines of JSON.

ghost use Rattle.std.specs.Prelude.{◌≡◌, Some};
ghost use Rattle.printing.specs.Printing.{Prints};
ghost use Rattle.show_json.specs.Columns.{columns_of};
ghost use Rattle.show_json.specs.Text.{json_text_of};
ghost use Rattle.vrepl_choices.specs.declared.report_form.ReportForm.TheVariants.{Json};
ghost use Rattle.vrepl_main.specs.Command.{PrintsText};
ghost use Rattle.vrepl_main.specs.HexText.{hex_bytes};
ghost use Rattle.vrepl_main.specs.Show.{shown_source};
ghost use Rattle.vrepl_refusal.specs.Form.{TextEndsAs};
ghost use Rattle.vrepl_show.specs.ShowJson.{json_bytes, json_feed};

use printing::Out;
use show_json::{FeedColumns, print_groups_json};
use source_feed::read_groups;
use std::alloc::Global;
use vrepl_choices::FeedForm;
use vrepl_main::{CommandRefusal, bytes_of_hex};
use vrepl_refusal::refuse_json;

/// Prints the groups of a feed of bytes, or nothing where it is refused.
fn print_bytes<W: Out>(
    alloc: Global,
    feed: &[u8],
    keyspace: &str,
    shard: &str,
    out: &mut W,
) -> Result<(), CommandRefusal<'static>>
    ensures { PrintsText result (json_bytes (shown_source keyspace.now shard.now) (Some feed.now)) (W.written out.old) (W.written out.new) }
{
    let groups = read_groups(alloc, feed, keyspace, shard)?;
    let tables = FeedColumns::of_feed(alloc, feed, keyspace, shard)?;
    print_groups_json(out, &tables, &groups)?;
    Ok(())
}

/// The same of a feed of hexadecimal text.
fn print_hex<W: Out>(
    alloc: Global,
    feed: &[u8],
    keyspace: &str,
    shard: &str,
    out: &mut W,
) -> Result<(), CommandRefusal<'static>>
    ensures { PrintsText result (json_bytes (shown_source keyspace.now shard.now) (hex_bytes feed.now)) (W.written out.old) (W.written out.new) }
{
    let bytes = bytes_of_hex(alloc, feed)?;
    print_bytes(alloc, &bytes, keyspace, shard, out)
}

/// Prints the groups of a feed that is given in this form, or nothing where it is refused.
fn print_feed<W: Out>(
    alloc: Global,
    form: FeedForm,
    feed: &[u8],
    keyspace: &str,
    shard: &str,
    out: &mut W,
) -> Result<(), CommandRefusal<'static>>
    ensures { PrintsText result (json_feed form feed.now (shown_source keyspace.now shard.now)) (W.written out.old) (W.written out.new) }
{
    match form {
        FeedForm::Bytes => print_bytes(alloc, feed, keyspace, shard, out),
        FeedForm::Hex => print_hex(alloc, feed, keyspace, shard, out),
    }
}

/// Prints the groups of a feed, given in this form, that was recorded from a shard of a keyspace (both may be empty) on
/// `out`, each as an object of JSON on a line of its own, or prints its refusal as such a line on `err` and nothing on `out`.
/// Answers the status: 0, or 1 after a refusal, also of memory or where `out` can't be written.
pub fn show_json<W: Out, E: Out>(
    alloc: Global,
    form: FeedForm,
    feed: &[u8],
    keyspace: &str,
    shard: &str,
    out: &mut W,
    err: &mut E,
) -> u8
    ensures ends { TextEndsAs Json (json_feed form feed.now (shown_source keyspace.now shard.now)) result (W.written out.old) (W.written out.new) (E.written err.old) (E.written err.new) }
    ensures quiet { result ≡ 0 → err.new ≡ err.old }
{
    match print_feed(alloc, form, feed, keyspace, shard, out) {
        Ok(()) => 0,
        Err(refusal) => refuse_json(err, &refusal, None),
    }
}
