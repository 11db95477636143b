//! The lines.

ghost use Rattle.std.specs.Prelude.{◌≡◌, ◌<◌, ◌++◌, IfOk, OnOk, map, decimal, length};
ghost use Rattle.std.specs.Option.{option_copied, option_map};
ghost use Rattle.std.specs.String.{string_bytes};
ghost use Rattle.shown_text.specs.Shown as said;
ghost use Rattle.status_said.specs.Lines.{is_done, are_done, done_of, phase_word, mark_word, place_text, table_name, table_line, table_lines, stream_head, counts_text, place_end, least_end, stream_line, stream_lines, version_text, streams_text, checkpoint_line, file_name, checkpoint_lines, least_line, least_lines, status_lines};

use crate::least::{least_in, shards_of};
use checkpoint_places::{CheckpointStand, StreamStand, TableStand};
use gtid_set::GtidSet;
use shown_text::shown;
use std::alloc::{AllocError, Global};
use vevent::TableMark;

/// Whether a table is copied wholly.
fn is_done(table: &TableStand<'_>) -> bool
    ensures { result ≡ is_done table.now }
{
    match table.mark {
        TableMark::Done => true,
        _ => false,
    }
}

/// How many tables are.
pub(crate) fn done_of(tables: &[TableStand<'_>]) -> usize
    ensures { result ≡ done_of tables.now }
{
    let mut count = 0;
    for table in tables {
        if is_done(table) {
            count += 1;
        }
    }
    count
}

/// The phase of a stream, of which no snapshot is open.
pub(crate) fn phase_word(tables: &[TableStand<'_>]) -> &'static str
    ensures { result.now ≡ phase_word tables.now }
{
    for table in tables {
        if !is_done(table) {
            return "CatchUp";
        }
    }
    "Running"
}

/// How far a table is copied, in a word.
pub(crate) fn mark_word(mark: TableMark) -> &'static str
    ensures { result.now ≡ mark_word mark }
{
    match mark {
        TableMark::Waiting => "waiting",
        TableMark::Upto => "copying",
        TableMark::Done => "done",
    }
}

/// A number in decimal digits.
fn number_text(alloc: Global, number: u64) -> Result<String, AllocError>
    ensures { IfOk result (λ text. string_bytes text ≡ decimal number) }
{
    format!(in alloc; "{number}")
}

/// A position; `-` for the empty one.
fn place_text(alloc: Global, position: &GtidSet) -> Result<String, AllocError>
    ensures { IfOk result (λ text. string_bytes text ≡ place_text position.now) }
{
    if position.intervals().is_empty() {
        return Ok(String::from_str(alloc, "-")?);
    }
    format!(in alloc; "{position}")
}

/// A table's name, or its number where it has none.
fn table_name(alloc: Global, number: usize, name: &[u8]) -> Result<String, AllocError>
    ensures { IfOk result (λ text. string_bytes text ≡ table_name number name.now) }
{
    if name.is_empty() {
        number_text(alloc, number as u64)
    } else {
        shown(alloc, name)
    }
}

/// Puts the line of a table behind a text.
fn push_table(
    alloc: Global,
    number: usize,
    table: &TableStand<'_>,
    text: &mut String,
) -> Result<(), AllocError>
    ensures { OnOk result (string_bytes text.new ≡ string_bytes text.old ++ table_line number table.now) }
{
    let name = table_name(alloc, number, table.name)?;
    let rows = number_text(alloc, table.rows)?;
    text.push_str("table ")?;
    text.push_str(&name)?;
    text.push_str(" ")?;
    text.push_str(mark_word(table.mark))?;
    text.push_str(" rows ")?;
    text.push_str(&rows)?;
    text.push_str("\n")?;
    Ok(())
}

/// Puts the lines of tables behind a text.
fn push_tables(
    alloc: Global,
    tables: &[TableStand<'_>],
    text: &mut String,
) -> Result<(), AllocError>
    ensures { OnOk result (string_bytes text.new ≡ string_bytes text.old ++ table_lines 0 tables.now) }
{
    for i in 0..tables.len() {
        push_table(alloc, i, &tables[i], text)?;
    }
    Ok(())
}

/// Puts a number behind a word and that behind a text.
fn push_number(alloc: Global, word: &str, number: u64, text: &mut String) -> Result<(), AllocError>
    ensures { OnOk result (string_bytes text.new ≡ string_bytes text.old ++ (word.now ++ decimal number)) }
{
    let number = number_text(alloc, number)?;
    text.push_str(word)?;
    text.push_str(&number)?;
    Ok(())
}

/// Puts a name behind a word and that behind a text.
fn push_name(alloc: Global, word: &str, name: &str, text: &mut String) -> Result<(), AllocError>
    ensures { OnOk result (string_bytes text.new ≡ string_bytes text.old ++ (word.now ++ said.shown name.now)) }
{
    let name = shown(alloc, name.as_bytes())?;
    text.push_str(word)?;
    text.push_str(&name)?;
    Ok(())
}

/// Puts the number of a stream, its shard and its phase behind a text.
fn push_stream_head(
    alloc: Global,
    number: usize,
    stream: &StreamStand<'_>,
    text: &mut String,
) -> Result<(), AllocError>
    ensures { OnOk result (string_bytes text.new ≡ string_bytes text.old ++ stream_head number stream.now) }
{
    push_number(alloc, "stream ", number as u64, text)?;
    push_name(alloc, " shard ", stream.shard, text)?;
    text.push_str(" ")?;
    text.push_str(phase_word(&stream.tables))?;
    Ok(())
}

/// Puts how many tables of a stream are copied behind a text.
fn push_counts(
    alloc: Global,
    tables: &[TableStand<'_>],
    text: &mut String,
) -> Result<(), AllocError>
    ensures { OnOk result (string_bytes text.new ≡ string_bytes text.old ++ counts_text tables.now) }
{
    push_number(alloc, " done ", done_of(tables) as u64, text)?;
    push_number(alloc, " of ", tables.len() as u64, text)
}

/// Puts a position behind a text, and the end of the line.
fn push_place(alloc: Global, position: &GtidSet, text: &mut String) -> Result<(), AllocError>
    ensures { OnOk result (string_bytes text.new ≡ string_bytes text.old ++ place_end position.now) }
{
    let place = place_text(alloc, position)?;
    text.push_str(" at ")?;
    text.push_str(&place)?;
    text.push_str("\n")?;
    Ok(())
}

/// Puts the line of a stream behind a text.
fn push_stream_line(
    alloc: Global,
    number: usize,
    stream: &StreamStand<'_>,
    text: &mut String,
) -> Result<(), AllocError>
    ensures { OnOk result (string_bytes text.new ≡ string_bytes text.old ++ stream_line number stream.now) }
{
    push_stream_head(alloc, number, stream, text)?;
    push_counts(alloc, &stream.tables, text)?;
    push_place(alloc, &stream.position, text)
}

/// Puts the lines of streams and their tables behind a text.
fn push_streams(
    alloc: Global,
    streams: &[StreamStand<'_>],
    text: &mut String,
) -> Result<(), AllocError>
    ensures { OnOk result (string_bytes text.new ≡ string_bytes text.old ++ stream_lines 0 streams.now) }
{
    for i in 0..streams.len() {
        let stream = &streams[i];
        push_stream_line(alloc, i, stream, text)?;
        push_tables(alloc, &stream.tables, text)?;
    }
    Ok(())
}

/// The name of a file.
pub(crate) fn file_name<'f>(files: &[&'f str], i: usize) -> &'f str
    ensures { result.now ≡ file_name (map (λ file. file.now) files.now) i }
{
    match files.get(i) {
        None => "",
        Some(file) => *file,
    }
}

/// Puts the version of a checkpoint's format behind a text.
fn push_version(
    alloc: Global,
    stand: &CheckpointStand<'_>,
    text: &mut String,
) -> Result<(), AllocError>
    ensures { OnOk result (string_bytes text.new ≡ string_bytes text.old ++ version_text stand.now) }
{
    push_number(alloc, " version ", u64::from(stand.version), text)
}

/// Puts how many streams a checkpoint has behind a text, and the end of the line.
fn push_stream_count(
    alloc: Global,
    stand: &CheckpointStand<'_>,
    text: &mut String,
) -> Result<(), AllocError>
    ensures { OnOk result (string_bytes text.new ≡ string_bytes text.old ++ streams_text stand.now) }
{
    push_number(alloc, " streams ", stand.streams.len() as u64, text)?;
    text.push_str("\n")?;
    Ok(())
}

/// Puts the line of a checkpoint behind a text.
fn push_checkpoint_line(
    alloc: Global,
    name: &str,
    stand: &CheckpointStand<'_>,
    text: &mut String,
) -> Result<(), AllocError>
    ensures { OnOk result (string_bytes text.new ≡ string_bytes text.old ++ checkpoint_line name.now stand.now) }
{
    push_name(alloc, "checkpoint ", name, text)?;
    push_version(alloc, stand, text)?;
    push_stream_count(alloc, stand, text)
}

/// Puts the lines of checkpoints behind a text.
fn push_checkpoints(
    alloc: Global,
    names: &[&str],
    stands: &[CheckpointStand<'_>],
    text: &mut String,
) -> Result<(), AllocError>
    ensures { OnOk result (string_bytes text.new ≡ string_bytes text.old ++ checkpoint_lines (map (λ name. name.now) names.now) 0 stands.now) }
{
    for i in 0..stands.len() {
        let stand = &stands[i];
        push_checkpoint_line(alloc, file_name(names, i), stand, text)?;
        push_streams(alloc, &stand.streams, text)?;
    }
    Ok(())
}

/// Puts a shard's least position behind a text, and the end of the line.
fn push_position(
    alloc: Global,
    least: Option<&GtidSet>,
    text: &mut String,
) -> Result<(), AllocError>
    ensures { OnOk result (string_bytes text.new ≡ string_bytes text.old ++ least_end (option_copied least.entry)) }
{
    match least {
        Some(position) => push_place(alloc, position, text),
        None => {
            text.push_str(" none\n")?;
            Ok(())
        }
    }
}

/// Puts the line of a shard's least position behind a text.
fn push_least(
    alloc: Global,
    shard: &str,
    least: Option<&GtidSet>,
    text: &mut String,
) -> Result<(), AllocError>
    ensures { OnOk result (string_bytes text.new ≡ string_bytes text.old ++ least_line shard.now (option_copied least.entry)) }
{
    push_name(alloc, "least shard ", shard, text)?;
    push_position(alloc, least, text)
}

/// Puts the lines of shards' least positions behind a text.
fn push_leasts(
    alloc: Global,
    shards: &[&str],
    stands: &[CheckpointStand<'_>],
    text: &mut String,
) -> Result<(), AllocError>
    ensures { OnOk result (string_bytes text.new ≡ string_bytes text.old ++ least_lines stands.now (map (λ shard. shard.now) shards.now)) }
{
    for shard in shards {
        let least = least_in(alloc, shard, stands)?;
        push_least(alloc, shard, least, text)?;
    }
    Ok(())
}

/// The lines of checkpoints, whose files have these names.
pub(crate) fn status_lines(
    alloc: Global,
    names: &[&str],
    stands: &[CheckpointStand<'_>],
) -> Result<String, AllocError>
    ensures { IfOk result (λ text. string_bytes text ≡ status_lines (map (λ name. name.now) names.now) stands.now) }
{
    let shards = shards_of(alloc, stands)?;
    let mut text = String::new(alloc);
    push_checkpoints(alloc, names, stands, &mut text)?;
    push_leasts(alloc, &shards, stands, &mut text)?;
    Ok(text)
}
