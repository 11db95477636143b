//! Where the streams stand.

ghost use Rattle.std.specs.Prelude.{◌≡◌, IfOk, map, string_bytes};
ghost use Rattle.std.specs.Option.{option_copied, option_map};
ghost use Rattle.json_pieces.specs.Pieces.{list_data};
ghost use Rattle.json_pieces.specs.Telling.{Tells, at};
ghost use Rattle.pk_copy.specs.MarkView.{mark_value};
ghost use Rattle.printing.specs.Printing.{Prints};
ghost use Rattle.serde_json.specs.Data.{string};
ghost use Rattle.serde_json.specs.Written.{compact_text};
ghost use Rattle.live_json.specs.Answers.{copied_data, mark_key, mark_word, more_data, ok_line, or_null, phase_word, position_text, state_data, stream_data, told_data};
ghost use Rattle.live_json.specs.Private.Parts.{copied_value, stream_value};

use crate::cells::{put_count, put_key, put_name};
use crate::line::{begun, end};
use crate::refusal::{RefusalTold, put_refusal_or_null};
use gtid_set::GtidSet;
use json_pieces::{Line, put_comma_if};
use pk_copy::Mark;
use printing::{Out, OutFailed};
use std::alloc::{AllocError, Global};
use stream_core::Phase;

/// How far a table is copied, as it is told.
#[derive(Clone, Copy)]
pub struct CopiedTold<'b> {
    /// the table's name
    pub table: &'b str,
    /// its mark
    pub mark: Mark<'b>,
}

/// Where a stream stands, as it is told.
#[derive(Drop)]
pub struct StreamTold<'b> {
    /// the stream
    pub stream: u8,
    /// what it is about
    pub phase: Phase,
    /// how many groups are read
    pub read: u32,
    /// how many groups are applied
    pub applied: u32,
    /// how many groups the feed has
    pub groups: u32,
    /// how many bytes of the feed are taken
    pub bytes: u64,
    /// how many bytes of the feed's file are seen and not taken
    pub tail: u64,
    /// the text of the position of the last group applied, none before the first
    pub position: Option<String>,
    /// how far each table is copied, in the plan's order
    pub copied: Vec<CopiedTold<'b>>,
    /// what the stream is refused for
    pub refused: Option<RefusalTold<'b>>,
}

/// The text of a position, if there is one. An error is want of memory.
pub fn position_told(
    alloc: Global,
    position: Option<&GtidSet>,
) -> Result<Option<String>, AllocError>
    ensures { IfOk result (λ told. option_map string_bytes told ≡ option_map position_text (option_copied position.entry)) }
{
    match position {
        None => Ok(None),
        Some(position) => Ok(Some(format!(in alloc; "MySQL56/{position}")?)),
    }
}

/// Puts a text as a string, or null.
fn put_text_or_null<O: Out>(out: &mut O, line: &mut Line, text: Option<&String>)
    ensures { Tells (at (O.written out.old) line.old) (at (O.written out.new) line.new) (compact_text (or_null string (option_map string_bytes (option_copied text.entry)))) }
{
    match text {
        None => line.put(out, b"null"),
        Some(text) => put_name(out, line, text.as_str()),
    }
}

/// The word of a phase.
fn phase_word(phase: Phase) -> &'static str
    ensures { result.now ≡ phase_word phase }
{
    match phase {
        Phase::Running => "Running",
        Phase::Copy => "Copy",
        Phase::FastForward => "FastForward",
        Phase::CatchUp => "CatchUp",
    }
}

/// The word of a mark.
fn mark_word(mark: &Mark<'_>) -> &'static str
    ensures { result.now ≡ mark_word (mark_value mark.now) }
{
    match mark {
        Mark::Waiting => "waiting",
        Mark::Upto(_) => "upto",
        Mark::Done => "done",
    }
}

/// Puts the key up to which a table is copied, or null.
fn put_mark_key<O: Out>(out: &mut O, line: &mut Line, mark: &Mark<'_>)
    ensures { Tells (at (O.written out.old) line.old) (at (O.written out.new) line.new) (compact_text (mark_key (mark_value mark.now))) }
{
    match mark {
        Mark::Waiting => line.put(out, b"null"),
        Mark::Upto(key) => put_key(out, line, *key),
        Mark::Done => line.put(out, b"null"),
    }
}

/// Puts how far a table is copied.
fn put_copied<O: Out>(out: &mut O, line: &mut Line, table: &CopiedTold<'_>)
    ensures { Tells (at (O.written out.old) line.old) (at (O.written out.new) line.new) (compact_text (copied_data (copied_value table.now))) }
{
    line.put(out, b"{\"key\":");
    put_mark_key(out, line, &table.mark);
    line.put(out, b",\"table\":");
    put_name(out, line, table.table);
    line.put(out, b",\"what\":");
    put_name(out, line, mark_word(&table.mark));
    line.put(out, b"}");
}

/// Puts how far tables are copied.
fn put_all_copied<O: Out>(out: &mut O, line: &mut Line, tables: &[CopiedTold<'_>])
    ensures { Tells (at (O.written out.old) line.old) (at (O.written out.new) line.new) (compact_text (list_data copied_data (map copied_value tables.now))) }
{
    line.put(out, b"[");
    let mut later = false;
    for table in tables {
        put_comma_if(out, line, later);
        put_copied(out, line, table);
        later = true;
    }
    line.put(out, b"]");
}

/// Puts a stream.
fn put_stream<O: Out>(out: &mut O, line: &mut Line, one: &StreamTold<'_>)
    ensures { Tells (at (O.written out.old) line.old) (at (O.written out.new) line.new) (compact_text (stream_data (stream_value one.now))) }
{
    line.put(out, b"{\"applied\":");
    put_count(out, line, u64::from(one.applied));
    line.put(out, b",\"bytes\":");
    put_count(out, line, one.bytes);
    line.put(out, b",\"copied\":");
    put_all_copied(out, line, one.copied.as_slice());
    line.put(out, b",\"groups\":");
    put_count(out, line, u64::from(one.groups));
    line.put(out, b",\"phase\":");
    put_name(out, line, phase_word(one.phase));
    line.put(out, b",\"position\":");
    put_text_or_null(out, line, one.position.as_ref());
    line.put(out, b",\"read\":");
    put_count(out, line, u64::from(one.read));
    line.put(out, b",\"refused\":");
    put_refusal_or_null(out, line, one.refused.as_ref());
    line.put(out, b",\"stream\":");
    put_count(out, line, u64::from(one.stream));
    line.put(out, b",\"tail\":");
    put_count(out, line, one.tail);
    line.put(out, b"}");
}

/// Puts streams.
pub(crate) fn put_streams<O: Out>(out: &mut O, line: &mut Line, streams: &[StreamTold<'_>])
    ensures { Tells (at (O.written out.old) line.old) (at (O.written out.new) line.new) (compact_text (list_data stream_data (map stream_value streams.now))) }
{
    line.put(out, b"[");
    let mut later = false;
    for one in streams {
        put_comma_if(out, line, later);
        put_stream(out, line, one);
        later = true;
    }
    line.put(out, b"]");
}

/// Puts where the streams stand.
fn put_state<O: Out>(out: &mut O, line: &mut Line, streams: &[StreamTold<'_>])
    ensures { Tells (at (O.written out.old) line.old) (at (O.written out.new) line.new) (compact_text (state_data (map stream_value streams.now))) }
{
    line.put(out, b"{\"streams\":");
    put_streams(out, line, streams);
    line.put(out, b"}");
}

/// Prints where the streams stand. Takes no memory. After a fault what was written is a beginning of it.
pub fn print_state<O: Out>(out: &mut O, streams: &[StreamTold<'_>]) -> Result<(), OutFailed>
    ensures { Prints result (O.written out.old) (O.written out.new) (ok_line (state_data (map stream_value streams.now))) }
{
    let mut line = begun(out, b"{\"ok\":");
    put_state(out, &mut line, streams);
    end(out, line)
}

/// Puts how many keys were taken as told, and where the streams stand.
fn put_told<O: Out>(out: &mut O, line: &mut Line, changes: u64, streams: &[StreamTold<'_>])
    ensures { Tells (at (O.written out.old) line.old) (at (O.written out.new) line.new) (compact_text (told_data changes (map stream_value streams.now))) }
{
    line.put(out, b"{\"changes\":");
    put_count(out, line, changes);
    line.put(out, b",\"streams\":");
    put_streams(out, line, streams);
    line.put(out, b"}");
}

/// Prints how many keys were taken as told, and where the streams stand. Takes no memory. After a fault what was written
/// is a beginning of it.
pub fn print_told<O: Out>(
    out: &mut O,
    changes: u64,
    streams: &[StreamTold<'_>],
) -> Result<(), OutFailed>
    ensures { Prints result (O.written out.old) (O.written out.new) (ok_line (told_data changes (map stream_value streams.now))) }
{
    let mut line = begun(out, b"{\"ok\":");
    put_told(out, &mut line, changes, streams);
    end(out, line)
}

/// Puts how many bytes were taken, how many keys are to be told, and where the streams stand.
fn put_more<O: Out>(
    out: &mut O,
    line: &mut Line,
    bytes: u64,
    changes: u64,
    streams: &[StreamTold<'_>],
)
    ensures { Tells (at (O.written out.old) line.old) (at (O.written out.new) line.new) (compact_text (more_data bytes changes (map stream_value streams.now))) }
{
    line.put(out, b"{\"bytes\":");
    put_count(out, line, bytes);
    line.put(out, b",\"changes\":");
    put_count(out, line, changes);
    line.put(out, b",\"streams\":");
    put_streams(out, line, streams);
    line.put(out, b"}");
}

/// Prints how many bytes of the feeds were taken, how many keys are touched since they were told last, and where the
/// streams stand then. Takes no memory. After a fault what was written is a beginning of it.
pub fn print_more<O: Out>(
    out: &mut O,
    bytes: u64,
    changes: u64,
    streams: &[StreamTold<'_>],
) -> Result<(), OutFailed>
    ensures { Prints result (O.written out.old) (O.written out.new) (ok_line (more_data bytes changes (map stream_value streams.now))) }
{
    let mut line = begun(out, b"{\"ok\":");
    put_more(out, &mut line, bytes, changes, streams);
    end(out, line)
}
