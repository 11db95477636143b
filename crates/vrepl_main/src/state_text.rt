//! Where a stream stands, as text.

ghost use Rattle.std.specs.Prelude.{◌≡◌, []};
ghost use Rattle.std.specs.Option.{option_map_or};
ghost use Rattle.vrepl_main.specs.AnswerText.{phase_text, progress_text, snapshot_text, tables_done_text, place_text, state_text};
ghost use Rattle.vrepl_main.specs.Adding.{AddsText, at};

use crate::output::{put_all, put_between, put_named, put_number, put_str};
use crate::shown::print_position;
use gtid_set::GtidSet;
use printing::{Gathered, Out, OutFailed};
use stream_core::{Cursor, Phase};

/// Adds the line of where a stream stands: its phase and its numbers, the group of its open snapshot or
/// `none`, and the position of its applied group, which may be left out where it is empty; an empty one
/// is `-`. Takes no memory.
pub(crate) fn print_state<W: Out>(
    out: &mut W,
    text: &mut Gathered,
    stream: u32,
    now: &Cursor,
    position: Option<&GtidSet>,
) -> Result<(), OutFailed>
    ensures { AddsText result (at (W.written out.old) text.old) (at (W.written out.new) text.new) (state_text stream now.now (option_map_or (λ set. set.now) position.entry [])) }
{
    print_progress(out, text, stream, now)?;
    put_all(out, text, b" snapshot ")?;
    print_snapshot(out, text, now.snapshot())?;
    print_tables(out, text, now)?;
    put_all(out, text, b" at ")?;
    print_place(out, text, position)?;
    put_all(out, text, b"\n")
}

/// The name of a phase.
fn phase_word(phase: Phase) -> &'static str
    ensures { result.now ≡ phase_text phase }
{
    match phase {
        Phase::Running => "Running",
        Phase::Copy => "Copy",
        Phase::FastForward => "FastForward",
        Phase::CatchUp => "CatchUp",
    }
}

/// Adds how many groups a stream has read and applied.
fn print_progress<W: Out>(
    out: &mut W,
    text: &mut Gathered,
    stream: u32,
    now: &Cursor,
) -> Result<(), OutFailed>
    ensures { AddsText result (at (W.written out.old) text.old) (at (W.written out.new) text.new) (progress_text stream now.now) }
{
    put_between(out, text, "state ", u64::from(stream), " ")?;
    put_str(out, text, phase_word(now.phase()))?;
    put_named(out, text, " read ", u64::from(now.read()))?;
    put_named(out, text, " applied ", u64::from(now.applied()))
}

/// Adds the group of the open snapshot, or `none`.
fn print_snapshot<W: Out>(
    out: &mut W,
    text: &mut Gathered,
    snapshot: Option<u32>,
) -> Result<(), OutFailed>
    ensures { AddsText result (at (W.written out.old) text.old) (at (W.written out.new) text.new) (snapshot_text snapshot) }
{
    match snapshot {
        None => put_all(out, text, b"none"),
        Some(group) => put_number(out, text, u64::from(group)),
    }
}

/// Adds how many tables are copied.
fn print_tables<W: Out>(out: &mut W, text: &mut Gathered, now: &Cursor) -> Result<(), OutFailed>
    ensures { AddsText result (at (W.written out.old) text.old) (at (W.written out.new) text.new) (tables_done_text now.now) }
{
    put_named(out, text, " done ", u64::from(now.done()))?;
    put_named(out, text, " of ", u64::from(now.tables()))
}

/// Adds a position; `-` for the empty one.
fn print_place<W: Out>(
    out: &mut W,
    text: &mut Gathered,
    position: Option<&GtidSet>,
) -> Result<(), OutFailed>
    ensures { AddsText result (at (W.written out.old) text.old) (at (W.written out.new) text.new) (place_text (option_map_or (λ set. set.now) position.entry [])) }
{
    match position {
        Some(position) if !position.intervals().is_empty() => print_position(out, text, position),
        _ => put_all(out, text, b"-"),
    }
}
