//! Where the streams stand, as it is told.

ghost use Rattle.std.specs.Prelude.{◌≡◌, ◌<◌, ◌≤◌, IfOk, length, map, Some, slice_get};
ghost use Rattle.board_laws.specs.Meaning.{State};
ghost use Rattle.live_json.specs.Private.Parts.{copied_value, stream_value};
ghost use Rattle.live_session.specs.Sessions.{AreCopied, AreTold, IsTold, session_of};

use crate::seat::Seat;
use crate::stops::refusal_of;
use apply_core::Board;
use filter_rule::Table;
use live_core::Live;
use live_json::{CopiedTold, StreamTold, position_told};
use std::alloc::{AllocError, Global};

/// Each table of stream `s` with its mark.
fn copied_of<'b>(
    alloc: Global,
    board: &'b Board<'_>,
    s: u8,
    tables: &'b [Table],
) -> Result<Vec<CopiedTold<'b>>, AllocError>
    requires few { length tables.now ≤ 64 }
    requires there { s < length board.now.streams }
    ensures { IfOk result (λ copied. (state : State) → slice_get board.entry.now.streams s ≡ Some state → AreCopied state.marks tables.entry.now (map copied_value copied.items)) }
{
    let mut copied = Vec::new(alloc);
    for t in 0..tables.len() {
        let Ok(mark) = board.mark(s, t as u8) else {
            unreachable!()
        };
        copied.push(CopiedTold {
            table: tables[t].name(),
            mark,
        })?;
    }
    Ok(copied)
}

/// Where stream `s` stands.
fn stream_told<'b>(
    alloc: Global,
    live: &'b Live<'_>,
    seat: &'b Seat<'_>,
    s: u8,
) -> Result<StreamTold<'b>, AllocError>
    requires { s < length live.now.fed.feeds }
    ensures { IfOk result (λ told. IsTold live.entry.now s seat.entry.now (stream_value told)) }
{
    let fed = live.fed();
    fed.is_fed();
    let feed = &fed.feeds()[s as usize];
    let tables = feed.plan().tables();
    let Ok(at) = fed.state(s) else { unreachable!() };
    let Ok(position) = fed.position(s) else {
        unreachable!()
    };
    let position = position_told(alloc, position)?;
    let copied = copied_of(alloc, fed.board(), s, tables)?;
    Ok(StreamTold {
        stream: s,
        phase: at.phase(),
        read: at.read(),
        applied: at.applied(),
        groups: feed.len() as u32,
        bytes: live.taken(s),
        tail: seat.tail,
        position,
        copied,
        refused: refusal_of(tables, seat),
    })
}

/// Where all streams stand, in order. An error is want of memory.
pub(crate) fn streams_of<'b>(
    alloc: Global,
    live: &'b Live<'_>,
    seats: &'b [Seat<'_>],
) -> Result<Vec<StreamTold<'b>>, AllocError>
    requires { length seats.now ≡ length live.now.fed.feeds }
    ensures { IfOk result (λ told. AreTold (session_of live.entry.now seats.entry.now) (map stream_value told.items)) }
{
    let mut told = Vec::new(alloc);
    live.fed().is_fed();
    for s in 0..seats.len() {
        told.push(stream_told(alloc, live, &seats[s], s as u8)?)?;
    }
    Ok(told)
}
