//! Answers that tell of a board, and leave it as it is.

ghost use Rattle.std.specs.Prelude.{◌≡◌, ◌<◌, OnErr, Some, length, option_map};
ghost use Rattle.std.specs.Arc.{arc_value};
ghost use Rattle.live_session.specs.Answered.{Answers, IsCounts, IsKeyed, IsRow, IsRows, IsSaved, IsState, kept_line, page_line, refusal_line, row_line};
ghost use Rattle.live_session.specs.Sessions.{first_plan, session_of};
ghost use Rattle.printing.specs.Printing.{Prints};

use crate::arrivals::{Arrivals, SaveFault};
use crate::counts::all_counts;
use crate::page::{first_key, page_from};
use crate::seat::Seat;
use crate::stops::plain;
use crate::streams::streams_of;
use apply_core::Board;
use filter_rule::Plan;
use live_core::Live;
use live_json::{print_counts, print_page, print_refused, print_row, print_saved, print_state};
use live_requests::{key_named, table_named};
use pk_copy::Key;
use printing::{Out, OutFailed};
use std::alloc::{AllocError, Global};
use std::sync::Arc;

/// Prints a refusal of which only the number is told, with what it means.
pub(crate) fn refuse<O: Out>(out: &mut O, number: u8) -> Result<(), OutFailed>
    ensures { Prints result (O.written out.old) (O.written out.new) (refusal_line number) }
{
    print_refused(out, &plain(number))
}

/// The plan of the first stream, which has the tables of all.
pub(crate) fn plan_of<'b>(live: &'b Live<'_>) -> &'b Arc<Plan>
    ensures { first_plan live.entry.now ≡ Some (arc_value result.now) }
{
    live.fed().feeds()[0].plan()
}

/// Tells where the streams stand.
pub(crate) fn tell_state<O: Out>(
    alloc: Global,
    live: &Live<'_>,
    seats: &[Seat<'_>],
    out: &mut O,
) -> Result<Result<(), OutFailed>, AllocError>
    requires { length seats.now ≡ length live.now.fed.feeds }
    ensures { Answers (IsState (session_of live.now seats.now)) result (O.written out.old) (O.written out.new) }
{
    let streams = streams_of(alloc, live, seats)?;
    Ok(print_state(out, &streams))
}

/// Tells rows from a key on.
fn tell_page<O: Out>(
    alloc: Global,
    board: &Board<'_>,
    from: &Key,
    most: u32,
    out: &mut O,
) -> Result<Result<(), OutFailed>, AllocError>
    ensures { Answers (λ text. text ≡ page_line board.now.rows most from.now) result (O.written out.old) (O.written out.new) }
{
    let page = page_from(alloc, board, from, most)?;
    Ok(print_page(out, &page.rows, page.next))
}

/// Tells rows from the key on that a text names.
fn tell_page_from<O: Out>(
    alloc: Global,
    board: &Board<'_>,
    plan: &Plan,
    t: u8,
    said: &[u8],
    most: u32,
    out: &mut O,
) -> Result<Result<(), OutFailed>, AllocError>
    requires { t < length plan.now.tables }
    ensures { Answers (IsKeyed plan.now t said.now (page_line board.now.rows most)) result (O.written out.old) (O.written out.new) }
{
    match key_named(alloc, plan, t, said)? {
        None => Ok(refuse(out, 126)),
        Some(from) => tell_page(alloc, board, &from, most, out),
    }
}

/// Tells rows of a table, from a key on or from the first.
pub(crate) fn tell_rows<O: Out>(
    alloc: Global,
    board: &Board<'_>,
    plan: &Plan,
    table: &[u8],
    most: u32,
    from: Option<&[u8]>,
    out: &mut O,
) -> Result<Result<(), OutFailed>, AllocError>
    ensures { Answers (λ text. IsRows board.now.rows table.now most (option_map (λ key. key.now) from.entry) text plan.now) result (O.written out.old) (O.written out.new) }
{
    let Some(t) = table_named(plan, table) else {
        return Ok(refuse(out, 125));
    };
    match from {
        None => tell_page(alloc, board, &first_key(alloc, t)?, most, out),
        Some(said) => tell_page_from(alloc, board, plan, t, said, most, out),
    }
}

/// Tells the row at the key that a text names.
fn tell_row_at<O: Out>(
    alloc: Global,
    board: &Board<'_>,
    plan: &Plan,
    t: u8,
    said: &[u8],
    out: &mut O,
) -> Result<Result<(), OutFailed>, AllocError>
    requires { t < length plan.now.tables }
    ensures { Answers (IsKeyed plan.now t said.now (row_line board.now.rows)) result (O.written out.old) (O.written out.new) }
{
    match key_named(alloc, plan, t, said)? {
        None => Ok(refuse(out, 126)),
        Some(key) => Ok(print_row(out, board.row(&key))),
    }
}

/// Tells the row at a key of a table.
pub(crate) fn tell_row<O: Out>(
    alloc: Global,
    board: &Board<'_>,
    plan: &Plan,
    table: &[u8],
    said: &[u8],
    out: &mut O,
) -> Result<Result<(), OutFailed>, AllocError>
    ensures { Answers (λ text. IsRow board.now.rows table.now said.now text plan.now) result (O.written out.old) (O.written out.new) }
{
    match table_named(plan, table) {
        None => Ok(refuse(out, 125)),
        Some(t) => tell_row_at(alloc, board, plan, t, said, out),
    }
}

/// Tells how many rows each stream has in each table.
pub(crate) fn tell_counts<O: Out>(
    alloc: Global,
    board: &Board<'_>,
    plan: &Plan,
    out: &mut O,
) -> Result<Result<(), OutFailed>, AllocError>
    ensures { Answers (λ text. IsCounts board.now.rows (length board.now.streams) text plan.now) result (O.written out.old) (O.written out.new) }
{
    let counts = all_counts(alloc, board, plan.tables())?;
    Ok(print_counts(out, &counts))
}

/// Tells how many bytes a checkpoint has that was kept, or why it wasn't.
fn tell_kept<O: Out>(kept: Result<(), SaveFault>, size: u64, out: &mut O) -> Result<(), OutFailed>
    ensures { Prints result (O.written out.old) (O.written out.new) (kept_line size kept) }
{
    match kept {
        Ok(()) => print_saved(out, size),
        Err(fault) => refuse(out, fault.number()),
    }
}

/// Has the checkpoint kept, and tells how many bytes it has.
pub(crate) fn tell_saved<'h, A: Arrivals<'h>, O: Out>(
    alloc: Global,
    live: &Live<'h>,
    arrivals: &mut A,
    out: &mut O,
) -> Result<Result<(), OutFailed>, AllocError>
    ensures answer { Answers (IsSaved live.now.fed.board (A.saved arrivals.old) (A.saved arrivals.new)) result (O.written out.old) (O.written out.new) }
    ensures left { OnErr result (A.saved arrivals.new ≡ A.saved arrivals.old) }
{
    let checkpoint = live.checkpoint(alloc)?;
    let kept = arrivals.save(&checkpoint);
    Ok(tell_kept(kept, checkpoint.len() as u64, out))
}
