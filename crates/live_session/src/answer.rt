//! What a request is answered.

ghost use Rattle.std.specs.Prelude.{◌≡◌, ◌≤◌, ℕ, List, length, OnErr, Option, Some, option_map};
ghost use Rattle.printing.specs.Printing.{Prints};
ghost use Rattle.board_laws.specs.FedBoards.{IsFedBoard};
ghost use Rattle.live_core.specs.Live.{IsLive};
ghost use Rattle.live_requests.specs.Requests.{request_value};
ghost use Rattle.live_session.specs.Answered.{Answers, HasGone, IsAnswer, IsAnsweredAs, IsLeft, IsMore};
ghost use Rattle.live_session.specs.Sessions.{kept_session, session_of};

use crate::applying::note;
use crate::arrivals::Arrivals;
use crate::changing::{tell_changes, tell_told};
use crate::growth::growth;
use crate::looking::{plan_of, refuse, tell_counts, tell_row, tell_rows, tell_saved, tell_state};
use crate::seat::Seat;
use crate::streams::streams_of;
use live_core::Live;
use live_json::{print_more, print_nothing};
use live_requests::Request;
use printing::{Out, OutFailed};
use std::alloc::{AllocError, Global};
use std::sync::Wait;
use std::thread::Threads;
use vrepl_choices::Threading;

/// The feeds grow by what has come, the streams apply up to so many groups each, and it is told where they stand then. After
/// an error what was done stays.
fn go_on<'h, R: Threads + Wait + Sync, A: Arrivals<'h>, O: Out>(
    rt: &R,
    alloc: Global,
    threading: Threading,
    live: &mut Live<'h>,
    seats: &mut [Seat<'h>],
    arrivals: &mut A,
    most: u32,
    out: &mut O,
) -> Result<Result<(), OutFailed>, AllocError>
    requires { length seats.old ≡ length live.old.fed.feeds }
    ensures answer { Answers (IsMore most (session_of live.old seats.old) (session_of live.new seats.new)) result (O.written out.old) (O.written out.new) }
    ensures gone { (bytes : ℕ) × HasGone most bytes live.old live.new }
    ensures saved { A.saved arrivals.new ≡ A.saved arrivals.old }
    ensures seats { length seats.new ≡ length live.new.fed.feeds }
{
    live.fed().is_fed();
    let bytes = growth(rt, alloc, live, seats, arrivals);
    let answers = live.more(rt, alloc, threading, most)?;
    note(seats, answers);
    let changes = live.count(alloc)?;
    let streams = streams_of(alloc, live, seats)?;
    Ok(print_more(out, bytes, changes, &streams))
}

/// What a request is answered. An error is want of memory.
fn answer_to<'h, R: Threads + Wait + Sync, A: Arrivals<'h>, O: Out>(
    rt: &R,
    alloc: Global,
    threading: Threading,
    live: &mut Live<'h>,
    seats: &mut [Seat<'h>],
    arrivals: &mut A,
    request: Request<'_>,
    out: &mut O,
) -> Result<Result<(), OutFailed>, AllocError>
    requires { length seats.old ≡ length live.old.fed.feeds }
    ensures answer { Answers (λ text. IsAnsweredAs (request_value request.entry) (kept_session (session_of live.old seats.old) (A.saved arrivals.old)) text (kept_session (session_of live.new seats.new) (A.saved arrivals.new))) result (O.written out.old) (O.written out.new) }
    ensures left { OnErr result (IsLeft (request_value request.entry) (kept_session (session_of live.old seats.old) (A.saved arrivals.old)) (kept_session (session_of live.new seats.new) (A.saved arrivals.new))) }
    ensures seats { length seats.new ≡ length live.new.fed.feeds }
{
    match request {
        Request::More { groups } => {
            let most = groups.unwrap_or(u32::MAX);
            go_on(rt, alloc, threading, live, seats, arrivals, most, out)
        }
        Request::State => tell_state(alloc, live, seats, out),
        Request::Changes => tell_changes(alloc, live, seats, out),
        Request::Told => tell_told(alloc, live, seats, out),
        Request::Rows { table, most, from } => {
            let plan = plan_of(live);
            tell_rows(alloc, live.fed().board(), plan, table, most, from, out)
        }
        Request::Row { table, key } => {
            let plan = plan_of(live);
            tell_row(alloc, live.fed().board(), plan, table, key, out)
        }
        Request::Counts => tell_counts(alloc, live.fed().board(), plan_of(live), out),
        Request::Save => tell_saved(alloc, live, arrivals, out),
        Request::End => Ok(print_nothing(out)),
    }
}

/// What a request is answered, or 72 for want of memory.
fn answer_or_refuse<'h, R: Threads + Wait + Sync, A: Arrivals<'h>, O: Out>(
    rt: &R,
    alloc: Global,
    threading: Threading,
    live: &mut Live<'h>,
    seats: &mut [Seat<'h>],
    arrivals: &mut A,
    request: Request<'_>,
    out: &mut O,
) -> Result<(), OutFailed>
    requires { length seats.old ≡ length live.old.fed.feeds }
    ensures answer { (text : List ℕ) × IsAnswer (Some (request_value request.entry)) (kept_session (session_of live.old seats.old) (A.saved arrivals.old)) text (kept_session (session_of live.new seats.new) (A.saved arrivals.new)) × Prints result (O.written out.old) (O.written out.new) text }
    ensures seats { length seats.new ≡ length live.new.fed.feeds }
{
    match answer_to(rt, alloc, threading, live, seats, arrivals, request, out) {
        Ok(printed) => printed,
        Err(_) => refuse(out, 72),
    }
}

/// What a line is answered, that asks for something or for nothing.
fn answer_line<'h, R: Threads + Wait + Sync, A: Arrivals<'h>, O: Out>(
    rt: &R,
    alloc: Global,
    threading: Threading,
    live: &mut Live<'h>,
    seats: &mut [Seat<'h>],
    arrivals: &mut A,
    request: Option<Request<'_>>,
    out: &mut O,
) -> Result<(), OutFailed>
    requires { length seats.old ≡ length live.old.fed.feeds }
    ensures answer { (text : List ℕ) × IsAnswer (option_map request_value request.entry) (kept_session (session_of live.old seats.old) (A.saved arrivals.old)) text (kept_session (session_of live.new seats.new) (A.saved arrivals.new)) × Prints result (O.written out.old) (O.written out.new) text }
    ensures seats { length seats.new ≡ length live.new.fed.feeds }
{
    match request {
        None => refuse(out, 124),
        Some(request) => answer_or_refuse(
            rt, alloc, threading, live, seats, arrivals, request, out,
        ),
    }
}

/// The same. An error is of the output.
pub(crate) fn answer<'h, R: Threads + Wait + Sync, A: Arrivals<'h>, O: Out>(
    rt: &R,
    alloc: Global,
    threading: Threading,
    live: &mut Live<'h>,
    seats: &mut [Seat<'h>],
    arrivals: &mut A,
    request: Option<Request<'_>>,
    out: &mut O,
) -> Result<(), OutFailed>
    requires { length seats.old ≡ length live.old.fed.feeds }
    ensures answer { (text : List ℕ) × IsAnswer (option_map request_value request.entry) (kept_session (session_of live.old seats.old) (A.saved arrivals.old)) text (kept_session (session_of live.new seats.new) (A.saved arrivals.new)) × Prints result (O.written out.old) (O.written out.new) text }
    ensures seats { length seats.new ≡ length live.new.fed.feeds }
    // The board that is told of is lawful, and shows its sources.
    ensures live { IsLive live.new }
    ensures fed { IsFedBoard live.new.fed.feeds live.new.fed.board }
{
    let printed = answer_line(rt, alloc, threading, live, seats, arrivals, request, out);
    live.fed().is_fed();
    printed
}
