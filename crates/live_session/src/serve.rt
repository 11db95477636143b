//! The loop of a session.

ghost use Rattle.std.specs.Prelude.{◌≡◌, IfOk, IfErr, OnOk, length, not, option_map};
ghost use Rattle.live_requests.specs.Requests.{request_value};
ghost use Rattle.live_session.specs.Sessions.{kept_session, session_of};
ghost use Rattle.live_session.specs.declared.serve.ServeFault.TheVariants.{CannotRead};
ghost use Rattle.live_session.specs.Turns.{BreaksTurn, IsBroken, IsNext, IsServed, IsTurned, is_last, number_of_serve, stand_of};

use crate::answer::answer;
use crate::arrivals::Arrivals;
use crate::seat::Seat;
use live_core::Live;
use live_requests::{Found, Lines, Request, read_request};
use printing::{Out, OutFailed};
use std::alloc::Global;
use std::io::Read;
use std::sync::Wait;
use std::thread::Threads;
use vrepl_choices::Threading;

/// Why a session ends but by its input's end or `end`.
#[derive(Clone, Copy, Debug, PartialEq, Eq)]
pub enum ServeFault {
    /// A request can't be read (131).
    CannotRead,
    /// An answer can't be written (132).
    CannotWrite,
    /// No memory for a line (72).
    Memory,
}

impl ServeFault {
    /// The fault's number.
    pub fn number(self) -> u8
        ensures { result ≡ number_of_serve self }
    {
        match self {
            ServeFault::CannotRead => 131,
            ServeFault::CannotWrite => 132,
            ServeFault::Memory => 72,
        }
    }
}

/// What the next line asks for, if it is a request; nothing at the input's end.
fn next_request<'l, I: Read>(
    lines: &'l mut Lines,
    input: &mut I,
) -> Result<Option<Option<Request<'l>>>, ServeFault>
    ensures next { IfOk result (λ next. IsNext (I.remaining input.old) (I.remaining input.new) (option_map (λ asked. option_map request_value asked) next)) }
    ensures fault { IfErr result (λ fault. fault ≡ CannotRead) }
{
    match lines.next(input) {
        Err(_) => Err(ServeFault::CannotRead),
        Ok(Found::End) => Ok(None),
        Ok(Found::Long) => Ok(Some(None)),
        Ok(Found::Line) => Ok(Some(read_request(lines.line()))),
    }
}

/// Whether a session goes on behind a request.
fn goes_on(request: Option<Request<'_>>) -> bool
    ensures { result ≡ not (is_last (option_map request_value request.entry)) }
{
    !matches!(request, Some(Request::End))
}

/// Takes the next line and answers it: whether the session goes on.
fn turn<'h, R: Threads + Wait + Sync, A: Arrivals<'h>, I: Read, O: Out>(
    rt: &R,
    alloc: Global,
    threading: Threading,
    live: &mut Live<'h>,
    seats: &mut [Seat<'h>],
    arrivals: &mut A,
    lines: &mut Lines,
    input: &mut I,
    out: &mut O,
) -> Result<bool, ServeFault>
    requires { length seats.old ≡ length live.old.fed.feeds }
    ensures turned { IfOk result (IsTurned (stand_of (I.remaining input.old) (kept_session (session_of live.old seats.old) (A.saved arrivals.old)) (O.written out.old)) (stand_of (I.remaining input.new) (kept_session (session_of live.new seats.new) (A.saved arrivals.new)) (O.written out.new))) }
    ensures broken { IfErr result (λ fault. BreaksTurn fault (stand_of (I.remaining input.old) (kept_session (session_of live.old seats.old) (A.saved arrivals.old)) (O.written out.old)) (stand_of (I.remaining input.new) (kept_session (session_of live.new seats.new) (A.saved arrivals.new)) (O.written out.new))) }
    ensures seats { length seats.new ≡ length live.new.fed.feeds }
{
    let Some(request) = next_request(lines, input)? else {
        return Ok(false);
    };
    match answer(rt, alloc, threading, live, seats, arrivals, request, out) {
        Err(OutFailed) => Err(ServeFault::CannotWrite),
        Ok(()) => Ok(goes_on(request)),
    }
}

/// Answers the requests of an input, a line each, until it ends or `end` is asked.
pub(crate) fn serve_all<'h, R: Threads + Wait + Sync, A: Arrivals<'h>, I: Read, O: Out>(
    rt: &R,
    alloc: Global,
    threading: Threading,
    live: &mut Live<'h>,
    seats: &mut [Seat<'h>],
    arrivals: &mut A,
    input: &mut I,
    out: &mut O,
) -> Result<(), ServeFault>
    requires { length seats.old ≡ length live.old.fed.feeds }
    ensures served { OnOk result (IsServed (stand_of (I.remaining input.old) (kept_session (session_of live.old seats.old) (A.saved arrivals.old)) (O.written out.old)) (stand_of (I.remaining input.new) (kept_session (session_of live.new seats.new) (A.saved arrivals.new)) (O.written out.new))) }
    ensures broken { IfErr result (λ fault. IsBroken fault (stand_of (I.remaining input.old) (kept_session (session_of live.old seats.old) (A.saved arrivals.old)) (O.written out.old)) (stand_of (I.remaining input.new) (kept_session (session_of live.new seats.new) (A.saved arrivals.new)) (O.written out.new))) }
    ensures seats { length seats.new ≡ length live.new.fed.feeds }
{
    let Ok(mut lines) = Lines::new(alloc) else {
        return Err(ServeFault::Memory);
    };
    for _ in rt.forever() {
        if !turn(
            rt, alloc, threading, live, seats, arrivals, &mut lines, input, out,
        )? {
            return Ok(());
        }
    }
    unreachable!()
}
