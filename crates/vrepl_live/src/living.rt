//! The subcommand `live`.

ghost use Rattle.std.specs.Prelude.{◌≡◌, ◌≤◌, IfOk, IfErr, OnOk, map};
ghost use Rattle.vrepl_live.specs.Living.{HasBroken, HasServed, IsOpenedBy, IsUnopenedBy, LiveEnds, outside, talk_of};

use crate::refusing::{as_unfollowed, fault_refusal};
use live_core::Live;
use live_opening::{Unopened, open};
use live_session::{Arrivals, ServeFault, Session};
use printing::Out;
use std::alloc::Global;
use std::io::Read;
use std::sync::Wait;
use std::thread::Threads;
use vrepl_choices::Threading;
use vrepl_main::{RunCourse, refuse, refuse_unfollowed};

/// What a session starts from.
#[derive(Clone, Copy)]
pub struct LiveInputs<'h> {
    /// In what portions the streams read and copy on their way to what has come, and whether they go on in threads then.
    pub course: RunCourse,
    /// The checkpoint to go on from, where there is one.
    pub checkpoint: Option<&'h [u8]>,
    /// The workflow file.
    pub workflow: &'h [u8],
    /// What has come of each stream's feed.
    pub feeds: &'h [Vec<u8>],
}

/// The board at the ends of what has come.
fn open_board<'h>(alloc: Global, inputs: &LiveInputs<'h>) -> Result<Live<'h>, Unopened>
    ensures opened { IfOk result (IsOpenedBy inputs.now) }
    ensures refused { IfErr result (IsUnopenedBy inputs.now) }
{
    open(
        alloc,
        &inputs.course.policy,
        inputs.workflow,
        inputs.checkpoint,
        inputs.feeds,
    )
}

/// Serves a session over a board, of whose feeds these bytes had come.
fn serve_over<'h, R: Threads + Wait + Sync, A: Arrivals<'h>, I: Read, W: Out>(
    rt: &R,
    alloc: Global,
    threading: Threading,
    live: Live<'h>,
    come: &[Vec<u8>],
    arrivals: &mut A,
    input: &mut I,
    out: &mut W,
) -> Result<(), ServeFault>
    ensures served { OnOk result (HasServed live.entry (map (λ bytes. bytes.items) come.now) (talk_of (I.remaining input.old) (A.saved arrivals.old) (W.written out.old)) (talk_of (I.remaining input.new) (A.saved arrivals.new) (W.written out.new))) }
    ensures broken { IfErr result (HasBroken live.entry (map (λ bytes. bytes.items) come.now) (talk_of (I.remaining input.old) (A.saved arrivals.old) (W.written out.old)) (talk_of (I.remaining input.new) (A.saved arrivals.new) (W.written out.new))) }
{
    let Ok(mut session) = Session::new(alloc, live, come) else {
        return Err(ServeFault::Memory);
    };
    session.serve(rt, alloc, threading, arrivals, input, out)
}

/// Opens a workflow with what has come of its feeds, or goes on from a checkpoint, as `follow` does, and then answers the
/// requests of an input on `out`, a line each, until `end` or the input's end. Or prints the line of a refusal on `err`: as
/// `follow` refuses, and then nothing is read or answered; or 131 where a request can't be read, 132 where an answer can't
/// be written, of the file `-`, or 72 for want of memory. Answers the status: 0, or 1 behind a refusal.
/// May wait for ever: an input may give nothing.
pub fn live<'h, R: Threads + Wait + Sync, A: Arrivals<'h>, I: Read, W: Out, E: Out>(
    rt: &R,
    alloc: Global,
    inputs: &LiveInputs<'h>,
    arrivals: &mut A,
    input: &mut I,
    out: &mut W,
    err: &mut E,
) -> u8
    ensures status { result ≤ 1 }
    // With status 0 each line of the input was answered, in order, from the board that the inputs make on.
    ensures ends { LiveEnds inputs.now result (outside (talk_of (I.remaining input.old) (A.saved arrivals.old) (W.written out.old)) (E.written err.old)) (outside (talk_of (I.remaining input.new) (A.saved arrivals.new) (W.written out.new)) (E.written err.new)) }
    ensures quiet { result ≡ 0 → err.new ≡ err.old }
{
    let board = match open_board(alloc, inputs) {
        Ok(board) => board,
        Err(unopened) => return refuse_unfollowed(err, as_unfollowed(unopened)),
    };
    let threading = inputs.course.threading;
    match serve_over(
        rt,
        alloc,
        threading,
        board,
        inputs.feeds,
        arrivals,
        input,
        out,
    ) {
        Ok(()) => 0,
        Err(fault) => refuse(err, &fault_refusal(fault)),
    }
}
