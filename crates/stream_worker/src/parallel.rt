//! All streams run to their feeds' ends, each in a thread of its own.

ghost use Rattle.std.specs.Prelude.{◌≡◌, ◌≤◌, length, map, MatchOption, IfSome, IfOk, IfErr};
ghost use Rattle.std.specs.Arc.{arc_value};
ghost use Rattle.board_laws.specs.Sources.{ShowAll};
ghost use Rattle.apply_core.specs.Feeds.{AreFed};
ghost use Rattle.apply_core.specs.Shown.{all_rows};
ghost use Rattle.apply_core.specs.Ended.{IsFedBoard, AllHaveEnded, AreSound, IsRowsUnion};
ghost use Rattle.apply_core.specs.RunRefused.{EndsRun, IsRefusedRun, IsLowest};
ghost use Rattle.stream_worker.specs.Private.SeatRuns.{IsSeated, IsRan, AreSeated, AreJobs, AreRan, first_refusal};

use crate::gate::Gate;
use crate::seat::Seat;
use crate::seat_run::{Job, Ran, RunContext, run_seat};
use crate::shared::Shared;
use apply_core::{Board, FedBoard, Policy, RunRefusal, board_to_run, ended_boards_have_the_union};
use board_laws::fed_boards_show_all;
use filter_rule::Plan;
use source_feed::Feed;
use std::alloc::{AllocError, Global};
use std::sync::{Arc, Wait};
use std::thread;
use std::thread::Threads;

/// What each seat's thread works with. An error is want of memory.
fn jobs_of<'a, 'h, R, G>(
    run: &RunContext<'a, 'h, R, G>,
    seats: Vec<Seat<'h>>,
) -> Result<Vec<Job<'a, 'h, R, G>>, AllocError>
    ensures seats { IfOk result (λ jobs. map (λ job. job.seat) jobs.items ≡ seats.entry.items) }
    ensures jobs { IfOk result (λ jobs. AreJobs run.now.shared.now run.now.feeds.now jobs.items) }
{
    let mut jobs = Vec::with_capacity(run.alloc, seats.len())?;
    for seat in seats {
        let run = RunContext {
            alloc: run.alloc,
            rt: run.rt,
            shared: run.shared,
            feeds: run.feeds,
            policy: run.policy,
            gate: run.gate,
        };
        jobs.push(Job { run, seat })?;
    }
    Ok(jobs)
}

/// The seats' streams run to their feeds' ends, each in a thread of its own where one can be made. An error is want
/// of memory.
fn run_seats<'a, 'h, R: Threads + Wait + Sync, G: Gate + Sync>(
    run: &RunContext<'a, 'h, R, G>,
    seats: Vec<Seat<'h>>,
) -> Result<Vec<Ran<'h>>, AllocError>
    requires { AreSeated run.now.shared.now run.now.feeds.now seats.items }
    ensures count { IfOk result (λ rans. length rans.items ≡ length seats.entry.items) }
    ensures ran { IfOk result (λ rans. AreRan run.now.shared.now run.now.feeds.now rans.items) }
{
    let jobs = jobs_of(run, seats)?;
    thread::map_vec(
        run.rt,
        jobs,
        &|job|
            requires { IsSeated job.run.shared.now job.run.feeds.now job.seat }
            ensures { IsRan job.entry.run.shared.now job.entry.run.feeds.now job.entry.seat.stream result }
        { run_seat(job) },
    )
}

/// The seats, and the refusal of the lowest stream that has one. An error is want of memory.
fn gathered<'h>(
    alloc: Global,
    rans: Vec<Ran<'h>>,
) -> Result<(Vec<Seat<'h>>, Option<RunRefusal>), AllocError>
    ensures seats { IfOk result (λ gathered. gathered.0.items ≡ map (λ ran. ran.seat) rans.entry.items) }
    ensures lowest { IfOk result (λ gathered. gathered.1 ≡ first_refusal rans.entry.items) }
{
    let mut seats = Vec::with_capacity(alloc, rans.len())?;
    let mut lowest = None;
    for ran in rans {
        let Ran { seat, refusal } = ran;
        seats.push(seat)?;
        lowest = lowest.or(refusal);
    }
    Ok((seats, lowest))
}

/// A board whose streams read their feeds is shared, and each runs to its feed's end: the board behind all of them, and
/// the refusal of the lowest stream that has one. An error is want of memory.
fn run_shared<'h, R: Threads + Wait + Sync, G: Gate + Sync>(
    rt: &R,
    alloc: Global,
    board: Board<'h>,
    feeds: &[Feed<'h>],
    policy: &Policy,
    gate: &G,
) -> Result<(Board<'h>, Option<RunRefusal>), AllocError>
    requires { IsFedBoard feeds.now board }
    ensures board { IfOk result (λ ended. IsFedBoard feeds.now ended.0) }
    ensures outcome { IfOk result (λ ended. MatchOption ended.1 (AllHaveEnded feeds.now ended.0) (EndsRun feeds.now)) }
    ensures lowest { IfOk result (λ ended. IfSome ended.1 (IsLowest feeds.now)) }
{
    let Ok((shared, seats)) = Shared::open(rt, alloc, board) else {
        return Err(AllocError);
    };
    let run = RunContext {
        alloc,
        rt,
        shared: &shared,
        feeds,
        policy,
        gate,
    };
    let rans = run_seats(&run, seats)?;
    let (seats, refusal) = gathered(alloc, rans)?;
    let board = shared.end(rt, seats);
    board.is_lawful();
    Ok((board, refusal))
}

/// Runs all streams from a board of 1 to 64 plans of which nothing is read, each to its feed's end in a thread of its
/// own, in the portions of the policy; where a thread can't be made, its streams run one after another. The feeds stand
/// in the order of the plans. Beside each stream's thread a second one prepares its groups ahead; a group that isn't
/// ready the stream's thread prepares itself, outside the lock. It tells the gate of each before it is offered. The
/// answer is as `run_alone`'s, whatever the schedule and the policy: all streams are Running at their feeds' ends, and
/// the target's rows are the union of those that the feeds keep.
///
/// Refused as `run_alone`, but a refused stream ends its own run alone: the others go on, and the refusal of the lowest
/// stream that has one is the answer.
pub fn run_parallel<'h, R: Threads + Wait + Sync, G: Gate + Sync>(
    rt: &R,
    alloc: Global,
    plans: Vec<Arc<Plan>>,
    feeds: &[Feed<'h>],
    policy: &Policy,
    gate: &G,
) -> Result<Board<'h>, RunRefusal>
    requires some { 1 ≤ length plans.items }
    requires few { length plans.items ≤ 64 }
    ensures fed { IfOk result (λ _. AreFed (map arc_value plans.items) feeds.now) }
    // The board is lawful, with a stream for each feed, which reads that feed.
    ensures board { IfOk result (IsFedBoard feeds.now) }
    // Each stream is Running, and all groups of its feed are read and applied.
    ensures ended { IfOk result (AllHaveEnded feeds.now) }
    // The target has just the rows that the feeds keep.
    ensures rows { IfOk result (λ board. IsRowsUnion feeds.now (all_rows board.rows)) }
    ensures refused { IfErr result (IsRefusedRun (map arc_value plans.items) feeds.now) }
    // Every lower stream has come to its feed's end.
    ensures lowest { IfErr result (IsLowest feeds.now) }
{
    let board = board_to_run(alloc, plans, feeds)?;
    let board = run_board_parallel(rt, alloc, board, feeds, policy, gate)?;
    Ok(board)
}

/// The same from a board whose streams read these feeds.
fn run_board_parallel<'h, R: Threads + Wait + Sync, G: Gate + Sync>(
    rt: &R,
    alloc: Global,
    board: Board<'h>,
    feeds: &[Feed<'h>],
    policy: &Policy,
    gate: &G,
) -> Result<Board<'h>, RunRefusal>
    requires { IsFedBoard feeds.now board }
    ensures board { IfOk result (IsFedBoard feeds.now) }
    ensures ended { IfOk result (AllHaveEnded feeds.now) }
    ensures rows { IfOk result (λ board. IsRowsUnion feeds.now (all_rows board.rows)) }
    ensures refused { IfErr result (EndsRun feeds.now) }
    ensures lowest { IfErr result (IsLowest feeds.now) }
{
    ended_boards_have_the_union();
    match run_shared(rt, alloc, board, feeds, policy, gate) {
        Err(_) => Err(RunRefusal::Memory),
        Ok((board, refusal)) => match refusal {
            None => Ok(board),
            Some(refusal) => Err(refusal),
        },
    }
}

/// Runs all streams of a board with its feeds, each to its feed's end in a thread of its own, in the portions of the
/// policy: what is read, applied and copied already stays. The answer is as `run_parallel`'s, wherever the board stood,
/// with the feeds.
///
/// Refused 90 and 71 as `run_parallel` has them; any other error is want of memory.
pub fn run_fed_parallel<'h, R: Threads + Wait + Sync, G: Gate + Sync>(
    rt: &R,
    alloc: Global,
    fed: FedBoard<'h>,
    policy: &Policy,
    gate: &G,
) -> Result<FedBoard<'h>, RunRefusal>
    ensures feeds { IfOk result (λ ended. ended.feeds ≡ fed.entry.feeds) }
    ensures ended { IfOk result (λ ended. AllHaveEnded ended.feeds ended.board) }
    ensures rows { IfOk result (λ ended. IsRowsUnion ended.feeds (all_rows ended.board.rows)) }
    ensures sound { IfOk result (λ ended. AreSound ended.feeds) }
    ensures shows { IfOk result (λ ended. ShowAll ended.feeds ended.board) }
    ensures refused { IfErr result (EndsRun fed.entry.feeds) }
    // Every lower stream has come to its feed's end.
    ensures lowest { IfErr result (IsLowest fed.entry.feeds) }
{
    ended_boards_have_the_union();
    fed_boards_show_all();
    let (board, feeds) = fed.into_parts();
    let board = run_board_parallel(rt, alloc, board, &feeds, policy, gate)?;
    Ok(FedBoard::from_parts(board, feeds))
}
