//! The stream of one seat runs beside a thread that prepares its groups.

ghost use Rattle.std.specs.Prelude.{◌≡◌};
ghost use Rattle.stream_worker.specs.SeatOf.{IsSeatOf};
ghost use Rattle.stream_worker.specs.Private.SeatRuns.{IsLeft};

use crate::gate::Gate;
use crate::seat::Seat;
use crate::seat_run::{Ran, RunContext};
use crate::working::work;
use feed_readers::{Named, NothingReady, OfFeed, Reading, WorkerEnd, read_ahead, reader_ends};
use source_feed::Feed;
use std::sync::Wait;
use std::thread;
use std::thread::Threads;

/// What the worker of a stream has, and its end of the channel in which its groups come.
#[derive(Drop)]
struct Working<'a, 'h, F: OfFeed, R, G> {
    run: &'a RunContext<'a, 'h, R, G>,
    seat: Seat<'h>,
    feed: Named<'a, 'h, F>,
    end: WorkerEnd<'h, F>,
    ghost at_board: { IsSeatOf run.now.shared.now seat },
}

/// A seat's stream runs to the feed's end, and then its end of the channel is given up.
fn work_behind<'a, 'h, F: OfFeed + 'h, R: Wait, G: Gate>(
    working: Working<'a, 'h, F, R, G>,
) -> Ran<'h>
    ensures { IsLeft working.entry.run.now.shared.now F.feed working.entry.seat result }
{
    let Working {
        run,
        mut seat,
        feed,
        mut end,
    } = working;
    let (_, refusal) = work(
        run.rt,
        run.alloc,
        run.shared,
        &mut seat,
        feed.feed(),
        run.policy,
        run.gate,
        &mut end,
    );
    drop(end);
    Ran { seat, refusal }
}

/// A seat's stream runs to the feed's end without a reader: each group is prepared where it is needed.
fn work_alone<'a, 'h, R: Wait, G: Gate>(
    run: &RunContext<'a, 'h, R, G>,
    mut seat: Seat<'h>,
    feed: &Feed<'h>,
) -> Ran<'h>
    requires { IsSeatOf run.now.shared.now seat }
    ensures { IsLeft run.now.shared.now feed.now seat.entry result }
{
    let mut nothing = NothingReady::of(feed);
    let (_, refusal) = work(
        run.rt,
        run.alloc,
        run.shared,
        &mut seat,
        feed,
        run.policy,
        run.gate,
        &mut nothing,
    );
    Ran { seat, refusal }
}

/// Both run, each in a thread of its own. A reader whose thread can't be made has ended.
fn run_both<'a, 'h, F: OfFeed + Send + Sync + 'h, R: Threads + Wait + Sync, G: Gate + Sync>(
    reading: Reading<'a, 'h, F, R>,
    working: Working<'a, 'h, F, R, G>,
) -> Ran<'h>
    ensures { IsLeft working.entry.run.now.shared.now F.feed working.entry.seat result }
{
    let rt = working.run.rt;
    thread::scope(thread::scope_env(), rt, |scope| {
        let _started = scope.spawn(move || read_ahead(reading)).is_ok();
        work_behind(working)
    })
}

/// A seat's stream runs to its feed's end, beside a thread that prepares the groups that it reads and sends them to
/// it; without one where memory is refused to their channel.
pub(crate) fn beside_reader<
    'a,
    'h,
    F: OfFeed + Send + Sync + 'h,
    R: Threads + Wait + Sync,
    G: Gate + Sync,
>(run: &'a RunContext<'a, 'h, R, G>, seat: Seat<'h>, feed: &'a Feed<'h>) -> Ran<'h>
    requires feed { feed.now ≡ F.feed }
    requires read { seat.cursor.read ≡ F.read }
    requires seat { IsSeatOf run.now.shared.now seat }
    ensures { IsLeft run.now.shared.now feed.now seat.entry result }
{
    match reader_ends::<F>(run.alloc) {
        Err(_) => work_alone(run, seat, feed),
        Ok((reader, worker)) => {
            let (of_reader, of_worker) = Named::for_both(feed);
            let reading = Reading {
                rt: run.rt,
                alloc: run.alloc,
                feed: of_reader,
                read: seat.cursor.read(),
                end: reader,
            };
            let working = Working {
                run,
                seat,
                feed: of_worker,
                end: worker,
            };
            run_both(reading, working)
        }
    }
}
