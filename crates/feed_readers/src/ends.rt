//! The two ends of a reader's channel.

ghost use Rattle.std.specs.Prelude.{◌≡◌, Ok, IfOk};
ghost use Rattle.std.specs.Bool.{OnTrue};
ghost use Rattle.std.specs.Arc.{arc_value};
ghost use Rattle.crossbeam_channel.specs.Claims.{view, IsSeatAt};
ghost use Rattle.crossbeam_channel.specs.Ends.{sends_on, receives_on};
ghost use Rattle.source_feed.specs.Touches.{prepared_at};
ghost use Rattle.feed_readers.specs.ReaderRule.{Reads, Works, last_sent, MaySend};

use crate::ahead::Ahead;
use crate::channel::{OfFeed, ReaderRule, Received, Sent, Side, Sides};
use crossbeam_channel::{Pass, RuledReceiver, RuledSender, TryRecvError, bounded_with};
use source_feed::Prepared;
use std::alloc::{AllocError, Global};
use std::hint::spin_loop;
use std::sync::{Arc, Wait};
use std::thread::Parker;
use std::time::Duration;

/// How many groups a channel holds at most.
const CAPACITY: usize = 64;

/// How often a receive is tried before the thread sleeps: some 0.2 ms.
const SPINS: u32 = 4_000;

/// How many microseconds a thread sleeps whose channel is full: what it holds takes longer.
const NAP: u64 = 100;

/// The end of the thread that prepares a feed's groups, which are sent by it in order. Its pass knows the last.
#[derive(Drop)]
pub struct ReaderEnd<'h, F: OfFeed> {
    sender: RuledSender<Arc<Prepared<'h>>, Side, ReaderRule<F>>,
    pass: Pass<Arc<Prepared<'h>>, Side>,
    ghost at: { IsSeatAt (sends_on sender) pass },
    ghost side: { view pass ≡ Reads (last_sent (view pass)) },
}

/// The end of the thread that needs them. Dropped, it lets the other end's thread end.
#[derive(Drop)]
pub struct WorkerEnd<'h, F: OfFeed> {
    receiver: RuledReceiver<Arc<Prepared<'h>>, Side, ReaderRule<F>>,
    pass: Pass<Arc<Prepared<'h>>, Side>,
    ghost at: { IsSeatAt (receives_on receiver) pass },
    ghost side: { view pass ≡ Works },
}

/// The two ends of a new channel for the groups of the feed, which holds 64 of them at most: the first to be sent is the
/// one behind those that are read before. An error is want of memory.
pub fn reader_ends<'h, F: OfFeed>(
    alloc: Global,
) -> Result<(ReaderEnd<'h, F>, WorkerEnd<'h, F>), AllocError>
    ensures { IfOk result (λ ends. last_sent (view ends.0.pass) ≡ F.read) }
{
    let (sender, receiver, mut pass) = bounded_with::<
        Arc<Prepared<'h>>,
        Side,
        ReaderRule<F>,
        Global,
    >(alloc, CAPACITY)?;
    let other = sender.another::<Sides>(&mut pass);
    Ok((
        ReaderEnd { sender, pass },
        WorkerEnd {
            receiver,
            pass: other,
        },
    ))
}

impl<'h, F: OfFeed> ReaderEnd<'h, F> {
    /// Sends the group behind the last that was sent, once there is room for it: whether the other end is still there.
    /// Where there is none the thread sleeps for a while, so that nobody has to wake it for each group that is
    /// received.
    pub(crate) fn send<R: Wait>(&mut self, rt: &R, mut group: Arc<Prepared<'h>>) -> bool
        requires next { MaySend (view self.old.pass) (arc_value group).number }
        requires prepared { prepared_at F.feed (arc_value group).number ≡ Ok (arc_value group) }
        ensures { OnTrue result (last_sent (view self.new.pass) ≡ (arc_value group.entry).number) }
    {
        let parker = Parker::new();
        for _ in rt.forever() {
            match self
                .sender
                .try_send_as::<Sent<F>, R>(rt, &mut self.pass, group)
            {
                Ok(()) => return true,
                Err(refused) => {
                    if !refused.is_full() {
                        return false;
                    }
                    group = refused.into_inner();
                }
            }
            parker.park_timeout(rt, Duration::from_micros(NAP));
        }
        unreachable!()
    }
}

impl<'h, F: OfFeed> Ahead<'h> for WorkerEnd<'h, F> {
    ghost use Rattle.std.specs.Prelude.{[]};

    ghost feed = { λ _. F.feed };

    ghost ready = { λ _. [] };

    /// The group that was sent first of those that wait, or `None` where the other end is gone. A receive is tried for
    /// a while before the thread sleeps.
    fn next<R: Wait>(&mut self, rt: &R) -> Option<Arc<Prepared<'h>>> {
        for _ in 0..SPINS {
            match self
                .receiver
                .try_recv_as::<Received<F>, R>(rt, &mut self.pass)
            {
                Ok(group) => return Some(group),
                Err(TryRecvError::Disconnected) => return None,
                Err(TryRecvError::Empty) => spin_loop(),
            }
        }
        match self.receiver.recv_as::<Received<F>, R>(rt, &mut self.pass) {
            Ok(group) => Some(group),
            Err(_) => None,
        }
    }
}
