//! Readers of a run in threads, seen by how many groups of their feeds are prepared.

use crate::feeds::{WORKFLOW, open_feeds, seventy};
use crate::workers::gates::{LONG, nap};
use crate::workers::runs::{has_ended, run_over};
use filter_rule::Plan;
use source_feed::Feed;
use std::alloc::{AllocError, Global};
use std::sync::atomic::{AtomicBool, AtomicU64, Ordering};
use std::sync::{Arc, Wait};
use std::test::*;
use std::thread::Threads;
use stream_worker::{Gate, Policy};

/// How often in a row a count is the same that has come to stay: for some 10 milliseconds.
const STILL: u32 = 100;

/// How many groups of a feed are prepared: each owns the feed's plan, beside as many others as own it before.
#[derive(Drop)]
pub(crate) struct Watch {
    plan: Arc<Plan>,
    others: usize,
}

impl Watch {
    /// Of a feed none of whose groups is prepared.
    pub(crate) fn of(feed: &Feed<'_>) -> Result<Watch, AllocError> {
        let plan = Arc::clone(feed.plan())?;
        let others = Arc::strong_count(&plan);
        Ok(Watch { plan, others })
    }

    /// How many are prepared now.
    pub(crate) fn prepared(&self) -> usize {
        Arc::strong_count(&self.plan).saturating_sub(self.others)
    }

    /// Whether so many are prepared before long, and it stays so.
    pub(crate) fn comes_to<R: Wait>(&self, rt: &R, groups: usize) -> bool {
        let mut still = 0u32;
        for _ in 0..LONG {
            if self.prepared() == groups {
                still = still.saturating_add(1);
            } else {
                still = 0;
            }
            if still >= STILL {
                return true;
            }
            nap(rt);
        }
        false
    }
}

/// A gate of two streams of 70 groups each, whose first group is copied before the second is read. Each is held with
/// some of its groups until so many of its feed are prepared as there are where a reader is ahead of it, unless one was held
/// in vain before.
#[derive(Drop)]
struct Watching {
    first: Watch,
    second: Watch,
    seen: AtomicU64,
    missed: AtomicBool,
}

impl Watching {
    fn of(first: &Feed<'_>, second: &Feed<'_>) -> Result<Watching, AllocError> {
        Ok(Watching {
            first: Watch::of(first)?,
            second: Watch::of(second)?,
            seen: AtomicU64::new(0),
            missed: AtomicBool::new(false),
        })
    }

    /// Whether both streams came with each of the three groups, and as many were prepared.
    fn has_seen_all(&self) -> bool {
        self.seen.load(Ordering::SeqCst) == 6
    }
}

impl Gate for Watching {
    fn passed<R: Wait>(&self, rt: &R, stream: u8, number: u32) {
        let prepared = match number {
            // the first one, 64 in the channel, and one more for which there is no room
            1 => 66,
            // at the end of the first turn, and of the last: each group once
            17 | 70 => 70,
            _ => return,
        };
        let watch = if stream == 0 {
            &self.first
        } else {
            &self.second
        };
        if self.missed.load(Ordering::SeqCst) {
            return;
        }
        if watch.comes_to(rt, prepared) {
            self.seen.fetch_add(1, Ordering::SeqCst);
        } else {
            self.missed.store(true, Ordering::SeqCst);
        }
    }
}

/// Whether each stream of a run has a reader that fills its channel, goes on once there is room, and prepares all groups
/// that the stream's worker reads.
fn readers_are_ahead<R: Threads + Wait + Sync>(rt: &R, alloc: Global) -> Result<bool, AllocError> {
    let (ones, twos) = (seventy(alloc, b'1')?, seventy(alloc, b'2')?);
    let (Ok(plans), Some(policy)) = (Plan::read_all(alloc, WORKFLOW), Policy::new(1_000, 1, 4))
    else {
        return Ok(false);
    };
    let Some(feeds) = open_feeds(alloc, &plans, &[&ones, &twos]) else {
        return Ok(false);
    };
    let [first, second] = feeds.as_slice() else {
        return Ok(false);
    };
    let gate = Watching::of(first, second)?;
    match run_over(rt, alloc, plans, &feeds, &policy, &gate) {
        Some(Ok(board)) => {
            Ok(gate.has_seen_all() && has_ended(&board, 0, 70) && has_ended(&board, 1, 70))
        }
        _ => Ok(false),
    }
}

#[test]
fn reader_of_each_stream_is_ahead(rt: HostRuntime) -> Result<(), Fail> {
    assert!(rt; readers_are_ahead(&rt, rt.alloc())?);
    Ok(())
}
