//! What a reader of 70 groups sends, more than its channel holds; what a worker asks for, and what it prepares itself.

ghost use Rattle.std.specs.Prelude.{◌≡◌};

use crate::feeds::{UPPER, WORKFLOW, open_feeds, seventy};
use crate::workers::gates::Open;
use crate::workers::ready::Ready;
use crate::workers::seats::two_of;
use crate::workers::watching::Watch;
use apply_core::{Board, Policy};
use feed_readers::{Ahead, Named, OfFeed, Reading, WorkerEnd, read_ahead, reader_ends};
use filter_rule::Plan;
use source_feed::Feed;
use std::alloc::{AllocError, Global};
use std::marker::Brand;
use std::sync::Wait;
use std::test::*;
use std::thread;
use std::thread::Threads;
use stream_worker::{Shared, work};

/// How many groups the feed has.
const GROUPS: u32 = 70;

/// How many groups are prepared at most where none is received: 64 in the channel, and one for which there is no room.
const AHEAD: usize = 65;

/// What receives from a reader.
#[derive(Drop)]
struct Receiving<'a, 'h, F: OfFeed, R> {
    rt: &'a R,
    watch: Watch,
    read: u32,
    end: WorkerEnd<'h, F>,
}

/// How many groups come, each behind the one before, once the reader has filled its channel or is at the feed's end;
/// none where it doesn't, or where one is of another number.
fn received<'a, 'h, F: OfFeed + 'h, R: Wait>(receiving: Receiving<'a, 'h, F, R>) -> Option<u32> {
    let Receiving {
        rt,
        watch,
        read,
        mut end,
    } = receiving;
    let left = GROUPS.checked_sub(read)? as usize;
    if !watch.comes_to(rt, left.min(AHEAD)) {
        return None;
    }
    for count in 0..u32::MAX {
        let Some(group) = end.next(rt) else {
            return Some(count);
        };
        if Some(group.number()) != read.checked_add(count)?.checked_add(1) {
            return None;
        }
    }
    None
}

/// The same beside the reader, in a thread of its own.
fn received_beside<'a, 'h, F: OfFeed + Send + Sync + 'h, R: Threads + Wait + Sync>(
    reading: Reading<'a, 'h, F, R>,
    receiving: Receiving<'a, 'h, F, R>,
) -> Option<u32> {
    let rt = receiving.rt;
    thread::scope(thread::scope_env(), rt, |scope| {
        let _started = scope.spawn(move || read_ahead(reading)).is_ok();
        received(receiving)
    })
}

/// How many groups of a feed a reader sends of which so many are read before.
fn sent<'a, 'h, F: OfFeed + Send + Sync + 'h, R: Threads + Wait + Sync>(
    rt: &'a R,
    alloc: Global,
    feed: &'a Feed<'h>,
    read: u32,
) -> Option<u32>
    requires feed { feed.now ≡ F.feed }
    requires read { read ≡ F.read }
{
    let watch = Watch::of(feed).ok()?;
    match reader_ends::<F>(alloc) {
        Err(_) => None,
        Ok((reader, end)) => {
            let (of_reader, _) = Named::for_both(feed);
            let reading = Reading {
                rt,
                alloc,
                feed: of_reader,
                read,
                end: reader,
            };
            let receiving = Receiving {
                rt,
                watch,
                read,
                end,
            };
            received_beside(reading, receiving)
        }
    }
}

/// Whether a reader behind so many groups sends just those that are left.
fn sends_the_rest<'a, 'h, R: Threads + Wait + Sync>(
    rt: &'a R,
    alloc: Global,
    feed: &'a Feed<'h>,
    read: u32,
) -> bool {
    sent::<Brand, R>(rt, alloc, feed, read) == GROUPS.checked_sub(read)
}

/// Whether one does behind none, behind some, and behind all of them.
fn reads_all<R: Threads + Wait + Sync>(rt: &R, alloc: Global) -> Result<bool, AllocError> {
    let bytes = seventy(alloc, b'1')?;
    let Ok(plans) = Plan::read_all(alloc, WORKFLOW) else {
        return Ok(false);
    };
    let Some(feeds) = open_feeds(alloc, &plans, &[&bytes]) else {
        return Ok(false);
    };
    let [feed] = feeds.as_slice() else {
        return Ok(false);
    };
    Ok(
        sends_the_rest(rt, alloc, feed, 0)
            && sends_the_rest(rt, alloc, feed, 3)
            && sends_the_rest(rt, alloc, feed, 70),
    )
}

/// It sends more groups than its channel holds, of which none is received before the channel is full.
#[test]
fn reader_sends_each_group(rt: HostRuntime) -> Result<(), Fail> {
    assert!(rt; reads_all(&rt, rt.alloc())?);
    Ok(())
}

/// What is left of the groups that stand ready when a worker has ended, how often it asked for one, and how many groups
/// are prepared then: those that were given, and those that it prepared itself.
type Asked = (usize, u32, usize);

/// Groups that stand ready of the feed, by their numbers, and what a worker asks for then.
const READY: &[(&[u32], Asked)] = &[
    // none: each of the 70 is prepared
    (&[], (0, 70, 70)),
    // the first ones: the others are
    (&[1, 2, 3, 4, 5], (0, 70, 70)),
    // lower ones are passed over: 3 is asked for three times
    (&[1, 2, 1, 2, 3], (0, 72, 72)),
    // a higher one is let go: 2, 3 and 4 are prepared, and the others
    (&[1, 3, 4], (0, 70, 72)),
];

/// The same of a worker over a board of the plans' streams; none where it doesn't come to the feed's end.
fn asked_for<'h, R: Wait>(
    alloc: Global,
    rt: &R,
    board: Board<'h>,
    feed: &Feed<'h>,
    policy: &Policy,
    numbers: &[u32],
) -> Option<Asked> {
    let watch = Watch::of(feed).ok()?;
    match Shared::open(rt, alloc, board) {
        Ok((shared, seats)) => {
            let (mut one, _two) = two_of(&shared, seats)?;
            let mut ready = Ready::of(alloc, feed, numbers);
            let (receipts, refusal) = work(
                rt, alloc, &shared, &mut one, feed, policy, &Open, &mut ready,
            );
            if refusal.is_some() || receipts.len() != feed.len() {
                return None;
            }
            Some((ready.left(), ready.asked(), watch.prepared()))
        }
        Err(_) => None,
    }
}

/// What a worker asks for that reads so many groups ahead, with groups of these numbers ready.
fn asked<R: Wait>(
    alloc: Global,
    rt: &R,
    ahead: u32,
    numbers: &[u32],
) -> Result<Option<Asked>, AllocError> {
    let bytes = seventy(alloc, b'1')?;
    let (Ok(plans), Some(policy)) = (
        Plan::read_all(alloc, WORKFLOW),
        Policy::new(100, ahead, 100),
    ) else {
        return Ok(None);
    };
    let Some(feeds) = open_feeds(alloc, &plans, &[&bytes, UPPER]) else {
        return Ok(None);
    };
    if plans.len() != 2 {
        return Ok(None);
    }
    let (Ok(board), [feed, _]) = (Board::new(alloc, plans), feeds.as_slice()) else {
        return Ok(None);
    };
    Ok(asked_for(alloc, rt, board, feed, &policy, numbers))
}

/// The numbers of the feed's groups.
fn all_numbers(alloc: Global) -> Result<Vec<u32>, AllocError> {
    let mut numbers = Vec::new(alloc);
    for before in 0..GROUPS {
        numbers.push(before + 1)?;
    }
    Ok(numbers)
}

/// In turns behind the first group, and group by group before a snapshot is opened: it asks once for each group, and
/// prepares none of those that stand ready.
#[test]
fn worker_asks_for_each_group(rt: HostRuntime) -> Result<(), Fail> {
    let all = all_numbers(rt.alloc())?;
    assert!(rt; asked(rt.alloc(), &rt, 1, &all)? == Some((0, 70, 70)));
    assert!(rt; asked(rt.alloc(), &rt, GROUPS, &all)? == Some((0, 70, 70)));
    Ok(())
}

/// Whether a worker that reads so many groups ahead asks so in each of these cases.
fn asks_so<R: Wait>(alloc: Global, rt: &R, ahead: u32) -> Result<bool, AllocError> {
    for (numbers, wanted) in READY {
        if asked(alloc, rt, ahead, numbers)? != Some(*wanted) {
            return Ok(false);
        }
    }
    Ok(true)
}

/// It prepares just the groups for which none comes, or one behind them.
#[test]
fn worker_prepares_what_does_not_stand_ready(rt: HostRuntime) -> Result<(), Fail> {
    assert!(rt; asks_so(rt.alloc(), &rt, 1)?);
    assert!(rt; asks_so(rt.alloc(), &rt, GROUPS)?);
    Ok(())
}
