//! A stream's worker, with groups that stand ready in any order.

ghost use Rattle.std.specs.Prelude.{◌≡◌};
ghost use Rattle.stream_worker.specs.SeatOf.{IsSeatOf};

use crate::feeds::{FOUR, UPPER, WORKFLOW, open_feeds};
use crate::workers::gates::Open;
use crate::workers::seats::{ended, is_found, two_of};
use apply_core::{Board, Policy, run_alone};
use feed_readers::Ahead;
use filter_rule::Plan;
use source_feed::{Feed, Prepared};
use std::alloc::{AllocError, Global};
use std::sync::{Arc, Wait};
use std::test::*;
use stream_worker::{Receipt, Seat, Shared, work};
use vdiff::first_difference;

/// Groups of a feed that stand ready, by their numbers. Those that are given are kept beside.
#[derive(Drop)]
pub(crate) struct Ready<'a, 'h> {
    alloc: Global,
    feed: &'a Feed<'h>,
    numbers: &'a [u32],
    asked: u32,
    given: Vec<Arc<Prepared<'h>>>,
}

impl<'a, 'h> Ready<'a, 'h> {
    /// Groups of these numbers stand ready of a feed.
    pub(crate) fn of(alloc: Global, feed: &'a Feed<'h>, numbers: &'a [u32]) -> Ready<'a, 'h>
        ensures { result.feed.now ≡ feed.now }
    {
        Ready {
            alloc,
            feed,
            numbers,
            asked: 0,
            given: Vec::new(alloc),
        }
    }

    /// How many weren't taken.
    pub(crate) fn left(&self) -> usize {
        self.numbers.len()
    }

    /// How often one was asked for.
    pub(crate) fn asked(&self) -> u32 {
        self.asked
    }
}

impl<'a, 'h> Ahead<'h> for Ready<'a, 'h> {
    ghost use Rattle.std.specs.Prelude.{[]};

    ghost feed = { λ ready. ready.feed.now };

    ghost ready = { λ _. [] };

    fn next<R: Wait>(&mut self, _rt: &R) -> Option<Arc<Prepared<'h>>> {
        self.asked = self.asked.saturating_add(1);
        let (number, later) = self.numbers.split_first()?;
        self.numbers = later;
        let Ok(group) = self.feed.prepare(self.alloc, *number) else {
            return None;
        };
        let Ok(again) = Arc::clone(&group) else {
            return None;
        };
        let Ok(()) = self.given.push(again) else {
            return None;
        };
        Some(group)
    }
}

/// Whether a receipt is of this group of the stream.
fn is_of(receipt: &Receipt<'_>, stream: u8, number: u32) -> bool {
    receipt.stream == stream && receipt.number == number && receipt.group.number() == number
}

/// Whether these are the receipts of a stream's first groups, so many.
fn are_first(receipts: &[Receipt<'_>], stream: u8, groups: usize) -> bool {
    match receipts {
        [one, two] => groups == 2 && is_of(one, stream, 1) && is_of(two, stream, 2),
        [one, two, three, four] => {
            groups == 4
                && is_of(one, stream, 1)
                && is_of(two, stream, 2)
                && is_of(three, stream, 3)
                && is_of(four, stream, 4)
        }
        _ => false,
    }
}

/// Whether the rows of the first and the last group that a stream applied are found. Each group puts a row at a key of
/// its own.
fn are_found<'h, R: Wait>(
    alloc: Global,
    rt: &R,
    shared: &Shared<'h>,
    seat: &mut Seat<'h>,
    receipts: &[Receipt<'h>],
) -> bool
    requires { IsSeatOf shared.now seat.old }
    ensures { IsSeatOf shared.now seat.new × (seat.new.stream ≡ seat.old.stream) }
{
    match (receipts.first(), receipts.last()) {
        (Some(first), Some(last)) => {
            is_found(alloc, rt, shared, seat, first) && is_found(alloc, rt, shared, seat, last)
        }
        _ => false,
    }
}

/// Whether a seat's stream comes to its feed's end, with groups of these numbers ready, has a receipt for each group,
/// and finds its rows.
fn comes_to_the_end<'a, 'h, R: Wait>(
    alloc: Global,
    rt: &R,
    shared: &Shared<'h>,
    seat: &mut Seat<'h>,
    feed: &'a Feed<'h>,
    numbers: &'a [u32],
) -> bool
    requires { IsSeatOf shared.now seat.old }
    ensures { IsSeatOf shared.now seat.new × (seat.new.stream ≡ seat.old.stream) }
{
    let Some(policy) = Policy::new(1_000, 100, 4) else {
        return false;
    };
    let mut ready = Ready::of(alloc, feed, numbers);
    let (receipts, refusal) = work(rt, alloc, shared, seat, feed, &policy, &Open, &mut ready);
    refusal.is_none()
        && are_first(&receipts, seat.stream(), feed.len())
        && are_found(alloc, rt, shared, seat, &receipts)
}

/// The board behind two streams' workers, of which the first has groups of these numbers ready.
fn worked<'a, 'h, R: Wait>(
    alloc: Global,
    rt: &R,
    board: Board<'h>,
    first: &'a Feed<'h>,
    second: &'a Feed<'h>,
    numbers: &'a [u32],
) -> Option<Board<'h>> {
    match Shared::open(rt, alloc, board) {
        Ok((shared, seats)) => {
            let (mut one, mut two) = two_of(&shared, seats)?;
            if !comes_to_the_end(alloc, rt, &shared, &mut one, first, numbers)
                || !comes_to_the_end(alloc, rt, &shared, &mut two, second, &[])
            {
                return None;
            }
            ended(alloc, rt, shared, one, two)
        }
        Err(_) => None,
    }
}

/// Whether two boards have the same rows.
fn have_the_same_rows(
    alloc: Global,
    one: &Board<'_>,
    other: &Board<'_>,
) -> Result<bool, AllocError> {
    let rows = one.rows(alloc)?;
    let others = other.rows(alloc)?;
    Ok(rows.len() == 6 && first_difference(&rows, &others).is_none())
}

/// Whether a worker with groups of these numbers ready leaves the rows of a run of one stream after another.
fn leaves_all_rows<R: Wait>(alloc: Global, rt: &R, numbers: &[u32]) -> Result<bool, AllocError> {
    let (Ok(plans), Ok(again), Some(policy)) = (
        Plan::read_all(alloc, WORKFLOW),
        Plan::read_all(alloc, WORKFLOW),
        Policy::new(1, 1, 1),
    ) else {
        return Ok(false);
    };
    let Some(feeds) = open_feeds(alloc, &plans, &[FOUR, UPPER]) else {
        return Ok(false);
    };
    let [first, second] = feeds.as_slice() else {
        return Ok(false);
    };
    if plans.len() != 2 || again.len() != 2 {
        return Ok(false);
    }
    let (Ok(board), Ok(alone)) = (
        Board::new(alloc, plans),
        run_alone(alloc, again, &feeds, &policy),
    ) else {
        return Ok(false);
    };
    match worked(alloc, rt, board, first, second, numbers) {
        Some(board) => have_the_same_rows(alloc, &board, &alone),
        None => Ok(false),
    }
}

#[test]
fn worker_passes_over_what_it_does_not_need(rt: HostRuntime) -> Result<(), Fail> {
    assert!(rt; leaves_all_rows(rt.alloc(), &rt, &[2, 1, 1, 4])?);
    assert!(rt; leaves_all_rows(rt.alloc(), &rt, &[1, 2, 3, 4])?);
    Ok(())
}
