//! Calls of a shared board that find no memory: they say so, the seat stands where it stood, and the same call is then
//! answered as it would have been. What isn't allowed is refused as such whatever memory there is, and a group that was
//! read before is so answered. Each test stands for one run for each growth that it asks for, in which that
//! growth is refused.

ghost use Rattle.std.specs.Prelude.{◌≡◌, IfOk};
ghost use Rattle.stream_worker.specs.SeatOf.{IsSeatOf, AreSeatsOf};

use crate::feeds::{LOWER, UPPER, WORKFLOW, open_feeds};
use crate::workers::seats::{ended, two_of};
use apply_core::{Board, Refusal};
use filter_rule::Plan;
use source_feed::{Feed, Prepared};
use std::alloc::{AllocError, Global};
use std::sync::{Arc, Wait};
use std::test::*;
use stream_worker::{Seat, Shared};

/// What a call of a seat is.
#[derive(Clone, Copy)]
enum Call {
    /// This group of its feed is offered.
    Offer(u32),
    /// The next group is applied.
    Advance,
    /// A snapshot is opened at this group.
    Open(u32),
    /// Up to so many rows are copied.
    Copy(u32),
}

/// Where a seat's stream stands: the groups that are read and applied, the tables that are copied, and the open
/// snapshot.
type Stand = (u32, u32, u8, Option<u32>);

/// A call, and where the stream stands behind it.
type Made = (Call, Stand);

/// A course over a feed of two groups.
const COURSE: [Made; 6] = [
    (Call::Offer(1), (1, 0, 0, None)),
    (Call::Advance, (1, 1, 0, None)),
    (Call::Open(1), (1, 1, 0, Some(1))),
    (Call::Offer(2), (2, 1, 0, Some(1))),
    (Call::Copy(1), (2, 1, 1, None)),
    (Call::Advance, (2, 2, 1, None)),
];

/// Where a seat's stream stands.
fn stand(seat: &Seat<'_>) -> Stand {
    (seat.read(), seat.applied(), seat.done(), seat.snapshot())
}

/// A call of a seat, whose feed has this group.
fn make<'h, R: Wait>(
    alloc: Global,
    rt: &R,
    shared: &Shared<'h>,
    seat: &mut Seat<'h>,
    group: &Arc<Prepared<'h>>,
    call: Call,
) -> Result<(), Refusal>
    requires { IsSeatOf shared.now seat.old }
    ensures { IsSeatOf shared.now seat.new × (seat.new.stream ≡ seat.old.stream) }
{
    match call {
        Call::Offer(_) => match Arc::clone(group) {
            Ok(group) => match shared.offer(rt, alloc, seat, group) {
                Ok(_) => Ok(()),
                Err(refusal) => Err(refusal),
            },
            Err(_) => Err(Refusal::Memory),
        },
        Call::Advance => match shared.advance(rt, alloc, seat) {
            Ok(_) => Ok(()),
            Err(refusal) => Err(refusal),
        },
        Call::Open(number) => shared.open_snapshot(rt, alloc, seat, number),
        Call::Copy(rows) => match shared.copy_chunk(rt, alloc, seat, rows) {
            Ok(_) => Ok(()),
            Err(refusal) => Err(refusal),
        },
    }
}

/// Whether a call leaves the stream where it should; an error where it finds no memory and leaves it where it was.
fn is_made<'h, R: Wait>(
    alloc: Global,
    rt: &R,
    shared: &Shared<'h>,
    seat: &mut Seat<'h>,
    group: &Arc<Prepared<'h>>,
    made: &Made,
) -> Result<bool, AllocError>
    requires { IsSeatOf shared.now seat.old }
    ensures { IsSeatOf shared.now seat.new × (seat.new.stream ≡ seat.old.stream) }
{
    let before = stand(seat);
    match make(alloc, rt, shared, seat, group, made.0) {
        Ok(()) => Ok(stand(seat) == made.1),
        Err(refusal) if refusal.number() == 72 && stand(seat) == before => Err(AllocError),
        Err(_) => Ok(false),
    }
}

/// The group that a call offers; the first one where it offers none.
fn group_of<'h>(
    alloc: Global,
    feed: &Feed<'h>,
    call: Call,
) -> Result<Arc<Prepared<'h>>, AllocError> {
    let number = match call {
        Call::Offer(number) => number,
        _ => 1,
    };
    match feed.prepare(alloc, number) {
        Ok(group) => Ok(group),
        Err(_) => Err(AllocError),
    }
}

/// Whether a call is so made, also where it found no memory before.
fn is_made_again<'h, R: Wait>(
    alloc: Global,
    rt: &R,
    shared: &Shared<'h>,
    seat: &mut Seat<'h>,
    feed: &Feed<'h>,
    made: &Made,
) -> Result<bool, AllocError>
    requires { IsSeatOf shared.now seat.old }
    ensures { IsSeatOf shared.now seat.new × (seat.new.stream ≡ seat.old.stream) }
{
    let group = group_of(alloc, feed, made.0)?;
    match is_made(alloc, rt, shared, seat, &group, made) {
        Ok(well) => Ok(well),
        Err(_) => is_made(alloc, rt, shared, seat, &group, made),
    }
}

/// Whether a call leaves the stream where it was, whatever memory there is: refused by this number, or not at all where
/// none is given.
fn is_without_effect<'h, R: Wait>(
    alloc: Global,
    rt: &R,
    shared: &Shared<'h>,
    seat: &mut Seat<'h>,
    feed: &Feed<'h>,
    call: Call,
    number: Option<u8>,
) -> Result<bool, AllocError>
    requires { IsSeatOf shared.now seat.old }
    ensures { IsSeatOf shared.now seat.new × (seat.new.stream ≡ seat.old.stream) }
{
    let group = group_of(alloc, feed, call)?;
    let before = stand(seat);
    match make(alloc, rt, shared, seat, &group, call) {
        Ok(()) => Ok(number.is_none() && stand(seat) == before),
        Err(refusal) => Ok(number == Some(refusal.number()) && stand(seat) == before),
    }
}

/// Whether the calls up to a snapshot are, and a group that isn't the next one is refused before.
fn is_opened<'h, R: Wait>(
    alloc: Global,
    rt: &R,
    shared: &Shared<'h>,
    seat: &mut Seat<'h>,
    feed: &Feed<'h>,
) -> Result<bool, AllocError>
    requires { IsSeatOf shared.now seat.old }
    ensures { IsSeatOf shared.now seat.new × (seat.new.stream ≡ seat.old.stream) }
{
    Ok(
        is_without_effect(alloc, rt, shared, seat, feed, Call::Offer(2), Some(101))?
            && is_made_again(alloc, rt, shared, seat, feed, &COURSE[0])?
            && is_made_again(alloc, rt, shared, seat, feed, &COURSE[1])?
            && is_made_again(alloc, rt, shared, seat, feed, &COURSE[2])?
            && is_made_again(alloc, rt, shared, seat, feed, &COURSE[3])?,
    )
}

/// Whether those behind it are, an advance is refused before, and a group that was read before is a repeat.
fn is_followed<'h, R: Wait>(
    alloc: Global,
    rt: &R,
    shared: &Shared<'h>,
    seat: &mut Seat<'h>,
    feed: &Feed<'h>,
) -> Result<bool, AllocError>
    requires { IsSeatOf shared.now seat.old }
    ensures { IsSeatOf shared.now seat.new × (seat.new.stream ≡ seat.old.stream) }
{
    Ok(
        is_without_effect(alloc, rt, shared, seat, feed, Call::Advance, Some(103))?
            && is_made_again(alloc, rt, shared, seat, feed, &COURSE[4])?
            && is_without_effect(alloc, rt, shared, seat, feed, Call::Offer(1), None)?
            && is_made_again(alloc, rt, shared, seat, feed, &COURSE[5])?,
    )
}

/// A board of plans, of which nothing is read.
fn board_of<'h>(alloc: Global) -> Result<Board<'h>, AllocError> {
    let Ok(plans) = Plan::read_all(alloc, WORKFLOW) else {
        return Err(AllocError);
    };
    if plans.is_empty() || plans.len() > 64 {
        return Err(AllocError);
    }
    match Board::new(alloc, plans) {
        Ok(board) => Ok(board),
        Err(_) => Err(AllocError),
    }
}

/// A shared board and its seats; a board that isn't shared for want of memory is handed back, and shared then.
fn opened<'h, R: Wait>(
    alloc: Global,
    rt: &R,
    board: Board<'h>,
) -> Result<(Shared<'h>, Vec<Seat<'h>>), AllocError>
    ensures { IfOk result (λ opened. AreSeatsOf opened.0 opened.1.items) }
{
    match Shared::open(rt, alloc, board) {
        Ok(opened) => Ok(opened),
        Err(refusal) => match Shared::open(rt, alloc, refusal.board) {
            Ok(opened) => Ok(opened),
            Err(_) => Err(AllocError),
        },
    }
}

/// Whether a board has both rows of the first feed.
fn has_both_rows(alloc: Global, board: &Board<'_>) -> Result<bool, AllocError> {
    let rows = board.rows(alloc)?;
    Ok(rows.len() == 2)
}

/// Whether the first seat's stream goes its course, and has then both rows.
fn course_ends<'h, R: Wait>(
    alloc: Global,
    rt: &R,
    shared: Shared<'h>,
    mut one: Seat<'h>,
    two: Seat<'h>,
    feed: &Feed<'h>,
) -> Result<bool, AllocError>
    requires one { IsSeatOf shared one × (one.stream ≡ 0) }
    requires two { IsSeatOf shared two × (two.stream ≡ 1) }
{
    if !is_opened(alloc, rt, &shared, &mut one, feed)?
        || !is_followed(alloc, rt, &shared, &mut one, feed)?
    {
        return Ok(false);
    }
    match ended(alloc, rt, shared, one, two) {
        Some(board) => has_both_rows(alloc, &board),
        None => Err(AllocError),
    }
}

/// The same of a board that is shared here.
fn course_of<'h, R: Wait>(alloc: Global, rt: &R, feed: &Feed<'h>) -> Result<bool, AllocError> {
    let board = board_of(alloc)?;
    let (shared, seats) = opened(alloc, rt, board)?;
    match two_of(&shared, seats) {
        Some((one, two)) => course_ends(alloc, rt, shared, one, two, feed),
        None => Ok(false),
    }
}

/// The same over the feed of two groups.
fn course_is_gone<R: Wait>(alloc: Global, rt: &R) -> Result<bool, AllocError> {
    let Ok(plans) = Plan::read_all(alloc, WORKFLOW) else {
        return Err(AllocError);
    };
    let Some(feeds) = open_feeds(alloc, &plans, &[LOWER, UPPER]) else {
        return Err(AllocError);
    };
    match feeds.first() {
        Some(feed) => course_of(alloc, rt, feed),
        None => Ok(false),
    }
}

#[test]
fn seat_without_memory(rt: HostRuntime) -> Result<(), Fail> {
    assert!(rt; course_is_gone(rt.alloc(), &rt)?);
    Ok(())
}
