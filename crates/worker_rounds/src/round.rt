//! A round of a board with its feeds.

ghost use Rattle.std.specs.Prelude.{◌≡◌, ◌≤◌, [], None, IfOk, OnErr, length, vec_len};
ghost use Rattle.std.specs.List.{AllByRecursion};
ghost use Rattle.std.specs.Vec.{vec_capacity};
ghost use Rattle.board_laws.specs.FedBoards.{IsFedBoard};
ghost use Rattle.board_laws.specs.Sources.{ShowAll};
ghost use Rattle.change_laws.specs.Since.{HasMoved};
ghost use Rattle.worker_rounds.specs.Rounds.{ApplyUpTo, AreAnswers, AreRunning, HaveEndedAs};
ghost use Rattle.worker_rounds.specs.Private.OnRound.{applied_on};

use crate::began::Began;
use crate::going::Going;
use crate::place::Place;
use apply_core::{Board, FedBoard, StepRefusal};
use board_laws::fed_boards_show_all;
use source_feed::{Feed, FeedEnd};
use std::alloc::{AllocError, Global};
use std::marker::Brand;
use std::mem::{replace, swap};
use std::sync::{Arc, Mutex, Wait};
use std::thread;
use std::thread::Threads;
use vrepl_choices::Threading;

/// The places of the streams that have something to apply, on the board that they share. An error is want of memory.
fn places_of<'a, 'h, R: Wait, J: Began>(
    rt: &'a R,
    alloc: Global,
    going: &'a Mutex<Going<'h, J>>,
    feeds: &'a [Feed<'h>],
    most: u32,
) -> Result<Vec<Place<'a, 'h, R, J>>, AllocError>
    requires feeds { feeds.now ≡ J.fed.feeds }
    requires few { length feeds.now ≤ 64 }
    requires most { most ≡ J.most }
{
    let mut places = Vec::with_capacity(alloc, feeds.len())?;
    for s in 0..feeds.len() {
        let place = Place::of(rt, alloc, going, feeds, s as u8, most)?;
        if place.has_more() {
            places.push(place)?;
        }
    }
    Ok(places)
}

/// How many threads there are at most: as many as processors.
fn threads(rt: &impl Threads) -> usize
    ensures { 1 ≤ result }
{
    match thread::available_parallelism(rt) {
        Ok(count) => count.get(),
        Err(_) => 1,
    }
}

/// All streams go on in threads, each as far as it can; a single one in this thread. Where there is no memory for their
/// places, none does.
fn work_beside<'a, 'h, R: Threads + Wait + Sync, J: Began + Send + Sync>(
    rt: &'a R,
    alloc: Global,
    going: &'a Mutex<Going<'h, J>>,
    feeds: &'a [Feed<'h>],
    most: u32,
)
    requires feeds { feeds.now ≡ J.fed.feeds }
    requires few { length feeds.now ≤ 64 }
    requires most { most ≡ J.most }
{
    let Ok(mut places) = places_of(rt, alloc, going, feeds, most) else {
        return;
    };
    thread::for_each_mut(rt, &mut places, threads(rt), &|_, place| place.work());
}

/// All streams go on in threads, where they are to.
fn work_all<'a, 'h, R: Threads + Wait + Sync, J: Began + Send + Sync>(
    rt: &'a R,
    alloc: Global,
    threading: Threading,
    going: &'a Mutex<Going<'h, J>>,
    feeds: &'a [Feed<'h>],
    most: u32,
)
    requires feeds { feeds.now ≡ J.fed.feeds }
    requires few { length feeds.now ≤ 64 }
    requires most { most ≡ J.most }
{
    match threading {
        Threading::Alone => {}
        Threading::Parallel => work_beside(rt, alloc, going, feeds, most),
    }
}

/// What a round needs before it begins.
#[derive(Drop)]
struct Room<'h> {
    /// a board that stands in for the one of the round
    other: FedBoard<'h>,
    stopped: Vec<Option<StepRefusal>>,
    first: Vec<u32>,
    answers: Vec<Result<bool, StepRefusal>>,
}

/// A board of the first stream's plan, with a feed of no bytes. An error is want of memory.
fn other_board<'h>(alloc: Global, fed: &FedBoard<'h>) -> Result<FedBoard<'h>, AllocError> {
    fed.shows();
    let plan = fed.feeds()[0].plan();
    let mut plans = Vec::new(alloc);
    plans.push(Arc::clone(plan)?)?;
    let Ok((feed, _)) = FeedEnd::begin(alloc, plan) else {
        return Err(AllocError);
    };
    let mut feeds = Vec::new(alloc);
    feeds.push(feed)?;
    match FedBoard::new(alloc, plans, feeds) {
        Ok(other) => Ok(other),
        Err(_) => Err(AllocError),
    }
}

/// How many groups each stream of a board has applied. An error is want of memory.
fn applied_by(alloc: Global, board: &Board<'_>) -> Result<Vec<u32>, AllocError>
    ensures { IfOk result (λ applied. applied.items ≡ applied_on board.now) }
{
    board.is_lawful();
    let mut applied = Vec::new(alloc);
    for s in 0..board.len() {
        let Ok(at) = board.state(s as u8) else {
            unreachable!()
        };
        applied.push(at.applied())?;
    }
    Ok(applied)
}

/// So many streams, of which none is stopped. An error is want of memory.
fn none_stopped(alloc: Global, count: usize) -> Result<Vec<Option<StepRefusal>>, AllocError>
    ensures count { IfOk result (λ stopped. length stopped.items ≡ count) }
    ensures none { IfOk result (λ stopped. AllByRecursion (λ stop. stop ≡ None) stopped.items) }
{
    let mut stopped = Vec::with_capacity(alloc, count)?;
    for _s in 0..count {
        stopped.push(None)?;
    }
    Ok(stopped)
}

impl<'h> Room<'h> {
    /// Room for a round of this board. An error is want of memory.
    fn of(alloc: Global, fed: &FedBoard<'h>) -> Result<Room<'h>, AllocError>
        ensures count { IfOk result (λ room. length room.stopped.items ≡ length fed.now.feeds) }
        ensures none { IfOk result (λ room. AllByRecursion (λ stop. stop ≡ None) room.stopped.items) }
        ensures first { IfOk result (λ room. room.first.items ≡ applied_on fed.now.board) }
        ensures answers { IfOk result (λ room. (room.answers.items ≡ []) × (vec_len room.answers ≡ 0) × (length fed.now.feeds ≤ vec_capacity room.answers)) }
    {
        let count = fed.feeds().len();
        let other = other_board(alloc, fed)?;
        let stopped = none_stopped(alloc, count)?;
        let first = applied_by(alloc, fed.board())?;
        let answers = Vec::with_capacity(alloc, count)?;
        Ok(Room {
            other,
            stopped,
            first,
            answers,
        })
    }
}

/// A round of a board that is given away: it comes back with the answers. In threads first, where it is to be, and what is
/// left then in this one.
fn round_of<'h, J: Began + Send + Sync, R: Threads + Wait + Sync>(
    rt: &R,
    alloc: Global,
    threading: Threading,
    board: Board<'h>,
    feeds: &[Feed<'h>],
    most: u32,
    stopped: Vec<Option<StepRefusal>>,
    first: Vec<u32>,
    answers: Vec<Result<bool, StepRefusal>>,
) -> (Board<'h>, Vec<Result<bool, StepRefusal>>)
    requires board { board ≡ J.fed.board }
    requires feeds { feeds.now ≡ J.fed.feeds }
    requires most { most ≡ J.most }
    requires fed { IsFedBoard feeds.now board }
    requires count { length stopped.items ≡ length feeds.now }
    requires none { AllByRecursion (λ stop. stop ≡ None) stopped.items }
    requires first { first.items ≡ applied_on board }
    requires room { (answers.items ≡ []) × (vec_len answers ≡ 0) × (length feeds.now ≤ vec_capacity answers) }
    ensures moved { HasMoved feeds.now board.entry result.0 }
    ensures answers { AreAnswers most feeds.now board.entry result.1.items result.0 }
    ensures up_to { ApplyUpTo most board.entry result.0 }
    ensures fed { IsFedBoard feeds.now result.0 }
{
    fed_boards_show_all();
    let going: Mutex<Going<'h, J>> = Mutex::new(Going::new(board, stopped, first));
    work_all(rt, alloc, threading, &going, &*feeds, most);
    let mut going = going.into_inner();
    going.go_through_all(alloc, feeds, most);
    going.into_answers(feeds, answers)
}

/// A round of a board, for which there is room.
fn round_with<'h, R: Threads + Wait + Sync>(
    rt: &R,
    alloc: Global,
    threading: Threading,
    fed: &mut FedBoard<'h>,
    most: u32,
    room: Room<'h>,
) -> Vec<Result<bool, StepRefusal>>
    requires count { length room.stopped.items ≡ length fed.old.feeds }
    requires none { AllByRecursion (λ stop. stop ≡ None) room.stopped.items }
    requires first { room.first.items ≡ applied_on fed.old.board }
    requires answers { (room.answers.items ≡ []) × (vec_len room.answers ≡ 0) × (length fed.old.feeds ≤ vec_capacity room.answers) }
    ensures moved { HasMoved fed.old.feeds fed.old.board fed.new.board }
    ensures answers { AreAnswers most fed.old.feeds fed.old.board result.items fed.new.board }
    ensures up_to { ApplyUpTo most fed.old.board fed.new.board }
    ensures feeds { fed.new.feeds ≡ fed.old.feeds }
{
    let Room {
        mut other,
        stopped,
        first,
        answers,
    } = room;
    swap(fed, &mut other);
    let (board, feeds) = other.into_parts();
    let (board, answers) = round_of::<Brand, R>(
        rt, alloc, threading, board, &feeds, most, stopped, first, answers,
    );
    let _ = replace(fed, FedBoard::from_parts(board, feeds));
    answers
}

/// A round of a board with its feeds: each stream reads and applies groups of its feed, up to `most` of them, in a thread
/// beside others, or one stream after another. There are as many threads as processors at most, and each takes one stream
/// after another. A stream that is refused stops alone: the others go on, and at the next round it tries again.
///
/// The answer is of each stream whether it has come to its feed's end, or why it was refused. An error is want of memory
/// before anything ran: then the board stands as it was. Where memory is wanted for the threads alone, the streams go on
/// one after another.
pub fn run_round<'h, R: Threads + Wait + Sync>(
    rt: &R,
    alloc: Global,
    threading: Threading,
    fed: &mut FedBoard<'h>,
    most: u32,
) -> Result<Vec<Result<bool, StepRefusal>>, AllocError>
    // It is a list of steps that read groups and apply them.
    ensures moved { HasMoved fed.old.feeds fed.old.board fed.new.board }
    ensures kept { OnErr result (fed.new.board ≡ fed.old.board) }
    // Each stream has applied all groups of its feed, or so many more, or was stopped by this refusal.
    ensures answers { IfOk result (λ answers. AreAnswers most fed.old.feeds fed.old.board answers.items fed.new.board) }
    // None has applied more.
    ensures up_to { ApplyUpTo most fed.old.board fed.new.board }
    // Who had copied all tables before, and answers so, has come to its feed's end.
    ensures ended { AreRunning fed.old.board → IfOk result (λ answers. HaveEndedAs answers.items fed.new.feeds fed.new.board) }
    ensures feeds { fed.new.feeds ≡ fed.old.feeds }
    ensures shows { ShowAll fed.new.feeds fed.new.board }
{
    fed_boards_show_all();
    fed.is_fed();
    let room = Room::of(alloc, fed)?;
    let answers = round_with(rt, alloc, threading, fed, most, room);
    fed.is_fed();
    Ok(answers)
}
