//! A board on its round.

ghost use Rattle.std.specs.Prelude.{◌≡◌, ◌+◌, ◌<◌, ◌≤◌, ◌^◌, [], false, None, Some, Ok, IfOk, IfSome, IsTrue, length, slice_get, slice_set, vec_len};
ghost use Rattle.std.specs.Arc.{arc_value};
ghost use Rattle.std.specs.List.{AllByRecursion};
ghost use Rattle.std.specs.Option.{option_map};
ghost use Rattle.std.specs.Vec.{vec_capacity};
ghost use Rattle.stream_core.specs.declared.step.Step as steps;
ghost use Rattle.source_feed.specs.Touches.{prepared_at};
ghost use Rattle.board_laws.specs.Event.{advance};
ghost use Rattle.board_laws.specs.FedBoards.{IsFedBoard};
ghost use Rattle.apply_core.specs.Putting.{DoAsStep};
ghost use Rattle.change_laws.specs.Since.{GoesOnBy};
ghost use Rattle.worker_rounds.specs.Rounds.{HasAppliedAll, OfStream};
ghost use Rattle.worker_rounds.specs.Private.OnRound.{AnswersBy, AppliesNone, AppliesOne, AreAnswersBy, AreAsideOf, AreThrough, IsOnRound, IsReady, IsStepOn, IsStopAt, IsStoppedIn, IsThrough, MayApply, MayTakeIn, Runs, applied_on};

use crate::began::Began;
use crate::ready::Ready;
use apply_core::{Board, Puts, StepRefusal};
use board_laws::steps_keep_boards_lawful;
use pk_copy::{CopyState, Key};
use row_view::RowBuf;
use source_feed::{Feed, Prepared};
use std::alloc::{AllocError, Global};
use std::marker::{Model, PhantomData};
use std::mem::replace;
use std::sync::Arc;
use stream_core::Step;
use target_tables::Freed;

/// A board on its round, with what stopped each of its streams, if anything did, and how many groups each had applied at
/// first. It is what the threads share: whoever has it has a board that has moved from the one that the round began with.
#[derive(Drop)]
pub(crate) struct Going<'h, J: Began> {
    board: Board<'h>,
    stopped: Vec<Option<StepRefusal>>,
    first: Vec<u32>,
    of: PhantomData<J>,
}

impl<'h, J: Began> Model for Going<'h, J> {
    ghost use Rattle.worker_rounds.specs.Private.OnRound.{Gone, IsOnRound};

    ghost Value = { Gone };

    ghost view = { λ g. record { board = g.board; stopped = g.stopped.items; first = g.first.items } };

    ghost invariant = { λ g. IsOnRound J.fed J.most (record { board = g.board; stopped = g.stopped.items; first = g.first.items }) };
}

/// Stream `s` is stopped.
fn put_stop(stopped: &mut Vec<Option<StepRefusal>>, s: u8, refusal: StepRefusal)
    requires { s < length stopped.old.items }
    ensures { stopped.new.items ≡ slice_set stopped.old.items s (Some refusal) }
{
    let place = &mut stopped[s as usize];
    let _ = replace(place, Some(refusal));
}

/// Whether nothing stopped stream `s`.
fn is_running(stopped: &[Option<StepRefusal>], s: u8) -> bool
    requires { s < length stopped.now }
    ensures yes { IsTrue result → slice_get stopped.now s ≡ Some None }
    ensures no { result ≡ false → IsStopAt stopped.now s }
{
    stopped[s as usize].is_none()
}

/// How many groups stream `s` had applied at first.
fn first_of(first: &[u32], s: u8) -> u32
    requires { s < length first.now }
    ensures { slice_get first.now s ≡ Some result }
{
    first[s as usize]
}

/// Whether a stream that has applied so many groups has applied fewer than `most` behind the first ones.
fn is_short(applied: u32, first: u32, most: u32) -> bool
    ensures yes { IsTrue result → applied < first + most }
    ensures no { result ≡ false → first + most ≤ applied }
{
    u64::from(applied) < u64::from(first) + u64::from(most)
}

/// How many groups a feed has: fewer than 2^31.
fn count_of(feed: &Feed<'_>) -> u32
    ensures { result ≡ length feed.now.groups }
{
    // (for the contract: how many there are at most)
    feed.plan();
    feed.len() as u32
}

/// Whether stream `s` has applied all groups of its feed.
fn has_applied_all(board: &Board<'_>, feed: &Feed<'_>, s: u8) -> bool
    requires { s < length board.now.streams }
    ensures yes { IsTrue result → IfSome (slice_get board.now.streams s) (HasAppliedAll feed.now) }
    ensures no { result ≡ false → IfSome (slice_get board.now.streams s) (λ state. ¬ HasAppliedAll feed.now state) }
{
    let Ok(at) = board.state(s) else {
        unreachable!()
    };
    let groups = count_of(feed);
    at.read() == groups && at.applied() == groups
}

/// What is answered of stream `s`.
fn answer_of(
    board: &Board<'_>,
    feed: &Feed<'_>,
    s: u8,
    stopped: Option<StepRefusal>,
) -> Result<bool, StepRefusal>
    requires { s < length board.now.streams }
    ensures { IfSome (slice_get board.now.streams s) (λ state. AnswersBy feed.now state stopped result) }
{
    match stopped {
        Some(refusal) => Err(refusal),
        None => Ok(has_applied_all(board, feed, s)),
    }
}

/// What is answered of each stream, in a vector with room for that.
fn answers_of(
    board: &Board<'_>,
    feeds: &[Feed<'_>],
    stopped: Vec<Option<StepRefusal>>,
    mut answers: Vec<Result<bool, StepRefusal>>,
) -> Vec<Result<bool, StepRefusal>>
    requires streams { length board.now.streams ≡ length feeds.now }
    requires count { length stopped.items ≡ length feeds.now }
    requires few { length feeds.now ≤ 64 }
    requires room { (answers.items ≡ []) × (vec_len answers ≡ 0) × (length feeds.now ≤ vec_capacity answers) }
    ensures { AreAnswersBy feeds.now board.now stopped.items result.items }
{
    let mut s = 0;
    for stop in stopped {
        answers.push_reserved(answer_of(board, &feeds[s as usize], s, stop));
        s += 1;
    }
    answers
}

impl<'h, J: Began> Going<'h, J> {
    /// The board that a round begins with.
    pub(crate) fn new(
        board: Board<'h>,
        stopped: Vec<Option<StepRefusal>>,
        first: Vec<u32>,
    ) -> Going<'h, J>
        requires board { board ≡ J.fed.board }
        requires fed { IsFedBoard J.fed.feeds J.fed.board }
        requires stopped { AllByRecursion (λ stop. stop ≡ None) stopped.items }
        requires count { length stopped.items ≡ length J.fed.feeds }
        requires first { first.items ≡ applied_on board }
    {
        Going {
            board,
            stopped,
            first,
            of: PhantomData,
        }
    }

    /// It is on its round: a fact for contracts. Takes no memory.
    fn is_on_round(&self)
        ensures { IsOnRound J.fed J.most self.now }
    {
        let _ = &self.board;
    }

    /// A step by which stream `s` goes on: whether it was made. A refusal stops the stream.
    fn step(&mut self, alloc: Global, feeds: &[Feed<'h>], s: u8, step: Step) -> bool
        requires feeds { feeds.now ≡ J.fed.feeds }
        requires onwards { GoesOnBy step }
        requires runs { Runs self.old s }
        requires room { step ≡ steps.Step.Advance → MayApply J.most J.fed.board self.old.board s }
        ensures step { IsStepOn J.fed.feeds s step result self.old self.new }
        ensures round { IsOnRound J.fed J.most self.new }
    {
        match self.board.take_step(alloc, feeds, s, step) {
            Ok(_) => true,
            Err(refusal) => {
                put_stop(&mut self.stopped, s, refusal);
                false
            }
        }
    }

    /// A group of its feed is offered to stream `s`: whether it was read. A refusal stops the stream.
    fn offer(&mut self, s: u8, group: Arc<Prepared<'h>>) -> bool
        requires group { IfSome (slice_get J.fed.feeds s) (λ feed. prepared_at feed (arc_value group).number ≡ Ok (arc_value group)) }
        requires runs { Runs self.old s }
        ensures step { IsStepOn J.fed.feeds s (steps.Step.Offer (arc_value group.entry).number) result self.old self.new }
        ensures round { IsOnRound J.fed J.most self.new }
    {
        match self.board.offer_own(s, group) {
            Ok(_) => true,
            Err(refusal) => {
                put_stop(&mut self.stopped, s, StepRefusal::Refused(refusal));
                false
            }
        }
    }

    /// The next group of stream `s` is applied by puts that were built before: whether it was. What they replaced is
    /// handed on, to be dropped once the board is given back. A refusal stops the stream.
    fn advance(
        &mut self,
        alloc: Global,
        s: u8,
        puts: Puts,
        freed: &mut Vec<Freed<Key, RowBuf>>,
    ) -> bool
        requires puts { IfSome (slice_get self.old.board.streams s) (λ state. DoAsStep state advance puts.changes.items) }
        requires runs { Runs self.old s }
        requires room { MayApply J.most J.fed.board self.old.board s }
        ensures step { IsStepOn J.fed.feeds s steps.Step.Advance result self.old self.new }
    {
        match self.board.advance_by(alloc, s, puts) {
            Ok((_, replaced)) => {
                let _ = freed.push(replaced);
                true
            }
            Err(refusal) => {
                put_stop(&mut self.stopped, s, StepRefusal::Refused(refusal));
                false
            }
        }
    }

    /// Whether stream `s` isn't stopped.
    fn runs(&self, s: u8) -> bool
        requires { s < length J.fed.feeds }
        ensures yes { IsTrue result → Runs self.now s }
        ensures no { result ≡ false → IsStoppedIn self.now s }
    {
        is_running(&self.stopped, s)
    }

    /// Whether stream `s` has applied fewer than so many groups more.
    fn may_apply(&self, s: u8, most: u32) -> bool
        requires most { most ≡ J.most }
        requires there { s < length J.fed.feeds }
        ensures yes { IsTrue result → MayApply J.most J.fed.board self.now.board s }
        ensures no { result ≡ false → OfStream (λ feed before after. after.applied ≡ before.applied + J.most) J.fed.feeds J.fed.board self.now.board s }
    {
        let Ok(at) = self.board.state(s) else {
            unreachable!()
        };
        is_short(at.applied(), first_of(&self.first, s), most)
    }

    /// Whether stream `s` has applied all groups of its feed.
    fn has_all(&self, feeds: &[Feed<'h>], s: u8) -> bool
        requires feeds { feeds.now ≡ J.fed.feeds }
        requires there { s < length feeds.now }
        ensures { IsTrue result → OfStream (λ feed before after. HasAppliedAll feed after) J.fed.feeds J.fed.board self.now.board s }
    {
        has_applied_all(&self.board, &feeds[s as usize], s)
    }

    /// The number of the last group that stream `s` has read, and that of the last one that it has applied.
    fn numbers(&self, s: u8) -> (u32, u32)
        requires { s < length J.fed.feeds }
        ensures read { IfSome (slice_get self.now.board.streams s) (λ state. result.0 ≡ length state.list) }
        ensures applied { IfSome (slice_get self.now.board.streams s) (λ state. result.1 ≡ state.applied) }
        ensures short { result.0 < 2 ^ 31 }
    {
        steps_keep_boards_lawful();
        self.board.is_lawful();
        let Ok(at) = self.board.state(s) else {
            unreachable!()
        };
        (at.read(), at.applied())
    }

    /// A group stands read that stream `s` applies next: whether one does. Where none did, the next one of its feed is
    /// offered. A refusal stops the stream.
    fn read_next(&mut self, alloc: Global, feeds: &[Feed<'h>], s: u8) -> bool
        requires feeds { feeds.now ≡ J.fed.feeds }
        requires there { s < length feeds.now }
        requires runs { Runs self.old s }
        ensures runs { IsTrue result → Runs self.new s }
        ensures stopped { result ≡ false → IsStoppedIn self.new s }
        ensures applied { AppliesNone s self.old.board self.new.board }
        ensures aside { AreAsideOf s self.old self.new }
        ensures round { IsOnRound J.fed J.most self.new }
    {
        self.is_on_round();
        let (read, applied) = self.numbers(s);
        if applied != read {
            return true;
        }
        self.step(alloc, feeds, s, Step::Offer(read + 1))
    }

    /// Stream `s` applies its next group, and reads it where it isn't read: whether it did.
    fn go_on(&mut self, alloc: Global, feeds: &[Feed<'h>], s: u8, most: u32) -> bool
        requires feeds { feeds.now ≡ J.fed.feeds }
        requires most { most ≡ J.most }
        requires there { s < length feeds.now }
        ensures went { IsTrue result → AppliesOne s self.old.board self.new.board }
        ensures through { result ≡ false → IsThrough J.fed J.most self.new s }
        ensures aside { AreAsideOf s self.old self.new }
        ensures round { IsOnRound J.fed J.most self.new }
    {
        self.is_on_round();
        if !self.runs(s) {
            return false;
        }
        if !self.may_apply(s, most) {
            return false;
        }
        if self.has_all(feeds, s) {
            return false;
        }
        if !self.read_next(alloc, feeds, s) {
            return false;
        }
        self.step(alloc, feeds, s, Step::Advance)
    }

    /// The number of the group that stream `s` may read and apply next, where it isn't stopped and has applied all that it
    /// read.
    fn next_to_take(&self, s: u8, most: u32) -> Option<u32>
        requires most { most ≡ J.most }
        requires there { s < length J.fed.feeds }
        ensures { IfSome result (MayTakeIn J.fed J.most self.now s) }
    {
        self.is_on_round();
        let (read, applied) = self.numbers(s);
        if applied != read {
            return None;
        }
        if !self.runs(s) {
            return None;
        }
        if !self.may_apply(s, most) {
            return None;
        }
        Some(read + 1)
    }

    /// A group that stands ready is read by stream `s` and applied, where it is the next one: whether it was.
    fn take_in(
        &mut self,
        alloc: Global,
        s: u8,
        most: u32,
        ready: Ready<'h>,
        freed: &mut Vec<Freed<Key, RowBuf>>,
    ) -> bool
        requires most { most ≡ J.most }
        requires there { s < length J.fed.feeds }
        requires ready { IsReady J.fed s ready }
    {
        self.is_on_round();
        let Ready { group, puts } = ready;
        let Some(next) = self.next_to_take(s, most) else {
            return false;
        };
        if next != group.number() {
            return false;
        }
        if !self.offer(s, group) {
            return false;
        }
        self.advance(alloc, s, puts, freed)
    }

    /// The groups that stand ready are read by stream `s` and applied, up to the first that it can't take in: whether it took
    /// one in.
    fn take_in_all(
        &mut self,
        alloc: Global,
        s: u8,
        most: u32,
        readies: Vec<Ready<'h>>,
        freed: &mut Vec<Freed<Key, RowBuf>>,
    ) -> bool
        requires most { most ≡ J.most }
        requires there { s < length J.fed.feeds }
        requires readies { AllByRecursion (IsReady J.fed s) readies.items }
    {
        let mut taken = false;
        for ready in readies {
            if !self.take_in(alloc, s, most, ready, freed) {
                return taken;
            }
            taken = true;
        }
        taken
    }

    /// A turn of stream `s`: it takes in the groups that stand ready, or goes on without them where it can't take in the
    /// first. The answer is the number of the group that it may apply next, or none where it has gone as far as it can.
    pub(crate) fn turn(
        &mut self,
        alloc: Global,
        feeds: &[Feed<'h>],
        s: u8,
        most: u32,
        readies: Vec<Ready<'h>>,
        freed: &mut Vec<Freed<Key, RowBuf>>,
    ) -> Option<u32>
        requires feeds { feeds.now ≡ J.fed.feeds }
        requires most { most ≡ J.most }
        requires there { s < length feeds.now }
        requires readies { AllByRecursion (IsReady J.fed s) readies.items }
    {
        if !self.take_in_all(alloc, s, most, readies, freed) {
            if !self.go_on(alloc, feeds, s, most) {
                return None;
            }
        }
        if !self.runs(s) {
            return None;
        }
        let (_, applied) = self.numbers(s);
        applied.checked_add(1)
    }

    /// What a stream's thread begins with: how many groups are applied, and how far its tables are copied, in memory of its
    /// own. An error is want of memory.
    pub(crate) fn begin(&self, alloc: Global, s: u8) -> Result<(u32, CopyState), AllocError>
        requires { s < length J.fed.feeds }
        ensures { IfOk result (λ begun. option_map (λ state. state.marks) (slice_get J.fed.board.streams s) ≡ Some begun.1) }
    {
        let Ok(at) = self.board.state(s) else {
            unreachable!()
        };
        let Ok(marks) = self.board.marks(s) else {
            unreachable!()
        };
        let marks = marks.try_clone(alloc)?;
        Ok((at.applied(), marks))
    }

    /// Stream `s` goes as far as it can: to its feed's end, by so many groups, or to where it is stopped.
    fn go_through(&mut self, alloc: Global, feeds: &[Feed<'h>], s: u8, most: u32)
        requires feeds { feeds.now ≡ J.fed.feeds }
        requires most { most ≡ J.most }
        requires there { s < length feeds.now }
        ensures through { IsThrough J.fed J.most self.new s }
        ensures aside { AreAsideOf s self.old self.new }
    {
        self.is_on_round();
        for _done in 0..most {
            if !self.go_on(alloc, feeds, s, most) {
                return;
            }
        }
    }

    /// All streams go as far as they can, one after another.
    pub(crate) fn go_through_all(&mut self, alloc: Global, feeds: &[Feed<'h>], most: u32)
        requires feeds { feeds.now ≡ J.fed.feeds }
        requires most { most ≡ J.most }
        ensures { AreThrough J.fed J.most self.new (length J.fed.feeds) }
    {
        self.is_on_round();
        for s in 0..feeds.len() {
            self.go_through(alloc, feeds, s as u8, most);
        }
    }

    /// The board, and of each stream what is answered, in a vector with room for that.
    pub(crate) fn into_answers(
        self,
        feeds: &[Feed<'h>],
        answers: Vec<Result<bool, StepRefusal>>,
    ) -> (Board<'h>, Vec<Result<bool, StepRefusal>>)
        requires feeds { feeds.now ≡ J.fed.feeds }
        requires room { (answers.items ≡ []) × (vec_len answers ≡ 0) × (length feeds.now ≤ vec_capacity answers) }
        ensures board { result.0 ≡ self.entry.board }
        ensures answers { AreAnswersBy J.fed.feeds self.entry.board self.entry.stopped result.1.items }
        ensures round { IsOnRound J.fed J.most self.entry }
    {
        self.is_on_round();
        let Going { board, stopped, .. } = self;
        let answers = answers_of(&board, feeds, stopped, answers);
        (board, answers)
    }
}
