//! All streams run to their feeds' ends, one after another.

ghost use Rattle.std.specs.Prelude.{◌≡◌, ℕ, ◌<◌, ◌≤◌, IsTrue, false, length, map, slice_get, None, Some, IfOk, IfErr, OnOk};
ghost use Rattle.std.specs.Arc.{arc_value};
ghost use Rattle.apply_core.specs.Feeds.{AreFed};
ghost use Rattle.apply_core.specs.Shown.{all_rows};
ghost use Rattle.apply_core.specs.Ended.{StreamHasEnded, OthersStay, IsNamedStream, HaveEnded, IsFedBoard, AllHaveEnded, AreAsBefore, IsRowsUnion};
ghost use Rattle.apply_core.specs.RunRefused.{EndsRun, StopsWanting, IsRefusedRun, IsLowest, IsOfStream, refused_stream};
ghost use Rattle.apply_core.specs.LowerEnded.{LowerCanEnd, LowerHaveEnded};
ghost use Rattle.apply_core.specs.Courses.{left_on};
ghost use Rattle.apply_core.specs.Private.AllowedSteps.{EndsStream, ended_as};

use crate::board::Board;
use crate::course::Course;
use crate::policy::Policy;
use crate::run_laws::ended_boards_have_the_union;
use crate::run_refusal::RunRefusal;
use crate::schedule::fed_board;
use board_laws::{Refusal, StepRefusal};
use filter_rule::Plan;
use pk_copy::keys_tie_where_they_are_equal;
use source_feed::Feed;
use std::alloc::Global;
use std::sync::Arc;

/// The refusal of a step on stream `s` of its course, as that of a run.
fn ended_by(feeds: &[Feed<'_>], s: u8, refusal: StepRefusal) -> RunRefusal
    requires { EndsStream feeds.now s refusal }
    ensures is { ended_as s refusal ≡ Some result }
    ensures ends { EndsRun feeds.now result }
    ensures of { IsOfStream s result }
{
    let _ = feeds;
    match refusal {
        StepRefusal::Unprepared(fault) => RunRefusal::Unsound { stream: s, fault },
        StepRefusal::Refused(Refusal::OwnedByOther { key, owner }) => RunRefusal::OwnedByOther {
            stream: s,
            key,
            owner,
        },
        StepRefusal::Refused(Refusal::Memory) => RunRefusal::Memory,
        StepRefusal::Refused(_) => unreachable!(),
    }
}

/// The next step of stream `s` on its course is taken: whether there was one.
fn go_on<'h>(
    alloc: Global,
    board: &mut Board<'h>,
    feeds: &[Feed<'h>],
    s: u8,
    policy: &Policy,
    course: &mut Course,
) -> Result<bool, RunRefusal>
    requires fed { IsFedBoard feeds.now board.old }
    requires there { s < length feeds.now }
    ensures fed { IsFedBoard feeds.now board.new }
    ensures others { OthersStay s board.old board.new }
    ensures nearer { IfOk result (λ went. IsTrue went → left_on feeds.now board.new s course.new.to_copy < left_on feeds.now board.old s course.old.to_copy) }
    ensures ended { IfOk result (λ went. went ≡ false → StreamHasEnded feeds.now s board.new) }
    ensures refused { IfErr result (EndsRun feeds.now) }
    ensures memory { IfErr result (StopsWanting feeds.now board.new) }
    ensures of { IfErr result (IsOfStream s) }
{
    keys_tie_where_they_are_equal();
    let groups = feeds[s as usize].len() as u32;
    let Ok(at) = board.state(s) else {
        unreachable!()
    };
    let Some(step) = course.next(policy, &at, groups) else {
        return Ok(false);
    };
    match board.take_fed(alloc, feeds, s, step) {
        Ok(_) => Ok(true),
        Err(refusal) => Err(ended_by(feeds, s, refusal)),
    }
}

/// Stream `s` runs to its feed's end.
fn run_stream<'h>(
    alloc: Global,
    board: &mut Board<'h>,
    feeds: &[Feed<'h>],
    s: u8,
    policy: &Policy,
) -> Result<(), RunRefusal>
    requires fed { IsFedBoard feeds.now board.old }
    requires there { s < length feeds.now }
    ensures fed { IsFedBoard feeds.now board.new }
    ensures others { OthersStay s board.old board.new }
    ensures ended { OnOk result (StreamHasEnded feeds.now s board.new) }
    ensures refused { IfErr result (EndsRun feeds.now) }
    ensures memory { IfErr result (StopsWanting feeds.now board.new) }
    ensures of { IfErr result (IsOfStream s) }
{
    let mut course = Course::new(policy);
    while go_on(alloc, board, feeds, s, policy, &mut course)? {}
    Ok(())
}

/// All streams run to their feeds' ends, stream after stream. A refusal leaves what was done until then.
pub(crate) fn run_all<'h>(
    alloc: Global,
    board: &mut Board<'h>,
    feeds: &[Feed<'h>],
    policy: &Policy,
) -> Result<(), RunRefusal>
    requires { IsFedBoard feeds.now board.old }
    ensures fed { IsFedBoard feeds.now board.new }
    ensures ended { OnOk result (AllHaveEnded feeds.now board.new) }
    ensures refused { IfErr result (EndsRun feeds.now) }
    ensures memory { IfErr result (StopsWanting feeds.now board.new) }
    ensures lowest { IfErr result (IsLowest feeds.now) }
    ensures lower { IfErr result (LowerHaveEnded feeds.now board.new) }
{
    for s in 0..feeds.len() {
        match run_stream(alloc, board, feeds, s as u8, policy) {
            Ok(()) => {}
            Err(refusal) => return Err(refusal),
        }
    }
    Ok(())
}

/// A board over 1 to 64 plans and their feeds, of which nothing is read, to be run to the feeds' ends. Refused 119 and
/// 111 as `run_alone`; any other error is want of memory.
pub fn board_to_run<'h>(
    alloc: Global,
    plans: Vec<Arc<Plan>>,
    feeds: &[Feed<'h>],
) -> Result<Board<'h>, RunRefusal>
    requires some { 1 ≤ length plans.items }
    requires few { length plans.items ≤ 64 }
    ensures fed { IfOk result (λ board. AreFed (map arc_value plans.items) feeds.now × IsFedBoard feeds.now board) }
    ensures refused { IfErr result (IsRefusedRun (map arc_value plans.items) feeds.now) }
    ensures of_none { IfErr result (λ refusal. refused_stream refusal ≡ None) }
{
    match fed_board(alloc, plans, feeds) {
        Ok(board) => {
            board.is_lawful();
            Ok(board)
        },
        Err(Refusal::FeedCount) => Err(RunRefusal::FeedCount),
        Err(Refusal::WrongPlan) => Err(RunRefusal::WrongPlan),
        Err(Refusal::Memory) => Err(RunRefusal::Memory),
        Err(_) => unreachable!(),
    }
}

/// Runs all streams, stream after stream, from a board of 1 to 64 plans of which nothing is read, each to its
/// feed's end, in the portions of the policy. The feeds stand in the order of the plans. The answer is the
/// board behind them: all streams are Running, and the target's rows are the union of those that the feeds
/// keep, whatever the policy.
///
/// Refused 119 where there aren't as many feeds as plans, else 111 where two plans differ in their tables or a
/// feed wasn't opened under its plan. The first refusal of a stream ends the run: 90, where a group of its feed
/// isn't sound, by the first such group; 71, by a key that the stream's feed touches and so does that of the
/// owner, another stream. Any other error is want of memory.
pub fn run_alone<'h>(
    alloc: Global,
    plans: Vec<Arc<Plan>>,
    feeds: &[Feed<'h>],
    policy: &Policy,
) -> Result<Board<'h>, RunRefusal>
    requires some { 1 ≤ length plans.items }
    requires few { length plans.items ≤ 64 }
    ensures fed { IfOk result (λ _. AreFed (map arc_value plans.items) feeds.now) }
    // The board is lawful, with a stream for each feed, which reads that feed.
    ensures board { IfOk result (IsFedBoard feeds.now) }
    // Each stream is Running, and all groups of its feed are read and applied.
    ensures ended { IfOk result (AllHaveEnded feeds.now) }
    // The target has just the rows that the feeds keep.
    ensures rows { IfOk result (λ board. IsRowsUnion feeds.now (all_rows board.rows)) }
    ensures refused { IfErr result (IsRefusedRun (map arc_value plans.items) feeds.now) }
    // All groups of every lower stream's feed are sound.
    ensures lowest { IfErr result (IsLowest feeds.now) }
    // There is a board on which every lower stream has come to its feed's end: the one that the run leaves.
    ensures lower { IfErr result (LowerCanEnd feeds.now) }
{
    ended_boards_have_the_union();
    let mut board = board_to_run(alloc, plans, feeds)?;
    run_all(alloc, &mut board, feeds, policy)?;
    Ok(board)
}

/// The stream at a place of a list.
fn stream_at(streams: &[u8], i: usize) -> u8
    requires { i < length streams.now }
    ensures { slice_get streams.now i ≡ Some result }
{
    streams[i]
}

/// These streams run to their feeds' ends, one after another. A refusal leaves what was done until then.
pub(crate) fn run_named<'h>(
    alloc: Global,
    board: &mut Board<'h>,
    feeds: &[Feed<'h>],
    streams: &[u8],
    policy: &Policy,
) -> Result<(), RunRefusal>
    requires fed { IsFedBoard feeds.now board.old }
    requires there { (s : ℕ) → IsNamedStream streams.now s → s < length feeds.now }
    ensures fed { IsFedBoard feeds.now board.new }
    ensures ended { OnOk result (HaveEnded streams.now feeds.now board.new) }
    ensures others { OnOk result (AreAsBefore streams.now board.old board.new) }
    ensures refused { IfErr result (EndsRun feeds.now) }
    ensures memory { IfErr result (StopsWanting feeds.now board.new) }
{
    for i in 0..streams.len() {
        match run_stream(alloc, board, feeds, stream_at(streams, i), policy) {
            Ok(()) => {}
            Err(refusal) => return Err(refusal),
        }
    }
    Ok(())
}
