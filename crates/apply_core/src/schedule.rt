//! A list of steps on the streams of a fresh board.

ghost use Rattle.std.specs.Prelude.{◌≡◌, ◌↔◌, ◌≤◌, IsTrue, IfOk, IfErr, OnOk, OnErr, length, map};
ghost use Rattle.std.specs.Arc.{arc_value};
ghost use Rattle.source_feed.specs.Planned.{FeedValue};
ghost use Rattle.board_laws.specs.Agreement.{SameStepsSameBoard, LoneRunsShowAlike, DisjointRunsShowAlike};
ghost use Rattle.board_laws.specs.Lawful.{IsLawful};
ghost use Rattle.board_laws.specs.Reading.{AllReadTheirFeeds};
ghost use Rattle.board_laws.specs.RunLaws.{DisjointFeedsNeverClash};
ghost use Rattle.board_laws.specs.Schedule.{IsRun};
ghost use Rattle.board_laws.specs.Sources.{ShowAll};
ghost use Rattle.apply_core.specs.Ended.{IsFedBoard};
ghost use Rattle.apply_core.specs.Fresh.{fresh_board};
ghost use Rattle.apply_core.specs.Feeds.{AreWholeFeeds, AreFed, IsRefusedInput};
ghost use Rattle.apply_core.specs.OneRun.{AllAreIsolated, AllRunAlone, DoesntClash, IsDetermined, IsOfAnyOrder};
ghost use Rattle.apply_core.specs.Schedules.{AllAreTaken, AllFollow, RowsAreReplays};

use crate::board::Board;
use board_laws::{
    Answer, Refusal, StepRefusal, agreeing_runs_show_alike, fed_boards_show_all, rows_are_replayed,
    runs_are_determined, streams_are_isolated, streams_follow_their_own_steps,
    streams_read_their_feeds,
};
use filter_rule::Plan;
use source_feed::Feed;
use std::alloc::{AllocError, Global};
use std::sync::Arc;
use stream_core::Step;

/// Whether each feed was opened under the plan of its number. Takes no memory.
pub(crate) fn are_opened_under(feeds: &[Feed<'_>], plans: &[Arc<Plan>]) -> bool
    requires { length feeds.now ≡ length plans.now }
    ensures opened { IsTrue result ↔ (map (λ (feed : FeedValue). feed.plan) feeds.now ≡ map arc_value plans.now) }
    ensures whole { IsTrue result → AreWholeFeeds feeds.now }
{
    for i in 0..feeds.len() {
        if !feeds[i].plan().same(&plans[i]) {
            return false;
        }
    }
    true
}

/// A board of 1 to 64 plans with their feeds, of which nothing is read. The feeds stand in the order of the
/// plans; `Board::take_steps` takes steps on it.
///
/// Refused 119 where there aren't as many feeds as plans, else 111 where two plans differ in their tables
/// or a feed wasn't opened under its plan. Any other error is want of memory.
pub fn fed_board<'h>(
    alloc: Global,
    plans: Vec<Arc<Plan>>,
    feeds: &[Feed<'h>],
) -> Result<Board<'h>, Refusal>
    requires some { 1 ≤ length plans.items }
    requires few { length plans.items ≤ 64 }
    ensures fresh { IfOk result (λ board. board ≡ fresh_board (map arc_value plans.items)) }
    ensures fed { IfOk result (λ _. AreFed (map arc_value plans.items) feeds.now) }
    // Each stream reads its feed: nothing is a beginning of it.
    ensures reads { IfOk result (AllReadTheirFeeds feeds.now) }
    ensures refused { IfErr result (IsRefusedInput (map arc_value plans.items) feeds.now) }
{
    if feeds.len() != plans.len() {
        return Err(Refusal::FeedCount);
    }
    if !are_opened_under(feeds, &plans) {
        return Err(Refusal::WrongPlan);
    }
    Board::new(alloc, plans)
}

/// The steps are taken one after another; a refusal doesn't end them. Room for all replies is taken before
/// the first step: an error is want of memory for it, and nothing is done.
fn replies_to<'h>(
    alloc: Global,
    board: &mut Board<'h>,
    feeds: &[Feed<'h>],
    steps: &[(u8, Step)],
) -> Result<Vec<Result<Answer, StepRefusal>>, AllocError>
    ensures run { IfOk result (λ replies. IsRun feeds.now board.old steps.now replies.items board.new) }
    ensures kept { OnErr result (board.new ≡ board.old) }
{
    let mut replies = Vec::with_capacity(alloc, steps.len())?;
    for (s, step) in steps {
        replies.push_reserved(board.take_step(alloc, feeds, *s, *step));
    }
    Ok(replies)
}

/// The same on a board whose streams read these feeds: no plans are compared.
pub(crate) fn fed_replies<'h>(
    alloc: Global,
    board: &mut Board<'h>,
    feeds: &[Feed<'h>],
    steps: &[(u8, Step)],
) -> Result<Vec<Result<Answer, StepRefusal>>, AllocError>
    requires { IsFedBoard feeds.now board.old }
    ensures run { IfOk result (λ replies. IsRun feeds.now board.old steps.now replies.items board.new) }
    ensures kept { OnErr result (board.new ≡ board.old) }
    ensures fed { IsFedBoard feeds.now board.new }
{
    let mut replies = Vec::with_capacity(alloc, steps.len())?;
    for (s, step) in steps {
        replies.push_reserved(board.take_fed(alloc, feeds, *s, *step));
    }
    Ok(replies)
}

impl<'h> Board<'h> {
    /// Takes a list of steps, each on a stream of the board, in order; the feeds stand in the order of the
    /// streams. The answer is for each step what it answered or why it was refused; after a refusal the list
    /// goes on.
    ///
    /// Room for all replies is taken before the first step. An error is want of memory for it, and the board is
    /// as it was.
    pub fn take_steps(
        &mut self,
        alloc: Global,
        feeds: &[Feed<'h>],
        steps: &[(u8, Step)],
    ) -> Result<Vec<Result<Answer, StepRefusal>>, AllocError>
        // Each reply and what it leaves is the step's, one after another.
        ensures run { IfOk result (λ replies. IsRun feeds.now self.old steps.now replies.items self.new) }
        ensures kept { OnErr result (self.new ≡ self.old) }
        // Each stream's state is that of its own steps alone.
        ensures own { IfOk result (λ replies. AllFollow feeds.now steps.now replies.items self.old self.new) }
        // Streams that read their feeds still do.
        ensures reads { OnOk result (AllReadTheirFeeds feeds.now self.old → AllReadTheirFeeds feeds.now self.new) }
        // A board with its feeds shows all their sources.
        ensures shows { OnOk result (IsFedBoard feeds.now self.old → ShowAll feeds.now self.new) }
        // Laws of lists of steps: in which each stream took the same steps they end in the same board; a
        // stream doesn't notice the others; over feeds that share no key no step is refused 71, and a stream
        // is shown alike in two runs.
        ensures same { SameStepsSameBoard }
        ensures lone { LoneRunsShowAlike }
        ensures never { DisjointFeedsNeverClash }
        ensures alike { DisjointRunsShowAlike }
    {
        streams_follow_their_own_steps();
        streams_read_their_feeds();
        fed_boards_show_all();
        agreeing_runs_show_alike();
        replies_to(alloc, self, feeds, steps)
    }
}

/// Takes a list of steps, each on a stream of the board, in order, from a board of 1 to 64 plans of which
/// nothing is read: `Board::new` and `Board::take_steps`. The feeds stand in the order of the plans. The
/// answer is the board behind the steps and for each step what it answered or why it was refused; after a
/// refusal the list goes on.
///
/// Refused 119 where there aren't as many feeds as plans, else 111 where two plans differ in their tables
/// or a feed wasn't opened under its plan. Any other error is want of memory.
pub fn run_schedule<'h>(
    alloc: Global,
    plans: Vec<Arc<Plan>>,
    feeds: &[Feed<'h>],
    steps: &[(u8, Step)],
) -> Result<(Board<'h>, Vec<Result<Answer, StepRefusal>>), Refusal>
    requires some { 1 ≤ length plans.items }
    requires few { length plans.items ≤ 64 }
    // The headline: a row stands for a stream at a key exactly where the groups of its feed up to its recorded
    // position leave it there, it passes the filter, and its key is copied. So it is for each feed, and there are no
    // other rows.
    ensures shows { IfOk result (λ ran. ShowAll feeds.now ran.0) }
    // Each reply and what it leaves is the step's, one after another.
    ensures run { IfOk result (λ ran. IsRun feeds.now (fresh_board (map arc_value plans.items)) steps.now ran.1.items ran.0) }
    ensures lawful { IfOk result (λ ran. IsLawful ran.0) }
    // Each row of the target is a replay's.
    ensures rows { IfOk result (λ ran. RowsAreReplays ran.0) }
    // Each read list is a beginning of its feed's groups.
    ensures reads { IfOk result (λ ran. AllReadTheirFeeds feeds.now ran.0) }
    // Each stream's state is that of its own steps alone.
    ensures own { IfOk result (λ ran. AllAreTaken feeds.now steps.now ran.1.items ran.0) }
    ensures fed { IfOk result (λ _. AreFed (map arc_value plans.items) feeds.now) }
    ensures refused { IfErr result (IsRefusedInput (map arc_value plans.items) feeds.now) }
    // Want of memory aside, any run of these steps has these replies and leaves this board; so does one in which each
    // stream takes the same steps leave it, in whatever order.
    ensures determined { IfOk result (λ ran. IsDetermined feeds.now (fresh_board (map arc_value plans.items)) steps.now ran.1.items ran.0) }
    ensures order { IfOk result (λ ran. IsOfAnyOrder feeds.now (fresh_board (map arc_value plans.items)) steps.now ran.1.items ran.0) }
    // Each stream's own steps can be taken alone, and show it alike; wherever they are taken so, over whatever other
    // feeds, they do.
    ensures alone { IfOk result (λ ran. AllRunAlone feeds.now (fresh_board (map arc_value plans.items)) steps.now ran.1.items ran.0) }
    ensures isolated { IfOk result (λ ran. AllAreIsolated feeds.now (fresh_board (map arc_value plans.items)) steps.now ran.1.items ran.0) }
    // No step is refused for another stream's row where no key is touched in two feeds.
    ensures disjoint { IfOk result (λ ran. DoesntClash feeds.now ran.1.items) }
    // The laws of lists of steps, as of `Board::take_steps`.
    ensures same { SameStepsSameBoard }
    ensures lone { LoneRunsShowAlike }
    ensures never { DisjointFeedsNeverClash }
    ensures alike { DisjointRunsShowAlike }
{
    agreeing_runs_show_alike();
    streams_follow_their_own_steps();
    streams_read_their_feeds();
    rows_are_replayed();
    runs_are_determined();
    streams_are_isolated();
    let mut board = fed_board(alloc, plans, feeds)?;
    board.is_lawful();
    let replies = board.take_steps(alloc, feeds, steps)?;
    Ok((board, replies))
}
