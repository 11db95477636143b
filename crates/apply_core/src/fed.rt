//! A board with the feeds that its streams read.

ghost use Rattle.std.specs.Prelude.{◌≡◌, ℕ, ◌<◌, ◌≤◌, None, Some, Err, IfOk, IfErr, IfSome, OnOk, OnErr, IsSomeAnd, [], length, map, slice_get, slice_set};
ghost use Rattle.std.specs.Arc.{arc_value};
ghost use Rattle.std.specs.Option.{option_map_or};
ghost use Rattle.checkpoint_core.specs.Fault.{HasParts};
ghost use Rattle.source_feed.specs.Growing.{AreOfOneFeed};
ghost use Rattle.board_laws.specs.declared.refusal.Refusal.TheVariants.{NoStream};
ghost use Rattle.board_laws.specs.Agreement.{SameStepsSameBoard, LoneRunsShowAlike, DisjointRunsShowAlike};
ghost use Rattle.board_laws.specs.FedBoards.{IsFedBoard, HasGrown};
ghost use Rattle.board_laws.specs.Lawful.{standing_of};
ghost use Rattle.board_laws.specs.RunLaws.{DisjointFeedsNeverClash};
ghost use Rattle.board_laws.specs.Schedule.{IsReply, IsRun};
ghost use Rattle.board_laws.specs.Sources.{applied_position, ShowAll};
ghost use Rattle.apply_core.specs.Ended.{AllHaveEnded, AreAsBefore, AreSound, HaveEnded, IsNamedStream, IsRowsUnion};
ghost use Rattle.apply_core.specs.Feeds.{AreFed, IsOfOwnFeed, IsRefusedInput};
ghost use Rattle.apply_core.specs.Fresh.{fresh_board};
ghost use Rattle.apply_core.specs.Growing.{GrowsAt, IsRefusedGrow};
ghost use Rattle.apply_core.specs.Resuming.{IsResumed, IsRefusedResume};
ghost use Rattle.apply_core.specs.RunRefused.{EndsRun, StopsWanting, IsRefusedRun, IsLowest, refused_stream};
ghost use Rattle.apply_core.specs.LowerEnded.{LowerHaveEnded};
ghost use Rattle.apply_core.specs.OneRun.{AllAreIsolated, AllRunAloneOn, DoesntClash, IsDetermined, IsOfAnyOrder};
ghost use Rattle.apply_core.specs.Shown.{all_rows};

use crate::alone::{run_all, run_named};
use crate::board::Board;
use crate::grow_refusal::GrowRefusal;
use crate::growing::grow_in;
use crate::policy::Policy;
use crate::resuming::resume;
use crate::run_laws::{ended_boards_have_the_union, longer_feeds_have_grown};
use crate::run_refusal::RunRefusal;
use crate::schedule::{fed_board, fed_replies};
use board_laws::{
    Answer, Refusal, StepRefusal, agreeing_runs_show_alike, fed_boards_show_all,
    runs_are_determined, streams_are_isolated, streams_follow_their_own_steps,
    streams_read_their_feeds,
};
use checkpoint_laws::ResumeFault;
use filter_rule::Plan;
use gtid_set::GtidSet;
use source_feed::{Feed, FeedEnd};
use std::alloc::{AllocError, Global};
use std::marker::Model;
use std::mem::replace;
use std::sync::Arc;
use stream_core::{Cursor, Step};

/// A board with the feeds of its streams, in their order: there are as many, each feed is of its stream's plan, and
/// each stream has read the first groups of its feed. So the board shows its sources whatever steps are taken, and a
/// step needs only the number of its stream. No plans are compared once it is made.
#[derive(Drop)]
pub struct FedBoard<'h> {
    board: Board<'h>,
    feeds: Vec<Feed<'h>>,
}

impl<'h> Model for FedBoard<'h> {
    ghost use Rattle.board_laws.specs.FedBoards.{Fed, IsFedBoard};

    ghost Value = { Fed };

    ghost view = { λ f. record { board = f.board; feeds = f.feeds.items } };

    ghost invariant = { λ f. IsFedBoard f.feeds.items f.board };
}

/// The feed of stream `s` becomes another one.
fn put_feed<'h>(feeds: &mut [Feed<'h>], s: u8, feed: Feed<'h>)
    requires { s < length feeds.old }
    ensures { feeds.new ≡ slice_set feeds.old s feed.entry }
{
    let place = &mut feeds[s as usize];
    let _ = replace(place, feed);
}

impl<'h> FedBoard<'h> {
    /// A board of 1 to 64 plans with their feeds, of which nothing is read. The feeds stand in the order of the plans.
    ///
    /// Refused 119 where there aren't as many feeds as plans, else 111 where two plans differ in their tables or a feed
    /// wasn't opened under its plan. Any other error is want of memory.
    pub fn new(
        alloc: Global,
        plans: Vec<Arc<Plan>>,
        feeds: Vec<Feed<'h>>,
    ) -> Result<FedBoard<'h>, Refusal>
        requires some { 1 ≤ length plans.items }
        requires few { length plans.items ≤ 64 }
        ensures fresh { IfOk result (λ fed. fed ≡ record { board = fresh_board (map arc_value plans.items); feeds = feeds.entry.items }) }
        ensures fed { IfOk result (λ _. AreFed (map arc_value plans.items) feeds.entry.items) }
        ensures refused { IfErr result (IsRefusedInput (map arc_value plans.items) feeds.entry.items) }
    {
        let board = fed_board(alloc, plans, &feeds)?;
        board.is_lawful();
        Ok(FedBoard { board, feeds })
    }

    /// The same, to be run: refused 119 and 111 as `run_alone` is. Any other error is want of memory.
    pub fn to_be_run(
        alloc: Global,
        plans: Vec<Arc<Plan>>,
        feeds: Vec<Feed<'h>>,
    ) -> Result<FedBoard<'h>, RunRefusal>
        requires some { 1 ≤ length plans.items }
        requires few { length plans.items ≤ 64 }
        ensures fresh { IfOk result (λ fed. fed ≡ record { board = fresh_board (map arc_value plans.items); feeds = feeds.entry.items }) }
        ensures fed { IfOk result (λ _. AreFed (map arc_value plans.items) feeds.entry.items) }
        ensures refused { IfErr result (IsRefusedRun (map arc_value plans.items) feeds.entry.items) }
        ensures of_none { IfErr result (λ refusal. refused_stream refusal ≡ None) }
    {
        match FedBoard::new(alloc, plans, feeds) {
            Ok(fed) => Ok(fed),
            Err(Refusal::FeedCount) => Err(RunRefusal::FeedCount),
            Err(Refusal::WrongPlan) => Err(RunRefusal::WrongPlan),
            Err(Refusal::Memory) => Err(RunRefusal::Memory),
            Err(_) => unreachable!(),
        }
    }

    /// The board that a checkpoint says, over the feeds of its streams, which stand in the order of the 1 to 64 plans.
    /// Refused as `resume`, whose board it is.
    pub fn resume(
        alloc: Global,
        plans: &[Arc<Plan>],
        feeds: Vec<Feed<'h>>,
        bytes: &[u8],
    ) -> Result<FedBoard<'h>, ResumeFault>
        requires some { 1 ≤ length plans.now }
        requires few { length plans.now ≤ 64 }
        ensures fed { IfOk result (λ _. AreFed (map arc_value plans.now) feeds.entry.items) }
        ensures resumed { IfOk result (λ fed. IsResumed feeds.entry.items bytes.now fed.board) }
        ensures feeds { IfOk result (λ fed. fed.feeds ≡ feeds.entry.items) }
        ensures refused { IfErr result (IsRefusedResume (map arc_value plans.now) feeds.entry.items bytes.now) }
        ensures memory { result ≡ Err ResumeFault.Memory → HasParts bytes.now (length plans.now) }
    {
        let board = resume(alloc, plans, &feeds, bytes)?;
        Ok(FedBoard { board, feeds })
    }

    /// A board and the feeds that its streams read: what `resume`, `add_tables` and `join` answer, with their feeds.
    /// Takes no memory.
    pub fn from_parts(board: Board<'h>, feeds: Vec<Feed<'h>>) -> FedBoard<'h>
        requires { IsFedBoard feeds.items board }
        ensures { result ≡ record { board = board.entry; feeds = feeds.entry.items } }
    {
        FedBoard { board, feeds }
    }

    /// The board and its feeds. Takes no memory.
    pub fn into_parts(self) -> (Board<'h>, Vec<Feed<'h>>)
        ensures board { result.0 ≡ self.entry.board }
        ensures feeds { result.1.items ≡ self.entry.feeds }
        ensures fed { IsFedBoard result.1.items result.0 }
    {
        (self.board, self.feeds)
    }

    /// The board has a stream for each feed, which reads it: a fact for contracts. Takes no memory.
    pub fn is_fed(&self)
        ensures { IsFedBoard self.now.feeds self.now.board }
    {
        let _ = &self.board;
    }

    /// Each feed's stream shows its source, and the board has no other rows: a fact for contracts. Takes no memory.
    pub fn shows(&self)
        ensures { ShowAll self.now.feeds self.now.board }
    {
        fed_boards_show_all();
        let _ = &self.board;
    }

    /// The board by itself. Takes no memory.
    pub fn board(&self) -> &Board<'h>
        ensures board { result.now ≡ self.now.board }
        ensures fed { IsFedBoard self.now.feeds self.now.board }
    {
        &self.board
    }

    /// The feeds, in the order of the streams. Takes no memory.
    pub fn feeds(&self) -> &[Feed<'h>]
        ensures { result.now ≡ self.now.feeds }
    {
        self.feeds.as_slice()
    }

    /// Where stream `s` stands, by its numbers. Refused 115 alone. Takes no memory.
    pub fn state(&self, s: u8) -> Result<Cursor, Refusal>
        ensures state { IfOk result (λ cursor. IsSomeAnd (slice_get self.now.board.streams s) (λ state. cursor ≡ standing_of state)) }
        ensures no_stream { IfErr result (λ refusal. (refusal ≡ NoStream) × (slice_get self.now.board.streams s ≡ None)) }
    {
        self.board.state(s)
    }

    /// The source's position at which the rows of stream `s` stand: that of its last applied group. None is the empty
    /// set, before the first group is applied. Refused 115 alone. Takes no memory.
    pub fn position(&self, s: u8) -> Result<Option<&GtidSet>, Refusal>
        ensures position { IfOk result (λ position. IsSomeAnd (slice_get self.now.board.streams s) (λ state. option_map_or (λ set. set.now) position [] ≡ applied_position state)) }
        ensures no_stream { IfErr result (λ refusal. (refusal ≡ NoStream) × (slice_get self.now.board.streams s ≡ None)) }
    {
        self.board.position(s)
    }

    /// One step on stream `s`: an offer prepares the group of its number of the stream's feed and offers it; any other
    /// step is the board's call of its name.
    ///
    /// Refused 115 first, where there is no such stream. An offer is refused 91 and 90 where its group can't be
    /// prepared, and then as `Board::offer`, 111 aside; every other step as its call. An offer is refused 72 of a sound
    /// group alone. A refused step changes nothing.
    pub fn take_step(&mut self, alloc: Global, s: u8, step: Step) -> Result<Answer, StepRefusal>
        ensures reply { IsReply self.old.feeds self.old.board (s, step) result self.new.board }
        // A stream that has its feed is never refused 115, 119 or 111.
        ensures exact { IfSome (slice_get self.old.feeds s) (λ _. IsOfOwnFeed result) }
        ensures feeds { self.new.feeds ≡ self.old.feeds }
        ensures shows { ShowAll self.new.feeds self.new.board }
    {
        fed_boards_show_all();
        self.is_fed();
        self.board.take_fed(alloc, &self.feeds, s, step)
    }

    /// Takes a list of steps in order, each on a stream of the board. The answer is for each step what it answered or
    /// why it was refused; after a refusal the list goes on.
    ///
    /// Room for all replies is taken before the first step. An error is want of memory for it, and nothing is done.
    pub fn take_steps(
        &mut self,
        alloc: Global,
        steps: &[(u8, Step)],
    ) -> Result<Vec<Result<Answer, StepRefusal>>, AllocError>
        ensures run { IfOk result (λ replies. IsRun self.old.feeds self.old.board steps.now replies.items self.new.board) }
        ensures kept { OnErr result (self.new.board ≡ self.old.board) }
        ensures feeds { self.new.feeds ≡ self.old.feeds }
        ensures shows { ShowAll self.new.feeds self.new.board }
        // Want of memory aside, any run of these steps has these replies and leaves this board; so does one in which
        // each stream takes the same steps leave it, in whatever order.
        ensures determined { IfOk result (λ replies. IsDetermined self.old.feeds self.old.board steps.now replies.items self.new.board) }
        ensures order { IfOk result (λ replies. IsOfAnyOrder self.old.feeds self.old.board steps.now replies.items self.new.board) }
        // Each stream's own steps can be taken where no other stream has a row, and show it alike; wherever they are
        // taken so, over whatever other feeds, they do.
        ensures alone { IfOk result (λ replies. AllRunAloneOn self.old.feeds self.old.board steps.now replies.items self.new.board) }
        ensures isolated { IfOk result (λ replies. AllAreIsolated self.old.feeds self.old.board steps.now replies.items self.new.board) }
        // No step is refused for another stream's row where no key is touched in two feeds.
        ensures disjoint { IfOk result (λ replies. DoesntClash self.old.feeds replies.items) }
        // Laws of lists of steps: in which each stream took the same steps they end in the same board; a stream doesn't
        // notice the others; over feeds that share no key no step is refused 71, and a stream is shown alike in two runs.
        ensures same { SameStepsSameBoard }
        ensures lone { LoneRunsShowAlike }
        ensures never { DisjointFeedsNeverClash }
        ensures alike { DisjointRunsShowAlike }
    {
        agreeing_runs_show_alike();
        runs_are_determined();
        streams_are_isolated();
        streams_follow_their_own_steps();
        streams_read_their_feeds();
        fed_boards_show_all();
        self.is_fed();
        fed_replies(alloc, &mut self.board, &self.feeds, steps)
    }

    /// Runs all streams, stream after stream, each to its feed's end, in the portions of the policy: what is read,
    /// applied and copied already stays. Then all streams are Running, and the target's rows are the union of those
    /// that the feeds keep, whatever the policy and wherever the board stood.
    ///
    /// The first refusal of a stream ends the run: 90, where a group of its feed isn't sound, by the first such group;
    /// 71, by a key that the stream's feed touches and so does that of the owner, another stream. Any other error is
    /// want of memory. What was done until then stays, and shows its sources.
    pub fn run(&mut self, alloc: Global, policy: &Policy) -> Result<(), RunRefusal>
        // Each stream is Running, and all groups of its feed are read and applied.
        ensures ended { OnOk result (AllHaveEnded self.new.feeds self.new.board) }
        // The target has just the rows that the feeds keep.
        ensures rows { OnOk result (IsRowsUnion self.new.feeds (all_rows self.new.board.rows)) }
        ensures sound { OnOk result (AreSound self.new.feeds) }
        ensures refused { IfErr result (EndsRun self.old.feeds) }
        // 72 is of a stream's next step, which wants memory on the board as it is left.
        ensures memory { IfErr result (StopsWanting self.new.feeds self.new.board) }
        // Every lower stream has come to its feed's end, so all groups of its feed are sound.
        ensures lower { IfErr result (LowerHaveEnded self.new.feeds self.new.board) }
        ensures lowest { IfErr result (IsLowest self.old.feeds) }
        ensures feeds { self.new.feeds ≡ self.old.feeds }
        ensures shows { ShowAll self.new.feeds self.new.board }
    {
        fed_boards_show_all();
        ended_boards_have_the_union();
        self.is_fed();
        run_all(alloc, &mut self.board, &self.feeds, policy)
    }

    /// Runs these streams alone, one after another, each to its feed's end, in the portions of the policy; the others stay
    /// as they stand, and their feeds aren't looked at. A stream that is named twice has ended the second time.
    ///
    /// Refused as `run` is, by one of these streams. What was done until then stays, and shows its sources.
    pub fn run_streams(
        &mut self,
        alloc: Global,
        streams: &[u8],
        policy: &Policy,
    ) -> Result<(), RunRefusal>
        requires { (s : ℕ) → IsNamedStream streams.now s → s < length self.old.feeds }
        // Each of these streams is Running, and all groups of its feed are read and applied.
        ensures ended { OnOk result (HaveEnded streams.now self.new.feeds self.new.board) }
        // Each other stream is as it was.
        ensures others { OnOk result (AreAsBefore streams.now self.old.board self.new.board) }
        ensures refused { IfErr result (EndsRun self.old.feeds) }
        // 72 is of a stream's next step, which wants memory on the board as it is left.
        ensures memory { IfErr result (StopsWanting self.new.feeds self.new.board) }
        ensures feeds { self.new.feeds ≡ self.old.feeds }
        ensures shows { ShowAll self.new.feeds self.new.board }
    {
        fed_boards_show_all();
        self.is_fed();
        run_named(alloc, &mut self.board, &self.feeds, streams, policy)
    }

    /// The feed of stream `s` becomes one that it has grown to: of the same plan, with the same groups first. The board
    /// is as it was, and shows its sources still: what is applied stands behind the same groups. Takes no memory.
    pub fn put_grown(&mut self, s: u8, feed: Feed<'h>)
        requires there { s < length self.old.feeds }
        requires grown { IfSome (slice_get self.old.feeds s) (λ old. HasGrown old feed) }
        ensures board { self.new.board ≡ self.old.board }
        ensures feeds { self.new.feeds ≡ slice_set self.old.feeds s feed.entry }
        ensures shows { ShowAll self.new.feeds self.new.board }
    {
        fed_boards_show_all();
        self.is_fed();
        put_feed(&mut self.feeds, s, feed);
    }

    /// The feed of stream `s` grows by a further piece of its bytes, of which it borrows; `end` is where it ends so far, and
    /// goes on with it. The answer is how many bytes are taken: up to the last message behind which no transaction is
    /// open. The rest is given again with more behind it. The board is as it was, and shows its sources still: the groups
    /// that are there stay the first ones. Takes time linear in the piece's bytes and in the feed's tables.
    ///
    /// Refused 115 where there is no such stream, else as `FeedEnd::grow`; then nothing is taken.
    pub fn grow(
        &mut self,
        alloc: Global,
        s: u8,
        end: &mut FeedEnd<'h>,
        piece: &'h [u8],
    ) -> Result<u32, GrowRefusal>
        requires { IfSome (slice_get self.old.feeds s) (λ feed. AreOfOneFeed feed end.old) }
        // The feed then has the groups of all bytes so far, and each other feed is as it was.
        ensures grown { IfOk result (λ taken. GrowsAt s piece.now taken self.old.feeds self.new.feeds end.old end.new) }
        ensures board { self.new.board ≡ self.old.board }
        ensures refused { IfErr result (IsRefusedGrow s piece.now self.old.feeds end.old) }
        // After a refusal all is as it was.
        ensures left { OnErr result ((self.new.feeds ≡ self.old.feeds) × (end.new ≡ end.old)) }
        ensures shows { ShowAll self.new.feeds self.new.board }
    {
        fed_boards_show_all();
        longer_feeds_have_grown();
        self.is_fed();
        grow_in(alloc, &mut self.feeds, s, end, piece)
    }
}
