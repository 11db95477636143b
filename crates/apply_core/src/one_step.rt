//! One step of a schedule: an offer prepares the group of its stream's feed first.

ghost use Rattle.std.specs.Prelude.{◌≡◌, None, Some, IfSome, IfNone, slice_get};
ghost use Rattle.stream_core.specs.declared.step.Step as steps;
ghost use Rattle.board_laws.specs.FedBoards.{IsFedBoard};
ghost use Rattle.board_laws.specs.Schedule.{IsReplyBy, IsReply};

use crate::board::Board;
use board_laws::{Answer, Refusal, StepRefusal, fed_boards_show_all};
use source_feed::{Feed, FeedFault};
use std::alloc::Global;
use stream_core::Step;

/// The feed of stream `s`. Takes no memory.
fn feed_in<'f, 'h>(feeds: &'f [Feed<'h>], s: u8) -> Option<&'f Feed<'h>>
    ensures some { IfSome result (λ feed. slice_get feeds.now s ≡ Some feed.now) }
    ensures none { IfNone result (slice_get feeds.now s ≡ None) }
{
    feeds.get(s as usize)
}

impl<'h> Board<'h> {
    /// Group `number` of the feed is prepared and offered to stream `s`.
    fn offer_of(
        &mut self,
        alloc: Global,
        feed: &Feed<'h>,
        s: u8,
        number: u32,
    ) -> Result<Answer, StepRefusal>
        ensures { IsReplyBy feed.now self.old s (steps.Step.Offer number) result self.new }
    {
        match feed.prepare(alloc, number) {
            Err(FeedFault::Memory) => Err(StepRefusal::Refused(Refusal::Memory)),
            Err(fault) => Err(StepRefusal::Unprepared(fault)),
            Ok(group) => match self.offer(alloc, s, group) {
                Ok(offered) => Ok(Answer::Offered(offered)),
                Err(refusal) => Err(StepRefusal::Refused(refusal)),
            },
        }
    }

    /// The same of a feed of the stream's plan: no plans are compared.
    fn offer_of_own(
        &mut self,
        alloc: Global,
        feed: &Feed<'h>,
        s: u8,
        number: u32,
    ) -> Result<Answer, StepRefusal>
        requires { IfSome (slice_get self.old.streams s) (λ state. state.plan ≡ feed.now.plan) }
        ensures { IsReplyBy feed.now self.old s (steps.Step.Offer number) result self.new }
    {
        match feed.prepare(alloc, number) {
            Err(FeedFault::Memory) => Err(StepRefusal::Refused(Refusal::Memory)),
            Err(fault) => Err(StepRefusal::Unprepared(fault)),
            Ok(group) => match self.offer_own(s, group) {
                Ok(offered) => Ok(Answer::Offered(offered)),
                Err(refusal) => Err(StepRefusal::Refused(refusal)),
            },
        }
    }

    /// The step on stream `s`, whose feed this is.
    fn step_by(
        &mut self,
        alloc: Global,
        feed: &Feed<'h>,
        s: u8,
        step: Step,
    ) -> Result<Answer, StepRefusal>
        ensures { IsReplyBy feed.now self.old s step result self.new }
    {
        match step {
            Step::Offer(number) => self.offer_of(alloc, feed, s, number),
            Step::Advance => Ok(Answer::Applied(self.advance(alloc, s)?)),
            Step::OpenAt(group) => {
                self.open_snapshot(alloc, s, group)?;
                Ok(Answer::Opened(group))
            },
            Step::CopyRows(rows) => Ok(Answer::Copied(self.copy_chunk(alloc, s, rows)?)),
            Step::Close => {
                self.close_snapshot(s)?;
                Ok(Answer::Closed)
            },
            Step::Restart => Ok(Answer::Restarted(self.restart(s)?)),
        }
    }

    /// The step on stream `s`, whose feed this is and whose plan is the feed's: no plans are compared.
    fn step_own(
        &mut self,
        alloc: Global,
        feed: &Feed<'h>,
        s: u8,
        step: Step,
    ) -> Result<Answer, StepRefusal>
        requires { IfSome (slice_get self.old.streams s) (λ state. state.plan ≡ feed.now.plan) }
        ensures { IsReplyBy feed.now self.old s step result self.new }
    {
        match step {
            Step::Offer(number) => self.offer_of_own(alloc, feed, s, number),
            _ => self.step_by(alloc, feed, s, step),
        }
    }

    /// One step on stream `s`, where the feeds stand in the order of the streams: an offer prepares the
    /// group of its number of the stream's feed and offers it; any other step is the call of its name.
    ///
    /// Refused 115 first, where the board has no such stream, and 119 where the stream has no feed. An offer is
    /// refused 91 and 90 where its group can't be prepared, and then as `offer`; every other step as its call. An
    /// offer is refused 72 of a sound group alone. A refused step changes nothing.
    pub fn take_step(
        &mut self,
        alloc: Global,
        feeds: &[Feed<'h>],
        s: u8,
        step: Step,
    ) -> Result<Answer, StepRefusal>
        ensures { IsReply feeds.now self.old (s, step) result self.new }
    {
        match self.state(s) {
            Err(refusal) => Err(StepRefusal::Refused(refusal)),
            Ok(_) => match feed_in(feeds, s) {
                None => Err(StepRefusal::Refused(Refusal::FeedCount)),
                Some(feed) => self.step_by(alloc, feed, s, step),
            },
        }
    }

    /// The same on a board whose streams read these feeds: no plans are compared, and each stream has its feed.
    pub(crate) fn take_fed(
        &mut self,
        alloc: Global,
        feeds: &[Feed<'h>],
        s: u8,
        step: Step,
    ) -> Result<Answer, StepRefusal>
        requires { IsFedBoard feeds.now self.old }
        ensures reply { IsReply feeds.now self.old (s, step) result self.new }
        ensures fed { IsFedBoard feeds.now self.new }
    {
        fed_boards_show_all();
        match feed_in(feeds, s) {
            None => Err(StepRefusal::Refused(Refusal::NoStream)),
            Some(feed) => self.step_own(alloc, feed, s, step),
        }
    }
}
