//! The snapshot of a stream: opened at a group, and closed.

ghost use Rattle.board_laws.specs.declared.answer.Answer as answers;
ghost use Rattle.board_laws.specs.Event.{open_at, close};
ghost use Rattle.board_laws.specs.Step.{answered, IsStep};
ghost use Rattle.apply_core.specs.Private.StreamStep.{IsOwnStep, IsStreamStep};

use crate::board::Board;
use crate::bringing::bring;
use crate::stream::{Stream, place_of};
use board_laws::{Refusal, steps_keep_boards_lawful};
use std::alloc::Global;
use stream_core::Step;

impl<'h> Stream<'h> {
    /// A snapshot is opened at a group: the image is brought there, from scratch if it is ahead. Want of memory
    /// leaves the image at some earlier group.
    fn open_at(&mut self, alloc: Global, group: u32) -> Result<(), Refusal>
        ensures { IsOwnStep self.old (open_at group) (answered (λ _. answers.Answer.Opened group) result) self.new }
    {
        steps_keep_boards_lawful();
        let made = self.judge(Step::OpenAt(group))?;
        bring(alloc, &mut self.image, &mut self.imaged, &self.list, group)?;
        self.cursor = made.cursor;
        Ok(())
    }

    /// The open snapshot is closed. Takes no memory.
    fn close(&mut self) -> Result<(), Refusal>
        ensures { IsOwnStep self.old close (answered (λ _. answers.Answer.Closed) result) self.new }
    {
        steps_keep_boards_lawful();
        let made = self.judge(Step::Close)?;
        self.cursor = made.cursor;
        Ok(())
    }
}

/// A snapshot is opened on stream `s`.
fn open_on(alloc: Global, streams: &mut [Stream<'_>], s: u8, group: u32) -> Result<(), Refusal>
    ensures { IsStreamStep streams.old s (open_at group) (answered (λ _. answers.Answer.Opened group) result) streams.new }
{
    let place = place_of(streams, s)?;
    let stream = &mut streams[place];
    stream.open_at(alloc, group)
}

/// The snapshot of stream `s` is closed. Takes no memory.
fn close_on(streams: &mut [Stream<'_>], s: u8) -> Result<(), Refusal>
    ensures { IsStreamStep streams.old s close (answered (λ _. answers.Answer.Closed) result) streams.new }
{
    let place = place_of(streams, s)?;
    let stream = &mut streams[place];
    stream.close()
}

impl<'h> Board<'h> {
    /// A snapshot is opened on stream `s` at a group that is read and not behind the applied one. The
    /// stream's image is brought there, from scratch if it is ahead.
    ///
    /// Refused 115 and 104 to 107. After want of memory the image stands at some earlier group and no
    /// snapshot is open.
    pub fn open_snapshot(&mut self, alloc: Global, s: u8, group: u32) -> Result<(), Refusal>
        ensures { IsStep self.old s (open_at group) (answered (λ _. answers.Answer.Opened group) result) self.new }
    {
        steps_keep_boards_lawful();
        open_on(alloc, &mut self.streams, s, group)
    }

    /// The open snapshot of stream `s` is closed. Refused 115 and 108. Takes no memory.
    pub fn close_snapshot(&mut self, s: u8) -> Result<(), Refusal>
        ensures { IsStep self.old s close (answered (λ _. answers.Answer.Closed) result) self.new }
    {
        steps_keep_boards_lawful();
        close_on(&mut self.streams, s)
    }
}
