//! A stream that starts again behind its applied group.

ghost use Rattle.board_laws.specs.declared.answer.Answer as answers;
ghost use Rattle.board_laws.specs.Event.{restart};
ghost use Rattle.board_laws.specs.Step.{answered, IsStep};
ghost use Rattle.apply_core.specs.Private.StreamStep.{IsOwnStep, IsStreamStep};

use crate::board::Board;
use crate::stream::{Stream, place_of};
use board_laws::{Refusal, steps_keep_boards_lawful};
use stream_core::Step;

impl<'h> Stream<'h> {
    /// What is read and not applied is forgotten, the open snapshot is closed and the image dropped. Answers how
    /// many groups are applied. Takes no memory.
    fn restart(&mut self) -> Result<u32, Refusal>
        ensures { IsOwnStep self.old restart (answered answers.Answer.Restarted result) self.new }
    {
        steps_keep_boards_lawful();
        let made = self.judge(Step::Restart)?;
        self.list.truncate(made.cursor.read() as usize);
        self.cursor = made.cursor;
        self.image.clear();
        self.imaged = 0;
        Ok(made.cursor.applied())
    }
}

/// Stream `s` starts again behind its applied group. Takes no memory.
fn restart_on(streams: &mut [Stream<'_>], s: u8) -> Result<u32, Refusal>
    ensures { IsStreamStep streams.old s restart (answered answers.Answer.Restarted result) streams.new }
{
    let place = place_of(streams, s)?;
    let stream = &mut streams[place];
    stream.restart()
}

impl<'h> Board<'h> {
    /// Stream `s` starts again behind its applied group, whose number is the answer: the snapshot, the
    /// image and what is read past that group are dropped. Refused 115 alone. Takes no memory.
    pub fn restart(&mut self, s: u8) -> Result<u32, Refusal>
        ensures { IsStep self.old s restart (answered answers.Answer.Restarted result) self.new }
    {
        steps_keep_boards_lawful();
        restart_on(&mut self.streams, s)
    }
}
