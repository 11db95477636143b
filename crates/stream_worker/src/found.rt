//! How an offered group stands to the one of its number that is read.

ghost use Rattle.std.specs.Prelude.{◌≡◌};
ghost use Rattle.board_laws.specs.declared.answer.Answer as answers;
ghost use Rattle.board_laws.specs.Step.{answered};
ghost use Rattle.stream_worker.specs.Private.FoundGroups.{IsBeside, answer_of};

use apply_core::{Offered, Refusal};
use source_feed::Prepared;

/// An offered group beside the one of its number that is read.
#[derive(Clone, Copy)]
pub(crate) enum Found {
    /// It is that one.
    Same,
    /// It is of another plan.
    OtherPlan,
    /// It is another group of the same plan.
    OtherGroup,
}

impl Found {
    /// How an offered group stands to another one. Takes no memory, and time in the bytes of both.
    pub(crate) fn beside(read: &Prepared<'_>, group: &Prepared<'_>) -> Found
        ensures { IsBeside read.now group.now result }
    {
        if !read.plan().same(group.plan()) {
            return Found::OtherPlan;
        }
        if read.same(group) {
            Found::Same
        } else {
            Found::OtherGroup
        }
    }

    /// What the offer of the group answers, whose number this is.
    pub(crate) fn answer(self, number: u32) -> Result<Offered, Refusal>
        ensures { answered answers.Answer.Offered result ≡ answer_of number self }
    {
        match self {
            Found::Same => Ok(Offered::Repeat(number)),
            Found::OtherPlan => Err(Refusal::WrongPlan),
            Found::OtherGroup => Err(Refusal::Diverged),
        }
    }
}
