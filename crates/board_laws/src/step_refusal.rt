//! Why a step of a schedule is refused.

ghost use Rattle.std.specs.Prelude.{◌≡◌};

use crate::refusal::Refusal;
use source_feed::FeedFault;
use thiserror::Error;

/// Why a step of a schedule is refused.
#[derive(Debug, Drop, Error)]
pub enum StepRefusal {
    /// The offered group can't be prepared: the feed has none of this number, or it isn't sound.
    #[error("{0}")]
    Unprepared(FeedFault),
    /// By the board; also want of memory while a group is prepared.
    #[error("{0}")]
    Refused(Refusal),
}

impl From<Refusal> for StepRefusal {
    ghost use Rattle.board_laws.specs.declared.step_refusal.StepRefusal.TheVariants.{Refused};

    ghost from_gives = { λ cause refusal. refusal ≡ Refused cause };

    fn from(cause: Refusal) -> StepRefusal {
        StepRefusal::Refused(cause)
    }
}

impl StepRefusal {
    ghost use Rattle.board_laws.specs.Refusals.{number_of_step};

    /// The refusal's number.
    pub fn number(&self) -> u8
        ensures { result ≡ number_of_step self.now }
    {
        match self {
            StepRefusal::Unprepared(fault) => fault.number(),
            StepRefusal::Refused(refusal) => refusal.number(),
        }
    }
}
