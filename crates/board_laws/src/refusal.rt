//! Why a step on a board is refused.

ghost use Rattle.std.specs.Prelude.{◌≡◌};

use pk_copy::Key;
use std::alloc::AllocError;
use stream_core::CoreRefusal;
use thiserror::Error;

/// Why a step on a board is refused.
#[derive(Debug, Drop, Error)]
pub enum Refusal {
    /// The board has no stream of this number.
    #[error("no such stream")]
    NoStream,
    /// A group's plan isn't its stream's, a feed isn't opened under its stream's plan, or two plans differ
    /// in their tables.
    #[error("another plan")]
    WrongPlan,
    /// Another group is in the list at the offered number, or the offered group's position doesn't go on
    /// from the last one.
    #[error("another history")]
    Diverged,
    /// By the stream's numbers alone.
    #[error("{0}")]
    Core(CoreRefusal),
    /// A row is due at a key where a row of another stream stands: the least such key, and the stream that
    /// owns the row.
    #[error("a row of stream {owner} stands at a key")]
    OwnedByOther { key: Key, owner: u8 },
    /// There aren't as many feeds as plans.
    #[error("another number of feeds than of streams")]
    FeedCount,
    /// A growth was refused.
    #[error("out of memory")]
    Memory,
}

impl From<AllocError> for Refusal {
    ghost use Rattle.board_laws.specs.declared.refusal.Refusal.TheVariants.{Memory};

    ghost from_gives = { λ _ refusal. refusal ≡ Memory };

    fn from(_: AllocError) -> Refusal {
        Refusal::Memory
    }
}

impl From<CoreRefusal> for Refusal {
    ghost use Rattle.board_laws.specs.declared.refusal.Refusal.TheVariants.{Core};

    ghost from_gives = { λ cause refusal. refusal ≡ Core cause };

    fn from(cause: CoreRefusal) -> Refusal {
        Refusal::Core(cause)
    }
}

impl Refusal {
    ghost use Rattle.board_laws.specs.Refusals.{number_of};

    /// The refusal's number.
    pub fn number(&self) -> u8
        ensures { result ≡ number_of self.now }
    {
        match self {
            Refusal::NoStream => 115,
            Refusal::WrongPlan => 111,
            Refusal::Diverged => 112,
            Refusal::Core(refusal) => refusal.number(),
            Refusal::OwnedByOther { .. } => 71,
            Refusal::FeedCount => 119,
            Refusal::Memory => 72,
        }
    }
}
