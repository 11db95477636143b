//! Why tables aren't added.

ghost use Rattle.std.specs.Prelude.{◌≡◌};

use source_feed::FeedFault;
use std::alloc::AllocError;
use thiserror::Error;

/// Why tables aren't added to a board.
#[derive(Debug, Drop, Error)]
pub enum AddFault {
    /// There aren't as many feeds as plans.
    #[error("another number of feeds than of plans")]
    FeedCount,
    /// There aren't as many plans as streams, or one isn't its stream's with one or more tables appended last.
    #[error("a plan isn't an extension of its stream's")]
    PlanNotExtended,
    /// Two plans differ in their tables, or a feed wasn't opened under its plan.
    #[error("another plan")]
    WrongPlan,
    /// The least stream whose feed doesn't go on, where it has fewer groups than are applied or a group that
    /// differs from the applied one.
    #[error("other histories of stream {0}")]
    HistoriesDiffer(u8),
    /// A group up to the applied one isn't sound, of the least stream whose feed doesn't go on.
    #[error("{0}")]
    Unsound(FeedFault),
    /// A growth was refused.
    #[error("out of memory")]
    Memory,
}

impl From<AllocError> for AddFault {
    ghost use Rattle.board_laws.specs.declared.add_fault.AddFault.TheVariants.{Memory};

    ghost from_gives = { λ _ fault. fault ≡ Memory };

    fn from(_: AllocError) -> AddFault {
        AddFault::Memory
    }
}

impl AddFault {
    ghost use Rattle.board_laws.specs.AddFaults.{number_of};

    /// The fault's number.
    pub fn number(&self) -> u8
        ensures { result ≡ number_of self.now }
    {
        match self {
            AddFault::FeedCount => 119,
            AddFault::PlanNotExtended => 122,
            AddFault::WrongPlan => 111,
            AddFault::HistoriesDiffer(_) => 113,
            AddFault::Unsound(fault) => fault.number(),
            AddFault::Memory => 72,
        }
    }
}
