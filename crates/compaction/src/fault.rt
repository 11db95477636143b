//! Why a feed isn't compacted.

use source_feed::FeedFault;
use std::alloc::{AllocError, AllocFailed};
use thiserror::Error;

/// Why a feed isn't compacted.
#[derive(Clone, Copy, Debug, PartialEq, Eq, Error)]
pub enum CompactFault {
    /// The feed has no group of the number: there is nothing to put a base in the place of.
    #[error("the feed has no such group")]
    NoCut,
    /// A group that would be replaced has a change of a table that the plan lacks, whose rows would be lost.
    #[error("rows of a table that the workflow lacks would be lost")]
    UnknownTable,
    /// A group that would be replaced isn't sound; with its fault.
    #[error("a group is refused: {0}")]
    Unsound(FeedFault),
    /// What would be written is beyond the limits: 2^31 - 1 bytes of the feed, or 2^24 of a row, which a row that was
    /// read isn't.
    #[error("the compacted feed would have more than 2^31 - 1 bytes")]
    TooLong,
    /// A growth was refused.
    #[error("out of memory")]
    Memory,
}

impl From<AllocError> for CompactFault {
    ghost use Rattle.std.specs.Prelude.{◌≡◌};
    ghost use Rattle.compaction.specs.declared.fault.CompactFault.TheVariants.{Memory};

    ghost from_gives = { λ _ fault. fault ≡ Memory };

    fn from(_: AllocError) -> CompactFault {
        CompactFault::Memory
    }
}

impl<T: Drop> From<AllocFailed<T>> for CompactFault {
    ghost use Rattle.std.specs.Prelude.{◌≡◌};
    ghost use Rattle.compaction.specs.declared.fault.CompactFault.TheVariants.{Memory};

    ghost from_gives = { λ _ fault. fault ≡ Memory };

    fn from(_: AllocFailed<T>) -> CompactFault {
        CompactFault::Memory
    }
}

/// Why a base isn't written.
#[derive(Clone, Copy, Debug, PartialEq, Eq)]
pub(crate) enum WriteFault {
    /// It would be beyond the limits.
    TooLong,
    /// A growth was refused.
    Memory,
}

impl From<AllocError> for WriteFault {
    ghost use Rattle.std.specs.Prelude.{◌≡◌};
    ghost use Rattle.compaction.specs.declared.fault.WriteFault.TheVariants.{Memory};

    ghost from_gives = { λ _ fault. fault ≡ Memory };

    fn from(_: AllocError) -> WriteFault {
        WriteFault::Memory
    }
}

impl<T: Drop> From<AllocFailed<T>> for WriteFault {
    ghost use Rattle.std.specs.Prelude.{◌≡◌};
    ghost use Rattle.compaction.specs.declared.fault.WriteFault.TheVariants.{Memory};

    ghost from_gives = { λ _ fault. fault ≡ Memory };

    fn from(_: AllocFailed<T>) -> WriteFault {
        WriteFault::Memory
    }
}

impl From<WriteFault> for CompactFault {
    ghost use Rattle.std.specs.Prelude.{◌≡◌};
    ghost use Rattle.compaction.specs.Private.Limits.{refusal_of_write};

    ghost from_gives = { λ cause fault. fault ≡ refusal_of_write cause };

    fn from(fault: WriteFault) -> CompactFault {
        match fault {
            WriteFault::TooLong => CompactFault::TooLong,
            WriteFault::Memory => CompactFault::Memory,
        }
    }
}

impl From<FeedFault> for CompactFault {
    ghost use Rattle.std.specs.Prelude.{◌≡◌};
    ghost use Rattle.compaction.specs.Compacting.{refusal_of_feed};

    ghost from_gives = { λ fault refusal. refusal ≡ refusal_of_feed fault };

    fn from(fault: FeedFault) -> CompactFault {
        match fault {
            FeedFault::Memory => CompactFault::Memory,
            fault => CompactFault::Unsound(fault),
        }
    }
}
