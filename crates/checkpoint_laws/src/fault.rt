//! Why a checkpoint isn't resumed.

ghost use Rattle.std.specs.Prelude.{◌≡◌};

use pk_copy::Key;
use source_feed::FeedFault;
use std::alloc::AllocError;
use thiserror::Error;

/// Why a checkpoint isn't resumed.
#[derive(Debug, Drop, Error)]
pub enum ResumeFault {
    /// There aren't as many feeds as plans.
    #[error("another number of feeds than of streams")]
    FeedCount,
    /// Two plans differ in their tables, or a feed wasn't opened under its plan.
    #[error("another plan")]
    WrongPlan,
    /// The bytes are no checkpoint for these plans.
    #[error("the checkpoint is broken")]
    CheckpointBad,
    /// The least stream whose position is neither empty nor that of a group of its feed.
    #[error("the position of stream {0} is unknown")]
    PositionUnknown(u8),
    /// A group up to the position isn't sound: of the least such stream the first such group.
    #[error("{0}")]
    Unsound(FeedFault),
    /// The rows of a stream aren't those that its feed leaves: the least such stream, and the least key at which
    /// they differ.
    #[error("a row of stream {stream} differs from its feed")]
    CheckpointDiffers { stream: u8, key: Key },
    /// Two streams have a row at one key: the first stream that meets a lower one, its least such key, and
    /// the lower stream.
    #[error("a row of stream {owner} stands at a key")]
    OwnedByOther { key: Key, owner: u8 },
    /// A growth was refused.
    #[error("out of memory")]
    Memory,
}

impl From<AllocError> for ResumeFault {
    ghost use Rattle.checkpoint_laws.specs.declared.fault.ResumeFault.TheVariants.{Memory};

    ghost from_gives = { λ _ fault. fault ≡ Memory };

    fn from(_: AllocError) -> ResumeFault {
        ResumeFault::Memory
    }
}

impl ResumeFault {
    ghost use Rattle.checkpoint_laws.specs.Faults.{number_of};

    /// The fault's number.
    pub fn number(&self) -> u8
        ensures { result ≡ number_of self.now }
    {
        match self {
            ResumeFault::FeedCount => 119,
            ResumeFault::WrongPlan => 111,
            ResumeFault::CheckpointBad => 116,
            ResumeFault::PositionUnknown(_) => 118,
            ResumeFault::Unsound(fault) => fault.number(),
            ResumeFault::CheckpointDiffers { .. } => 117,
            ResumeFault::OwnedByOther { .. } => 71,
            ResumeFault::Memory => 72,
        }
    }
}
