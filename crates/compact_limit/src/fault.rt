//! Why it can't be said how far a feed is to be compacted.

ghost use Rattle.std.specs.Prelude.{◌≡◌};

use gtid_set::GtidFault;
use std::alloc::AllocError;
use thiserror::Error;

/// Why it can't be said how far a feed is to be compacted.
#[derive(Clone, Copy, Debug, PartialEq, Eq, Error)]
pub enum LimitFault {
    /// The position that is named can't be read; with the cause.
    #[error("the position is refused: {0}")]
    BadPosition(GtidFault),
    /// No group of the feed has the position that is named, or that of a checkpoint.
    #[error("no group of the feed has the position")]
    PositionUnknown,
    /// The bytes of a checkpoint are none of the workflow.
    #[error("the checkpoint is broken")]
    CheckpointBad,
    /// A growth was refused.
    #[error("out of memory")]
    Memory,
}

impl From<GtidFault> for LimitFault {
    ghost use Rattle.compact_limit.specs.Refused.{refusal_of_position};

    ghost from_gives = { λ cause fault. fault ≡ refusal_of_position cause };

    fn from(cause: GtidFault) -> LimitFault {
        match cause {
            GtidFault::Memory => LimitFault::Memory,
            cause => LimitFault::BadPosition(cause),
        }
    }
}

impl From<AllocError> for LimitFault {
    ghost use Rattle.compact_limit.specs.declared.fault.LimitFault.TheVariants.{Memory};

    ghost from_gives = { λ _ fault. fault ≡ Memory };

    fn from(_: AllocError) -> LimitFault {
        LimitFault::Memory
    }
}
