//! Why feeds don't end at positions.

ghost use Rattle.std.specs.Prelude.{◌≡◌};
ghost use Rattle.feed_ends.specs.Faults.{number_of};

use gtid_set::GtidFault;
use std::alloc::{AllocError, AllocFailed};
use thiserror::Error;

/// Why feeds don't end at the positions that are given.
#[derive(Clone, Copy, Debug, PartialEq, Eq, Error)]
pub enum EndFault {
    /// A position is given for a stream that isn't there.
    #[error("there is no stream of this number")]
    NoStream,
    /// A text is none of a position; with the cause.
    #[error("a position is refused: {0}")]
    BadPosition(GtidFault),
    /// The feed of a stream, from 0, doesn't reach its position.
    #[error("the feed of stream {stream} doesn't reach the position")]
    NotReached { stream: usize },
    /// A growth was refused.
    #[error("out of memory")]
    Memory,
}

impl EndFault {
    /// The refusal's number: 115, 94, 128, and 72 for want of memory.
    pub fn number(&self) -> u8
        ensures { result ≡ number_of self.now }
    {
        match self {
            EndFault::NoStream => 115,
            EndFault::BadPosition(_) => 94,
            EndFault::NotReached { .. } => 128,
            EndFault::Memory => 72,
        }
    }
}

impl From<AllocError> for EndFault {
    ghost use Rattle.std.specs.Prelude.{◌≡◌};
    ghost use Rattle.feed_ends.specs.declared.fault.EndFault.TheVariants.{Memory};

    ghost from_gives = { λ _ fault. fault ≡ Memory };

    fn from(_: AllocError) -> EndFault {
        EndFault::Memory
    }
}

impl<T: Drop> From<AllocFailed<T>> for EndFault {
    ghost use Rattle.std.specs.Prelude.{◌≡◌};
    ghost use Rattle.feed_ends.specs.declared.fault.EndFault.TheVariants.{Memory};

    ghost from_gives = { λ _ fault. fault ≡ Memory };

    fn from(_: AllocFailed<T>) -> EndFault {
        EndFault::Memory
    }
}

impl From<GtidFault> for EndFault {
    ghost use Rattle.std.specs.Prelude.{◌≡◌};
    ghost use Rattle.feed_ends.specs.Faults.{fault_of};

    ghost from_gives = { λ cause fault. fault ≡ fault_of cause };

    fn from(cause: GtidFault) -> EndFault {
        match cause {
            GtidFault::Memory => EndFault::Memory,
            cause => EndFault::BadPosition(cause),
        }
    }
}
