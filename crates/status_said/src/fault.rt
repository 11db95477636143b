//! Why nothing is said of checkpoints.

ghost use Rattle.std.specs.Prelude.{◌≡◌};
ghost use Rattle.status_said.specs.declared.fault.StatusFault.TheVariants.{Memory};

use std::alloc::{AllocError, AllocFailed};

/// Why nothing is said of checkpoints.
#[derive(Clone, Copy, Debug)]
pub enum StatusFault {
    /// A file is no checkpoint.
    Broken {
        /// The number of the file, from 0.
        file: usize,
    },
    /// The allocator gave no memory.
    Memory,
}

impl From<AllocError> for StatusFault {
    ghost from_gives = { λ _ fault. fault ≡ Memory };

    fn from(_: AllocError) -> StatusFault {
        StatusFault::Memory
    }
}

impl<T: Drop> From<AllocFailed<T>> for StatusFault {
    ghost from_gives = { λ _ fault. fault ≡ Memory };

    fn from(_: AllocFailed<T>) -> StatusFault {
        StatusFault::Memory
    }
}
