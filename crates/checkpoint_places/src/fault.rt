//! Why bytes don't say where streams stand.

ghost use Rattle.std.specs.Prelude.{◌≡◌};
ghost use Rattle.checkpoint_places.specs.declared.fault.StandFault.TheVariants.{Memory};

use std::alloc::{AllocError, AllocFailed};

/// Why bytes don't say where streams stand.
#[derive(Clone, Copy, Debug)]
pub enum StandFault {
    /// The bytes are no checkpoint of any workflow.
    Broken,
    /// The allocator gave no memory.
    Memory,
}

impl From<AllocError> for StandFault {
    ghost from_gives = { λ _ fault. fault ≡ Memory };

    fn from(_: AllocError) -> StandFault {
        StandFault::Memory
    }
}

impl<T: Drop> From<AllocFailed<T>> for StandFault {
    ghost from_gives = { λ _ fault. fault ≡ Memory };

    fn from(_: AllocFailed<T>) -> StandFault {
        StandFault::Memory
    }
}
