//! Why bytes aren't read as a checkpoint.

ghost use Rattle.checkpoint_core.specs.declared.fault.ReadFault.TheVariants.{Memory};
ghost use Rattle.std.specs.Prelude.{◌≡◌};

use std::alloc::AllocError;
use thiserror::Error;

/// Why bytes aren't read as a checkpoint.
#[derive(Clone, Copy, Debug, Error)]
pub enum ReadFault {
    /// The bytes are no checkpoint for these plans.
    #[error("no checkpoint for these plans")]
    Broken,
    /// A growth was refused.
    #[error("out of memory")]
    Memory,
}

impl From<AllocError> for ReadFault {
    ghost from_gives = { λ _ fault. fault ≡ Memory };

    fn from(_: AllocError) -> ReadFault {
        ReadFault::Memory
    }
}
