//! Why nothing is said of workflow files.

ghost use Rattle.std.specs.Prelude.{◌≡◌};
ghost use Rattle.tiles_said.specs.declared.fault.TilesFault.TheVariants.{Memory};

use filter_rule::PlanFault;
use std::alloc::AllocError;

/// Why nothing is said of workflow files.
#[derive(Debug, Drop)]
pub enum TilesFault {
    /// A file is refused.
    Workflow {
        /// The number of the file, from 0.
        file: usize,
        /// Why.
        fault: PlanFault,
    },
    /// The allocator gave no memory.
    Memory,
}

impl From<AllocError> for TilesFault {
    ghost from_gives = { λ _ fault. fault ≡ Memory };

    fn from(_: AllocError) -> TilesFault {
        TilesFault::Memory
    }
}
