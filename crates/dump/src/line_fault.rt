//! Why a line of a dump isn't read.

use std::alloc::{AllocError, AllocFailed};

/// Why a line isn't read.
#[derive(Clone, Copy, Debug, PartialEq, Eq)]
pub(crate) enum LineFault {
    /// It can't stand there.
    Bad,
    /// A growth of memory was refused.
    Memory,
}

impl From<AllocError> for LineFault {
    ghost use Rattle.std.specs.Prelude.{◌≡◌};
    ghost use Rattle.dump.specs.declared.line_fault.LineFault.TheVariants.{Memory};

    ghost from_gives = { λ _ fault. fault ≡ Memory };

    fn from(_: AllocError) -> LineFault {
        LineFault::Memory
    }
}

impl<T: Drop> From<AllocFailed<T>> for LineFault {
    ghost use Rattle.std.specs.Prelude.{◌≡◌};
    ghost use Rattle.dump.specs.declared.line_fault.LineFault.TheVariants.{Memory};

    ghost from_gives = { λ _ fault. fault ≡ Memory };

    fn from(_: AllocFailed<T>) -> LineFault {
        LineFault::Memory
    }
}
