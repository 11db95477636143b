//! Why a file that grows isn't read on.

ghost use Rattle.std.specs.Prelude.{◌≡◌, ◌≢◌};
ghost use Rattle.std.specs.IoError.{error_kind};
ghost use Rattle.std.specs.declared.io.ErrorKind.TheVariants.{OutOfMemory};
ghost use Rattle.grown_file.specs.FaultNumber.{number_of};

use std::alloc::AllocError;
use std::io;
use std::io::ErrorKind;
use thiserror::Error;

/// Why a file that grows isn't read on.
#[derive(Clone, Copy, Debug, Error, PartialEq, Eq)]
pub enum GrownFault {
    /// Its name is by now that of another file, or it is shorter than what was taken of it. So it stays.
    #[error("it is another file, or shorter than what was read of it")]
    Other,
    /// It isn't there, it is no regular file, or it can't be opened or read.
    #[error("it can't be read")]
    CannotRead,
    /// A growth of memory was refused.
    #[error("memory ran out")]
    Memory,
}

impl GrownFault {
    /// The refusal's number: 127, 131 or 72.
    pub fn number(self) -> u8
        ensures { result ≡ number_of self }
    {
        match self {
            GrownFault::Other => 127,
            GrownFault::CannotRead => 131,
            GrownFault::Memory => 72,
        }
    }
}

impl From<AllocError> for GrownFault {
    fn from(_: AllocError) -> GrownFault {
        GrownFault::Memory
    }
}

/// What the system's fault is here.
pub(crate) fn fault_of(fault: &io::Error) -> GrownFault
    ensures memory { error_kind fault.now ≡ OutOfMemory → result ≡ GrownFault.Memory }
    ensures other { error_kind fault.now ≢ OutOfMemory → result ≡ GrownFault.CannotRead }
{
    if fault.kind() == ErrorKind::OutOfMemory {
        GrownFault::Memory
    } else {
        GrownFault::CannotRead
    }
}
