//! Why a file can't be kept.

use std::alloc::AllocError;
use thiserror::Error;

/// Why a name can't be that of a file to be kept.
#[derive(Clone, Copy, Debug, Error, PartialEq, Eq)]
pub enum PlaceFault {
    /// Something is there that is no regular file, as a folder, a device, a pipe, or a link to nothing.
    #[error("it is there and no regular file")]
    Irregular,
    /// The system doesn't say what is there.
    #[error("it can't be written")]
    CannotWrite,
    /// A growth of memory was refused.
    #[error("memory ran out")]
    Memory,
}

/// Why a file isn't replaced. It is then what it was before, or what another call made of it.
#[derive(Clone, Copy, Debug, Error, PartialEq, Eq)]
pub enum KeepFault {
    /// It is another file than the one that was found, or was written since, or another call is replacing it.
    #[error("it changed meanwhile")]
    Changed,
    /// It can't be written, put in its place, or brought onto the disk.
    #[error("it can't be written")]
    CannotWrite,
    /// A growth of memory was refused.
    #[error("memory ran out")]
    Memory,
}

impl From<AllocError> for PlaceFault {
    fn from(_: AllocError) -> PlaceFault {
        PlaceFault::Memory
    }
}

impl From<AllocError> for KeepFault {
    fn from(_: AllocError) -> KeepFault {
        KeepFault::Memory
    }
}
