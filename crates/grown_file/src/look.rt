//! What the system says of a file.

use std::fs::Metadata;
use std::os::unix::fs::MetadataExt;

/// Which file it is.
#[derive(Clone, Copy, Debug, PartialEq, Eq)]
pub(crate) struct FileId {
    device: u64,
    inode: u64,
}

impl FileId {
    /// That of a file of which the system says this.
    pub(crate) fn of(told: &Metadata) -> FileId {
        FileId {
            device: told.dev(),
            inode: told.ino(),
        }
    }
}

/// How long a file is, and when it was changed last.
#[derive(Clone, Copy, Debug, PartialEq, Eq)]
pub(crate) struct Look {
    pub(crate) length: u64,
    changed: i64,
    changed_nanoseconds: i64,
}

impl Look {
    /// That of a file of which the system says this.
    pub(crate) fn of(told: &Metadata) -> Look {
        Look {
            length: told.len(),
            changed: told.ctime(),
            changed_nanoseconds: told.ctime_nsec(),
        }
    }
}
