//! What tells one file from another, and a file from what it was before.

use std::fs::Metadata;
use std::os::unix::fs::MetadataExt;

/// Which file it is, and when and to what size it was changed last.
#[derive(Clone, Copy, Debug, PartialEq, Eq)]
pub(crate) struct Stamp {
    device: u64,
    inode: u64,
    size: u64,
    changed: i64,
    changed_nanoseconds: i64,
}

impl Stamp {
    /// That of a file of which the system says this.
    pub(crate) fn of(told: &Metadata) -> Stamp {
        Stamp {
            device: told.dev(),
            inode: told.ino(),
            size: told.len(),
            changed: told.ctime(),
            changed_nanoseconds: told.ctime_nsec(),
        }
    }

    /// Whether the two are one file, whatever was written to it between.
    pub(crate) fn is_file_of(&self, other: &Stamp) -> bool {
        self.device == other.device && self.inode == other.inode
    }
}
