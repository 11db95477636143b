//! Who may do what with a file.

use std::fs::{File, Metadata, Permissions};
use std::io;
use std::os::fd::AsFd;
use std::os::unix::fs::{MetadataExt, PermissionsExt, fchown};

/// The permission bits of a mode.
const PERMISSIONS: u32 = 0o7777;

/// A file's mode, owner and group.
#[derive(Clone, Copy)]
pub(crate) struct Rights {
    mode: u32,
    owner: u32,
    group: u32,
}

impl Rights {
    /// Those of a file of which the system says this.
    pub(crate) fn of(told: &Metadata) -> Rights {
        Rights {
            mode: told.mode() & PERMISSIONS,
            owner: told.uid(),
            group: told.gid(),
        }
    }

    /// Gives them to a file: the owner, or else the group alone, where the system lets the caller, and then the mode.
    pub(crate) fn give(&self, file: &File) -> io::Result<()> {
        if fchown(file.as_fd(), Some(self.owner), Some(self.group)).is_err() {
            let _ = fchown(file.as_fd(), None, Some(self.group));
        }
        file.set_permissions(Permissions::from_mode(self.mode))
    }
}
