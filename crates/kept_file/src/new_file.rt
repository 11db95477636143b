//! The file that is written beside one which is to be replaced.

use crate::fault::KeepFault;
use crate::rights::Rights;
use std::fs::{File, OpenOptions};
use std::io::ErrorKind;
use std::os::unix::fs::OpenOptionsExt;
use std::path::Path;
use std::rt::HostRuntime;
use std::{fs, io, process};

/// How many names are tried before it is given up.
const NAMES: u32 = 1000;

/// How many bytes of a name the names beside it have at most, so that these are short enough for the system.
const FRONT: usize = 200;

/// The mode of a file while it is written that is to have the rights of another one.
const OWN: u32 = 0o600;

/// The mode of a file that is new, less what the process's mask takes off.
const ANY: u32 = 0o666;

/// A file of this process's own.
#[derive(Drop)]
pub(crate) struct NewFile {
    name: String,
    file: File,
    rights: Option<Rights>,
}

impl NewFile {
    /// A new file beside one of this name; for the eyes of its owner alone where it is to have the rights of another.
    /// Nothing that is there is opened, and no link followed.
    pub(crate) fn create(
        rt: &HostRuntime,
        beside: &str,
        rights: Option<Rights>,
    ) -> Result<NewFile, KeepFault> {
        let mut options = OpenOptions::new();
        let first = if rights.is_some() { OWN } else { ANY };
        options.write(true).create_new(true).mode(first);
        for number in 0..NAMES {
            let name = name_beside(rt, beside, number)?;
            match options.open(rt, name.as_str()) {
                Ok(file) => return Ok(NewFile { name, file, rights }),
                Err(fault) if fault.kind() == ErrorKind::AlreadyExists => {}
                Err(_) => return Err(KeepFault::CannotWrite),
            }
        }
        Err(KeepFault::CannotWrite)
    }

    /// Its name.
    pub(crate) fn name(&self) -> &str {
        self.name.as_str()
    }

    /// The file, which is open to be written.
    pub(crate) fn file(&self) -> &File {
        &self.file
    }

    /// Gives the file its rights, and waits until all of it is on the disk.
    pub(crate) fn finish(&self) -> io::Result<()> {
        if let Some(rights) = &self.rights {
            rights.give(&self.file)?;
        }
        self.file.sync_all()
    }

    /// The same, and locks it, as a file is that a call replaces.
    pub(crate) fn finish_locked(&self) -> Result<(), KeepFault> {
        if self.finish().is_err() || self.file.try_lock().is_err() {
            return Err(KeepFault::CannotWrite);
        }
        Ok(())
    }

    /// Takes its name away.
    pub(crate) fn remove(self, rt: &HostRuntime) -> File {
        let _ = fs::remove_file(rt, self.name.as_str());
        self.into_file()
    }

    /// The file, which is open, whatever its name is.
    pub(crate) fn into_file(self) -> File {
        let NewFile {
            name: _,
            file,
            rights: _,
        } = self;
        file
    }
}

/// The name of this number that a new file of this process has beside a file.
fn name_beside(rt: &HostRuntime, file: &str, number: u32) -> Result<String, KeepFault> {
    let path = Path::new(file);
    let whole = path.file_name().unwrap_or("");
    let front = &whole[..whole.floor_char_boundary(FRONT)];
    let process = process::id(rt.process());
    let name = format!(in rt.alloc(); ".{front}.{process}-{number}.new")?;
    Ok(
        path.with_file_name(rt.alloc(), name.as_str())?
            .into_string(),
    )
}
