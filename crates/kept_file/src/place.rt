//! Where a file is to be kept, and what was found there.

use crate::fault::{KeepFault, PlaceFault};
use crate::new_file::NewFile;
use crate::rights::Rights;
use crate::stamp::Stamp;
use std::fs::{File, Metadata};
use std::io::{ErrorKind, Write};
use std::path::Path;
use std::rt::HostRuntime;
use std::{fs, io};

/// The regular file that was found in a place.
#[derive(Clone, Copy)]
struct Found {
    stamp: Stamp,
    rights: Rights,
}

/// Where a file is to be kept: its name, behind all links, and which file was found there, or put there by a call that goes
/// on to hold it, if any was.
#[derive(Drop)]
pub struct Place {
    file: String,
    found: Option<Found>,
    /// the file that was put there, open and locked
    held: Option<File>,
}

/// A file that is written beside a place, to be put there.
#[derive(Drop)]
pub struct Draft {
    new: NewFile,
    /// the place's folder
    folder: File,
}

impl Draft {
    /// The file, to be written from its front.
    pub fn file(&self) -> &File {
        self.new.file()
    }

    /// Takes it away again.
    pub fn remove(self, rt: &HostRuntime) {
        self.new.remove(rt);
    }
}

impl Place {
    /// The place of the file of this name: what stands there is looked at now, before a command reads its inputs, and has
    /// to be the same when the file is replaced. A link is followed to its file, which is then the one that is replaced,
    /// in its own folder.
    ///
    /// Refused where something stands there that is no regular file, where the system doesn't say what does, and for want
    /// of memory.
    pub fn find(rt: &HostRuntime, file: &str) -> Result<Place, PlaceFault> {
        match fs::symlink_metadata(rt, file) {
            Ok(told) if told.is_symlink() => Place::behind_link(rt, file),
            Ok(told) => Place::of_file(String::from_str(rt.alloc(), file)?, &told),
            Err(fault) if fault.kind() == ErrorKind::NotFound => Ok(Place {
                file: String::from_str(rt.alloc(), file)?,
                found: None,
                held: None,
            }),
            Err(fault) => Err(untold(&fault)),
        }
    }

    /// The place of the file behind a link.
    fn behind_link(rt: &HostRuntime, link: &str) -> Result<Place, PlaceFault> {
        let file = match fs::canonicalize(rt, link) {
            Ok(file) => file.into_string(),
            Err(fault) if fault.kind() == ErrorKind::NotFound => return Err(PlaceFault::Irregular),
            Err(fault) => return Err(untold(&fault)),
        };
        match fs::symlink_metadata(rt, file.as_str()) {
            Ok(told) => Place::of_file(file, &told),
            Err(fault) => Err(untold(&fault)),
        }
    }

    /// The place of a file of which the system says this.
    fn of_file(file: String, told: &Metadata) -> Result<Place, PlaceFault> {
        if told.is_file() {
            Ok(Place {
                file,
                found: Some(Found {
                    stamp: Stamp::of(told),
                    rights: Rights::of(told),
                }),
                held: None,
            })
        } else {
            Err(PlaceFault::Irregular)
        }
    }

    /// Whether one of these names is one of the file that was found, by device and inode. A name of nothing is none.
    pub fn is_one_of(&self, rt: &HostRuntime, names: &[&str]) -> bool {
        match &self.found {
            None => false,
            Some(found) => names.iter().any(|name| is_name_of(rt, name, &found.stamp)),
        }
    }

    /// Writes these bytes to a file of its own beside the place, with the mode, and as far as the system lets it the owner
    /// and the group, of the file that was found, if one was; and, once all of them are on the disk, puts it there. So
    /// the file is at any time what it was before or all of the bytes, also where the program is stopped; and it isn't
    /// replaced where it is no longer the one that was found.
    ///
    /// After a refusal the file is as it was, or as another call left it, and nothing stays beside it; but where the
    /// folder couldn't be brought onto the disk (`CannotWrite`) it can be either.
    pub fn replace(&self, rt: &HostRuntime, bytes: &[u8]) -> Result<(), KeepFault> {
        let draft = self.begin_with(rt, bytes)?;
        self.end(rt, draft)
    }

    /// The same, and holds the place from then on: its file is then the one that was put there, which is locked as long as
    /// the place lives. So a call that keeps one file many times lets no other call replace it in between, and what
    /// another program puts there all the same stays (`Changed`).
    ///
    /// After a refusal the file is as `replace` says, and it can be tried again; where the folder couldn't be brought onto
    /// the disk (`CannotWrite`) the file that is there is held.
    pub fn replace_again(&mut self, rt: &HostRuntime, bytes: &[u8]) -> Result<(), KeepFault> {
        let Draft { new, folder } = self.begin_with(rt, bytes)?;
        if let Err(fault) = new.finish_locked() {
            new.remove(rt);
            return Err(fault);
        }
        let file = self.put(rt, new)?;
        self.hold(file);
        folder.sync_all().map_err(|_| KeepFault::CannotWrite)
    }

    /// A file of its own beside the place, with these bytes.
    fn begin_with(&self, rt: &HostRuntime, bytes: &[u8]) -> Result<Draft, KeepFault> {
        let draft = self.begin(rt)?;
        let mut file = draft.file();
        match file.write_all(bytes) {
            Ok(()) => Ok(draft),
            Err(_) => {
                draft.remove(rt);
                Err(KeepFault::CannotWrite)
            }
        }
    }

    /// The file that was put there is the one that is replaced next. Where the system doesn't say which one that is, the next
    /// call finds another one than it knows.
    fn hold(&mut self, file: File) {
        if let Ok(told) = file.metadata() {
            self.found = Some(Found {
                stamp: Stamp::of(&told),
                rights: Rights::of(&told),
            });
        }
        self.held = Some(file);
    }

    /// A file of its own beside the place, to be written by the caller, who then ends it by `end` or takes it away by
    /// `Draft::remove`.
    pub fn begin(&self, rt: &HostRuntime) -> Result<Draft, KeepFault> {
        let folder = open_folder(rt, self.file.as_str())?;
        let rights = self.found.as_ref().map(|found| found.rights);
        let new = NewFile::create(rt, self.file.as_str(), rights)?;
        Ok(Draft { new, folder })
    }

    /// Puts a draft that was begun for this place and is written whole in the place, as `replace` puts its file.
    pub fn end(&self, rt: &HostRuntime, draft: Draft) -> Result<(), KeepFault> {
        let Draft { new, folder } = draft;
        if new.finish().is_err() {
            new.remove(rt);
            return Err(KeepFault::CannotWrite);
        }
        let _put = self.put(rt, new)?;
        folder.sync_all().map_err(|_| KeepFault::CannotWrite)
    }

    /// Puts a new file in the place, and gives it, open. Once it is renamed its own name is anybody's, and isn't taken away.
    fn put(&self, rt: &HostRuntime, new: NewFile) -> Result<File, KeepFault> {
        let put = match &self.found {
            None => self.put_first(rt, new.name()),
            Some(found) => match self.put_over(rt, new.name(), &found.stamp) {
                Ok(()) => return Ok(new.into_file()),
                Err(fault) => Err(fault),
            },
        };
        let file = new.remove(rt);
        put?;
        Ok(file)
    }

    /// Gives the new file of this name that of the place, where nothing was found: a file that is there by now stays.
    fn put_first(&self, rt: &HostRuntime, new: &str) -> Result<(), KeepFault> {
        match fs::hard_link(rt, new, self.file.as_str()) {
            Ok(()) => Ok(()),
            Err(fault) if fault.kind() == ErrorKind::AlreadyExists => Err(KeepFault::Changed),
            Err(_) => Err(KeepFault::CannotWrite),
        }
    }

    /// Names the new file as the one that was found, of which one call at a time holds the lock.
    fn put_over(&self, rt: &HostRuntime, new: &str, found: &Stamp) -> Result<(), KeepFault> {
        if let Some(held) = &self.held {
            return self.put_over_open(rt, new, found, held);
        }
        let old = match File::open(rt, self.file.as_str()) {
            Ok(old) => old,
            Err(fault) if fault.kind() == ErrorKind::NotFound => return Err(KeepFault::Changed),
            Err(_) => return Err(KeepFault::CannotWrite),
        };
        if old.try_lock().is_err() {
            return Err(KeepFault::Changed);
        }
        self.put_over_open(rt, new, found, &old)
    }

    /// The same over a file that is open and locked.
    fn put_over_open(
        &self,
        rt: &HostRuntime,
        new: &str,
        found: &Stamp,
        old: &File,
    ) -> Result<(), KeepFault> {
        if !self.is_still(rt, found) || !is_open(old, found) {
            return Err(KeepFault::Changed);
        }
        fs::rename(rt, new, self.file.as_str()).map_err(|_| KeepFault::CannotWrite)
    }

    /// Whether the file that was found is there as it was.
    fn is_still(&self, rt: &HostRuntime, found: &Stamp) -> bool {
        match fs::symlink_metadata(rt, self.file.as_str()) {
            Ok(told) => Stamp::of(&told) == *found,
            Err(_) => false,
        }
    }
}

/// Whether an open file is the one that was found, as it was.
fn is_open(file: &File, found: &Stamp) -> bool {
    match file.metadata() {
        Ok(told) => Stamp::of(&told) == *found,
        Err(_) => false,
    }
}

/// Whether this is a name of the file that was found.
fn is_name_of(rt: &HostRuntime, name: &str, found: &Stamp) -> bool {
    match fs::metadata(rt, name) {
        Ok(told) => Stamp::of(&told).is_file_of(found),
        Err(_) => false,
    }
}

/// The folder of a file, opened.
fn open_folder(rt: &HostRuntime, file: &str) -> Result<File, KeepFault> {
    let folder = match Path::new(file).parent() {
        Some(folder) if !folder.as_str().is_empty() => folder.as_str(),
        _ => ".",
    };
    File::open(rt, folder).map_err(|_| KeepFault::CannotWrite)
}

/// What is answered where the system doesn't say what stands in a place.
fn untold(fault: &io::Error) -> PlaceFault {
    if fault.kind() == ErrorKind::OutOfMemory {
        PlaceFault::Memory
    } else {
        PlaceFault::CannotWrite
    }
}
