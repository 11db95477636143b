//! A file that grows.

ghost use Rattle.std.specs.Prelude.{◌≡◌, ◌+◌, ◌-◌, ◌≤◌, length, min, IfOk, OnErr};

use crate::fault::{GrownFault, fault_of};
use crate::look::{FileId, Look};
use crate::reading::read_from;
use std::fs;
use std::fs::File;
use std::marker::Model;
use std::rt::HostRuntime;

/// The most bytes by which a file is read on at once.
pub const PIECE_BYTES: u64 = 1 << 26;

/// The most bytes by which it is read on where it is read whole.
const WHOLE_BYTES: u64 = 1 << 31;

/// A file that grows while it is read: it is opened once, and known by its device and inode. Bytes of it are given, and the
/// caller says how many of them it takes: the rest is given again with more behind it.
#[derive(Drop)]
pub struct GrownFile<'w> {
    name: &'w str,
    file: File,
    id: FileId,
    /// How many bytes are taken.
    taken: u64,
    /// How many behind these were given at the last look, and aren't taken.
    ahead: u64,
    /// How far bytes were given of which some, or none, were taken.
    read: u64,
    /// The last look.
    look: Look,
    /// The last look at which it was said how many bytes were taken.
    settled: Option<Look>,
}

impl<'w> Model for GrownFile<'w> {
    ghost use Rattle.std.specs.Prelude.{◌+◌, ◌<◌, ◌^◌};
    ghost use Rattle.grown_file.specs.GrownValue.{GrownValue};

    ghost Value = { GrownValue };

    ghost view = { λ f. record { taken = f.taken; ahead = f.ahead; length = f.look.length } };

    ghost invariant = { λ f. f.taken + f.ahead < 2 ^ 64 };
}

impl<'w> GrownFile<'w> {
    /// The file of this name, of which nothing is read yet. Refused where it can't be opened or is no regular file, and for
    /// want of memory.
    pub fn open(rt: &HostRuntime, name: &'w str) -> Result<GrownFile<'w>, GrownFault>
        ensures { IfOk result (λ file. (file.taken ≡ 0) × (file.ahead ≡ 0)) }
    {
        let file = File::open(rt, name).map_err(|fault| fault_of(&fault))?;
        let told = file.metadata().map_err(|fault| fault_of(&fault))?;
        if !told.is_file() {
            return Err(GrownFault::CannotRead);
        }
        Ok(GrownFile {
            name,
            file,
            id: FileId::of(&told),
            taken: 0,
            ahead: 0,
            read: 0,
            look: Look::of(&told),
            settled: None,
        })
    }

    /// The bytes behind those that are taken, 2^31 of them at most, as `appended` gives them: for its first look.
    pub fn whole(&mut self, rt: &HostRuntime) -> Result<Vec<u8>, GrownFault>
        ensures given { IfOk result (λ bytes. length bytes.items ≡ self.new.ahead) }
        ensures taken { self.new.taken ≡ self.old.taken }
        ensures left { OnErr result (self.new ≡ self.old) }
    {
        self.read_on(rt, WHOLE_BYTES)
    }

    /// The bytes behind those that are taken: those that were given before and not taken, and then at most 2^26 more.
    /// Nothing is read, and no bytes are given, where the file is as it was when bytes were given last, and all of it was.
    ///
    /// Refused, and then nothing changes: where another file has its name by now, or it is shorter than what was taken of it;
    /// where it can't be read; for want of memory.
    pub fn appended(&mut self, rt: &HostRuntime) -> Result<Vec<u8>, GrownFault>
        ensures given { IfOk result (λ bytes. length bytes.items ≡ self.new.ahead) }
        ensures taken { self.new.taken ≡ self.old.taken }
        ensures left { OnErr result (self.new ≡ self.old) }
    {
        self.read_on(rt, PIECE_BYTES)
    }

    /// The same with at most so many more.
    fn read_on(&mut self, rt: &HostRuntime, more: u64) -> Result<Vec<u8>, GrownFault>
        ensures given { IfOk result (λ bytes. length bytes.items ≡ self.new.ahead) }
        ensures taken { self.new.taken ≡ self.old.taken }
        ensures left { OnErr result (self.new ≡ self.old) }
    {
        let look = self.looked_at(rt)?;
        let bytes = self.bytes_of(rt, &look, more)?;
        self.ahead = bytes.len() as u64;
        self.look = look;
        Ok(bytes)
    }

    /// What the system says of it now.
    fn looked_at(&self, rt: &HostRuntime) -> Result<Look, GrownFault>
        ensures { IfOk result (λ look. self.now.taken ≤ look.length) }
    {
        let told = fs::metadata(rt, self.name).map_err(|fault| fault_of(&fault))?;
        let look = Look::of(&told);
        if FileId::of(&told) != self.id || look.length < self.taken {
            return Err(GrownFault::Other);
        }
        Ok(look)
    }

    /// The bytes behind those that are taken of a file that looks so, with at most so many more than before.
    fn bytes_of(&self, rt: &HostRuntime, look: &Look, more: u64) -> Result<Vec<u8>, GrownFault>
        requires { self.now.taken ≤ look.now.length }
        ensures { IfOk result (λ bytes. self.now.taken + length bytes.items ≤ look.now.length) }
    {
        if self.settled == Some(*look) && look.length <= self.read {
            return Ok(Vec::new(rt.alloc()));
        }
        let end = self
            .read
            .max(self.taken)
            .saturating_add(more)
            .min(look.length);
        let mut file = &self.file;
        read_from(
            rt.alloc(),
            &mut file,
            self.taken,
            (end - self.taken) as usize,
        )
    }

    /// So many of the bytes that were given last are taken, all of them where these are fewer; the others are given again
    /// once there are more. To be called, with 0 too, whenever given bytes were looked at: else they are given again.
    pub fn take(&mut self, bytes: u64)
        ensures taken { self.new.taken ≡ self.old.taken + min bytes self.old.ahead }
        ensures ahead { self.new.ahead ≡ self.old.ahead - bytes }
        ensures length { self.new.length ≡ self.old.length }
    {
        let taken = bytes.min(self.ahead);
        self.read = self.read.max(self.taken + self.ahead);
        self.taken += taken;
        self.ahead -= taken;
        self.settled = Some(self.look);
    }

    /// How many bytes are taken.
    pub fn taken(&self) -> u64
        ensures { result ≡ self.now.taken }
    {
        self.taken
    }

    /// How many bytes it had behind these at the last look.
    pub fn tail(&self) -> u64
        ensures { result ≡ self.now.length - self.now.taken }
    {
        self.look.length.saturating_sub(self.taken)
    }
}
