//! Files and standard input, read whole.

ghost use Rattle.std.specs.Prelude.{◌≡◌, ◌≢◌, [], ◌*◌, ◌^◌, ◌≤◌, length, IfOk, IfErr, IfSome, OnOk, IsErr, codes};
ghost use Rattle.std.specs.Str.{bytes_eq};
ghost use Rattle.std.specs.Io.KnownBytes.{IsAtEnd};
ghost use Rattle.std.specs.IoError.{error_kind};
ghost use Rattle.std.specs.declared.io.ErrorKind.TheVariants.{OutOfMemory};
ghost use Rattle.vrepl_main.specs.InputList.{bytes_of};
ghost use Rattle.vrepl_main.specs.Inputs.{is_standard, input_name, AreGiven, IsUnread, IsUnreadAmong};

use crate::progress::{Reading, Untold};
use crate::refusal::CommandRefusal;
use crate::source::Source;
use std::alloc::Global;
use std::fs::{File, OpenFile};
use std::io;
use std::io::Read;
use std::rt::Files;
use thiserror::Error;

/// Why an input isn't there whole.
#[derive(Clone, Copy, Debug, PartialEq, Eq, Error)]
pub enum InputFault {
    /// It can't be opened, a read failed, or it hadn't ended after the last read that it may have.
    #[error("the input can't be read")]
    CannotRead,
    /// A growth of memory was refused.
    #[error("out of memory")]
    Memory,
}

/// The reads that an input may have, the one that finds its end among them.
const READS: u64 = 1 << 32;

/// The most bytes that one read gives.
const CHUNK: usize = 65536;

/// The most bytes for which room is made before a file is read.
const MOST_ROOM: u64 = 1 << 31;

/// Where an input comes from.
#[derive(Clone, Copy)]
pub enum InputName<'w> {
    /// The file of this name, which may be `-`.
    File(&'w str),
    /// Standard input.
    Standard,
}

impl<'w> InputName<'w> {
    /// What a word names: standard input for `-`, else the file.
    pub fn of_word(word: &'w str) -> InputName<'w>
        ensures name { input_name result ≡ word.now }
        ensures standard { is_standard result ≡ bytes_eq word.now (codes "-") }
    {
        if word == "-" {
            InputName::Standard
        } else {
            InputName::File(word)
        }
    }

    /// The name in the line of a refusal: `-` for standard input.
    pub fn text(&self) -> &'w str
        ensures { result.now ≡ input_name self.now }
    {
        match self {
            InputName::File(name) => name,
            InputName::Standard => "-",
        }
    }
}

/// The bytes of inputs, read one after another, of which `told` is told. The first that can't be read is
/// refused, and then no later one is asked for.
pub fn read_inputs<'w, R: Source + AllocGlobal, G: Reading>(
    rt: &R,
    told: &G,
    names: &[InputName<'w>],
) -> Result<Vec<Vec<u8>>, CommandRefusal<'w>>
    ensures all { IfOk result (λ inputs. length inputs.items ≡ length names.now) }
    // Each is read under the name at its place.
    ensures given { IfOk result (λ inputs. AreGiven (R.gives rt.now) names.now (bytes_of inputs.items)) }
    ensures refused { IfErr result (IsUnreadAmong names.now) }
{
    let mut inputs = Vec::with_capacity(rt.alloc(), names.len())?;
    for name in names {
        let read = read_input(rt, told, *name)?;
        if inputs.push(read).is_err() {
            return Err(CommandRefusal::Memory);
        }
    }
    Ok(inputs)
}

/// The bytes of an input, of which `told` is told.
pub fn read_input<'w, R: Source, G: Reading>(
    rt: &R,
    told: &G,
    name: InputName<'w>,
) -> Result<Vec<u8>, CommandRefusal<'w>>
    ensures given { IfOk result (λ bytes. R.gives rt.now name.entry bytes.items) }
    ensures refused { IfErr result (IsUnread (input_name name.entry)) }
{
    rt.read_named(told, name)
}

/// The bytes of an input that the system gives, of which `told` is told.
pub(crate) fn read_system_input<'w, R: Files + Input + AllocGlobal, G: Reading>(
    rt: &R,
    told: &G,
    name: InputName<'w>,
) -> Result<Vec<u8>, CommandRefusal<'w>>
    ensures refused { IfErr result (IsUnread (input_name name.entry)) }
{
    let read = match name {
        InputName::Standard => read_behind(Vec::new(rt.alloc()), told, &mut rt.reader(), READS),
        InputName::File(file) => read_file(rt, told, file),
    };
    match read {
        Ok(bytes) => Ok(bytes),
        Err(fault) => Err(unread(fault, name)),
    }
}

/// The refusal of an input that isn't there whole.
fn unread<'w>(fault: InputFault, name: InputName<'w>) -> CommandRefusal<'w>
    ensures { IsUnread (input_name name.entry) result }
{
    match fault {
        InputFault::CannotRead => CommandRefusal::CannotRead { file: name.text() },
        InputFault::Memory => CommandRefusal::Memory,
    }
}

/// The bytes of the file of this name, which may be `-`.
fn read_file<R: Files + AllocGlobal, G: Reading>(
    rt: &R,
    told: &G,
    file: &str,
) -> Result<Vec<u8>, InputFault> {
    let opened = File::open(rt, file);
    let room = length_of(&opened);
    read_opened(rt.alloc(), told, opened, room)
}

/// How many bytes a file is said to have, of which some may lack or more come; 0 where it isn't said.
fn length_of<F: OpenFile>(opened: &io::Result<F>) -> usize {
    match opened {
        Ok(file) => match file.metadata() {
            Ok(told) => told.len().min(MOST_ROOM) as usize,
            Err(_) => 0,
        },
        Err(_) => 0,
    }
}

/// No bytes, with room for so many where memory for them is there.
fn none_with_room(alloc: Global, room: usize) -> Vec<u8>
    ensures { result.items ≡ [] }
{
    match Vec::with_capacity(alloc, room) {
        Ok(bytes) => bytes,
        Err(_) => Vec::new(alloc),
    }
}

/// The bytes of a file that was opened, or why it wasn't. Where there is memory, room for so many is made first.
fn read_opened<F: Read + Drop, G: Reading>(
    alloc: Global,
    told: &G,
    opened: io::Result<F>,
    room: usize,
) -> Result<Vec<u8>, InputFault>
    ensures whole { IfOk opened (λ file. IfOk result (λ bytes. IfSome (F.remaining file) (λ left. bytes.items ≡ left))) }
    ensures unopened { IfErr opened (λ _. IsErr result) }
{
    match opened {
        Ok(mut file) => read_behind(none_with_room(alloc, room), told, &mut file, READS),
        Err(fault) => Err(fault_of(&fault)),
    }
}

/// All the bytes that the input has left. It has 2^32 reads to come to its end.
pub fn read_whole<R: Read>(alloc: Global, input: &mut R) -> Result<Vec<u8>, InputFault>
    ensures whole { IfOk result (λ bytes. IfSome (R.remaining input.old) (λ left. bytes.items ≡ left)) }
    ensures end { OnOk result (IsAtEnd (R.remaining input.new)) }
    ensures limit { IfSome (R.remaining input.old) (λ left. 2 ^ 32 * CHUNK ≤ length left → IsErr result) }
{
    read_within(alloc, input, READS)
}

/// All the bytes that the input has left, within so many reads, the one that finds its end among
/// them.
pub fn read_within<R: Read>(alloc: Global, input: &mut R, reads: u64) -> Result<Vec<u8>, InputFault>
    ensures whole { IfOk result (λ bytes. IfSome (R.remaining input.old) (λ left. bytes.items ≡ left)) }
    ensures end { OnOk result (IsAtEnd (R.remaining input.new)) }
    ensures limit { IfSome (R.remaining input.old) (λ left. reads * CHUNK ≤ length left → IsErr result) }
{
    read_behind(Vec::new(alloc), &Untold, input, reads)
}

/// The same in a vector in which nothing is yet; `told` is told of each read.
fn read_behind<R: Read, G: Reading>(
    mut bytes: Vec<u8>,
    told: &G,
    input: &mut R,
    reads: u64,
) -> Result<Vec<u8>, InputFault>
    requires { bytes.items ≡ [] }
    ensures whole { IfOk result (λ read. IfSome (R.remaining input.old) (λ left. read.items ≡ left)) }
    ensures end { OnOk result (IsAtEnd (R.remaining input.new)) }
    ensures limit { IfSome (R.remaining input.old) (λ left. reads * CHUNK ≤ length left → IsErr result) }
{
    let mut chunk = [0u8; CHUNK];
    for _read in 0..reads {
        match input.read(&mut chunk) {
            Ok(0) => return Ok(bytes),
            Ok(count) => {
                if bytes.extend_from_slice(&chunk[..count]).is_err() {
                    return Err(InputFault::Memory);
                }
                told.has_read(count);
            }
            Err(fault) => {
                if fault.kind() != io::ErrorKind::Interrupted {
                    return Err(fault_of(&fault));
                }
            }
        }
    }
    Err(InputFault::CannotRead)
}

fn fault_of(fault: &io::Error) -> InputFault
    ensures memory { error_kind fault.now ≡ OutOfMemory → result ≡ InputFault.Memory }
    ensures other { error_kind fault.now ≢ OutOfMemory → result ≡ InputFault.CannotRead }
{
    if fault.kind() == io::ErrorKind::OutOfMemory {
        InputFault::Memory
    } else {
        InputFault::CannotRead
    }
}
