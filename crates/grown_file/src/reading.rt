//! Bytes of an input, up to a number.

ghost use Rattle.std.specs.Prelude.{◌≡◌, ◌≤◌, length, take, IfOk, IfSome};

use crate::fault::{GrownFault, fault_of};
use std::alloc::Global;
use std::io::{ErrorKind, Read, Seek, SeekFrom};

/// The most bytes that one read gives.
const CHUNK: usize = 65536;

/// The reads that a piece may have.
const READS: u64 = 1 << 32;

/// The next bytes of an input: `most`, or all that are left where these are fewer. It has 2^32 reads. Memory is taken at
/// once for so many bytes.
fn read_up_to<R: Read>(alloc: Global, input: &mut R, most: usize) -> Result<Vec<u8>, GrownFault>
    ensures bytes { IfOk result (λ bytes. IfSome (R.remaining input.old) (λ left. bytes.items ≡ take most left)) }
    ensures few { IfOk result (λ bytes. length bytes.items ≤ most) }
{
    let mut bytes = Vec::with_capacity(alloc, most)?;
    let mut chunk = [0u8; CHUNK];
    for _read in 0..READS {
        let room = (most - bytes.len()).min(CHUNK);
        if room == 0 {
            return Ok(bytes);
        }
        match input.read(&mut chunk[..room]) {
            Ok(0) => return Ok(bytes),
            Ok(count) => bytes.extend_from_slice(&chunk[..count])?,
            Err(fault) => {
                if fault.kind() != ErrorKind::Interrupted {
                    return Err(fault_of(&fault));
                }
            }
        }
    }
    Err(GrownFault::CannotRead)
}

/// The bytes of a file from a place on: `most`, or all that are left where these are fewer.
pub(crate) fn read_from<F: Read + Seek>(
    alloc: Global,
    file: &mut F,
    place: u64,
    most: usize,
) -> Result<Vec<u8>, GrownFault>
    ensures few { IfOk result (λ bytes. length bytes.items ≤ most) }
{
    match file.seek(SeekFrom::Start(place)) {
        Ok(_) => read_up_to(alloc, file, most),
        Err(fault) => Err(fault_of(&fault)),
    }
}
