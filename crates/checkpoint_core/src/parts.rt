//! The parts of a checkpoint, one behind another.

ghost use Rattle.std.specs.Prelude.{◌≡◌, ◌++◌, ℕ, List, Err, IfOk, IfErr};
ghost use Rattle.vevent.specs.CheckpointPart.{StreamPartValue};
ghost use Rattle.checkpoint_laws.specs.declared.version.Version.{Version};
ghost use Rattle.checkpoint_laws.specs.Written.{opening};
ghost use Rattle.checkpoint_core.specs.Fault.{IsNothing, HasParts};
ghost use Rattle.checkpoint_core.specs.Private.Reading.{AreFramed, AreSoManyParts, IsPartOf};

use crate::fault::ReadFault;
use checkpoint_laws::Version;
use proto_wire::Frames;
use std::alloc::Global;
use vevent::StreamPart;

/// The parts of a checkpoint of a version.
#[derive(Drop)]
pub(crate) struct CheckpointParts<'b> {
    pub(crate) version: Version,
    pub(crate) streams: Vec<StreamPart<'b>>,
}

/// The version of a checkpoint, and what stands behind its first bytes.
#[derive(Clone, Copy)]
struct Opened<'b> {
    version: Version,
    rest: &'b [u8],
}

/// The version of a checkpoint by the bytes with which it begins, and what stands behind them.
fn behind_opening(bytes: &[u8]) -> Result<Opened<'_>, ReadFault>
    ensures ok { IfOk result (λ found. bytes.now ≡ opening found.version ++ found.rest.now) }
    ensures err { IfErr result (IsNothing (λ (found : Version × List ℕ). bytes.now ≡ opening found.0 ++ found.1)) }
    ensures broken { IfErr result (λ fault. fault ≡ ReadFault.Broken) }
{
    match bytes.strip_prefix(b"VREPLCP2") {
        Some(rest) => Ok(Opened {
            version: Version::Two,
            rest,
        }),
        None => match bytes.strip_prefix(b"VREPLCP1") {
            Some(rest) => Ok(Opened {
                version: Version::One,
                rest,
            }),
            None => Err(ReadFault::Broken),
        },
    }
}

/// The stream's part that a message is.
fn part_of(message: &[u8]) -> Result<StreamPart<'_>, ReadFault>
    ensures ok { IfOk result (λ part. IsPartOf message.now part) }
    ensures err { IfErr result (IsNothing (IsPartOf message.now)) }
    ensures broken { IfErr result (λ fault. fault ≡ ReadFault.Broken) }
{
    match StreamPart::read(message) {
        Err(_) => Err(ReadFault::Broken),
        Ok(part) => Ok(part),
    }
}

/// Why the parts aren't read where a growth was refused: that there aren't so many of them, each behind its
/// length, and else want of memory. Takes no memory.
fn wanted(rest: &[u8], count: usize) -> ReadFault
    ensures refused { IsNothing (AreFramed rest.now count) result }
    ensures memory { result ≡ ReadFault.Memory → (parts : List StreamPartValue) × AreFramed rest.now count parts }
{
    let mut frames = Frames::new(rest);
    let mut read: usize = 0;
    loop {
        match frames.next_frame() {
            Err(_) => return ReadFault::Broken,
            Ok(None) => {
                if read != count {
                    return ReadFault::Broken;
                }
                return ReadFault::Memory;
            }
            Ok(Some(message)) => {
                if read == count {
                    return ReadFault::Broken;
                }
                if part_of(message).is_err() {
                    return ReadFault::Broken;
                }
                read += 1;
            }
        }
    }
}

/// The parts of which there are so many, each behind its length.
fn framed_parts<'b>(
    alloc: Global,
    rest: &'b [u8],
    count: usize,
) -> Result<Vec<StreamPart<'b>>, ReadFault>
    ensures ok { IfOk result (λ parts. AreFramed rest.now count parts.items) }
    ensures err { IfErr result (IsNothing (AreFramed rest.now count)) }
    ensures memory { result ≡ Err ReadFault.Memory → (parts : List StreamPartValue) × AreFramed rest.now count parts }
{
    let mut frames = Frames::new(rest);
    let mut parts = Vec::new(alloc);
    loop {
        match frames.next_frame() {
            Err(_) => return Err(ReadFault::Broken),
            Ok(None) => {
                if parts.len() != count {
                    return Err(ReadFault::Broken);
                }
                return Ok(parts);
            }
            Ok(Some(message)) => {
                if parts.len() == count {
                    return Err(ReadFault::Broken);
                }
                if parts.push(part_of(message)?).is_err() {
                    return Err(wanted(rest, count));
                }
            }
        }
    }
}

/// The parts of a checkpoint of so many streams.
pub(crate) fn read_parts<'b>(
    alloc: Global,
    bytes: &'b [u8],
    count: usize,
) -> Result<CheckpointParts<'b>, ReadFault>
    ensures ok { IfOk result (λ parts. AreSoManyParts parts.version bytes.now count parts.streams.items) }
    ensures err { IfErr result (IsNothing (λ (found : Version × List StreamPartValue). AreSoManyParts found.0 bytes.now count found.1)) }
    ensures memory { result ≡ Err ReadFault.Memory → HasParts bytes.now count }
{
    let opened = behind_opening(bytes)?;
    let streams = framed_parts(alloc, opened.rest, count)?;
    Ok(CheckpointParts {
        version: opened.version,
        streams,
    })
}
