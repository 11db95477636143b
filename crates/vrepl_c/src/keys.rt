//! Keys of rows.

ghost use Rattle.std.specs.Prelude.{◌≡◌, ◌++◌, OnOk, IfOk, map};
ghost use Rattle.std.specs.Result.{result_map_both};
ghost use Rattle.pk_copy.specs.PartValue.{part_value};
ghost use Rattle.vrepl_c.specs.Answer.{Answers, Gives};
ghost use Rattle.vrepl_c.specs.Encoded.{key_bytes, part_bytes, parts_bytes};
ghost use Rattle.vrepl_c.specs.Room.{IsPut};
ghost use Rattle.vrepl_c.specs.Workflows.{keyed, of_row};

use crate::encoded::{push_bytes, push_number};
use crate::room::{MEMORY, put};
use crate::workflow::{plan_of, row_of, table_of};
use pk_copy::{KeyPart, KeyView, key_of};
use std::alloc::{AllocError, Global};
use vindex::Buffer;

/// Adds a part.
fn push_part(into: &mut Vec<u8>, part: &KeyPart<'_>) -> Result<(), AllocError>
    ensures { OnOk result (into.new.items ≡ into.old.items ++ part_bytes (part_value part.now)) }
{
    match part {
        KeyPart::Number(value) => {
            let mut buffer = Buffer::new();
            let digits = buffer.format(*value);
            push_bytes(into, digits.as_bytes())
        }
        KeyPart::Bytes(bytes) => push_bytes(into, bytes),
    }
}

/// Adds parts.
fn push_parts(into: &mut Vec<u8>, parts: &[KeyPart<'_>]) -> Result<(), AllocError>
    ensures { OnOk result (into.new.items ≡ into.old.items ++ parts_bytes (map part_value parts.now)) }
{
    for part in parts {
        push_part(into, part)?;
    }
    Ok(())
}

/// Adds a key.
pub(crate) fn push_key(into: &mut Vec<u8>, key: &KeyView<'_>) -> Result<(), AllocError>
    ensures { OnOk result (into.new.items ≡ into.old.items ++ key_bytes key.now) }
{
    let parts = key.parts();
    push_number(into, parts.len() as u64)?;
    push_parts(into, parts)
}

/// The bytes of a key.
fn bytes_of(alloc: Global, key: &KeyView<'_>) -> Result<Vec<u8>, AllocError>
    ensures { IfOk result (λ bytes. bytes.items ≡ key_bytes key.now) }
{
    let mut bytes = Vec::new(alloc);
    push_key(&mut bytes, key)?;
    Ok(bytes)
}

/// The bytes of the key of a row of a stream's table, or the number of the first refusal.
fn key_bytes_of(
    alloc: Global,
    workflow: &[u8],
    stream: usize,
    table: &[u8],
    message: &[u8],
) -> Result<Vec<u8>, u32>
    ensures { Gives (λ bytes. bytes.items) result (result_map_both key_bytes (λ number. number) (of_row keyed workflow.now stream table.now message.now)) }
{
    let plan = plan_of(alloc, workflow, stream)?;
    let t = table_of(&plan, table)?;
    let row = row_of(&plan, t, message)?;
    match key_of(&plan, t, &row) {
        Err(fault) => Err(u32::from(fault.number())),
        Ok(key) => match bytes_of(alloc, &key) {
            Ok(bytes) => Ok(bytes),
            Err(_) => Err(MEMORY),
        },
    }
}

/// Puts the key of a row of a stream's table, a Row message, into the room, as bytes that are walked over.
#[unsafe(no_mangle)]
pub extern "C" fn vrepl_row_key(
    alloc: Global,
    workflow: &[u8],
    stream: usize,
    table: &[u8],
    row: &[u8],
    room: &mut [u8],
    length: &mut usize,
) -> u32
    ensures { Answers (λ key. IsPut (key_bytes key) room.old room.new length.new) result (of_row keyed workflow.now stream table.now row.now) }
{
    match key_bytes_of(alloc, workflow, stream, table, row) {
        Ok(bytes) => {
            *length = put(&bytes, room);
            0
        }
        Err(number) => number,
    }
}
