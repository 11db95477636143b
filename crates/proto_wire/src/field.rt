//! One field at the front of the bytes.

ghost use Rattle.std.specs.Prelude.{◌≡◌, Ok, IfSome};
ghost use Rattle.std.specs.Option.{option_map};
ghost use Rattle.list_laws.specs.Outcome.{Gives};
ghost use Rattle.proto_wire.specs.Field.{wire_value, wire_field, bytes_at, sized_at, number_at, payload_at, field_at};

use crate::fault::WireFault;
use crate::varint::{short_varint_of, varint_of};

/// What a field holds, by its wire type. Slices lie in the buffer that was read.
#[derive(Clone, Copy, Debug, PartialEq, Eq)]
pub enum Payload<'b> {
    /// Wire type 0: a varint.
    Varint(u64),
    /// Wire type 1: eight bytes.
    Eight(&'b [u8; 8]),
    /// Wire type 2: bytes behind their length; a text, bytes, an embedded message or packed numbers.
    Bytes(&'b [u8]),
    /// Wire type 5: four bytes.
    Four(&'b [u8; 4]),
}

/// A field of a message.
#[derive(Clone, Copy, Debug, PartialEq, Eq)]
pub struct Field<'b> {
    /// 1 to 2^29 - 1.
    pub number: u32,
    pub payload: Payload<'b>,
}

/// The first `size` bytes, and those after them.
fn bytes_of(size: u64, bytes: &[u8]) -> Result<(&[u8], &[u8]), WireFault>
    ensures { Gives (λ x. (x.0.now, x.1.now)) result (bytes_at size bytes.now) }
{
    if (bytes.len() as u64) < size {
        return Err(WireFault::Truncated);
    }
    Ok(bytes.split_at(size as usize))
}

/// The first `N` bytes, and those after them.
fn array_of<const N: usize>(bytes: &[u8]) -> Result<(&[u8; N], &[u8]), WireFault>
    ensures { Gives (λ x. (x.0.now, x.1.now)) result (bytes_at N bytes.now) }
{
    match bytes.split_first_chunk::<N>() {
        Some(parts) => Ok(parts),
        None => Err(WireFault::Truncated),
    }
}

/// The bytes behind their length, and those after them.
#[tactic(auto, unfolding(crate::specs::Field::sized_at))]
pub(crate) fn sized_of(bytes: &[u8]) -> Result<(&[u8], &[u8]), WireFault>
    ensures { Gives (λ x. (x.0.now, x.1.now)) result (sized_at bytes.now) }
{
    let (size, rest) = varint_of(bytes)?;
    bytes_of(size, rest)
}

/// The number, if it is one of a field.
fn number_of_tag(number: u64) -> Result<u32, WireFault>
    ensures { Gives (λ x. x) result (number_at number) }
{
    if number < 1 || number >= 1 << 29 {
        return Err(WireFault::BadFieldNumber);
    }
    Ok(number as u32)
}

/// The payload of a wire type, if it has one, and the bytes after it.
#[inline(always)]
#[tactic(auto, unfolding(crate::specs::Field::payload_at))]
fn payload_of(kind: u64, body: &[u8]) -> Result<(Option<Payload<'_>>, &[u8]), WireFault>
    ensures { Gives (λ x. (option_map wire_value x.0, x.1.now)) result (payload_at kind body.now) }
{
    match kind {
        0 => {
            let (value, rest) = varint_of(body)?;
            Ok((Some(Payload::Varint(value)), rest))
        }
        1 => {
            let (eight, rest) = array_of::<8>(body)?;
            Ok((Some(Payload::Eight(eight)), rest))
        }
        2 => {
            let (bytes, rest) = sized_of(body)?;
            Ok((Some(Payload::Bytes(bytes)), rest))
        }
        5 => {
            let (four, rest) = array_of::<4>(body)?;
            Ok((Some(Payload::Four(four)), rest))
        }
        _ => Ok((None, body)),
    }
}

/// The field at the front and the bytes after it, where its tag has one byte and says bytes behind a length of one byte:
/// most fields are of this form.
#[inline(always)]
#[tactic(auto, unfolding(crate::specs::Field::field_at, crate::specs::Field::field_behind, crate::specs::Field::payload_at, crate::specs::Field::sized_at))]
fn short_field_of(bytes: &[u8]) -> Option<(Field<'_>, &[u8])>
    ensures { IfSome result (λ x. field_at bytes.now ≡ Ok (wire_field x.0, x.1.now)) }
{
    let (tag, body) = short_varint_of(bytes)?;
    let (size, rest) = short_varint_of(body)?;
    if tag % 8 != 2 || tag < 8 || rest.len() < usize::from(size) {
        return None;
    }
    let (part, behind) = rest.split_at(usize::from(size));
    let number = u32::from(tag / 8);
    let payload = Payload::Bytes(part);
    Some((Field { number, payload }, behind))
}

/// The field at the front, and the bytes after it. Of no bytes it is `Truncated`. Takes no memory.
#[inline(always)]
pub fn field_of(bytes: &[u8]) -> Result<(Field<'_>, &[u8]), WireFault>
    ensures { Gives (λ x. (wire_field x.0, x.1.now)) result (field_at bytes.now) }
{
    match short_field_of(bytes) {
        Some(field) => Ok(field),
        None => any_field_of(bytes),
    }
}

/// The same of any field.
#[inline(always)]
#[tactic(auto, unfolding(crate::specs::Field::field_at, crate::specs::Field::field_behind))]
fn any_field_of(bytes: &[u8]) -> Result<(Field<'_>, &[u8]), WireFault>
    ensures { Gives (λ x. (wire_field x.0, x.1.now)) result (field_at bytes.now) }
{
    let (tag, body) = varint_of(bytes)?;
    let (payload, rest) = payload_of(tag % 8, body)?;
    let number = number_of_tag(tag / 8)?;
    match payload {
        Some(payload) => Ok((Field { number, payload }, rest)),
        None => match tag % 8 {
            3 | 4 => Err(WireFault::GroupWireType),
            _ => Err(WireFault::BadWireType),
        },
    }
}
