//! Writing of fields. Each call appends to what is there, and an error is want of memory.

ghost use Rattle.std.specs.Prelude.{◌≡◌, ◌<◌, ◌≤◌, ◌+◌, ◌*◌, ◌++◌, ℕ, List, take, length, OnOk, OnErr, IfOk};
ghost use Rattle.proto_wire.specs.Field.{IsFieldNumber, wire_type, wire_field, wire_value};
ghost use Rattle.proto_wire.specs.Writing.{written_payload, written_field, written_fields, number_field, text_field, message_field, FieldsAreReadAgain, Begins};

use crate::field::{Field, Payload};
use crate::spelling::{put_varint, varint_size};
use crate::written_laws::fields_are_read_again;
use std::alloc::AllocError;

/// How many bytes two parts have together. An error is want of memory, since no list of bytes is as
/// long as that.
pub fn size_of_both(size: usize, other: usize) -> Result<usize, AllocError>
    ensures { IfOk result (λ sum. sum ≡ size + other) }
{
    size.checked_add(other).ok_or(AllocError)
}

/// The wire type of a payload.
fn wire_type_of(payload: &Payload<'_>) -> u64
    ensures { result ≡ wire_type (wire_value payload.now) }
{
    match payload {
        Payload::Varint(_) => 0,
        Payload::Eight(_) => 1,
        Payload::Bytes(_) => 2,
        Payload::Four(_) => 5,
    }
}

/// The number that stands before a payload: that of the field, and the wire type.
fn tag_of(number: u32, kind: u64) -> u64
    requires { kind < 8 }
    ensures { result ≡ number * 8 + kind }
{
    u64::from(number) * 8 + kind
}

/// How many bytes a field has that holds so many bytes.
pub fn bytes_field_size(number: u32, size: usize) -> Result<usize, AllocError>
    ensures { IfOk result (λ n. (bytes : List ℕ) → length bytes ≡ size → n ≡ length (written_field (message_field number bytes))) }
{
    let head = varint_size(tag_of(number, 2)) + varint_size(size as u64);
    size_of_both(head, size)
}

/// How many bytes a text or bytes of so many bytes take under a number: none where they are empty.
pub fn text_field_size(number: u32, size: usize) -> Result<usize, AllocError>
    ensures { IfOk result (λ n. (text : List ℕ) → length text ≡ size → n ≡ length (written_fields (text_field number text))) }
{
    if size == 0 {
        return Ok(0);
    }
    bytes_field_size(number, size)
}

/// How many bytes a number takes under a field number: none where it is 0.
pub fn number_field_size(number: u32, value: u64) -> usize
    ensures size { result ≡ length (written_fields (number_field number value)) }
    ensures few { result ≤ 20 }
{
    if value == 0 {
        return 0;
    }
    varint_size(tag_of(number, 0)) + varint_size(value)
}

/// How many bytes a payload has.
fn payload_size(payload: &Payload<'_>) -> Result<usize, AllocError>
    ensures { IfOk result (λ n. n ≡ length (written_payload (wire_value payload.now))) }
{
    match payload {
        Payload::Varint(value) => Ok(varint_size(*value)),
        Payload::Bytes(bytes) => size_of_both(varint_size(bytes.len() as u64), bytes.len()),
        Payload::Eight(bytes) => Ok(bytes.as_slice().len()),
        Payload::Four(bytes) => Ok(bytes.as_slice().len()),
    }
}

/// How many bytes a field has.
pub fn field_size(field: &Field<'_>) -> Result<usize, AllocError>
    ensures { IfOk result (λ n. n ≡ length (written_field (wire_field field.now))) }
{
    let tag = varint_size(tag_of(field.number, wire_type_of(&field.payload)));
    size_of_both(tag, payload_size(&field.payload)?)
}

/// Appends the tag of a field that holds bytes, and how many they are; the bytes come next.
pub fn put_bytes_head(out: &mut Vec<u8>, number: u32, size: usize) -> Result<(), AllocError>
    ensures written { OnOk result ((bytes : List ℕ) → length bytes ≡ size → out.new.items ++ bytes ≡ out.old.items ++ written_field (message_field number bytes)) }
    ensures kept { Begins out.old.items out.new.items }
{
    put_varint(out, tag_of(number, 2))?;
    put_varint(out, size as u64)
}

/// Appends a payload.
fn put_payload(out: &mut Vec<u8>, payload: &Payload<'_>) -> Result<(), AllocError>
    ensures written { OnOk result (out.new.items ≡ out.old.items ++ written_payload (wire_value payload.now)) }
    ensures kept { Begins out.old.items out.new.items }
{
    match payload {
        Payload::Varint(value) => put_varint(out, *value),
        Payload::Bytes(bytes) => {
            put_varint(out, bytes.len() as u64)?;
            out.extend_from_slice(bytes)
        }
        Payload::Eight(bytes) => out.extend_from_slice(bytes.as_slice()),
        Payload::Four(bytes) => out.extend_from_slice(bytes.as_slice()),
    }
}

/// Appends a field.
fn append_field(out: &mut Vec<u8>, field: &Field<'_>) -> Result<(), AllocError>
    ensures written { OnOk result (out.new.items ≡ out.old.items ++ written_field (wire_field field.now)) }
    ensures kept { Begins out.old.items out.new.items }
{
    put_varint(out, tag_of(field.number, wire_type_of(&field.payload)))?;
    put_payload(out, &field.payload)
}

/// Appends what stands before a text or bytes under a number, which come next; before empty ones,
/// the default, nothing.
pub fn put_text_head(out: &mut Vec<u8>, number: u32, size: usize) -> Result<(), AllocError>
    ensures written { OnOk result ((text : List ℕ) → length text ≡ size → out.new.items ++ text ≡ out.old.items ++ written_fields (text_field number text)) }
    ensures kept { Begins out.old.items out.new.items }
{
    if size > 0 {
        put_bytes_head(out, number, size)?;
    }
    Ok(())
}

/// Appends a text or bytes under a number; empty ones, the default, aren't written.
pub fn put_text(out: &mut Vec<u8>, number: u32, text: &[u8]) -> Result<(), AllocError>
    ensures written { OnOk result (out.new.items ≡ out.old.items ++ written_fields (text_field number text.now)) }
    ensures kept { Begins out.old.items out.new.items }
{
    put_text_head(out, number, text.len())?;
    out.extend_from_slice(text)
}

/// Appends a number under a field number; 0, the default, isn't written.
pub fn put_number(out: &mut Vec<u8>, number: u32, value: u64) -> Result<(), AllocError>
    ensures written { OnOk result (out.new.items ≡ out.old.items ++ written_fields (number_field number value)) }
    ensures kept { Begins out.old.items out.new.items }
{
    if value > 0 {
        put_varint(out, tag_of(number, 0))?;
        put_varint(out, value)?;
    }
    Ok(())
}

/// Takes back what was appended to the first `size` bytes, if the outcome is an error. Answers the
/// outcome.
pub fn cut_after_error(
    out: &mut Vec<u8>,
    size: usize,
    outcome: Result<(), AllocError>,
) -> Result<(), AllocError>
    ensures answer { result ≡ outcome }
    ensures ok { OnOk outcome (out.new.items ≡ out.old.items) }
    ensures err { OnErr outcome (out.new.items ≡ take size out.old.items) }
{
    if outcome.is_err() {
        out.truncate(size);
    }
    outcome
}

/// Appends a field (protobuf encoding guide, "Message Structure"): its tag and its payload, each
/// number in its shortest spelling. Its number is 1 to 2^29 - 1. An error leaves what is there.
pub fn put_field(out: &mut Vec<u8>, field: &Field<'_>) -> Result<(), AllocError>
    requires { IsFieldNumber field.now.number }
    ensures written { OnOk result (out.new.items ≡ out.old.items ++ written_field (wire_field field.now)) }
    ensures unchanged { OnErr result (out.new.items ≡ out.old.items) }
    // Fields that are written one after another are read as these fields.
    ensures read_again { FieldsAreReadAgain }
{
    fields_are_read_again();
    out.reserve(field_size(field)?)?;
    let before = out.len();
    let outcome = append_field(out, field);
    cut_after_error(out, before, outcome)
}
