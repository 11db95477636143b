//! The shortest spelling of a varint, and writing it.

ghost use Rattle.std.specs.Prelude.{◌≡◌, ◌≤◌, ◌++◌, take, length, OnOk, OnErr};
ghost use Rattle.proto_wire.specs.Varint.{IsVarint, shortest};

use std::alloc::AllocError;

/// The shortest spelling of a number, and how many bytes it has, at most ten.
fn spelling_of(value: u64) -> ([u8; 10], usize)
    ensures few { result.1 ≤ 10 }
    ensures spelled { take result.1 result.0 ≡ shortest value }
{
    let mut bytes = [0u8; 10];
    let mut size = 0;
    let mut rest = value;
    while rest >= 128 {
        bytes[size] = (rest % 128) as u8 + 128;
        rest /= 128;
        size += 1;
    }
    bytes[size] = rest as u8;
    (bytes, size + 1)
}

/// How many bytes the shortest spelling of a number has.
pub fn varint_size(value: u64) -> usize
    ensures size { result ≡ length (shortest value) }
    ensures few { result ≤ 10 }
{
    let mut size = 1;
    let mut rest = value;
    while rest >= 128 {
        rest /= 128;
        size += 1;
    }
    size
}

/// Appends the shortest spelling of a number (protobuf encoding guide, "Base 128 Varints"). An error
/// is want of memory.
pub fn put_varint(out: &mut Vec<u8>, value: u64) -> Result<(), AllocError>
    ensures written { OnOk result (out.new.items ≡ out.old.items ++ shortest value) }
    ensures unchanged { OnErr result (out.new.items ≡ out.old.items) }
    // The spelling is a varint of the number.
    ensures read_again { IsVarint (shortest value) value }
{
    if value < 128 {
        out.push(value as u8)?;
        return Ok(());
    }
    let (bytes, size) = spelling_of(value);
    out.extend_from_slice(&bytes[..size])
}
