//! Rows whose bytes are just what they are written as, as most are: these are copied.

ghost use Rattle.std.specs.Prelude.{◌≡◌, ◌<◌, map, length, IsTrue, IfSome};
ghost use Rattle.proto_wire.specs.Zigzag.{unzigzag_of};
ghost use Rattle.row_view.specs.Row.{size_of_all, columns_in};
ghost use Rattle.row_view.specs.Private.Kept.{IsGood};
ghost use Rattle.row_view.specs.Private.Spelled.{AreShort, IsTextOf};
ghost use Rattle.row_view.specs.WrittenRow.{written_row};

use crate::row_bytes::RowBytes;
use proto_wire::{fields_are_read_again, numbers_are_read_again};

/// The tag of the lengths, packed.
const LENGTHS_TAG: u8 = 10;

/// The tag of the values.
const VALUES_TAG: u8 = 18;

/// How many bytes the values have of packed lengths, if each is that of a value below 64 bytes or a
/// NULL's, in one byte.
#[inline(always)]
fn size_of_short(packed: &[u8]) -> Option<usize>
    requires { length packed.now < 128 }
    ensures short { IfSome result (λ _. AreShort packed.now) }
    ensures size { IfSome result (λ size. size ≡ size_of_all (map unzigzag_of packed.now)) }
    ensures few { IfSome result (λ size. size < 16384) }
{
    let mut size = 0;
    for byte in packed {
        if *byte >= 128 || (*byte % 2 == 1 && *byte != 1) {
            return None;
        }
        size += usize::from(*byte / 2);
    }
    Some(size)
}

/// Whether the bytes are values of this size as they are written.
#[inline(always)]
fn are_values(field: &[u8], size: usize) -> bool
    requires { size < 16384 }
    ensures { IsTrue result → IsTextOf 2 size field.now }
{
    match field {
        [] => size == 0,
        [tag, low, values @ ..] if size < 128 => {
            if size == 0 || *tag != VALUES_TAG || usize::from(*low) != size {
                return false;
            }
            values.len() == size
        }
        [tag, low, high, values @ ..] => {
            if size < 128 || *tag != VALUES_TAG {
                return false;
            }
            if usize::from(*low) != size % 128 + 128 || usize::from(*high) != size / 128 {
                return false;
            }
            values.len() == size
        }
        _ => false,
    }
}

/// Whether the bytes of a row are just what it is written as. Of a row with a value of 64 bytes and more or
/// with more than 127 columns the answer is no.
fn is_spelled(message: &[u8]) -> bool
    requires { IsGood message.now }
    ensures { IsTrue result → message.now ≡ written_row (columns_in message.now) }
{
    fields_are_read_again();
    numbers_are_read_again();
    match message {
        [tag, count, rest @ ..] => {
            let count = usize::from(*count);
            if *tag != LENGTHS_TAG || count == 0 || count >= 128 || rest.len() < count {
                return false;
            }
            let (packed, field) = rest.split_at(count);
            match size_of_short(packed) {
                Some(size) => are_values(field, size),
                None => false,
            }
        }
        _ => false,
    }
}

/// The bytes of a row, if they are just what it is written as. Walks no column and takes no memory.
pub(crate) fn spelled<'b>(row: &RowBytes<'b>) -> Option<&'b [u8]>
    ensures { IfSome result (λ bytes. bytes.now ≡ written_row row.now) }
{
    let message = row.message();
    if is_spelled(message) {
        return Some(message);
    }
    None
}
