//! The text of a key range's bound.

ghost use Rattle.std.specs.Prelude.{◌≡◌, ◌≢◌, ◌+◌, ◌-◌, ◌*◌, ◌<◌, ◌≤◌, ◌↔◌, ◌==◌, [], IfOk, IsErr, IsTrue, length, slice_index};
ghost use Rattle.std.specs.Cmp.Lexicographic.{slice_cmp};
ghost use Rattle.std.specs.List.{list_all, suffix_len};
ghost use Rattle.std.specs.Option.{option_map};
ghost use Rattle.std.specs.Ordering.{nat_cmp, is_lt};
ghost use Rattle.hex.specs.Hex.{is_hex_digit};
ghost use Rattle.vindex.specs.Bounds.{without_end_zeros};
ghost use Rattle.vindex.specs.BoundDigits.{bytes_of_pairs, hex_value_of};
ghost use Rattle.vindex.specs.RangeText.{bytes_of_hex};

use std::alloc::{AllocError, Global};
use std::marker::Model;

/// The hexadecimal digits of a bound without the `00` at their end, seen as the bytes that they write.
#[derive(Drop)]
pub(crate) struct BoundText<'t> {
    digits: &'t [u8],
}

impl<'t> Model for BoundText<'t> {
    ghost use Rattle.std.specs.Prelude.{◌≡◌, ℕ, List, Ok};
    ghost use Rattle.hex.specs.Hex.{decode_of};
    ghost use Rattle.vindex.specs.BoundDigits.{bytes_of_pairs};

    ghost Value = { List ℕ };

    ghost view = { λ bound. bytes_of_pairs bound.digits.now };

    ghost invariant = { λ bound. decode_of bound.digits.now ≡ Ok (bytes_of_pairs bound.digits.now) };
}

impl<'t> BoundText<'t> {
    /// The bound that a text writes: an even number of hexadecimal digits of either case. `None` is for
    /// every other text. Takes no memory.
    pub(crate) fn read(text: &'t str) -> Option<BoundText<'t>>
        ensures { result ≡ option_map without_end_zeros (bytes_of_hex text.now) }
    {
        let digits = text.as_bytes();
        if digits.len() % 2 != 0 || !are_digits(digits) {
            return None;
        }
        Some(BoundText {
            digits: &digits[..2 * len_without_zeros(digits)],
        })
    }

    /// Whether it has no bytes. Takes no memory.
    pub(crate) fn is_empty(&self) -> bool
        ensures { IsTrue result ↔ (self.now ≡ []) }
    {
        self.digits.is_empty()
    }

    /// Whether its bytes come before those of another bound. Takes no memory.
    pub(crate) fn is_before(&self, other: &BoundText<'_>) -> bool
        ensures { result ≡ is_lt (slice_cmp nat_cmp self.now other.now) }
    {
        comes_before(self.digits, other.digits)
    }

    /// Its bytes. No bytes take no memory.
    pub(crate) fn bytes(&self, alloc: Global) -> Result<Vec<u8>, AllocError>
        ensures bytes { IfOk result (λ bytes. bytes.items ≡ self.now) }
        ensures memory { IsErr result → self.now ≢ [] }
    {
        if self.is_empty() {
            return Ok(Vec::new(alloc));
        }
        match hex::decode(alloc, self.digits) {
            Ok(bytes) => Ok(bytes),
            Err(_) => Err(AllocError),
        }
    }
}

fn is_digit(byte: u8) -> bool
    ensures { result ≡ is_hex_digit byte }
{
    byte.is_ascii_hexdigit()
}

fn are_digits(bytes: &[u8]) -> bool
    ensures { result ≡ list_all is_hex_digit bytes.now }
{
    bytes.iter().all(|byte| is_digit(*byte))
}

/// The value of a hexadecimal digit, or 0.
fn value_of(digit: u8) -> u8
    ensures value { result ≡ hex_value_of digit }
    ensures small { result < 16 }
{
    match digit {
        b'0'..=b'9' => digit - b'0',
        b'a'..=b'f' => digit - b'a' + 10,
        b'A'..=b'F' => digit - b'A' + 10,
        _ => 0,
    }
}

/// The byte at a place.
fn byte_at(digits: &[u8], place: usize) -> u8
    requires { 2 * place + 1 < length digits.now }
    ensures { result ≡ slice_index (bytes_of_pairs digits.now) place }
{
    value_of(digits[2 * place]) * 16 + value_of(digits[2 * place + 1])
}

/// How many bytes pairs of digits write, without the 00 bytes at their end.
fn len_without_zeros(digits: &[u8]) -> usize
    ensures len { let bytes = bytes_of_pairs digits.now in
        result ≡ length bytes - suffix_len (λ byte. byte == 0) bytes }
    ensures within { 2 * result ≤ length digits.now }
{
    let mut len = digits.len() / 2;
    while len > 0 && byte_at(digits, len - 1) == 0 {
        len -= 1;
    }
    len
}

/// Whether the bytes that pairs of digits write come before those of others.
fn comes_before(digits: &[u8], other: &[u8]) -> bool
    ensures { result ≡ is_lt (slice_cmp nat_cmp (bytes_of_pairs digits.now) (bytes_of_pairs other.now)) }
{
    let (len, other_len) = (digits.len() / 2, other.len() / 2);
    for i in 0..len.min(other_len) {
        let byte = byte_at(digits, i);
        let other_byte = byte_at(other, i);
        if byte != other_byte {
            return byte < other_byte;
        }
    }
    len < other_len
}
