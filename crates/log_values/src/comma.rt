//! The comma of a character set.

ghost use Rattle.std.specs.Prelude.{◌≡◌, ◌++◌, OnOk};
ghost use Rattle.log_values.specs.Comma.{comma_bytes, is_from, padded, is_utf16, is_utf16le, is_utf32, is_byte, comma_of};

use crate::digits::put;
use std::alloc::AllocError;

/// The comma of a character set, which parts the labels of a SET.
#[derive(Clone, Copy, Debug, PartialEq, Eq)]
pub enum Comma {
    /// 2C: of each character set that has ASCII's signs in a byte each
    Byte,
    /// 00 2C: of ucs2 and utf16
    Utf16,
    /// 2C 00: of utf16le
    Utf16Le,
    /// 00 00 00 2C: of utf32
    Utf32,
}

/// Appends a comma.
pub(crate) fn put_comma(out: &mut Vec<u8>, comma: Comma) -> Result<(), AllocError>
    ensures { OnOk result (out.new.items ≡ out.old.items ++ comma_bytes comma) }
{
    match comma {
        Comma::Byte => put(out, b","),
        Comma::Utf16 => put(out, b"\0,"),
        Comma::Utf16Le => put(out, b",\0"),
        Comma::Utf32 => put(out, b"\0\0\0,"),
    }
}

/// Whether a number is one from the first of these up to the last.
fn is_from(first: u64, last: u64, number: u64) -> bool
    ensures { result ≡ is_from first last number }
{
    first <= number && number <= last
}

/// The number of the collation of the same name without NO PAD.
fn padded(collation: u64) -> u64
    ensures { result ≡ padded collation }
{
    if is_from(1024, 2047, collation) {
        collation - 1024
    } else {
        collation
    }
}

/// Whether a collation is one of ucs2 or utf16.
fn is_utf16(n: u64) -> bool
    ensures { result ≡ is_utf16 n }
{
    n == 35
        || n == 90
        || is_from(128, 151, n)
        || n == 159
        || is_from(640, 642, n)
        || is_from(2560, 2815, n)
        || is_from(54, 55, n)
        || is_from(101, 124, n)
        || is_from(672, 674, n)
        || is_from(2816, 3071, n)
}

/// Whether it is one of utf16le.
fn is_utf16le(n: u64) -> bool
    ensures { result ≡ is_utf16le n }
{
    n == 56 || n == 62
}

/// Whether it is one of utf32.
fn is_utf32(n: u64) -> bool
    ensures { result ≡ is_utf32 n }
{
    is_from(60, 61, n) || is_from(160, 183, n) || is_from(736, 738, n) || is_from(3072, 3327, n)
}

/// Whether it is one of another character set.
fn is_byte(n: u64) -> bool
    ensures { result ≡ is_byte n }
{
    is_from(1, 34, n)
        || is_from(36, 53, n)
        || is_from(57, 59, n)
        || is_from(63, 89, n)
        || is_from(91, 99, n)
        || is_from(192, 215, n)
        || is_from(223, 250, n)
        || is_from(255, 323, n)
        || is_from(576, 578, n)
        || is_from(608, 610, n)
        || is_from(2048, 2559, n)
}

/// The comma of the character set of a collation with this number, as MySQL 8 and MariaDB 10.11 count them
/// (information_schema.collations); `None` where they have no such one.
#[tactic(auto, unfolding(crate::specs::Comma::comma_of))]
pub fn comma_of(collation: u64) -> Option<Comma>
    ensures { result ≡ comma_of collation }
{
    let n = padded(collation);
    if is_utf16(n) {
        Some(Comma::Utf16)
    } else if is_utf16le(n) {
        Some(Comma::Utf16Le)
    } else if is_utf32(n) {
        Some(Comma::Utf32)
    } else if is_byte(n) {
        Some(Comma::Byte)
    } else {
        None
    }
}
