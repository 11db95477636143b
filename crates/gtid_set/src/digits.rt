//! Decimal numbers and uuids as text.

ghost use Rattle.std.specs.Prelude.{◌≡◌, ◌+◌, ◌*◌, ◌%◌, ◌^◌, ◌≤◌, ◌<◌, [], ◌∷◌, length, unwrap_or, IfSome, IsTrue};
ghost use Rattle.list_laws.specs.Outcome.{Gives};
ghost use Rattle.gtid_set.specs.Digits.{digit_of, hex_digit_of, number_behind, decimal_of, is_hyphenated, uuid_of};
ghost use Rattle.gtid_set.specs.Text.{number_from};

use crate::fault::GtidFault;

/// The greatest number of a GTID, 2^63 - 2.
const LAST_NUMBER: u64 = 9_223_372_036_854_775_806;

/// The number of one or more decimal digits, from `low` to the greatest of a GTID.
pub(crate) fn number(text: &[u8], low: u64) -> Result<u64, GtidFault>
    ensures { Gives (λ n. n) result (number_from low (decimal_of text.now)) }
{
    if text.is_empty() {
        return Err(GtidFault::BadNumber);
    }
    let mut number = 0;
    for byte in text {
        if !byte.is_ascii_digit() {
            return Err(GtidFault::BadNumber);
        }
        if number > LAST_NUMBER / 10 {
            return Err(GtidFault::BadNumber);
        }
        number = number * 10 + u64::from(*byte - b'0');
    }
    if number < low || LAST_NUMBER < number {
        return Err(GtidFault::BadNumber);
    }
    Ok(number)
}

/// The value of each byte as a hexadecimal digit of either case, 65536 where it is none.
static HEX_VALUES: [u32; 256] = [
    65536, 65536, 65536, 65536, 65536, 65536, 65536, 65536, 65536, 65536, 65536, 65536, 65536,
    65536, 65536, 65536, 65536, 65536, 65536, 65536, 65536, 65536, 65536, 65536, 65536, 65536,
    65536, 65536, 65536, 65536, 65536, 65536, 65536, 65536, 65536, 65536, 65536, 65536, 65536,
    65536, 65536, 65536, 65536, 65536, 65536, 65536, 65536, 65536, 0, 1, 2, 3, 4, 5, 6, 7, 8, 9,
    65536, 65536, 65536, 65536, 65536, 65536, 65536, 10, 11, 12, 13, 14, 15, 65536, 65536, 65536,
    65536, 65536, 65536, 65536, 65536, 65536, 65536, 65536, 65536, 65536, 65536, 65536, 65536,
    65536, 65536, 65536, 65536, 65536, 65536, 65536, 65536, 65536, 65536, 10, 11, 12, 13, 14, 15,
    65536, 65536, 65536, 65536, 65536, 65536, 65536, 65536, 65536, 65536, 65536, 65536, 65536,
    65536, 65536, 65536, 65536, 65536, 65536, 65536, 65536, 65536, 65536, 65536, 65536, 65536,
    65536, 65536, 65536, 65536, 65536, 65536, 65536, 65536, 65536, 65536, 65536, 65536, 65536,
    65536, 65536, 65536, 65536, 65536, 65536, 65536, 65536, 65536, 65536, 65536, 65536, 65536,
    65536, 65536, 65536, 65536, 65536, 65536, 65536, 65536, 65536, 65536, 65536, 65536, 65536,
    65536, 65536, 65536, 65536, 65536, 65536, 65536, 65536, 65536, 65536, 65536, 65536, 65536,
    65536, 65536, 65536, 65536, 65536, 65536, 65536, 65536, 65536, 65536, 65536, 65536, 65536,
    65536, 65536, 65536, 65536, 65536, 65536, 65536, 65536, 65536, 65536, 65536, 65536, 65536,
    65536, 65536, 65536, 65536, 65536, 65536, 65536, 65536, 65536, 65536, 65536, 65536, 65536,
    65536, 65536, 65536, 65536, 65536, 65536, 65536, 65536, 65536, 65536, 65536, 65536, 65536,
    65536, 65536, 65536, 65536, 65536, 65536, 65536, 65536, 65536, 65536, 65536, 65536, 65536,
    65536, 65536, 65536, 65536, 65536, 65536, 65536, 65536, 65536, 65536,
];

fn hex_value(byte: u8) -> u32
    ensures value { result ≡ unwrap_or (hex_digit_of byte) 65536 }
    ensures bound { result ≤ 65536 }
{
    HEX_VALUES[usize::from(byte)]
}

/// The number of four hexadecimal digits. One test tells a byte that is none: its value is greater
/// than each number of four digits.
fn hex_four(first: u8, second: u8, third: u8, fourth: u8) -> Option<u64>
    ensures value { result ≡ number_behind hex_digit_of 16 0 (first ∷ second ∷ third ∷ fourth ∷ []) }
    ensures small { IfSome result (λ n. n < 65536) }
{
    let two = hex_value(first) * 16 + hex_value(second);
    let three = two * 16 + hex_value(third);
    let four = three * 16 + hex_value(fourth);
    if four < 65536 {
        Some(u64::from(four))
    } else {
        None
    }
}

/// The number of hexadecimal digits, some fours of them, behind those that `front` stands for.
fn hex_behind(front: u64, text: &[u8]) -> Option<u64>
    requires room { (front + 1) * 16 ^ length text.now ≤ 2 ^ 64 }
    requires fours { length text.now % 4 ≡ 0 }
    ensures value { result ≡ number_behind hex_digit_of 16 front text.now }
    ensures small { IfSome result (λ n. n + 1 ≤ (front + 1) * 16 ^ length text.now) }
{
    let mut number = front;
    let mut rest = text;
    while let [first, second, third, fourth, behind @ ..] = rest {
        number = number * 65536 + hex_four(*first, *second, *third, *fourth)?;
        rest = behind;
    }
    Some(number)
}

/// The text has 36 bytes, with hyphens at the places of a uuid's.
fn is_hyphenated(text: &[u8]) -> bool
    ensures value { result ≡ is_hyphenated text.now }
    ensures length { IsTrue result → length text.now ≡ 36 }
{
    text.len() == 36 && text[8] == b'-' && text[13] == b'-' && text[18] == b'-' && text[23] == b'-'
}

/// The uuid of 36 bytes: hexadecimal digits of either case, 8-4-4-4-12.
#[tactic(auto, unfolding(crate::specs::Digits::uuid_of))]
pub(crate) fn uuid(text: &[u8]) -> Option<u128>
    ensures { result ≡ uuid_of text.now }
{
    if !is_hyphenated(text) {
        return None;
    }
    let time_low = hex_behind(0, &text[..8])?;
    let time_mid = hex_behind(time_low, &text[9..13])?;
    let high = hex_behind(time_mid, &text[14..18])?;
    let clock = hex_behind(0, &text[19..23])?;
    let low = hex_behind(clock, &text[24..36])?;
    Some(u128::from(high) * (1 << 64) + u128::from(low))
}
