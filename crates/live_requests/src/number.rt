//! The numbers of a request.

ghost use Rattle.std.specs.Prelude.{◌≡◌};
ghost use Rattle.live_requests.specs.Requests.{groups_of, limit_of, number_of};

use crate::request::MOST_ROWS;

/// The number that a word of digits spells, at most 2^32 - 1.
pub(crate) fn number_of(word: &[u8]) -> Option<u32>
    ensures { result ≡ number_of word.now }
{
    if word.is_empty() {
        return None;
    }
    let mut value: u64 = 0;
    for digit in word {
        if !digit.is_ascii_digit() {
            return None;
        }
        value = value * 10 + u64::from(*digit - b'0');
        if value > u64::from(u32::MAX) {
            return None;
        }
    }
    Some(value as u32)
}

/// The same of groups: 1 or more.
pub(crate) fn groups_of(word: &[u8]) -> Option<u32>
    ensures { result ≡ groups_of word.now }
{
    let number = number_of(word)?;
    if number < 1 {
        return None;
    }
    Some(number)
}

/// The same of rows: from 1 to 10,000.
pub(crate) fn limit_of(word: &[u8]) -> Option<u32>
    ensures { result ≡ limit_of word.now }
{
    let number = number_of(word)?;
    if number < 1 || number > MOST_ROWS {
        return None;
    }
    Some(number)
}
