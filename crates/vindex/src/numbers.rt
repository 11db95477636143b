//! The numbers that a row carries as decimal text.

ghost use Rattle.std.specs.Prelude.{◌≡◌, ◌+◌, ◌-◌, ◌*◌, ◌^◌, ◌<◌, ◌≤◌, Some, length, IsTrue};
ghost use Rattle.std.specs.Char.{is_ascii_digit};
ghost use Rattle.std.specs.Option.{SomeIff};
ghost use Rattle.vindex.specs.NumberText.{IsNumber, IsShortest, decimal_below, number_of_text, shortest_text};

use itoa::Buffer;
use std::fmt;
use std::marker::Model;

/// A number from -2^63 to 2^64 - 1. Numbers are equal and ordered as the integers that they are.
#[derive(Clone, Copy, Debug, PartialEq, Eq, PartialOrd, Ord)]
pub struct Number {
    value: i128,
}

impl Model for Number {
    ghost use Rattle.std.specs.Prelude.{ℤ};

    ghost Value = { ℤ };

    ghost use Rattle.vindex.specs.NumberText.{IsNumber};

    ghost view = { λ number. number.value };

    ghost invariant = { λ number. IsNumber number.value };

    ghost inverse = { λ value. record { value = value } };
}

impl Number {
    /// The integer: from -2^63 to 2^64 - 1.
    pub fn value(self) -> i128
        ensures value { result ≡ self }
        ensures within { IsNumber self }
    {
        self.value
    }

    /// The number's shortest decimal text, written into a buffer. Takes no memory.
    pub fn text(self, buffer: &mut Buffer) -> &str
        ensures text { result.now ≡ shortest_text self }
        ensures reads_back { number_of_text (shortest_text self) ≡ Some self }
        // No text of the number is shorter.
        ensures shortest { IsShortest self (shortest_text self) }
        ensures fits { length (shortest_text self) ≤ 20 }
    {
        buffer.format(self.value)
    }
}

impl fmt::Display for Number {
    ghost use Rattle.std.specs.Prelude.{Some};
    ghost use Rattle.vindex.specs.NumberText.{shortest_text};

    ghost output = { λ number. Some (shortest_text number) };

    fn fmt<W: fmt::Write>(&self, f: &mut fmt::Formatter<W>) -> fmt::Result {
        write!(f, "{}", self.value)
    }
}

/// The number that `text` writes: an optional `-` and one or more decimal digits, in value from -2^63
/// to 2^64 - 1. Leading zeros are allowed, and `-0` is 0. `None` is for every other text. Takes no
/// memory.
#[tactic(auto, unfolding(crate::specs::NumberText::number_of_text))]
pub fn number_of(text: &[u8]) -> Option<Number>
    ensures { result ≡ number_of_text text.now }
{
    match text {
        [b'-', digits @ ..] => {
            let magnitude = natural_of(digits)?;
            if magnitude > 1 << 63 {
                return None;
            }
            Some(Number {
                value: -i128::from(magnitude),
            })
        }
        digits => Some(Number {
            value: i128::from(natural_of(digits)?),
        }),
    }
}

/// The number that one or more decimal digits write, if it is below 2^64. Leading zeros are allowed.
/// `None` is for every other text. Takes no memory.
pub fn natural_of(digits: &[u8]) -> Option<u64>
    ensures { result ≡ decimal_below (2 ^ 64) digits.now }
{
    if digits.is_empty() {
        return None;
    }
    let mut magnitude = 0;
    for digit in digits {
        magnitude = with_digit(magnitude, *digit)?;
    }
    Some(magnitude)
}

/// The number that is written by the digits of `magnitude` and one more, if it is below 2^64.
fn with_digit(magnitude: u64, digit: u8) -> Option<u64>
    ensures { let number = magnitude * 10 + (digit - 48) in
        SomeIff result (IsTrue (is_ascii_digit digit) × (number < 2 ^ 64)) number }
{
    if !digit.is_ascii_digit() {
        return None;
    }
    magnitude
        .checked_mul(10)?
        .checked_add(u64::from(digit - b'0'))
}
