//! How many bytes a value has.

ghost use Rattle.std.specs.Prelude.{◌≡◌};
ghost use Rattle.log_events.specs.Number.{size_of};
ghost use Rattle.log_values.specs.Value.{value_size};

use crate::decimal::decimal_size;
use crate::fraction::fraction_size;
use crate::kind::Kind;
use log_events::{Size, number_at};

/// How many bytes a number has.
pub fn bytes_of_size(size: Size) -> u8
    ensures { result ≡ size_of size }
{
    match size {
        Size::One => 1,
        Size::Two => 2,
        Size::Three => 3,
        Size::Four => 4,
        Size::Six => 6,
        Size::Eight => 8,
    }
}

/// How many bytes the value at the front has, its count with them.
pub(crate) fn value_size(kind: Kind, bytes: &[u8]) -> u128
    ensures { result ≡ value_size kind bytes.now }
{
    match kind {
        Kind::Signed(size) | Kind::Unsigned(size) | Kind::Label(size) | Kind::Labels(size, _) => {
            u128::from(bytes_of_size(size))
        }
        Kind::Counted(size) | Kind::Padded(size, _) => {
            u128::from(bytes_of_size(size)) + u128::from(number_at(bytes, 0, size))
        }
        Kind::Bits(count) => u128::from(count),
        Kind::Decimal(precision, scale) => u128::from(decimal_size(precision, scale)),
        Kind::Date => 3,
        Kind::Year => 1,
        Kind::DateTime(fraction) => 5 + u128::from(fraction_size(fraction)),
        Kind::Time(fraction) => 3 + u128::from(fraction_size(fraction)),
        Kind::Timestamp(fraction) => 4 + u128::from(fraction_size(fraction)),
    }
}
