//! What stands behind the point of a time.

ghost use Rattle.std.specs.Prelude.{◌≡◌, ◌≤◌, ◌++◌, OnOk};
ghost use Rattle.log_values.specs.Digits.{fraction_size, fraction_limit, fraction_text};
ghost use Rattle.log_values.specs.TimeOfDay.{fraction_unit};

use crate::digits::{digit, put};
use crate::kind::Fraction;
use std::alloc::AllocError;

/// How many bytes it has.
pub(crate) fn fraction_size(fraction: Fraction) -> u8
    ensures value { result ≡ fraction_size fraction }
    ensures few { result ≤ 3 }
{
    match fraction {
        Fraction::Whole => 0,
        Fraction::One | Fraction::Two => 1,
        Fraction::Three | Fraction::Four => 2,
        Fraction::Five | Fraction::Six => 3,
    }
}

/// The number from which on it isn't one.
pub(crate) fn fraction_limit(fraction: Fraction) -> u64
    ensures { result ≡ fraction_limit fraction }
{
    match fraction {
        Fraction::Whole => 1,
        Fraction::One | Fraction::Two => 100,
        Fraction::Three | Fraction::Four => 10_000,
        Fraction::Five | Fraction::Six => 1_000_000,
    }
}

/// How many of them a second has in the log.
pub(crate) fn fraction_unit(fraction: Fraction) -> u64
    ensures value { result ≡ fraction_unit fraction }
    ensures some { 1 ≤ result }
    ensures few { result ≤ 0x1000000 }
{
    match fraction {
        Fraction::Whole => 1,
        Fraction::One | Fraction::Two => 0x100,
        Fraction::Three | Fraction::Four => 0x1_0000,
        Fraction::Five | Fraction::Six => 0x100_0000,
    }
}

/// Appends the point and the digits.
pub(crate) fn put_fraction(out: &mut Vec<u8>, fraction: Fraction, n: u64) -> Result<(), AllocError>
    ensures { OnOk result (out.new.items ≡ out.old.items ++ fraction_text fraction n) }
{
    let (ten, one) = (digit(n, 10), digit(n, 1));
    let (thousand, hundred) = (digit(n, 1_000), digit(n, 100));
    match fraction {
        Fraction::Whole => put(out, &[]),
        Fraction::One => put(out, &[b'.', ten]),
        Fraction::Two => put(out, &[b'.', ten, one]),
        Fraction::Three => put(out, &[b'.', thousand, hundred, ten]),
        Fraction::Four => put(out, &[b'.', thousand, hundred, ten, one]),
        Fraction::Five => put(
            out,
            &[
                b'.',
                digit(n, 100_000),
                digit(n, 10_000),
                thousand,
                hundred,
                ten,
            ],
        ),
        Fraction::Six => put(
            out,
            &[
                b'.',
                digit(n, 100_000),
                digit(n, 10_000),
                thousand,
                hundred,
                ten,
                one,
            ],
        ),
    }
}
