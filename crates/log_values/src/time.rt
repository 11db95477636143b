//! TIME.

ghost use Rattle.std.specs.Prelude.{◌≡◌, ◌≤◌, ◌<◌, ◌++◌, OnOk};
ghost use Rattle.log_values.specs.TimeOfDay.{time_half, time_number, time_size, hours_text, clock_fits, clock_text, time_fits, time_in};

use crate::big::big_at;
use crate::digits::{digit, put, put_minus};
use crate::fraction::{fraction_limit, fraction_size, fraction_unit, put_fraction};
use crate::kind::Fraction;
use std::alloc::AllocError;

/// Half of all numbers of a TIME's bytes.
fn time_half(fraction: Fraction) -> u64
    ensures { result ≡ time_half fraction }
{
    0x80_0000 * fraction_unit(fraction)
}

/// Its bytes as a number.
fn time_number(fraction: Fraction, bytes: &[u8]) -> u64
    ensures { result ≡ time_number fraction bytes.now }
{
    big_at(bytes, 0, 3 + fraction_size(fraction))
}

/// How far a number is from the half, in fractions of a second.
fn time_size(fraction: Fraction, n: u64) -> u64
    ensures { result ≡ time_size fraction n }
{
    let half = time_half(fraction);
    if n < half { half - n } else { n - half }
}

/// Whether a size is one of a TIME.
fn clock_fits(fraction: Fraction, size: u64) -> bool
    ensures { result ≡ clock_fits fraction size }
{
    let unit = fraction_unit(fraction);
    let whole = size / unit;
    whole / 4096 <= 838
        && whole / 64 % 64 < 60
        && whole % 64 < 60
        && size % unit < fraction_limit(fraction)
}

/// Appends hours, with two digits at least.
fn put_hours(out: &mut Vec<u8>, hours: u64) -> Result<(), AllocError>
    ensures { OnOk result (out.new.items ≡ out.old.items ++ hours_text hours) }
{
    let (ten, one) = (digit(hours, 10), digit(hours, 1));
    if hours < 100 {
        put(out, &[ten, one])
    } else {
        put(out, &[digit(hours, 100), ten, one])
    }
}

/// Appends a size.
fn put_clock(out: &mut Vec<u8>, fraction: Fraction, size: u64) -> Result<(), AllocError>
    ensures { OnOk result (out.new.items ≡ out.old.items ++ clock_text fraction size) }
{
    let unit = fraction_unit(fraction);
    let whole = size / unit;
    let (minutes, seconds) = (whole / 64 % 64, whole % 64);
    put_hours(out, whole / 4096)?;
    put(
        out,
        &[
            b':',
            digit(minutes, 10),
            digit(minutes, 1),
            b':',
            digit(seconds, 10),
            digit(seconds, 1),
        ],
    )?;
    put_fraction(out, fraction, size % unit)
}

/// Whether the bytes are a TIME.
pub(crate) fn time_fits(fraction: Fraction, bytes: &[u8]) -> bool
    ensures { result ≡ time_fits fraction bytes.now }
{
    clock_fits(fraction, time_size(fraction, time_number(fraction, bytes)))
}

/// Appends a TIME.
pub(crate) fn put_time(
    out: &mut Vec<u8>,
    fraction: Fraction,
    bytes: &[u8],
) -> Result<(), AllocError>
    ensures { OnOk result (out.new.items ≡ out.old.items ++ time_in fraction bytes.now) }
{
    let n = time_number(fraction, bytes);
    put_minus(out, n < time_half(fraction))?;
    put_clock(out, fraction, time_size(fraction, n))
}
