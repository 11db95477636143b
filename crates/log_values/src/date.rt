//! DATE, YEAR and DATETIME.

ghost use Rattle.std.specs.Prelude.{◌≡◌, ◌++◌, OnOk};
ghost use Rattle.log_values.specs.Moment.{moment_of, moment_text, date_text, moment_value, is_date, is_moment, date_fits, date_in, year_in, datetime_fits, datetime_in};

use crate::big::big_at;
use crate::digits::{digit, put};
use crate::fraction::{fraction_limit, fraction_size, put_fraction};
use crate::kind::Fraction;
use log_events::{Size, number_at};
use std::alloc::AllocError;

/// A day and a time of it.
#[derive(Clone, Copy)]
pub(crate) struct Moment {
    pub(crate) year: u64,
    pub(crate) month: u64,
    pub(crate) day: u64,
    pub(crate) hour: u64,
    pub(crate) minute: u64,
    pub(crate) second: u64,
}

/// Whether they are numbers of a date.
fn is_date(year: u64, month: u64, day: u64) -> bool
    ensures { result ≡ is_date year month day }
{
    year <= 9999 && month <= 12 && day <= 31
}

/// Appends a date.
fn put_day(out: &mut Vec<u8>, year: u64, month: u64, day: u64) -> Result<(), AllocError>
    ensures { OnOk result (out.new.items ≡ out.old.items ++ date_text year month day) }
{
    let (hundred, ten, one) = (digit(year, 100), digit(year, 10), digit(year, 1));
    let months = [digit(month, 10), digit(month, 1)];
    let days = [digit(day, 10), digit(day, 1)];
    put(
        out,
        &[
            digit(year, 1000),
            hundred,
            ten,
            one,
            b'-',
            months[0],
            months[1],
            b'-',
            days[0],
            days[1],
        ],
    )
}

/// Whether three bytes are a DATE.
pub(crate) fn date_fits(bytes: &[u8]) -> bool
    ensures { result ≡ date_fits bytes.now }
{
    let n = number_at(bytes, 0, Size::Three);
    is_date(n / 512, n / 32 % 16, n % 32)
}

/// Appends a DATE.
pub(crate) fn put_date(out: &mut Vec<u8>, bytes: &[u8]) -> Result<(), AllocError>
    ensures { OnOk result (out.new.items ≡ out.old.items ++ date_in bytes.now) }
{
    let n = number_at(bytes, 0, Size::Three);
    put_day(out, n / 512, n / 32 % 16, n % 32)
}

/// Appends a YEAR.
pub(crate) fn put_year(out: &mut Vec<u8>, bytes: &[u8]) -> Result<(), AllocError>
    ensures { OnOk result (out.new.items ≡ out.old.items ++ year_in bytes.now) }
{
    let n = number_at(bytes, 0, Size::One);
    let year = if n == 0 { 0 } else { 1900 + n };
    put(
        out,
        &[
            digit(year, 1000),
            digit(year, 100),
            digit(year, 10),
            digit(year, 1),
        ],
    )
}

/// Whether they are numbers of a date and of a time of day.
fn is_moment(moment: &Moment) -> bool
    ensures { result ≡ is_moment (moment_value moment.now) }
{
    is_date(moment.year, moment.month, moment.day)
        && moment.hour < 24
        && moment.minute < 60
        && moment.second < 60
}

/// Appends a moment.
pub(crate) fn put_moment(out: &mut Vec<u8>, moment: &Moment) -> Result<(), AllocError>
    ensures { OnOk result (out.new.items ≡ out.old.items ++ moment_text (moment_value moment.now)) }
{
    put_day(out, moment.year, moment.month, moment.day)?;
    put(
        out,
        &[
            b' ',
            digit(moment.hour, 10),
            digit(moment.hour, 1),
            b':',
            digit(moment.minute, 10),
            digit(moment.minute, 1),
            b':',
            digit(moment.second, 10),
            digit(moment.second, 1),
        ],
    )
}

/// The moment of a DATETIME's number.
fn moment_of(n: u64) -> Moment
    ensures { moment_value result ≡ moment_of n }
{
    let months = n / 4_194_304 % 131_072;
    Moment {
        year: months / 13,
        month: months % 13,
        day: n / 131_072 % 32,
        hour: n / 4096 % 32,
        minute: n / 64 % 64,
        second: n % 64,
    }
}

/// Whether the bytes are a DATETIME.
pub(crate) fn datetime_fits(fraction: Fraction, bytes: &[u8]) -> bool
    ensures { result ≡ datetime_fits fraction bytes.now }
{
    let n = big_at(bytes, 0, 5);
    let part = big_at(bytes, 5, fraction_size(fraction));
    0x80_0000_0000 <= n && is_moment(&moment_of(n)) && part < fraction_limit(fraction)
}

/// Appends a DATETIME.
pub(crate) fn put_datetime(
    out: &mut Vec<u8>,
    fraction: Fraction,
    bytes: &[u8],
) -> Result<(), AllocError>
    ensures { OnOk result (out.new.items ≡ out.old.items ++ datetime_in fraction bytes.now) }
{
    put_moment(out, &moment_of(big_at(bytes, 0, 5)))?;
    let part = big_at(bytes, 5, fraction_size(fraction));
    put_fraction(out, fraction, part)
}
