//! TIMESTAMP, and the days of the Gregorian calendar.

ghost use Rattle.std.specs.Prelude.{◌≡◌, ◌<◌, ◌≤◌, ◌^◌, ◌++◌, OnOk};
ghost use Rattle.log_values.specs.Moment.{moment_value};
ghost use Rattle.log_values.specs.Civil.{is_leap, days_of_year, days_of_month, year_from, month_from, moment_at, timestamp_moment, timestamp_fits, timestamp_in};

use crate::big::big_at;
use crate::date::{Moment, put_moment};
use crate::fraction::{fraction_limit, fraction_size, put_fraction};
use crate::kind::Fraction;
use std::alloc::AllocError;

/// Whether a year has a day more.
fn is_leap(year: u64) -> bool
    ensures { result ≡ is_leap year }
{
    year % 4 == 0 && (year % 100 != 0 || year % 400 == 0)
}

/// How many days a year has.
fn days_of_year(year: u64) -> u64
    ensures { result ≡ days_of_year year }
{
    if is_leap(year) { 366 } else { 365 }
}

/// How many days a month has.
fn days_of_month(year: u64, month: u64) -> u64
    ensures { result ≡ days_of_month year month }
{
    if month == 2 {
        return if is_leap(year) { 29 } else { 28 };
    }
    if month == 4 || month == 6 || month == 9 || month == 11 {
        30
    } else {
        31
    }
}

/// The year in which so many days from the first of 1970 on end, and the days of it before.
fn year_of(days: u64) -> (u64, u64)
    ensures value { (result.0, result.1) ≡ year_from 140 1970 days }
    ensures below { result.1 ≤ days }
{
    let mut year = 1970;
    let mut left = days;
    for _ in 0..140u64 {
        let size = days_of_year(year);
        if left < size {
            return (year, left);
        }
        year += 1;
        left -= size;
    }
    (year, left)
}

/// The month of a year in which so many days end, and the days of it before.
fn month_of(year: u64, days: u64) -> (u64, u64)
    ensures value { (result.0, result.1) ≡ month_from 11 year 1 days }
    ensures below { result.1 ≤ days }
{
    let mut month = 1;
    let mut left = days;
    for _ in 0..11u64 {
        let size = days_of_month(year, month);
        if left < size {
            return (month, left);
        }
        month += 1;
        left -= size;
    }
    (month, left)
}

/// The moment of so many seconds of Unix time.
#[tactic(auto, unfolding(crate::specs::Civil::moment_at))]
fn moment_at(seconds: u64) -> Moment
    requires { seconds < 2 ^ 32 }
    ensures { moment_value result ≡ moment_at seconds }
{
    let (year, days) = year_of(seconds / 86400);
    let (month, day) = month_of(year, days);
    Moment {
        year,
        month,
        day: day + 1,
        hour: seconds / 3600 % 24,
        minute: seconds / 60 % 60,
        second: seconds % 60,
    }
}

/// The moment that a TIMESTAMP means: 0 with nothing behind it is none.
fn timestamp_moment(seconds: u64, part: u64) -> Moment
    requires { seconds < 2 ^ 32 }
    ensures { moment_value result ≡ timestamp_moment seconds part }
{
    if seconds != 0 || part != 0 {
        return moment_at(seconds);
    }
    Moment {
        year: 0,
        month: 0,
        day: 0,
        hour: 0,
        minute: 0,
        second: 0,
    }
}

/// Whether the bytes are a TIMESTAMP.
pub(crate) fn timestamp_fits(fraction: Fraction, bytes: &[u8]) -> bool
    ensures { result ≡ timestamp_fits fraction bytes.now }
{
    big_at(bytes, 4, fraction_size(fraction)) < fraction_limit(fraction)
}

/// Appends a TIMESTAMP.
pub(crate) fn put_timestamp(
    out: &mut Vec<u8>,
    fraction: Fraction,
    bytes: &[u8],
) -> Result<(), AllocError>
    ensures { OnOk result (out.new.items ≡ out.old.items ++ timestamp_in fraction bytes.now) }
{
    let part = big_at(bytes, 4, fraction_size(fraction));
    put_moment(out, &timestamp_moment(big_at(bytes, 0, 4), part))?;
    put_fraction(out, fraction, part)
}
