//! DECIMAL.

ghost use Rattle.std.specs.Prelude.{◌≡◌, ◌≤◌, ◌<◌, ◌+◌, ◌*◌, ◌++◌, [], ◌∷◌, OnOk};
ghost use Rattle.std.specs.List.{flat_map, list_all};
ghost use Rattle.log_values.specs.Decimal.{is_below, plain_byte, plain_number, Group, group_size, group_text, group_fits, shown, whole_size, full_groups, whole_text, part_text, Shows, decimal_size, decimal_fits, decimal_in};

use crate::big::byte_at;
use crate::digits::{nine, put, put_minus};
use std::alloc::AllocError;

/// Whether a number is below 0.
fn is_below(bytes: &[u8]) -> bool
    ensures { result ≡ is_below bytes.now }
{
    byte_at(bytes, 0) < 128
}

/// A byte with its bits turned back.
fn plain_byte(bytes: &[u8], place: usize) -> u64
    ensures value { result ≡ plain_byte bytes.now place }
    ensures below { result < 256 }
{
    let byte = byte_at(bytes, place);
    let turned = if is_below(bytes) { 255 - byte } else { byte };
    if place == 0 {
        turned.saturating_sub(128)
    } else {
        turned
    }
}

/// How many bytes some digits have.
fn group_size(digits: u8) -> u8
    requires { digits ≤ 9 }
    ensures value { result ≡ group_size digits }
    ensures few { result ≤ 4 }
{
    if digits == 9 { 4 } else { (digits + 1) / 2 }
}

/// The number of a group.
fn group_number(bytes: &[u8], place: u8, digits: u8) -> u64
    requires { digits ≤ 9 }
    ensures { result ≡ plain_number bytes.now place (group_size digits) }
{
    let mut number = 0;
    for i in 0..group_size(digits) {
        number = number * 256 + plain_byte(bytes, usize::from(place) + usize::from(i));
    }
    number
}

/// Whether a group is one of its digits.
fn group_fits(bytes: &[u8], place: u8, digits: u8) -> bool
    requires { digits ≤ 9 }
    ensures { result ≡ group_fits bytes.now (record { place = place; digits = digits }) }
{
    group_number(bytes, place, digits) < 10u64.pow(u32::from(digits))
}

/// Whether so many groups of nine digits from a place on are such.
fn full_fit(bytes: &[u8], place: u8, groups: u8) -> bool
    requires { place + 4 * groups ≤ 250 }
    ensures { result ≡ list_all (group_fits bytes.now) (full_groups place groups) }
{
    let mut at = place;
    for _ in 0..groups {
        if !group_fits(bytes, at, 9) {
            return false;
        }
        at += 4;
    }
    true
}

/// How many bytes the digits before the point have.
fn whole_size(digits: u8) -> u8
    ensures value { result ≡ whole_size digits }
    ensures few { result ≤ 117 }
{
    group_size(digits % 9) + 4 * (digits / 9)
}

/// How many bytes a number of so many digits has, of which so many stand behind the point.
pub(crate) fn decimal_size(precision: u8, scale: u8) -> u16
    ensures { result ≡ decimal_size precision scale }
{
    let part = 4 * (scale / 9) + group_size(scale % 9);
    u16::from(whole_size(precision.saturating_sub(scale))) + u16::from(part)
}

/// Whether the bytes are a number of so many digits.
pub(crate) fn decimal_fits(precision: u8, scale: u8, bytes: &[u8]) -> bool
    ensures { result ≡ decimal_fits precision scale bytes.now }
{
    let whole = precision.saturating_sub(scale);
    let part = whole_size(whole);
    group_fits(bytes, 0, whole % 9)
        && full_fit(bytes, group_size(whole % 9), whole / 9)
        && full_fit(bytes, part, scale / 9)
        && group_fits(bytes, part + 4 * (scale / 9), scale % 9)
}

/// Appends a digit, but not a 0 where none was shown yet. Answers whether one is shown then.
#[inline(always)]
fn put_digit(out: &mut Vec<u8>, begun: bool, digit: u8) -> Result<bool, AllocError>
    ensures { Shows out.old.items out.new.items begun (digit ∷ []) result }
{
    if !begun && digit == b'0' {
        return Ok(false);
    }
    out.push(digit)?;
    Ok(true)
}

/// Appends digits; where none was shown yet, those from the first on that isn't 0. Answers whether one is
/// shown then.
fn put_shown(out: &mut Vec<u8>, started: bool, digits: &[u8]) -> Result<bool, AllocError>
    ensures { Shows out.old.items out.new.items started digits.now result }
{
    let mut begun = started;
    for digit in digits {
        begun = put_digit(out, begun, *digit)?;
    }
    Ok(begun)
}

/// Appends the digits of a group.
fn put_group(
    out: &mut Vec<u8>,
    started: bool,
    bytes: &[u8],
    place: u8,
    digits: u8,
) -> Result<bool, AllocError>
    requires { digits ≤ 9 }
    ensures { Shows out.old.items out.new.items started (group_text bytes.now (record { place = place; digits = digits })) result }
{
    let all = nine(group_number(bytes, place, digits));
    put_shown(out, started, all.split_at(usize::from(9 - digits)).1)
}

/// Appends the digits of so many groups of nine from a place on.
fn put_full(
    out: &mut Vec<u8>,
    started: bool,
    bytes: &[u8],
    place: u8,
    groups: u8,
) -> Result<bool, AllocError>
    requires { place + 4 * groups ≤ 250 }
    ensures { Shows out.old.items out.new.items started (flat_map (group_text bytes.now) (full_groups place groups)) result }
{
    let mut at = place;
    let mut begun = started;
    for _ in 0..groups {
        begun = put_group(out, begun, bytes, at, 9)?;
        at += 4;
    }
    Ok(begun)
}

/// Appends the digits before the point.
fn put_whole(out: &mut Vec<u8>, bytes: &[u8], digits: u8) -> Result<(), AllocError>
    ensures { OnOk result (out.new.items ≡ out.old.items ++ whole_text bytes.now digits) }
{
    let before = out.len();
    let started = put_group(out, false, bytes, 0, digits % 9)?;
    put_full(out, started, bytes, group_size(digits % 9), digits / 9)?;
    if out.len() == before {
        put(out, b"0")?;
    }
    Ok(())
}

/// Appends the point and the digits behind it, if there are any.
fn put_part(out: &mut Vec<u8>, bytes: &[u8], place: u8, digits: u8) -> Result<(), AllocError>
    requires { place ≤ 117 }
    ensures { OnOk result (out.new.items ≡ out.old.items ++ part_text bytes.now place digits) }
{
    if digits == 0 {
        return Ok(());
    }
    put(out, b".")?;
    let started = put_full(out, true, bytes, place, digits / 9)?;
    put_group(out, started, bytes, place + 4 * (digits / 9), digits % 9)?;
    Ok(())
}

/// Appends a DECIMAL.
pub(crate) fn put_decimal(
    out: &mut Vec<u8>,
    precision: u8,
    scale: u8,
    bytes: &[u8],
) -> Result<(), AllocError>
    ensures { OnOk result (out.new.items ≡ out.old.items ++ decimal_in precision scale bytes.now) }
{
    let whole = precision.saturating_sub(scale);
    put_minus(out, is_below(bytes))?;
    put_whole(out, bytes, whole)?;
    put_part(out, bytes, whole_size(whole), scale)
}
