//! The printed form of a set.

ghost use Rattle.std.specs.Prelude.{◌≡◌, ◌+◌, ◌/◌, ◌%◌, ◌<◌, Some, slice_set};
ghost use Rattle.gtid_set.specs.Printed.{hex_glyph, group_of, uuid_text};

use crate::interval::Interval;
use crate::set::GtidSet;
use std::{fmt, str};

/// 16 bits of a uuid, from `place` bits above its low end on.
fn group(uuid: u128, place: u32) -> u16
    requires { place < 128 }
    ensures { result ≡ group_of uuid place }
{
    (uuid / (1 << place) % 65536) as u16
}

/// A hexadecimal digit in lower case.
fn hex_glyph(digit: u16) -> u8
    requires { digit < 16 }
    ensures { result ≡ hex_glyph digit }
{
    if digit < 10 {
        b'0' + digit as u8
    } else {
        b'a' - 10 + digit as u8
    }
}

/// Puts the four digits of a group at a place of a text.
fn put(text: &mut [u8; 36], at: usize, group: u16)
    requires { at + 3 < 36 }
    ensures { text.new ≡ slice_set (slice_set (slice_set (slice_set text.old
        at (hex_glyph (group / 4096 % 16)))
        (at + 1) (hex_glyph (group / 256 % 16)))
        (at + 2) (hex_glyph (group / 16 % 16)))
        (at + 3) (hex_glyph (group % 16)) }
{
    text[at] = hex_glyph(group / 4096 % 16);
    text[at + 1] = hex_glyph(group / 256 % 16);
    text[at + 2] = hex_glyph(group / 16 % 16);
    text[at + 3] = hex_glyph(group % 16);
}

/// A uuid's text, 8-4-4-4-12, in lower case. Takes no memory.
pub fn uuid_text(uuid: u128) -> [u8; 36]
    ensures { result ≡ uuid_text uuid }
{
    let mut text = [b'-'; 36];
    put(&mut text, 0, group(uuid, 112));
    put(&mut text, 4, group(uuid, 96));
    put(&mut text, 9, group(uuid, 80));
    put(&mut text, 14, group(uuid, 64));
    put(&mut text, 19, group(uuid, 48));
    put(&mut text, 24, group(uuid, 32));
    put(&mut text, 28, group(uuid, 16));
    put(&mut text, 32, group(uuid, 0));
    text
}

/// A uuid, which is written in one piece.
#[derive(Drop)]
struct UuidText(u128);

impl fmt::Display for UuidText {
    ghost use Rattle.std.specs.Prelude.{Some};
    ghost use Rattle.gtid_set.specs.Printed.{uuid_text};

    ghost output = { λ uuid. Some (uuid_text uuid.0) };

    fn fmt<W: fmt::Write>(&self, f: &mut fmt::Formatter<W>) -> fmt::Result {
        f.write_str(str::from_utf8(&uuid_text(self.0)).unwrap())
    }
}

/// The numbers of an interval: the only one, or the first and the last.
#[derive(Drop)]
struct NumbersText(u64, u64);

impl fmt::Display for NumbersText {
    ghost use Rattle.std.specs.Prelude.{Some};
    ghost use Rattle.gtid_set.specs.Printed.{span_text};

    ghost output = { λ numbers. Some (span_text numbers.0 numbers.1) };

    fn fmt<W: fmt::Write>(&self, f: &mut fmt::Formatter<W>) -> fmt::Result {
        if self.0 == self.1 {
            write!(f, "{}", self.0)
        } else {
            write!(f, "{}-{}", self.0, self.1)
        }
    }
}

/// The separators and the uuid before an interval's numbers: a colon, and a comma and the uuid
/// where the interval before it is of another one.
#[derive(Drop)]
pub struct IntervalText<'s> {
    pub interval: &'s Interval,
    /// The uuid of the interval before it, if there is one.
    pub before: Option<u128>,
}

impl fmt::Display for IntervalText<'_> {
    ghost use Rattle.std.specs.Prelude.{Some};
    ghost use Rattle.gtid_set.specs.Printed.{interval_text};

    ghost output = { λ text. Some (interval_text text.before text.interval.now) };

    fn fmt<W: fmt::Write>(&self, f: &mut fmt::Formatter<W>) -> fmt::Result {
        let numbers = NumbersText(self.interval.first, self.interval.last);
        match self.before {
            None => write!(f, "{}:{numbers}", UuidText(self.interval.uuid)),
            Some(before) if before == self.interval.uuid => write!(f, ":{numbers}"),
            Some(_) => write!(f, ",{}:{numbers}", UuidText(self.interval.uuid)),
        }
    }
}

/// Lower case, uuids in the order of their text, intervals rising, joined by commas without
/// blanks; the empty set prints nothing.
impl fmt::Display for GtidSet {
    ghost use Rattle.std.specs.Prelude.{Some};
    ghost use Rattle.gtid_set.specs.Printed.{printed_position};

    ghost output = { λ set. Some (printed_position set) };

    fn fmt<W: fmt::Write>(&self, f: &mut fmt::Formatter<W>) -> fmt::Result {
        let mut before = None;
        for interval in self.intervals() {
            write!(f, "{}", IntervalText { interval, before })?;
            before = Some(interval.uuid);
        }
        Ok(())
    }
}
