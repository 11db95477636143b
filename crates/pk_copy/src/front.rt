//! The front of a key: two numbers that decide most comparisons.

ghost use Rattle.std.specs.Prelude.{◌≡◌, ◌<◌, [], ◌∷◌, List, map, slice_index, None, IfSome};
ghost use Rattle.pk_copy.specs.KeyValue.{KeyValue, Part, AreParts};
ghost use Rattle.pk_copy.specs.KeyFront.{word, BeginsInBytes, IsFrontOf};
ghost use Rattle.pk_copy.specs.FrontNumber.{front_number};
ghost use Rattle.pk_copy.specs.KeyOrder.{key_cmp};
ghost use Rattle.pk_copy.specs.PartValue.{part_value};
ghost use Rattle.pk_copy.specs.SmallPartValue.{small_value};

use crate::part::KeyPart;
use crate::small_part::SmallPart;
use std::cmp::Ordering;

/// Two numbers that keep the order of keys: the key with the lesser lead is less, and of two with one lead the
/// one with the lesser head.
#[derive(Clone, Copy, Debug)]
pub(crate) struct Front {
    /// Four times the number of the table, and the kind of the first part: 0 where there is none, 1 for a number
    /// below 0, 2 for one from 0, 3 for a byte string.
    pub(crate) lead: u16,
    /// What orders first parts of one kind: a number, from 2^64 on down below 0, or the first eight bytes.
    pub(crate) head: u64,
}

/// The most that 54 bits have.
const MOST: u64 = (1 << 54) - 1;

/// The byte at a place of a text, 0 behind it.
fn padded_at(text: &[u8], place: usize) -> u8
    ensures { result ≡ slice_index text.now place }
{
    if place >= text.len() {
        return 0;
    }
    text[place]
}

/// The number that the first eight bytes of a text spell, the first the highest, zeros behind a shorter text.
pub(crate) fn word_of(text: &[u8]) -> u64
    ensures spelled { result ≡ word 8 text.now }
    ensures in_bytes { BeginsInBytes 8 text.now }
{
    if text.len() >= 8 {
        return u64::from_be_bytes([
            text[0], text[1], text[2], text[3], text[4], text[5], text[6], text[7],
        ]);
    }
    u64::from_be_bytes([
        padded_at(text, 0),
        padded_at(text, 1),
        padded_at(text, 2),
        padded_at(text, 3),
        padded_at(text, 4),
        padded_at(text, 5),
        padded_at(text, 6),
        padded_at(text, 7),
    ])
}

impl Front {
    /// The front of a key of a table without parts.
    pub(crate) fn bare(table: u8) -> Front
        ensures front { IsFrontOf result.lead result.head (record { table = table; parts = [] }) }
        ensures within { result.lead < 1024 }
    {
        Front {
            lead: 4 * u16::from(table),
            head: 0,
        }
    }

    /// The front of a key of a table that begins with this part.
    pub(crate) fn of(table: u8, part: SmallPart<'_>) -> Front
        ensures front { (parts : List Part) → IsFrontOf result.lead result.head (record { table = table; parts = small_value part.entry ∷ parts }) }
        ensures within { result.lead < 1024 }
    {
        let lead = 4 * u16::from(table);
        match part {
            SmallPart::Negative(below) => Front {
                lead: lead + 1,
                head: u64::MAX - below,
            },
            SmallPart::Natural(value) => Front {
                lead: lead + 2,
                head: value,
            },
            SmallPart::Bytes(text) => Front {
                lead: lead + 3,
                head: word_of(text),
            },
        }
    }

    /// The front of a key of a table with these parts.
    pub(crate) fn of_parts(table: u8, parts: &[KeyPart<'_>]) -> Front
        requires { AreParts (map part_value parts.now) }
        ensures front { IsFrontOf result.lead result.head (record { table = table; parts = map part_value parts.now }) }
        ensures within { result.lead < 1024 }
    {
        match parts {
            [part, ..] => Front::of(table, SmallPart::from_part(*part)),
            [] => Front::bare(table),
        }
    }
}

impl Front {
    /// The front as one number: the lead, and below it what 54 bits have of the head.
    pub(crate) fn number(self) -> u64
        requires { self.lead < 1024 }
        ensures { (key : KeyValue) → IsFrontOf self.lead self.head key → result ≡ front_number key }
    {
        let head = match self.lead % 4 {
            1 => self.head.saturating_sub(u64::MAX - MOST),
            2 => self.head.min(MOST),
            3 => self.head / 1024,
            _ => 0,
        };
        u64::from(self.lead) * (MOST + 1) + head
    }
}

/// The order of two keys, as far as their fronts decide it; where these don't, they are equal.
#[inline(always)]
pub(crate) fn decided(one: Front, other: Front) -> Option<Ordering>
    ensures told { (x y : KeyValue) → IsFrontOf one.lead one.head x → IsFrontOf other.lead other.head y → IfSome result (λ order. order ≡ key_cmp x y) }
    ensures tied { result ≡ None → (one.lead ≡ other.lead) × (one.head ≡ other.head) }
{
    if one.lead < other.lead {
        return Some(Ordering::Less);
    }
    if one.lead > other.lead {
        return Some(Ordering::Greater);
    }
    if one.head < other.head {
        return Some(Ordering::Less);
    }
    if one.head > other.head {
        return Some(Ordering::Greater);
    }
    None
}
