//! The check of 32 bits, eight bytes a step.

ghost use Rattle.std.specs.Prelude.{◌≡◌, ◌+◌, ◌-◌, ◌<◌, ◌≤◌, [], ◌∷◌, length, slice_index};
ghost use Rattle.log_events.specs.Crc.{crc_bit, crc_entry, crc_ahead, crc_from, crc32, IsTable};

use std::alloc::{AllocError, Global};

/// What a check begins with, and by what it ends.
pub(crate) const ALL_ONES: u32 = 0xffff_ffff;

/// How many remainders a part of the table has: one for each byte.
const PART: usize = 256;

/// How many remainders the table has.
const WHOLE: usize = 8 * PART;

/// The remainder one bit on.
#[inline(always)]
#[tactic(auto, unfolding(crate::specs::Crc::crc_bit))]
fn bit_on(sum: u32) -> u32
    ensures { result ≡ crc_bit sum }
{
    if sum % 2 == 1 {
        0xedb8_8320 ^ (sum / 2)
    } else {
        sum / 2
    }
}

/// The remainder eight bits on.
#[tactic(auto, unfolding(crate::specs::Crc::crc_entry))]
fn byte_on(sum: u32) -> u32
    ensures { result ≡ crc_entry sum }
{
    let sum = bit_on(bit_on(bit_on(bit_on(sum))));
    bit_on(bit_on(bit_on(bit_on(sum))))
}

/// What the entry at a place is one byte on from: its byte, or that byte's entry in the part before.
fn one_byte_before(entries: &[u32], place: usize) -> u32
    requires within { place < 2048 }
    requires long { length entries.now ≡ place }
    ensures byte { place < 256 → result ≡ place }
    ensures entry { 256 ≤ place → result ≡ slice_index entries.now (place - 256) }
{
    match place.checked_sub(PART) {
        Some(before) => entries[before],
        None => place as u32,
    }
}

/// The remainders of each byte, one to eight bytes on, made once.
#[derive(Drop)]
pub struct CrcTable {
    entries: Vec<u32>,
    ghost is_table: { IsTable entries.items },
}

impl CrcTable {
    /// The table. Takes memory for 2,048 numbers.
    pub fn new(alloc: Global) -> Result<CrcTable, AllocError> {
        let mut entries = Vec::with_capacity(alloc, WHOLE)?;
        for place in 0..WHOLE {
            entries.push(byte_on(one_byte_before(entries.as_slice(), place)))?;
        }
        Ok(CrcTable { entries })
    }

    /// The remainder of one byte, so many further bytes of zero on.
    #[inline(always)]
    fn entry(&self, further: usize, byte: u32) -> u32
        requires few { further < 8 }
        requires byte { byte < 256 }
        ensures { result ≡ crc_ahead (further + 1) byte }
    {
        self.entries[PART * further + byte as usize]
    }

    /// The remainder of four bytes, so many further bytes of zero on.
    #[inline(always)]
    fn four_ahead(&self, further: usize, a: u32, b: u32, c: u32, d: u32) -> u32
        requires few { further + 3 < 8 }
        requires first { a < 256 }
        requires second { b < 256 }
        requires third { c < 256 }
        requires fourth { d < 256 }
        ensures { result ≡ crc_ahead further (crc_from 0 (a ∷ b ∷ c ∷ d ∷ [])) }
    {
        let first = self.entry(further + 3, a) ^ self.entry(further + 2, b);
        first ^ self.entry(further + 1, c) ^ self.entry(further, d)
    }

    /// The remainder behind eight more bytes. What was before goes into the first four of them.
    #[inline(always)]
    fn eight_on(&self, sum: u32, bytes: &[u8; 8]) -> u32
        ensures { result ≡ crc_from sum bytes.now }
    {
        let [a, b, c, d, e, f, g, h] = *bytes;
        let second = sum / 256;
        let third = second / 256;
        let fourth = third / 256;
        let first_four = self.four_ahead(
            4,
            (sum ^ u32::from(a)) % 256,
            (second ^ u32::from(b)) % 256,
            (third ^ u32::from(c)) % 256,
            (fourth ^ u32::from(d)) % 256,
        );
        first_four ^ self.four_ahead(0, u32::from(e), u32::from(f), u32::from(g), u32::from(h))
    }

    /// The remainder behind more bytes, one at a time.
    fn few_on(&self, sum: u32, bytes: &[u8]) -> u32
        ensures { result ≡ crc_from sum bytes.now }
    {
        let mut sum = sum;
        for byte in bytes {
            sum = self.entry(0, (sum ^ u32::from(*byte)) % 256) ^ (sum / 256);
        }
        sum
    }

    /// The remainder behind more bytes.
    pub(crate) fn go_on(&self, sum: u32, bytes: &[u8]) -> u32
        ensures { result ≡ crc_from sum bytes.now }
    {
        let mut sum = sum;
        let mut left = bytes;
        while let Some((eight, rest)) = left.split_first_chunk::<8>() {
            sum = self.eight_on(sum, eight);
            left = rest;
        }
        self.few_on(sum, left)
    }

    /// The check of some bytes.
    #[tactic(auto, unfolding(crate::specs::Crc::crc32))]
    pub fn check_of(&self, bytes: &[u8]) -> u32
        ensures { result ≡ crc32 bytes.now }
    {
        self.go_on(ALL_ONES, bytes) ^ ALL_ONES
    }
}
