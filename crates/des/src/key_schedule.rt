//! The key schedule.

ghost use Rattle.std.specs.Prelude.{◌≡◌, ◌<◌, ◌≤◌, ◌^◌};
ghost use Rattle.des.specs.Des.{rotated, six_bits};
ghost use Rattle.des.specs.Private.Words.{odd_word, even_word, HasRoundKeys};

use crate::selection::selected;

/// PC-1.
const PERMUTED_CHOICE_1: [u8; 56] = [
    57, 49, 41, 33, 25, 17, 9, 1, 58, 50, 42, 34, 26, 18, 10, 2, 59, 51, 43, 35, 27, 19, 11, 3, 60,
    52, 44, 36, 63, 55, 47, 39, 31, 23, 15, 7, 62, 54, 46, 38, 30, 22, 14, 6, 61, 53, 45, 37, 29,
    21, 13, 5, 28, 20, 12, 4,
];

/// PC-2.
const PERMUTED_CHOICE_2: [u8; 48] = [
    14, 17, 11, 24, 1, 5, 3, 28, 15, 6, 21, 10, 23, 19, 12, 4, 26, 8, 16, 7, 27, 20, 13, 2, 41, 52,
    31, 37, 47, 55, 30, 40, 51, 45, 33, 48, 44, 49, 39, 56, 34, 53, 46, 42, 50, 36, 29, 32,
];

/// By how many places C and D are rotated in each round.
const LEFT_SHIFTS: [u32; 16] = [1, 1, 2, 2, 2, 2, 2, 2, 1, 2, 2, 2, 2, 2, 2, 1];

/// The round keys of a key: of each the groups of six bits with an odd number, and those with an even
/// one, each in a byte's upper six bits.
#[derive(Drop)]
pub(crate) struct RoundKeys {
    pub(crate) odd: [u32; 16],
    pub(crate) even: [u32; 16],
}

/// The round keys of a key.
pub(crate) fn round_keys(key: u64) -> RoundKeys
    ensures { HasRoundKeys key result.odd result.even }
{
    let state = selected(&PERMUTED_CHOICE_1, 64, key);
    let mut left = (state >> 28) as u32;
    let mut right = (state % (1 << 28)) as u32;
    let mut odd = [0; 16];
    let mut even = [0; 16];
    for round in 0..16 {
        left = rotated(left, LEFT_SHIFTS[round]);
        right = rotated(right, LEFT_SHIFTS[round]);
        let state = (u64::from(left) << 28) + u64::from(right);
        let round_key = selected(&PERMUTED_CHOICE_2, 56, state);
        odd[round] = odd_word(round_key);
        even[round] = even_word(round_key);
    }
    RoundKeys { odd, even }
}

/// 28 bits, rotated to the left.
fn rotated(bits: u32, places: u32) -> u32
    requires bits { bits < 2 ^ 28 }
    requires few { places ≤ 2 }
    ensures value { result ≡ rotated bits places }
    ensures within { result < 2 ^ 28 }
{
    (bits << places) % (1 << 28) + (bits >> (28 - places))
}

/// A group of six bits of 48.
fn six_bits(key: u64, group: u32) -> u32
    requires first { 1 ≤ group }
    requires last { group ≤ 8 }
    ensures value { result ≡ six_bits key group }
    ensures within { result < 64 }
{
    ((key >> (48 - 6 * group)) % 64) as u32
}

/// The groups of a round key with an odd number.
fn odd_word(key: u64) -> u32
    ensures { result ≡ odd_word key }
{
    (six_bits(key, 1) << 26)
        + (six_bits(key, 3) << 18)
        + (six_bits(key, 5) << 10)
        + (six_bits(key, 7) << 2)
}

/// The groups of a round key with an even number.
fn even_word(key: u64) -> u32
    ensures { result ≡ even_word key }
{
    (six_bits(key, 2) << 26)
        + (six_bits(key, 4) << 18)
        + (six_bits(key, 6) << 10)
        + (six_bits(key, 8) << 2)
}
