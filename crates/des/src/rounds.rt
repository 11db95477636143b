//! The sixteen rounds, each by tables.

ghost use Rattle.std.specs.Prelude.{◌≡◌, ℕ, ◌/◌, ◌%◌, ◌^◌, ◌<◌, ◌≤◌, slice_index};
ghost use Rattle.des.specs.Des.{cipher_function, enciphered};
ghost use Rattle.des.specs.Private.Words.{turned, odd_word, even_word, HasRoundKeys};

use crate::boxes::{BOX_1, BOX_2, BOX_3, BOX_4, BOX_5, BOX_6, BOX_7, BOX_8};
use crate::permutations::{finally_permuted, initially_permuted};

/// A block enciphered, by the words of a key's round keys.
pub(crate) fn enciphered(odd: &[u32; 16], even: &[u32; 16], block: u64) -> u64
    ensures { (key : ℕ) → HasRoundKeys key odd.now even.now → result ≡ enciphered key block }
{
    let permuted = initially_permuted(block);
    let mut left = ((permuted >> 32) as u32).rotate_right(1);
    let mut right = ((permuted % (1 << 32)) as u32).rotate_right(1);
    for round in 0..16 {
        let next = left ^ mixed(right, odd[round], even[round]);
        left = right;
        right = next;
    }
    let (left, right) = (left.rotate_left(1), right.rotate_left(1));
    finally_permuted((u64::from(right) << 32) + u64::from(left))
}

/// What a box has for six bits of a word, above those that stand lower.
#[inline(always)]
fn value_of(values: &[u32; 64], word: u32, lower: u32) -> u32
    requires { lower < 32 }
    ensures { result ≡ slice_index values.now (word / 2 ^ lower % 2 ^ 6) }
{
    values[(word >> lower) as usize % 64]
}

/// `f (R, K)` of a right half R and a round key K, all bits of a half one place to the right, so that
/// the groups of six of E (R) lie in the half itself and in the half rotated by four: those with an odd
/// number in the first, those with an even one in the second, beside the key's words.
#[inline(always)]
fn mixed(half: u32, odd: u32, even: u32) -> u32
    ensures { (right key : ℕ) → right < 2 ^ 32 → half ≡ turned right → odd ≡ odd_word key → even ≡ even_word key
        → result ≡ turned (cipher_function right key) }
{
    let odd = half ^ odd;
    let even = half.rotate_left(4) ^ even;
    value_of(&BOX_1, odd, 26)
        ^ value_of(&BOX_2, even, 26)
        ^ value_of(&BOX_3, odd, 18)
        ^ value_of(&BOX_4, even, 18)
        ^ value_of(&BOX_5, odd, 10)
        ^ value_of(&BOX_6, even, 10)
        ^ value_of(&BOX_7, odd, 2)
        ^ value_of(&BOX_8, even, 2)
}
