//! The order of byte strings.

ghost use Rattle.std.specs.Prelude.{◌≡◌};
ghost use Rattle.std.specs.Cmp.Lexicographic.{slice_cmp};
ghost use Rattle.std.specs.Ordering.{nat_cmp};

use crate::front::word_of;
use std::cmp::Ordering;

/// How many bytes are compared at once.
const WORD: usize = 8;

/// The order of two byte strings, byte by byte: eight bytes are compared at once, as the numbers that they spell.
pub(crate) fn text_order(one: &[u8], other: &[u8]) -> Ordering
    ensures { result ≡ slice_cmp nat_cmp one.now other.now }
{
    let mut left = one;
    let mut right = other;
    while left.len() >= WORD && right.len() >= WORD {
        let (a, b) = (word_of(left), word_of(right));
        if a < b {
            return Ordering::Less;
        }
        if a > b {
            return Ordering::Greater;
        }
        left = &left[WORD..];
        right = &right[WORD..];
    }
    left.cmp(right)
}
