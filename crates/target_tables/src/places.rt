//! Where a key stands among rising entries.

ghost use Rattle.std.specs.Prelude.{◌≡◌, MatchResult};
ghost use Rattle.target_tables.specs.Rising.{IsRising};
ghost use Rattle.target_tables.specs.Places.{IsAt, IsGap};

use std::cmp::Ordering;

/// How an entry's key stands to this one.
pub(crate) fn order<K: Ord, V>(entry: &(K, V), key: &K) -> Ordering
    ensures { result ≡ K.cmp entry.now.0 key.now }
{
    entry.0.cmp(key)
}

/// The place of the entry with the key, or else the place at which it would stand. Found by halves.
pub(crate) fn place_of<K: Ord, V>(entries: &[(K, V)], key: &K) -> Result<usize, usize>
    requires { IsRising K.cmp entries.now }
    ensures { MatchResult result (IsAt K.cmp entries.now key.now) (IsGap K.cmp entries.now key.now) }
{
    let mut low = 0;
    let mut high = entries.len();
    while low < high {
        let middle = low + (high - low) / 2;
        match order(&entries[middle], key) {
            Ordering::Less => low = middle + 1,
            Ordering::Equal => return Ok(middle),
            Ordering::Greater => high = middle,
        }
    }
    Err(low)
}
