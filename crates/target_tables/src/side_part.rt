//! The entries of the streams that come from one side of a merge, in a map that is taken apart.

ghost use Rattle.std.specs.Prelude.{◌≡◌, ◌≤◌, ◌^◌, [], ◌∷◌, length, MatchOption};
ghost use Rattle.target_tables.specs.Kept.{IsFirstKey, fetched};
ghost use Rattle.target_tables.specs.Merged as merged;
ghost use Rattle.target_tables.specs.Merged.{part_of};
ghost use Rattle.target_tables.specs.Rising.{IsRising};

use crate::merge_side::{MergeSide, comes_from};
use crate::scan::Scan;
use crate::taken::Taken;
use key_front::Fronted;
use std::marker::Model;

/// How many of these entries are of streams that come from the side. Takes no memory.
pub(crate) fn count_from<K: Fronted, R>(
    mut rows: Scan<'_, K, R>,
    sides: &[MergeSide],
    side: MergeSide,
) -> usize
    requires { length rows ≤ 2 ^ 63 }
    ensures { result ≡ length (part_of (merged.comes_from sides.now side) rows.entry) }
{
    let mut count = 0;
    while let Some((_, stream, _)) = rows.next() {
        if comes_from(sides, side, stream) {
            count += 1;
        }
    }
    count
}

/// Takes entries out up to the first of a stream that comes from the side. The others are dropped.
fn fetch<K: Fronted + Drop, R: Drop>(
    later: &mut Taken<K, R>,
    sides: &[MergeSide],
    side: MergeSide,
) -> Option<(K, (u8, R))>
    ensures { fetched result (part_of (merged.comes_from sides.now side) later.new) ≡ part_of (merged.comes_from sides.now side) later.old }
{
    while let Some(entry) = later.pop() {
        if comes_from(sides, side, entry.1.0) {
            return Some(entry);
        }
    }
    None
}

/// The entries of the streams that come from a side, which are still to be taken out, by rising key: each key with
/// its stream and row. Seen in contracts as the list of these.
#[derive(Drop)]
pub(crate) struct SidePart<'m, K: Fronted, R> {
    first: Option<(K, (u8, R))>,
    later: Taken<K, R>,
    sides: &'m [MergeSide],
    side: MergeSide,
}

impl<'m, K: Fronted, R> Model for SidePart<'m, K, R> {
    ghost use Rattle.std.specs.Prelude.{ℕ, List};
    ghost use Rattle.target_tables.specs.Kept.{fetched};
    ghost use Rattle.target_tables.specs.Merged.{comes_from, part_of};
    ghost use Rattle.target_tables.specs.Rising.{IsRising};

    ghost Value = { List (K × (ℕ × R)) };

    ghost view = { λ l. fetched l.first (part_of (comes_from l.sides.now l.side) l.later) };

    ghost invariant = { λ l. IsRising K.cmp (fetched l.first (part_of (comes_from l.sides.now l.side) l.later)) };
}

impl<'m, K: Fronted + Drop, R: Drop> SidePart<'m, K, R> {
    /// Of these entries those of the streams that come from the side. Takes no memory.
    pub(crate) fn new(
        mut later: Taken<K, R>,
        sides: &'m [MergeSide],
        side: MergeSide,
    ) -> SidePart<'m, K, R>
        requires { IsRising K.cmp later }
        ensures { result ≡ part_of (merged.comes_from sides.now side) later }
    {
        let first = fetch(&mut later, sides, side);
        SidePart {
            first,
            later,
            sides,
            side,
        }
    }

    /// The first entry's key, if an entry is left. Takes no memory.
    pub(crate) fn first(&self) -> Option<&K>
        ensures first { MatchOption result (self.now ≡ []) (λ key. IsFirstKey key.now self.now) }
        ensures rising { IsRising K.cmp self.now }
    {
        match &self.first {
            Some((key, _)) => Some(key),
            None => None,
        }
    }

    /// Takes the first entry out, if one is left. Takes no memory.
    pub(crate) fn take(&mut self) -> Option<(K, (u8, R))>
        ensures taken { MatchOption result ((self.old ≡ []) × (self.new ≡ [])) (λ entry. self.old ≡ entry ∷ self.new) }
        ensures rising { IsRising K.cmp self.old }
    {
        let entry = self.first.take()?;
        self.first = fetch(&mut self.later, self.sides, self.side);
        Some(entry)
    }
}
