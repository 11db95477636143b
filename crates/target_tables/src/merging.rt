//! One map made of the rows of two, by their streams.

ghost use Rattle.std.specs.Prelude.{◌≡◌, ◌≤◌, ◌+◌, [], length, IfOk, IfErr};
ghost use Rattle.target_tables.specs.Merged.{AreMerged};
ghost use Rattle.target_tables.specs.Kept.{TakesLesser, AreMixed};

use crate::merge_side::MergeSide;
use crate::side_part::SidePart;
use crate::tables::Tables;
use key_front::Fronted;
use std::alloc::Global;
use std::cmp::Ordering;

/// Takes out the lesser of the first entries of two maps; where their keys are equal that of the first, and
/// drops the other.
fn take_lesser<K: Fronted + Drop, R: Drop>(
    one: &mut SidePart<K, R>,
    other: &mut SidePart<K, R>,
) -> Option<(K, (u8, R))>
    ensures { TakesLesser K.cmp one.old other.old result one.new other.new }
{
    match one.first() {
        None => other.take(),
        Some(key) => match other.first() {
            None => one.take(),
            Some(second) => match key.cmp(second) {
                Ordering::Less => one.take(),
                Ordering::Greater => other.take(),
                Ordering::Equal => {
                    drop(other.take());
                    one.take()
                }
            },
        },
    }
}

/// All entries of two maps, so many at most, put into an empty one; of two at one key that of the first.
fn mix<K: Fronted + Drop, R: Drop>(
    mixed: &mut Tables<K, R>,
    mut one: SidePart<'_, K, R>,
    mut other: SidePart<'_, K, R>,
    count: usize,
)
    requires empty { mixed.old.entries ≡ [] }
    requires most { length one + length other ≤ count }
    requires room { count ≤ mixed.old.room }
    ensures { AreMixed K.cmp one.entry other.entry mixed.new.entries }
{
    let mut left = count;
    while let Some(entry) = take_lesser(&mut one, &mut other) {
        left = left.saturating_sub(1);
        mixed.push_reserved(entry, left);
    }
}

/// One map of the rows of two: of each stream the rows of the map that its side names, and of a stream without a
/// side those of the first; of two rows at one key the first map's. Rows are moved, in time linear in the rows of
/// both. Where memory is wanted both maps are handed back.
pub fn merge<K: Fronted + Drop, R: Drop>(
    alloc: Global,
    one: Tables<K, R>,
    other: Tables<K, R>,
    sides: &[MergeSide],
) -> Result<Tables<K, R>, (Tables<K, R>, Tables<K, R>)>
    ensures merged { IfOk result (λ merged. AreMerged K.cmp sides.now one.entries other.entries merged.entries) }
    ensures handed_back { IfErr result (λ both. (both.0.entries ≡ one.entries) × (both.1.entries ≡ other.entries)) }
{
    let count = one
        .count(sides, MergeSide::First)
        .checked_add(other.count(sides, MergeSide::Second));
    let Some(count) = count else {
        return Err((one, other));
    };
    let mut merged = Tables::new(alloc);
    match merged.reserve(count) {
        Err(_) => Err((one, other)),
        Ok(()) => {
            mix(
                &mut merged,
                one.into_part(alloc, sides, MergeSide::First),
                other.into_part(alloc, sides, MergeSide::Second),
                count,
            );
            Ok(merged)
        }
    }
}
