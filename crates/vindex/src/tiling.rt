//! Whether key ranges split all keyspace ids among them.

ghost use Rattle.std.specs.Prelude.{◌≡◌, ◌↔◌, Some, IsTrue};
ghost use Rattle.std.specs.Option.{option_copied};
ghost use Rattle.vindex.specs.Tiling.{Tiles, SplitsAllIds};

use crate::key_ranges::KeyRange;

/// Whether the ranges lie end to end over all ids, in this order: there is at least one, the first
/// start and the last end are open, and every other end is given and is the start of the next range.
/// Then each id is in exactly one of them. Takes no memory.
pub fn tiles(ranges: &[KeyRange]) -> bool
    ensures exact { IsTrue result ↔ Tiles ranges.now }
    ensures each_id_in_one_range { IsTrue result → SplitsAllIds ranges.now }
{
    let mut covered: Option<&[u8]> = Some(&[]);
    for range in ranges {
        if !meets(covered, range) {
            return false;
        }
        covered = range.end();
    }
    covered.is_none()
}

/// Whether a range starts where the earlier ones end.
fn meets(covered: Option<&[u8]>, range: &KeyRange) -> bool
    ensures { IsTrue result ↔ (option_copied covered.entry ≡ Some range.now.start) }
{
    match covered {
        Some(end) => end == range.start(),
        None => false,
    }
}
