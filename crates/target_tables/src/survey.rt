//! What the changes of a group meet in the map, before any is made.

ghost use Rattle.std.specs.Prelude.{◌≡◌, ◌+◌, ◌≤◌, length, vec_len, IfOk, IfErr};
ghost use Rattle.std.specs.List.{AllByRecursion};
ghost use Rattle.std.specs.Vec.{vec_capacity};
ghost use Rattle.target_tables.specs.Contents.{value_at};
ghost use Rattle.target_tables.specs.Rising.{IsRising};
ghost use Rattle.target_tables.specs.Kept.{verdict_of, IsFree, IsLastClash};
ghost use Rattle.target_tables.specs.Pages.{entries_of, AreFull};
ghost use Rattle.target_tables.specs.Touches.{new_keys};

use crate::hints::spot_by;
use crate::page::Page;
use crate::spots::{Spot, entry_at, next_to, spot_in};
use key_front::Fronted;

/// What a change meets.
#[derive(Clone, Copy)]
pub(crate) enum ChangeVerdict {
    /// A row is put at a key that is new to the map.
    NewKey,
    /// A row is to be put where a row of this other stream stands.
    Foreign(u8),
    /// Neither.
    Free,
}

/// A row of another stream in the way of a change.
#[derive(Clone, Copy)]
pub(crate) struct Clash {
    /// the change's place
    pub(crate) place: usize,
    /// the stream that owns the row
    pub(crate) owner: u8,
}

/// What a change meets, and where.
#[derive(Clone, Copy)]
struct Met {
    verdict: ChangeVerdict,
    /// the place of its key, or the one at which it would stand
    found: Result<Spot, Spot>,
}

/// What a change meets. The place that the hint names is looked at first.
fn judge<K: Fronted, R>(
    pages: &[Page<K, R>],
    hint: Spot,
    stream: u8,
    change: &(K, Option<R>),
) -> Met
    requires rising { IsRising K.cmp (entries_of pages.now) }
    requires full { AreFull pages.now }
    ensures { result.verdict ≡ verdict_of stream change.now.1 (value_at K.cmp (entries_of pages.now) change.now.0) }
{
    let found = spot_by(pages, hint, &change.0);
    if change.1.is_none() {
        return Met {
            verdict: ChangeVerdict::Free,
            found,
        };
    }
    match found {
        Err(_) => Met {
            verdict: ChangeVerdict::NewKey,
            found,
        },
        Ok(spot) => {
            let entry = entry_at(pages, spot);
            let owner = entry.1.0;
            if owner == stream {
                Met {
                    verdict: ChangeVerdict::Free,
                    found,
                }
            } else {
                Met {
                    verdict: ChangeVerdict::Foreign(owner),
                    found,
                }
            }
        }
    }
}

/// How many changes put a row at a new key, or the last change that a row of another stream is in
/// the way of. Looks each key up once, and tells the places that it found, that of the last change first.
pub(crate) fn survey<K: Fronted, R>(
    pages: &[Page<K, R>],
    stream: u8,
    changes: &[(K, Option<R>)],
    spots: &mut Vec<Spot>,
) -> Result<usize, Clash>
    requires rising { IsRising K.cmp (entries_of pages.now) }
    requires full { AreFull pages.now }
    requires places { vec_len spots.old + length changes.now ≤ vec_capacity spots.old }
    ensures ok { IfOk result (λ count. (count ≡ new_keys K.cmp (entries_of pages.now) changes.now) × AllByRecursion (IsFree K.cmp (entries_of pages.now) stream) changes.now) }
    ensures err { IfErr result (λ clash. IsLastClash K.cmp (entries_of pages.now) stream changes.now clash.place clash.owner) }
{
    let mut place = changes.len();
    let mut count = 0;
    let mut near = Spot { page: 0, place: 0 };
    while place > 0 {
        place -= 1;
        let met = judge(pages, near, stream, &changes[place]);
        near = next_to(met.found);
        spots.push_reserved(spot_in(met.found));
        match met.verdict {
            ChangeVerdict::NewKey => count += 1,
            ChangeVerdict::Foreign(owner) => return Err(Clash { place, owner }),
            ChangeVerdict::Free => {}
        }
    }
    Ok(count)
}
