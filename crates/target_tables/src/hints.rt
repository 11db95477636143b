//! A place that is looked at before a key is sought.

ghost use Rattle.std.specs.Prelude.{◌+◌, ◌<◌, ◌≤◌, length, take, drop, IfSome, IsTrue, MatchResult};
ghost use Rattle.target_tables.specs.Rising.{IsRising, AreBelow, AreAbove};
ghost use Rattle.target_tables.specs.Pages.{entries_of, page_at, flat, AreFull, StandsAt, WouldStandAt};

use crate::page::Page;
use crate::places::order;
use crate::spots::{Spot, entry_at, is_past, spot_of};
use key_front::Fronted;
use std::cmp::Ordering;

/// The entries of the pages behind this one have greater keys.
fn ends_before<K: Fronted, R>(pages: &[Page<K, R>], page: usize, key: &K) -> bool
    requires rising { IsRising K.cmp (entries_of pages.now) }
    requires full { AreFull pages.now }
    requires inside { page < length pages.now }
    ensures { IsTrue result → AreAbove K.cmp key.now (entries_of (drop (page + 1) pages.now)) }
{
    if page + 1 >= pages.len() {
        return true;
    }
    is_past(&pages[page + 1], key.front(), key)
}

/// The entries before this place have lesser keys. Before the first place of a later page that isn't looked at.
fn begins_behind<K: Fronted, R>(pages: &[Page<K, R>], spot: Spot, key: &K) -> bool
    requires rising { IsRising K.cmp (entries_of pages.now) }
    requires inside { spot.page < length pages.now }
    requires within { spot.place ≤ length (page_at pages.now spot.page) }
    ensures below { IsTrue result → AreBelow K.cmp key.now (take (flat pages.now spot.page spot.place) (entries_of pages.now)) }
    ensures first { IsTrue result → 0 < spot.page → 0 < spot.place }
{
    if spot.place == 0 {
        return spot.page == 0;
    }
    let before = Spot {
        page: spot.page,
        place: spot.place - 1,
    };
    order(entry_at(pages, before), key).is_lt()
}

/// The key stands at this place, or would stand there: told by the keys there and before it. None where
/// it stands, or would stand, elsewhere.
pub(crate) fn found_at<K: Fronted, R>(
    pages: &[Page<K, R>],
    hint: Spot,
    key: &K,
) -> Option<Result<Spot, Spot>>
    requires rising { IsRising K.cmp (entries_of pages.now) }
    requires full { AreFull pages.now }
    ensures { IfSome result (λ found. MatchResult found (λ spot. StandsAt K.cmp pages.now key.now spot.page spot.place) (λ spot. WouldStandAt K.cmp pages.now key.now spot.page spot.place)) }
{
    if hint.page >= pages.len() {
        return None;
    }
    let all = pages[hint.page].len();
    if hint.place < all {
        return match order(entry_at(pages, hint), key) {
            Ordering::Less => None,
            Ordering::Equal => Some(Ok(hint)),
            Ordering::Greater => {
                if begins_behind(pages, hint, key) {
                    return Some(Err(hint));
                }
                None
            }
        };
    }
    if hint.place == all && ends_before(pages, hint.page, key) {
        if begins_behind(pages, hint, key) {
            return Some(Err(hint));
        }
    }
    None
}

/// The place of the entry with the key, or else the place at which it would stand. The hint is looked at first;
/// where the key isn't told by it, it is sought from the hint's page.
pub(crate) fn spot_by<K: Fronted, R>(
    pages: &[Page<K, R>],
    hint: Spot,
    key: &K,
) -> Result<Spot, Spot>
    requires rising { IsRising K.cmp (entries_of pages.now) }
    requires full { AreFull pages.now }
    ensures { MatchResult result (λ spot. StandsAt K.cmp pages.now key.now spot.page spot.place) (λ spot. WouldStandAt K.cmp pages.now key.now spot.page spot.place) }
{
    match found_at(pages, hint, key) {
        Some(found) => found,
        None => spot_of(pages, hint.page, key),
    }
}
