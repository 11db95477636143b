//! Where a key stands in a map's pages.

ghost use Rattle.std.specs.Prelude.{◌≡◌, ◌<◌, length, get_or, MatchResult};
ghost use Rattle.target_tables.specs.Rising.{IsRising};
ghost use Rattle.target_tables.specs.Pages.{entries_of, page_at, flat, begins_past, AreFull, IsSpan, FallsInto, StandsAt, WouldStandAt};

use crate::page::Page;
use crate::places::{order, place_of};
use key_front::Fronted;

/// A place in a page.
#[derive(Clone, Copy)]
pub(crate) struct Spot {
    /// the page
    pub(crate) page: usize,
    /// the entry's place in it
    pub(crate) place: usize,
}

/// The place itself, whether an entry stands or would stand there.
pub(crate) fn spot_in(found: Result<Spot, Spot>) -> Spot {
    match found {
        Ok(spot) => spot,
        Err(spot) => spot,
    }
}

/// The place behind this one in its page.
pub(crate) fn behind(page: usize, place: usize) -> Spot {
    Spot {
        page,
        place: place.wrapping_add(1),
    }
}

/// Where a greater key may stand: behind an entry that was found, or where none was.
pub(crate) fn next_to(found: Result<Spot, Spot>) -> Spot {
    match found {
        Ok(spot) => behind(spot.page, spot.place),
        Err(spot) => spot,
    }
}

/// The page's first key is greater than this one, which has this front: told by the fronts, and where these are equal
/// by the keys.
pub(crate) fn is_past<K: Fronted, R>(page: &Page<K, R>, front: u64, key: &K) -> bool
    requires { front ≡ K.front_of key.now }
    ensures { result ≡ begins_past K.cmp key.now page.now }
{
    let first = page.front();
    if first != front {
        return first > front;
    }
    match page.entries().first() {
        Some(entry) => order(entry, key).is_gt(),
        None => false,
    }
}

/// Where pages are looked for a key that falls into the page at `low` or a later one before `high`.
#[derive(Clone, Copy)]
struct Span {
    low: usize,
    high: usize,
}

/// The pages that a key can fall into, by a look at one page and the next: one alone where the key falls into
/// it.
fn span_near<K: Fronted, R>(pages: &[Page<K, R>], near: usize, front: u64, key: &K) -> Span
    requires front { front ≡ K.front_of key.now }
    requires rising { IsRising K.cmp (entries_of pages.now) }
    requires full { AreFull pages.now }
    requires some { 0 < length pages.now }
    ensures { IsSpan K.cmp pages.now key.now result.low result.high }
{
    let all = pages.len();
    if near >= all || is_past(&pages[near], front, key) {
        return Span { low: 0, high: all };
    }
    if near + 1 < all && is_past(&pages[near + 1], front, key) {
        return Span {
            low: near,
            high: near + 1,
        };
    }
    Span {
        low: near,
        high: all,
    }
}

/// The page that a key falls into: the last whose first key is at most it, else the first page. Found by
/// halves, unless it is the page `near` or the last one, behind it.
fn page_of<K: Fronted, R>(pages: &[Page<K, R>], near: usize, key: &K) -> usize
    requires rising { IsRising K.cmp (entries_of pages.now) }
    requires full { AreFull pages.now }
    requires some { 0 < length pages.now }
    ensures { FallsInto K.cmp pages.now key.now result }
{
    let front = key.front();
    let Span { mut low, mut high } = span_near(pages, near, front, key);
    while high - low > 1 {
        let middle = low + (high - low) / 2;
        if is_past(&pages[middle], front, key) {
            high = middle;
        } else {
            low = middle;
        }
    }
    low
}

/// The place of the entry with the key, or else the place at which it would stand. The page `near` is looked at
/// first; the others are searched by halves, and so is the page.
pub(crate) fn spot_of<K: Fronted, R>(
    pages: &[Page<K, R>],
    near: usize,
    key: &K,
) -> Result<Spot, Spot>
    requires rising { IsRising K.cmp (entries_of pages.now) }
    requires full { AreFull pages.now }
    ensures { MatchResult result (λ spot. StandsAt K.cmp pages.now key.now spot.page spot.place) (λ spot. WouldStandAt K.cmp pages.now key.now spot.page spot.place) }
{
    if pages.is_empty() {
        return Err(Spot { page: 0, place: 0 });
    }
    let page = page_of(pages, near, key);
    match place_of(pages[page].entries(), key) {
        Ok(place) => Ok(Spot { page, place }),
        Err(place) => Err(Spot { page, place }),
    }
}

/// The entry at a place. That it is there is the caller's.
pub(crate) fn entry_at<'t, K: Fronted, R>(pages: &'t [Page<K, R>], spot: Spot) -> &'t (K, (u8, R))
    requires inside { spot.page < length pages.now }
    requires within { spot.place < length (page_at pages.now spot.page) }
    ensures { result.now ≡ get_or (entries_of pages.now) (flat pages.now spot.page spot.place) result.now }
{
    let Spot { page, place } = spot;
    &pages[page].entries()[place]
}
