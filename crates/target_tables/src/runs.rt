//! Rising changes that are put into one page together: its entries behind the first of them are moved once.

ghost use Rattle.std.specs.Prelude.{◌+◌, ◌<◌, ◌≤◌, ◌++◌, IsTrue, IfSome, length, take, drop, reverse, vec_len};
ghost use Rattle.std.specs.Ordering.{flip_args};
ghost use Rattle.target_tables.specs.Pages.{entries_of, AreFull};
ghost use Rattle.target_tables.specs.Rising.{IsRising, AreAbove};
ghost use Rattle.target_tables.specs.Private.Runs.{IsStart, IsOpen, MergesOn};

use crate::drift::staged_at;
use crate::hints::found_at;
use crate::page::{FULL, Page};
use crate::places::order;
use crate::spots::{Spot, is_past};
use key_front::Fronted;

/// Changes that were put into one page.
#[derive(Clone, Copy)]
pub(crate) struct Run {
    /// how many of the list's changes are left
    pub(crate) left: usize,
    /// the place behind the last one that was put
    pub(crate) behind: usize,
}

/// The next change and the one behind it were staged for one page.
pub(crate) fn share_page(spots: &[Spot], left: usize) -> bool {
    left > 1 && staged_at(spots, left - 2).page == staged_at(spots, left - 1).page
}

/// A page that has places left.
pub(crate) fn page_with_places<K: Fronted, R>(
    pages: &[Page<K, R>],
    page: usize,
) -> Option<&Page<K, R>> {
    match pages.get(page) {
        Some(found) if found.len() < FULL => Some(found),
        _ => None,
    }
}

/// Whether so many of the next changes were staged for one page that has places left that its entries behind the
/// first of them are better moved twice than once for each.
pub(crate) fn is_worth<K: Fronted, R>(
    pages: &[Page<K, R>],
    hint: Spot,
    spots: &[Spot],
    left: usize,
) -> bool {
    match page_with_places(pages, hint.page) {
        Some(page) => {
            let ahead = page.len().saturating_sub(hint.place) / 16 + 2;
            left >= ahead && staged_at(spots, left - ahead).page == staged_at(spots, left - 1).page
        }
        None => false,
    }
}

/// Where the next change's row is put, if its key is new and stands at the hint's place: all entries before it have
/// lesser keys than the changes that are left.
pub(crate) fn begins_run<K: Fronted, R>(
    pages: &[Page<K, R>],
    hint: Spot,
    changes: &[(K, Option<R>)],
    left: usize,
) -> Option<Spot>
    requires rising { IsRising K.cmp (entries_of pages.now) }
    requires full { AreFull pages.now }
    requires some { 0 < left }
    requires left { left ≤ length changes.now }
    requires falling { IsRising (flip_args K.cmp) (take left changes.now) }
    ensures { IfSome result (λ spot. IsStart K.cmp pages.now spot.page spot.place (take left changes.now)) }
{
    let next = &changes[left - 1];
    if next.1.is_none() || hint.page >= pages.len() {
        return None;
    }
    match found_at(pages, hint, &next.0) {
        Some(Err(spot)) => Some(spot),
        _ => None,
    }
}

/// The key is less than those of the entries that lie apart and of the later pages.
fn fits<K: Fronted, R>(list: &[Page<K, R>], page: usize, above: &Page<K, R>, key: &K) -> bool
    requires inside { page < length list.now }
    requires rising { IsRising K.cmp (reverse above.now ++ entries_of (drop (page + 1) list.now)) }
    ensures { IsTrue result → AreAbove K.cmp key.now (reverse above.now ++ entries_of (drop (page + 1) list.now)) }
{
    let entries = above.entries();
    if entries.len() > 0 {
        return order(&entries[entries.len() - 1], key).is_gt();
    }
    if page + 1 >= list.len() {
        return true;
    }
    is_past(&list[page + 1], key.front(), key)
}

/// Puts the next change's row into the open page, and tells how many changes are left. None is put where the page
/// is full or the change takes a row away, meets one, or belongs into a later page.
fn put_next<K: Fronted + Drop, R: Drop>(
    list: &mut [Page<K, R>],
    page: usize,
    above: &mut Page<K, R>,
    stream: u8,
    changes: &mut Vec<(K, Option<R>)>,
    left: usize,
) -> usize
    requires some { 0 < left }
    requires left { left ≤ vec_len changes.old }
    requires fit { IsOpen K.cmp list.old page above.old (take left changes.old.items) }
    ensures left { result ≤ vec_len changes.new }
    ensures fewer { result ≤ left }
    ensures merges { MergesOn K.cmp stream page list.old above.old (take left changes.old.items) list.new above.new (take result changes.new.items) }
{
    let last = left - 1;
    let next = &changes[last];
    if next.1.is_none() || list[page].len() + above.len() >= FULL {
        return left;
    }
    list[page].pass(above, &next.0);
    if !fits(list, page, above, &next.0) {
        return left;
    }
    let (key, row) = changes.swap_remove(last);
    list[page].push((key, (stream, row.unwrap())));
    last
}

/// Puts changes into the open page, by rising key, until one isn't put, and tells how many are left.
pub(crate) fn put_run<K: Fronted + Drop, R: Drop>(
    list: &mut [Page<K, R>],
    page: usize,
    above: &mut Page<K, R>,
    stream: u8,
    changes: &mut Vec<(K, Option<R>)>,
    left: usize,
) -> usize
    requires left { left ≤ vec_len changes.old }
    requires fit { IsOpen K.cmp list.old page above.old (take left changes.old.items) }
    ensures left { result ≤ vec_len changes.new }
    ensures fewer { result ≤ left }
    ensures merges { MergesOn K.cmp stream page list.old above.old (take left changes.old.items) list.new above.new (take result changes.new.items) }
{
    let mut rest = left;
    while rest > 0 {
        let next = put_next(list, page, above, stream, changes, rest);
        if next == rest {
            return next;
        }
        rest = next;
    }
    rest
}
