//! Changes of rising entries.

ghost use Rattle.std.specs.Prelude.{◌≡◌, ℕ, ◌+◌, ◌-◌, ◌^◌, ◌<◌, ◌≤◌, List, [], ◌∷◌, ◌++◌, Some, None, IsTrue, length, take, vec_len, if◌then◌else◌};
ghost use Rattle.std.specs.List.{insert};
ghost use Rattle.std.specs.Ordering.{flip_args};
ghost use Rattle.std.specs.Vec.{vec_capacity};
ghost use Rattle.target_tables.specs.Contents.{value_at};
ghost use Rattle.target_tables.specs.Pages.{entries_of, page_at, flat, room_of, AreFull};
ghost use Rattle.target_tables.specs.Rising.{IsRising};
ghost use Rattle.target_tables.specs.Private.Runs.{Leads};
ghost use Rattle.target_tables.specs.Touches.{change_at, is_new, new_keys, IsTouched, IsChanged};

use crate::drift::{Drift, staged_at};
use crate::hints::spot_by;
use crate::page::{FULL, HALF, Page};
use crate::pages::Pages;
use crate::runs::{begins_run, is_worth, page_with_places, share_page};
use crate::spots::{Spot, behind, entry_at};
use key_front::Fronted;

/// An entry at this place is put behind all others.
fn is_last<K: Fronted, R>(pages: &[Page<K, R>], spot: Spot) -> bool {
    spot.place == FULL && spot.page.wrapping_add(1) == pages.len()
}

/// A full page may be split at this place: an entry is put there that goes on a run of rising keys, or behind all
/// others, and the pages that lie ready suffice for a page more and then for so many new keys, whichever they are.
fn can_go_on<K: Fronted, R>(pages: &Pages<K, R>, spot: Spot, runs: bool, left: usize) -> bool
    ensures some { IsTrue result → 0 < spot.place }
    ensures spare { IsTrue result → 0 < pages.now.spares }
    ensures room { IsTrue result → (after : List (List (K × (ℕ × R)))) → AreFull after → length after ≡ length pages.now.pages + 1
        → left ≤ room_of after (pages.now.spares - 1) }
{
    if spot.place == 0 {
        return false;
    }
    if !runs && !is_last(pages.as_slice(), spot) {
        return false;
    }
    pages.can_spare(left)
}

/// Puts an entry into a full page at its place, and tells the place behind it. What lies behind the place is moved
/// into a page of its own; where nothing does, the entry is the first of a new page. Takes no memory.
fn put_on<K: Fronted + Drop, R: Drop>(
    pages: &mut Pages<K, R>,
    spot: Spot,
    entry: (K, (u8, R)),
) -> Spot
    requires inside { spot.page < length pages.old.pages }
    requires full { length (page_at pages.old.pages spot.page) ≡ 128 }
    requires some { 0 < spot.place }
    requires within { spot.place ≤ 128 }
    requires spare { 0 < pages.old.spares }
    ensures entries { entries_of pages.new.pages ≡ insert (entries_of pages.old.pages) (flat pages.old.pages spot.page spot.place) entry }
    ensures full { AreFull pages.new.pages }
    ensures count { length pages.new.pages ≡ length pages.old.pages + 1 }
    ensures spares { pages.new.spares + 1 ≡ pages.old.spares }
{
    let Spot { page, place } = spot;
    if place == FULL {
        pages.begin(page, entry);
        return behind(page.wrapping_add(1), 0);
    }
    pages.split(page, place);
    pages.put_in(page, place, entry);
    behind(page, place)
}

/// Puts an entry into a full page at its place, and tells the place behind it. The page is split in two of 64 first,
/// and the entry goes into the second if its key is greater than the first's last. Takes no memory.
fn put_in_half<K: Fronted + Drop, R: Drop>(
    pages: &mut Pages<K, R>,
    spot: Spot,
    entry: (K, (u8, R)),
) -> Spot
    requires inside { spot.page < length pages.old.pages }
    requires full { length (page_at pages.old.pages spot.page) ≡ 128 }
    requires within { spot.place ≤ 128 }
    requires few { length pages.old.pages ≤ 2 ^ 56 }
    requires spare { 0 < pages.old.spares }
    ensures entries { entries_of pages.new.pages ≡ insert (entries_of pages.old.pages) (flat pages.old.pages spot.page spot.place) entry }
    ensures room { (n : ℕ) → n + 1 ≤ room_of pages.old.pages pages.old.spares → n ≤ room_of pages.new.pages pages.new.spares }
{
    let Spot { page, place } = spot;
    pages.split(page, HALF);
    if place < HALF {
        pages.put_in(page, place, entry);
        return behind(page, place);
    }
    pages.put_in(page + 1, place - HALF, entry);
    behind(page + 1, place - HALF)
}

/// Puts an entry with a new key in at its place, after which so many more may come, and tells the place behind it. A
/// full page is split in halves first. But where the entry goes on a run of rising keys, or comes last of all, the page
/// is split at its place, so that rising keys leave full pages behind, if the pages that lie ready suffice for that.
/// Takes no memory.
fn put_new<K: Fronted + Drop, R: Drop>(
    pages: &mut Pages<K, R>,
    spot: Spot,
    entry: (K, (u8, R)),
    runs: bool,
    left: usize,
) -> Spot
    requires inside { 0 < length pages.old.pages → spot.page < length pages.old.pages }
    requires within { spot.place ≤ length (page_at pages.old.pages spot.page) }
    requires room { 1 ≤ room_of pages.old.pages pages.old.spares }
    ensures entries { entries_of pages.new.pages ≡ insert (entries_of pages.old.pages) (flat pages.old.pages spot.page spot.place) entry }
    ensures room { (n : ℕ) → n ≤ left → n + 1 ≤ room_of pages.old.pages pages.old.spares → n ≤ room_of pages.new.pages pages.new.spares }
{
    let Spot { page, place } = spot;
    if pages.as_slice().is_empty() {
        pages.start(entry);
        return behind(0, 0);
    }
    if pages.as_slice()[page].len() < FULL {
        pages.put_in(page, place, entry);
        return behind(page, place);
    }
    if can_go_on(pages, spot, runs, left) {
        return put_on(pages, spot, entry);
    }
    put_in_half(pages, spot, entry)
}

/// Puts an entry behind all others, after which so many more may be put. Takes no memory.
pub(crate) fn put_last<K: Fronted + Drop, R: Drop>(
    pages: &mut Pages<K, R>,
    entry: (K, (u8, R)),
    left: usize,
)
    requires { 1 ≤ room_of pages.old.pages pages.old.spares }
    ensures entries { entries_of pages.new.pages ≡ entries_of pages.old.pages ++ entry ∷ [] }
    ensures room { (n : ℕ) → n ≤ left → n + 1 ≤ room_of pages.old.pages pages.old.spares → n ≤ room_of pages.new.pages pages.new.spares }
{
    let all = pages.as_slice().len();
    if all == 0 {
        let _behind = put_new(pages, Spot { page: 0, place: 0 }, entry, true, left);
        return;
    }
    let page = all - 1;
    let place = pages.as_slice()[page].len();
    let _behind = put_new(pages, Spot { page, place }, entry, true, left);
}

/// A change that was made.
struct Made<K, R> {
    /// where what stood at the place of its key stands now
    now: Spot,
    /// the entry that it replaced or took away; without a row the key of a change that met no entry of its stream
    freed: Option<(K, Option<R>)>,
}

/// Puts a stream's row at a key, with which a run of rising keys may go on, and after which so many new keys may come.
/// Takes no memory.
fn put<K: Fronted + Drop, R: Drop>(
    pages: &mut Pages<K, R>,
    hint: Spot,
    stream: u8,
    key: K,
    row: R,
    runs: bool,
    left: usize,
) -> Made<K, R>
    requires rising { IsRising K.cmp (entries_of pages.old.pages) }
    requires room { (if is_new (Some row) (value_at K.cmp (entries_of pages.old.pages) key) then 1 else 0) ≤ room_of pages.old.pages pages.old.spares }
    ensures rising { IsRising K.cmp (entries_of pages.new.pages) }
    ensures values { IsChanged K.cmp (entries_of pages.old.pages) stream (key, Some row) (entries_of pages.new.pages) }
    ensures room { (n : ℕ) → n ≤ left → n + (if is_new (Some row) (value_at K.cmp (entries_of pages.old.pages) key) then 1 else 0) ≤ room_of pages.old.pages pages.old.spares
        → n ≤ room_of pages.new.pages pages.new.spares }
{
    match spot_by(pages.as_slice(), hint, &key) {
        Ok(spot) => {
            let (key, (_, row)) = pages.put_over(spot.page, spot.place, (key, (stream, row)));
            Made {
                now: spot,
                freed: Some((key, Some(row))),
            }
        }
        Err(spot) => Made {
            now: put_new(pages, spot, (key, (stream, row)), runs, left),
            freed: None,
        },
    }
}

/// Takes a stream's row at a key away. Takes no memory.
fn take_away<K: Fronted + Drop, R: Drop>(
    pages: &mut Pages<K, R>,
    hint: Spot,
    stream: u8,
    key: K,
) -> Made<K, R>
    requires { IsRising K.cmp (entries_of pages.old.pages) }
    ensures rising { IsRising K.cmp (entries_of pages.new.pages) }
    ensures values { IsChanged K.cmp (entries_of pages.old.pages) stream (key, None) (entries_of pages.new.pages) }
    ensures room { room_of pages.old.pages pages.old.spares ≤ room_of pages.new.pages pages.new.spares }
{
    match spot_by(pages.as_slice(), hint, &key) {
        Ok(spot) => {
            let entry = entry_at(pages.as_slice(), spot);
            let owner = entry.1.0;
            if owner == stream {
                let (key, (_, row)) = pages.take_out(spot.page, spot.place);
                return Made {
                    now: Spot {
                        page: spot.page,
                        place: spot.place.wrapping_sub(1),
                    },
                    freed: Some((key, Some(row))),
                };
            }
            Made {
                now: spot,
                freed: Some((key, None)),
            }
        }
        Err(spot) => Made {
            now: spot,
            freed: Some((key, None)),
        },
    }
}

/// Makes one change of a stream, with which a run of rising keys may go on, and after which so many may come. Takes no
/// memory.
fn make_change<K: Fronted + Drop, R: Drop>(
    pages: &mut Pages<K, R>,
    hint: Spot,
    stream: u8,
    change: (K, Option<R>),
    runs: bool,
    left: usize,
) -> Made<K, R>
    requires rising { IsRising K.cmp (entries_of pages.old.pages) }
    requires room { (if is_new change.1 (value_at K.cmp (entries_of pages.old.pages) change.0) then 1 else 0) ≤ room_of pages.old.pages pages.old.spares }
    ensures rising { IsRising K.cmp (entries_of pages.new.pages) }
    ensures values { IsChanged K.cmp (entries_of pages.old.pages) stream change (entries_of pages.new.pages) }
    ensures room { (n : ℕ) → n ≤ left → n + (if is_new change.1 (value_at K.cmp (entries_of pages.old.pages) change.0) then 1 else 0) ≤ room_of pages.old.pages pages.old.spares
        → n ≤ room_of pages.new.pages pages.new.spares }
{
    let (key, row) = change;
    match row {
        Some(row) => put(pages, hint, stream, key, row, runs, left),
        None => take_away(pages, hint, stream, key),
    }
}

/// Makes the next of a stream's changes together with those behind it that fall into the same page, where that is
/// worth it, and tells how many are left. Takes no memory.
fn merge_next<K: Fronted + Drop, R: Drop>(
    pages: &mut Pages<K, R>,
    drift: &mut Drift,
    stream: u8,
    changes: &mut Vec<(K, Option<R>)>,
    spots: &[Spot],
    left: usize,
) -> usize
    requires some { 0 < left }
    requires rising { IsRising K.cmp (entries_of pages.old.pages) }
    requires left { left ≤ vec_len changes.old }
    requires falling { IsRising (flip_args K.cmp) (take left changes.old.items) }
    requires room { new_keys K.cmp (entries_of pages.old.pages) (take left changes.old.items) ≤ room_of pages.old.pages pages.old.spares }
    ensures rising { IsRising K.cmp (entries_of pages.new.pages) }
    ensures left { result ≤ vec_len changes.new }
    ensures fewer { result ≤ left }
    ensures leads { Leads K.cmp (entries_of pages.old.pages) stream (take left changes.old.items) (take result changes.new.items) (entries_of pages.new.pages) }
    ensures room { new_keys K.cmp (entries_of pages.new.pages) (take result changes.new.items) ≤ room_of pages.new.pages pages.new.spares }
{
    if !pages.has_spare() || !share_page(spots, left) {
        return left;
    }
    let hint = drift.hint(pages.as_slice(), staged_at(spots, left - 1));
    if drift.is_closed(hint.page) || !is_worth(pages.as_slice(), hint, spots, left) {
        return left;
    }
    let Some(start) = begins_run(pages.as_slice(), hint, changes, left) else {
        drift.close(hint.page);
        return left;
    };
    let run = pages.merge(start, stream, changes, left);
    if page_with_places(pages.as_slice(), start.page).is_some() {
        drift.close(start.page);
    }
    drift.go_on(
        staged_at(spots, run.left),
        Spot {
            page: start.page,
            place: run.behind,
        },
    );
    run.left
}

/// Puts an entry behind a list that has a place for it, if there is one.
fn hand_back<X>(list: &mut Vec<X>, entry: Option<X>)
    requires { vec_len list.old < vec_capacity list.old }
    ensures kept { (n : ℕ) → n ≤ vec_len list.old → take n list.new.items ≡ take n list.old.items }
    ensures more { vec_len list.old ≤ vec_len list.new }
{
    if let Some(entry) = entry {
        list.push_reserved(entry);
    }
}

/// Makes the next of a stream's changes, and tells how many are left. Takes no memory. What it replaced or
/// took away is put behind those that are left.
fn change_next<K: Fronted + Drop, R: Drop>(
    pages: &mut Pages<K, R>,
    drift: &mut Drift,
    stream: u8,
    changes: &mut Vec<(K, Option<R>)>,
    spots: &[Spot],
    left: usize,
) -> usize
    requires some { 0 < left }
    requires rising { IsRising K.cmp (entries_of pages.old.pages) }
    requires left { left ≤ vec_len changes.old }
    requires falling { IsRising (flip_args K.cmp) (take left changes.old.items) }
    requires room { new_keys K.cmp (entries_of pages.old.pages) (take left changes.old.items) ≤ room_of pages.old.pages pages.old.spares }
    ensures rising { IsRising K.cmp (entries_of pages.new.pages) }
    ensures left { result ≤ vec_len changes.new }
    ensures fewer { result < left }
    ensures leads { Leads K.cmp (entries_of pages.old.pages) stream (take left changes.old.items) (take result changes.new.items) (entries_of pages.new.pages) }
    ensures room { new_keys K.cmp (entries_of pages.new.pages) (take result changes.new.items) ≤ room_of pages.new.pages pages.new.spares }
{
    let last = left - 1;
    let staged = staged_at(spots, last);
    let hint = drift.hint(pages.as_slice(), staged);
    let runs = drift.goes_on(staged);
    let Made { now, freed } = make_change(
        pages,
        hint,
        stream,
        changes.swap_remove(last),
        runs,
        last,
    );
    drift.go_on(staged, now);
    hand_back(changes, freed);
    last
}

/// A stream's changes, each at a key of its own, by rising key. Each is looked for where it was staged, as far as
/// the changes before it tell where that is now; rows at new keys that fall into one page are put into it together.
/// Takes no memory. What they replaced and took away is handed back, behind the changes that are left in the list.
pub(crate) fn change_all<K: Fronted + Drop, R: Drop>(
    pages: &mut Pages<K, R>,
    stream: u8,
    mut changes: Vec<(K, Option<R>)>,
    spots: &[Spot],
) -> Vec<(K, Option<R>)>
    requires rising { IsRising K.cmp (entries_of pages.old.pages) }
    requires falling { IsRising (flip_args K.cmp) changes.items }
    requires room { new_keys K.cmp (entries_of pages.old.pages) changes.items ≤ room_of pages.old.pages pages.old.spares }
    ensures rising { IsRising K.cmp (entries_of pages.new.pages) }
    ensures values { IsTouched K.cmp (entries_of pages.old.pages) stream (change_at K.cmp changes.items) (entries_of pages.new.pages) }
{
    let mut drift = Drift::new(pages.as_slice().len());
    let mut left = changes.len();
    while left > 0 {
        left = merge_next(pages, &mut drift, stream, &mut changes, spots, left);
        if left == 0 {
            return changes;
        }
        left = change_next(pages, &mut drift, stream, &mut changes, spots, left);
    }
    changes
}
