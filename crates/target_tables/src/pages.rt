//! The pages of a map, and the empty ones that lie ready for new keys.

ghost use Rattle.std.specs.Prelude.{◌≡◌, ◌↔◌, ◌+◌, ◌-◌, ◌*◌, ◌^◌, ◌<◌, ◌≤◌, ℕ, List, [], ◌∷◌, IfOk, IsTrue, OnOk, length, take, set};
ghost use Rattle.std.specs.List.{All, insert, remove};
ghost use Rattle.std.specs.Ordering.{flip_args};
ghost use Rattle.std.specs.Prelude.{vec_len};
ghost use Rattle.std.specs.Vec.{vec_capacity};
ghost use Rattle.target_tables.specs.Pages.{entries_of, page_at, flat, room_of, split_in_two, AreFull};
ghost use Rattle.target_tables.specs.Rising.{IsRising};
ghost use Rattle.target_tables.specs.Private.Runs.{Leads, IsStart};
ghost use Rattle.target_tables.specs.Touches.{new_keys};

use crate::page::{HALF, Page};
use crate::runs::{Run, put_run};
use crate::spots::Spot;
use key_front::Fronted;
use std::alloc::{AllocError, Global};
use std::marker::Model;

/// How many pages a map has at most, so that its entries can be counted.
const MOST: usize = 1 << 56;

/// A map's pages, each with 1 to 128 entries, and empty pages beside them. There are places in both lists for
/// all of them, so that none that moves from one list to the other takes memory. Seen in contracts as the
/// pages' entries and the number of empty ones.
#[derive(Drop)]
pub(crate) struct Pages<K: Fronted, R> {
    list: Vec<Page<K, R>>,
    spares: Vec<Page<K, R>>,
}

impl<K: Fronted, R> Model for Pages<K, R> {
    ghost use Rattle.std.specs.Prelude.{◌+◌, vec_len};
    ghost use Rattle.std.specs.Vec.{vec_capacity};
    ghost use Rattle.target_tables.specs.Pages.{Book, book_code, AreKept};

    ghost Value = { Book K R };

    ghost coded = { book_code K.code R.code };

    ghost view = { λ b. record { pages = b.list.items; spares = vec_len b.spares } };

    ghost invariant = { λ b. AreKept b.list.items b.spares.items (vec_len b.list + vec_len b.spares) (vec_capacity b.list) (vec_capacity b.spares) };
}

/// Whether so many pages, and so many more, are more than a map has: no memory has room for their entries.
fn are_too_many(pages: usize, more: usize) -> bool
    ensures { IsTrue result ↔ (2 ^ 56 < pages + more) }
{
    more > MOST || pages > MOST - more
}

/// How many spare pages so many new keys can need beside so many pages: one each, and all together no more than
/// one for each page and one for each 64 of them.
pub(crate) fn spares_for(count: usize, pages: usize) -> usize
    requires { pages ≤ 2 ^ 57 }
    ensures { (owed : ℕ) → owed ≤ 64 * (pages + 1) → count ≤ result + (63 * result + 63 - owed) }
{
    let most = count / HALF + pages + 1;
    if most < count { most } else { count }
}

/// Empty pages are added until there are so many. Their places are there.
fn fill<K: Fronted + Drop, R: Drop>(
    alloc: Global,
    spares: &mut Vec<Page<K, R>>,
    count: usize,
) -> Result<(), AllocError>
    requires few { vec_len spares.old ≤ count }
    requires places { count ≤ vec_capacity spares.old }
    requires empty { All (λ page. page ≡ []) spares.old.items }
    ensures empty { All (λ page. page ≡ []) spares.new.items }
    ensures kept { vec_len spares.old ≤ vec_len spares.new }
    ensures few { vec_len spares.new ≤ count }
    ensures places { vec_capacity spares.old ≤ vec_capacity spares.new }
    ensures ok { OnOk result (count ≤ vec_len spares.new) }
{
    while spares.len() < count {
        let page = Page::new(alloc)?;
        spares.push_reserved(page);
    }
    Ok(())
}

impl<K: Fronted, R> Pages<K, R> {
    /// No page. Takes no memory.
    pub(crate) fn new(alloc: Global) -> Pages<K, R>
        ensures pages { result.pages ≡ [] }
        ensures spares { result.spares ≡ 0 }
    {
        Pages {
            list: Vec::new(alloc),
            spares: Vec::new(alloc),
        }
    }

    /// The pages. Takes no memory.
    pub(crate) fn as_slice(&self) -> &[Page<K, R>]
        ensures pages { result.now ≡ self.now.pages }
        ensures full { AreFull self.now.pages }
        ensures few { length self.now.pages ≤ 2 ^ 56 }
    {
        &self.list
    }

    /// An empty page lies ready. Takes no memory.
    pub(crate) fn has_spare(&self) -> bool
        ensures { IsTrue result → 0 < self.now.spares }
    {
        !self.spares.is_empty()
    }

    /// Where one of the empty pages becomes a further page, the others serve for so many new keys, whatever the
    /// pages have. Takes no memory.
    pub(crate) fn can_spare(&self, count: usize) -> bool
        ensures spare { IsTrue result → 0 < self.now.spares }
        ensures room { IsTrue result → (pages : List (List (K × (ℕ × R)))) → AreFull pages → length pages ≡ length self.now.pages + 1
            → count ≤ room_of pages (self.now.spares - 1) }
    {
        spares_for(count, self.list.len() + 1) < self.spares.len()
    }
}

impl<K: Fronted + Drop, R: Drop> Pages<K, R> {
    /// Puts rows at rising new keys into one page, from a place on before which all keys are less, for as long as
    /// they belong there and the page isn't full. What lies behind the place is moved into an empty page, and back
    /// again behind the last of them. Takes no memory.
    pub(crate) fn merge(
        &mut self,
        spot: Spot,
        stream: u8,
        changes: &mut Vec<(K, Option<R>)>,
        left: usize,
    ) -> Run
        requires rising { IsRising K.cmp (entries_of self.old.pages) }
        requires spare { 0 < self.old.spares }
        requires left { left ≤ vec_len changes.old }
        requires falling { IsRising (flip_args K.cmp) (take left changes.old.items) }
        requires start { IsStart K.cmp self.old.pages spot.page spot.place (take left changes.old.items) }
        ensures rising { IsRising K.cmp (entries_of self.new.pages) }
        ensures left { result.left ≤ vec_len changes.new }
        ensures fewer { result.left ≤ left }
        ensures leads { Leads K.cmp (entries_of self.old.pages) stream (take left changes.old.items) (take result.left changes.new.items) (entries_of self.new.pages) }
        ensures room { new_keys K.cmp (entries_of self.old.pages) (take left changes.old.items) ≤ room_of self.old.pages self.old.spares
            → new_keys K.cmp (entries_of self.new.pages) (take result.left changes.new.items) ≤ room_of self.new.pages self.new.spares }
    {
        let Spot { page, place } = spot;
        let mut above = self.spares.take_last();
        self.list[page].open(place, &mut above);
        let left = put_run(&mut self.list, page, &mut above, stream, changes, left);
        let behind = self.list[page].len();
        self.list[page].close(&mut above);
        self.spares.push_reserved(above);
        Run { left, behind }
    }
}

impl<K: Fronted + Drop, R: Drop> Pages<K, R> {
    /// Sees that so many empty pages lie ready. An error is want of memory; 2^56 pages are more than any has.
    pub(crate) fn reserve(&mut self, count: usize) -> Result<(), AllocError>
        ensures pages { self.new.pages ≡ self.old.pages }
        ensures kept { self.old.spares ≤ self.new.spares }
        ensures ok { OnOk result (count ≤ self.new.spares) }
    {
        if self.spares.len() >= count {
            return Ok(());
        }
        if are_too_many(self.list.len(), count) {
            return Err(AllocError);
        }
        let alloc = *self.list.allocator();
        self.list.reserve(count)?;
        self.spares.reserve(self.list.len() + count)?;
        fill(alloc, &mut self.spares, count)
    }

    /// Puts the first entry of all into a page of its own. Takes no memory.
    pub(crate) fn start(&mut self, entry: (K, (u8, R)))
        requires none { self.old.pages ≡ [] }
        requires spare { 0 < self.old.spares }
        ensures pages { self.new.pages ≡ (entry ∷ []) ∷ [] }
        ensures spares { self.new.spares + 1 ≡ self.old.spares }
    {
        let mut page = self.spares.take_last();
        page.put_in(0, entry);
        self.list.push_reserved(page);
    }

    /// Puts an entry in at a place of a page that isn't full. Takes no memory.
    pub(crate) fn put_in(&mut self, page: usize, place: usize, entry: (K, (u8, R)))
        requires inside { page < length self.old.pages }
        requires within { place ≤ length (page_at self.old.pages page) }
        requires room { length (page_at self.old.pages page) < 128 }
        ensures pages { self.new.pages ≡ set self.old.pages page (insert (page_at self.old.pages page) place entry) }
        ensures full { AreFull self.new.pages }
        ensures spares { self.new.spares ≡ self.old.spares }
    {
        self.list[page].put_in(place, entry);
    }

    /// Puts an entry over the one at a place of a page, which is handed back. Takes no memory.
    pub(crate) fn put_over(
        &mut self,
        page: usize,
        place: usize,
        entry: (K, (u8, R)),
    ) -> (K, (u8, R))
        requires inside { page < length self.old.pages }
        requires within { place < length (page_at self.old.pages page) }
        ensures pages { self.new.pages ≡ set self.old.pages page (set (page_at self.old.pages page) place entry) }
        ensures spares { self.new.spares ≡ self.old.spares }
    {
        self.list[page].put_over(place, entry)
    }

    /// Splits a full page into two, of which the first has its entries before a place. Takes no memory.
    pub(crate) fn split(&mut self, page: usize, place: usize)
        requires inside { page < length self.old.pages }
        requires full { length (page_at self.old.pages page) ≡ 128 }
        requires some { 0 < place }
        requires others { place < 128 }
        requires spare { 0 < self.old.spares }
        ensures pages { self.new.pages ≡ split_in_two self.old.pages page place }
        ensures spares { self.new.spares + 1 ≡ self.old.spares }
    {
        let mut upper = self.spares.take_last();
        self.list[page].part(place, &mut upper);
        let _ = self.list.insert(page + 1, upper);
    }

    /// Puts an entry into a page of its own behind a page. Takes no memory.
    pub(crate) fn begin(&mut self, page: usize, entry: (K, (u8, R)))
        requires inside { page < length self.old.pages }
        requires spare { 0 < self.old.spares }
        ensures pages { self.new.pages ≡ insert self.old.pages (page + 1) (entry ∷ []) }
        ensures full { AreFull self.new.pages }
        ensures spares { self.new.spares + 1 ≡ self.old.spares }
    {
        let mut next = self.spares.take_last();
        next.put_in(0, entry);
        let _ = self.list.insert(page + 1, next);
    }

    /// Takes the entry at a place of a page away, and with its last entry the page. Takes no memory.
    pub(crate) fn take_out(&mut self, page: usize, place: usize) -> (K, (u8, R))
        requires inside { page < length self.old.pages }
        requires within { place < length (page_at self.old.pages page) }
        ensures entries { entries_of self.new.pages ≡ remove (entries_of self.old.pages) (flat self.old.pages page place) }
        ensures room { room_of self.old.pages self.old.spares ≤ room_of self.new.pages self.new.spares }
    {
        if self.list[page].len() > 1 {
            return self.list[page].take_out(place);
        }
        let mut emptied = self.list.remove(page);
        let entry = emptied.take_out(place);
        if self.list.is_empty() {
            self.spares.push_reserved(emptied);
        }
        entry
    }

    /// The pages, to be taken out; the empty ones are dropped. Takes no memory.
    pub(crate) fn into_list(self) -> Vec<Page<K, R>>
        ensures pages { result.items ≡ self.pages }
        ensures full { AreFull self.pages }
    {
        let Pages { list, spares } = self;
        drop(spares);
        list
    }

    /// Takes every page away. Takes no memory.
    pub(crate) fn clear(&mut self)
        ensures { self.new.pages ≡ [] }
    {
        self.list.clear();
    }
}

impl<K: Fronted + Clone + Drop, R: Clone + Drop> Pages<K, R> {
    /// A copy with equal keys and rows in equal pages, and no empty ones. That a clone equals what it is made of
    /// is the caller's; an error is want of memory.
    pub(crate) fn try_clone(&self, alloc: Global) -> Result<Pages<K, R>, AllocError>
        requires keys { (key copy : K) → K.is_clone key copy → copy ≡ key }
        requires rows { (row copy : R) → R.is_clone row copy → copy ≡ row }
        ensures { IfOk result (λ copy. copy.pages ≡ self.now.pages) }
    {
        let count = self.list.len();
        let list = copy_all(alloc, &self.list)?;
        let spares = Vec::with_capacity(alloc, count)?;
        Ok(Pages { list, spares })
    }
}

/// A copy of pages.
fn copy_all<K: Fronted + Clone + Drop, R: Clone + Drop>(
    alloc: Global,
    pages: &[Page<K, R>],
) -> Result<Vec<Page<K, R>>, AllocError>
    requires keys { (key copy : K) → K.is_clone key copy → copy ≡ key }
    requires rows { (row copy : R) → R.is_clone row copy → copy ≡ row }
    ensures { IfOk result (λ copies. copies.items ≡ pages.now) }
{
    let mut copies = Vec::with_capacity(alloc, pages.len())?;
    for page in pages {
        copies.push(page.try_clone(alloc)?)?;
    }
    Ok(copies)
}
