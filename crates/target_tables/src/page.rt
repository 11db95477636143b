//! A page: a run of entries by rising key.

ghost use Rattle.std.specs.Prelude.{◌≡◌, ℕ, ◌+◌, ◌<◌, ◌≤◌, List, [], ◌∷◌, ◌++◌, IfOk, IsTrue, length, take, drop, reverse, set, vec_len};
ghost use Rattle.std.specs.List.{insert, remove};
ghost use Rattle.std.specs.Vec.{vec_capacity};
ghost use Rattle.std.specs.declared.cmp.Ordering.TheVariants.{Less};
ghost use Rattle.target_tables.specs.Fronts.{first_front};
ghost use Rattle.target_tables.specs.Rising.{AreBelow};

use crate::places::order;
use key_front::Fronted;
use std::alloc::{AllocError, Global};
use std::marker::Model;
use std::mem::replace;

/// How many entries a page has at most.
pub(crate) const FULL: usize = 128;

/// How many entries the first of two pages has where a full one is split in halves.
pub(crate) const HALF: usize = 64;

/// Up to 128 entries of a map. Seen in contracts as their list. What it can have is reserved from the start. The front
/// of its first key lies in the page itself, so that pages are told apart without a look at their entries.
#[derive(Drop)]
pub(crate) struct Page<K: Fronted, R> {
    /// 0 where there is no entry
    front: u64,
    entries: Vec<(K, (u8, R))>,
}

impl<K: Fronted, R> Model for Page<K, R> {
    ghost use Rattle.std.specs.Prelude.{◌≡◌, ℕ, List, ◌≤◌};
    ghost use Rattle.std.specs.Vec.{vec_capacity};
    ghost use Rattle.target_tables.specs.Fronts.{first_front};

    ghost Value = { List (K × (ℕ × R)) };

    ghost view = { λ p. p.entries.items };

    ghost invariant = { λ p. (p.front ≡ first_front K.front_of p.entries.items) × (128 ≤ vec_capacity p.entries) };
}

/// Moves what stands from a place on behind no other ones, the other way round.
fn move_upper<X>(lower: &mut Vec<X>, place: usize, upper: &mut Vec<X>)
    requires within { place ≤ vec_len lower.old }
    requires most { vec_len lower.old ≤ 128 }
    requires none { upper.old.items ≡ [] }
    requires room { 128 ≤ vec_capacity upper.old }
    ensures lower { lower.new.items ≡ take place lower.old.items }
    ensures upper { reverse upper.new.items ≡ drop place lower.old.items }
    ensures lower_room { vec_capacity lower.old ≤ vec_capacity lower.new }
    ensures upper_room { vec_capacity upper.old ≤ vec_capacity upper.new }
{
    while lower.len() > place {
        let entry = lower.take_last();
        upper.push_reserved(entry);
    }
}

/// Moves all of a list that is the other way round behind others.
fn move_back<X>(lower: &mut Vec<X>, upper: &mut Vec<X>)
    requires room { vec_len lower.old + vec_len upper.old ≤ vec_capacity lower.old }
    ensures lower { lower.new.items ≡ lower.old.items ++ reverse upper.old.items }
    ensures upper { upper.new.items ≡ [] }
    ensures lower_room { vec_capacity lower.old ≤ vec_capacity lower.new }
    ensures upper_room { vec_capacity upper.old ≤ vec_capacity upper.new }
{
    while upper.len() > 0 {
        let entry = upper.take_last();
        lower.push_reserved(entry);
    }
}

/// Puts an item in at a place of a list that has room for it.
fn put_between<X: Drop>(list: &mut Vec<X>, place: usize, item: X)
    requires within { place ≤ vec_len list.old }
    requires room { vec_len list.old < vec_capacity list.old }
    ensures items { list.new.items ≡ insert list.old.items place item }
    ensures capacity { vec_capacity list.old ≤ vec_capacity list.new }
{
    let _ = list.insert(place, item);
}

/// The last of the entries has a lesser key.
fn ends_below<K: Ord, V>(entries: &[(K, V)], key: &K) -> bool
    ensures some { IsTrue result → 0 < length entries.now }
    ensures below { IsTrue result → (front : List (K × V)) (last : K × V) → entries.now ≡ front ++ last ∷ [] → K.cmp last.0 key.now ≡ Less }
{
    if entries.is_empty() {
        return false;
    }
    order(&entries[entries.len() - 1], key).is_lt()
}

/// Moves those with lesser keys of a list that is the other way round behind others.
fn move_lesser<K: Ord, V>(lower: &mut Vec<(K, V)>, upper: &mut Vec<(K, V)>, key: &K)
    requires room { vec_len lower.old + vec_len upper.old ≤ vec_capacity lower.old }
    ensures entries { lower.new.items ++ reverse upper.new.items ≡ lower.old.items ++ reverse upper.old.items }
    ensures count { vec_len lower.new + vec_len upper.new ≡ vec_len lower.old + vec_len upper.old }
    ensures below { AreBelow K.cmp key.now lower.old.items → AreBelow K.cmp key.now lower.new.items }
    ensures lower_room { vec_capacity lower.old ≤ vec_capacity lower.new }
    ensures upper_room { vec_capacity upper.old ≤ vec_capacity upper.new }
{
    while ends_below(upper, key) {
        let entry = upper.take_last();
        lower.push_reserved(entry);
    }
}

/// The front of the first entry's key, 0 where there is none.
fn front_of<K: Fronted, V>(entries: &[(K, V)]) -> u64
    ensures { result ≡ first_front K.front_of entries.now }
{
    match entries.first() {
        Some(entry) => entry.0.front(),
        None => 0,
    }
}

impl<K: Fronted, R> Page<K, R> {
    /// No entry, and places for 128. An error is want of memory.
    pub(crate) fn new(alloc: Global) -> Result<Page<K, R>, AllocError>
        ensures { IfOk result (λ page. page ≡ []) }
    {
        let entries = Vec::with_capacity(alloc, FULL)?;
        Ok(Page { front: 0, entries })
    }

    /// The front of the first key, 0 where there is none. Takes no memory.
    pub(crate) fn front(&self) -> u64
        ensures { result ≡ first_front K.front_of self.now }
    {
        self.front
    }

    /// The entries. Takes no memory.
    pub(crate) fn entries(&self) -> &[(K, (u8, R))]
        ensures { result.now ≡ self.now }
    {
        &self.entries
    }

    /// The entries, to be taken out. Takes no memory.
    pub(crate) fn into_entries(self) -> Vec<(K, (u8, R))>
        ensures { result.items ≡ self }
    {
        self.entries
    }

    /// How many entries there are. Takes no memory.
    pub(crate) fn len(&self) -> usize
        ensures { result ≡ length self.now }
    {
        self.entries.len()
    }

    /// Takes the entry at a place away. Takes no memory.
    pub(crate) fn take_out(&mut self, place: usize) -> (K, (u8, R))
        requires { place < length self.old }
        ensures { self.new ≡ remove self.old place }
    {
        let entry = self.entries.remove(place);
        if place == 0 {
            self.front = front_of(&self.entries);
        }
        entry
    }

    /// Moves the entries from a place on into an empty page. Takes no memory.
    pub(crate) fn part(&mut self, place: usize, upper: &mut Page<K, R>)
        requires within { place ≤ length self.old }
        requires most { length self.old ≤ 128 }
        requires none { upper.old ≡ [] }
        ensures lower { self.new ≡ take place self.old }
        ensures upper { upper.new ≡ drop place self.old }
    {
        move_upper(&mut self.entries, place, &mut upper.entries);
        upper.entries.reverse();
        self.front = front_of(&self.entries);
        upper.front = front_of(&upper.entries);
    }

    /// Moves the entries from a place on into an empty page, the other way round. Takes no memory.
    pub(crate) fn open(&mut self, place: usize, above: &mut Page<K, R>)
        requires within { place ≤ length self.old }
        requires most { length self.old ≤ 128 }
        requires none { above.old ≡ [] }
        ensures lower { self.new ≡ take place self.old }
        ensures above { reverse above.new ≡ drop place self.old }
    {
        move_upper(&mut self.entries, place, &mut above.entries);
        self.front = front_of(&self.entries);
        above.front = front_of(&above.entries);
    }

    /// Moves the entries of a page that is the other way round behind its own. Takes no memory.
    pub(crate) fn close(&mut self, above: &mut Page<K, R>)
        requires most { length self.old + length above.old ≤ 128 }
        ensures entries { self.new ≡ self.old ++ reverse above.old }
        ensures above { above.new ≡ [] }
    {
        move_back(&mut self.entries, &mut above.entries);
        self.front = front_of(&self.entries);
        above.front = 0;
    }

    /// Puts an entry behind the others of a page that isn't full. Takes no memory.
    pub(crate) fn push(&mut self, entry: (K, (u8, R)))
        requires { length self.old < 128 }
        ensures { self.new ≡ self.old ++ entry ∷ [] }
    {
        self.entries.push_reserved(entry);
        if self.entries.len() == 1 {
            self.front = front_of(&self.entries);
        }
    }

    /// Moves the entries with lesser keys of a page that is the other way round behind its own. Takes no memory.
    pub(crate) fn pass(&mut self, above: &mut Page<K, R>, key: &K)
        requires most { length self.old + length above.old ≤ 128 }
        ensures entries { self.new ++ reverse above.new ≡ self.old ++ reverse above.old }
        ensures count { length self.new + length above.new ≡ length self.old + length above.old }
        ensures below { AreBelow K.cmp key.now self.old → AreBelow K.cmp key.now self.new }
    {
        if above.entries.is_empty() {
            return;
        }
        move_lesser(&mut self.entries, &mut above.entries, key);
        self.front = front_of(&self.entries);
        above.front = front_of(&above.entries);
    }
}

impl<K: Fronted + Drop, R: Drop> Page<K, R> {
    /// Puts an entry in at a place of a page that isn't full. Takes no memory.
    pub(crate) fn put_in(&mut self, place: usize, entry: (K, (u8, R)))
        requires within { place ≤ length self.old }
        requires room { length self.old < 128 }
        ensures { self.new ≡ insert self.old place entry }
    {
        put_between(&mut self.entries, place, entry);
        if place == 0 {
            self.front = front_of(&self.entries);
        }
    }

    /// Puts an entry over the one at a place, which is handed back. Takes no memory.
    pub(crate) fn put_over(&mut self, place: usize, entry: (K, (u8, R))) -> (K, (u8, R))
        requires { place < length self.old }
        ensures { self.new ≡ set self.old place entry }
    {
        let replaced = replace(&mut self.entries[place], entry);
        if place == 0 {
            self.front = front_of(&self.entries);
        }
        replaced
    }
}

impl<K: Fronted + Clone, R: Clone> Page<K, R> {
    /// A copy with equal keys and rows. That a clone equals what it is made of is the caller's; an error is
    /// want of memory.
    pub(crate) fn try_clone(&self, alloc: Global) -> Result<Page<K, R>, AllocError>
        requires keys { (key copy : K) → K.is_clone key copy → copy ≡ key }
        requires rows { (row copy : R) → R.is_clone row copy → copy ≡ row }
        ensures { IfOk result (λ copy. copy ≡ self.now) }
    {
        let mut entries = Vec::from_clones(alloc, &self.entries)?;
        if entries.capacity() < FULL {
            entries.reserve(FULL - entries.len())?;
        }
        Ok(Page {
            front: self.front,
            entries,
        })
    }
}
