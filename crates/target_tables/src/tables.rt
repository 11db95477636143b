//! A map from keys to rows, each with the stream that owns it.

ghost use Rattle.std.specs.Prelude.{◌≡◌, ◌+◌, ◌-◌, ◌*◌, ◌<◌, ◌≤◌, ◌^◌, ◌==◌, ◌↔◌, ◌∷◌, ◌++◌, ℕ, [], Some, None, length, sum, slice_index, IfOk, IfErr, OnOk, OnErr, IsTrue};
ghost use Rattle.std.specs.List.{All};
ghost use Rattle.target_tables.specs.Pages.{entries_of, AreFull};
ghost use Rattle.std.specs.Option.{option_map};
ghost use Rattle.target_tables.specs.Contents.{value_at, from_key, past_key, standing};
ghost use Rattle.target_tables.specs.Rising.{IsRising, AreBelow};
ghost use Rattle.target_tables.specs.Touches.{last_at, change_at, removed, IsTouched, IsReady, IsUntouched, ComesLast, NoneInTheWay};
ghost use Rattle.target_tables.specs.Clashes.{IsRefusal};
ghost use Rattle.target_tables.specs.Common as shared;
ghost use Rattle.target_tables.specs.Merged as merged;
ghost use Rattle.target_tables.specs.Merged.{part_of};

use crate::changes::{change_all, put_last};
use crate::common::Common;
use crate::fault::TableFault;
use crate::freed::Freed;
use crate::merge_side::MergeSide;
use crate::page::Page;
use crate::pages::{Pages, spares_for};
use crate::scan::{Scan, scan_from};
use crate::side_part::{SidePart, count_from};
use crate::spots::{Spot, entry_at, spot_of};
use crate::staged::Staged;
use crate::survey::survey;
use crate::taken::Taken;
use crate::touched::Touched;
use key_front::Fronted;
use std::alloc::{AllocError, Global};
use std::marker::Model;

/// How many pages more lie ready than new keys can need, so that runs of rising keys can leave full pages behind.
const FOR_RUNS: usize = 16;

/// A map from keys to rows, each with the number of the stream that owns it. Keys are told apart by
/// their order. They lie in pages of 1 to 128 entries. Seen in contracts as the list of entries by rising
/// key, how many of them each page has, and how many new keys can be put in without taking memory.
#[derive(Drop)]
pub struct Tables<K: Fronted, R> {
    pages: Pages<K, R>,
}

impl<K: Fronted, R> Model for Tables<K, R> {
    ghost use Rattle.std.specs.Prelude.{length, map};
    ghost use Rattle.target_tables.specs.Contents.{Contents, contents_code};
    ghost use Rattle.target_tables.specs.Pages.{entries_of, room_of};
    ghost use Rattle.target_tables.specs.Rising.{IsRising};

    ghost Value = { Contents K R };

    ghost coded = { contents_code K.code R.code };

    ghost view = { λ t. record { entries = entries_of t.pages.pages; room = room_of t.pages.pages t.pages.spares; pages = map (λ page. length page) t.pages.pages } };

    ghost invariant = { λ t. IsRising K.cmp (entries_of t.pages.pages) };
}

/// How many entries pages have.
fn count<K: Fronted, R>(pages: &[Page<K, R>]) -> usize
    requires full { AreFull pages.now }
    requires few { length pages.now ≤ 2 ^ 56 }
    ensures { result ≡ length (entries_of pages.now) }
{
    let mut count = 0;
    for page in pages {
        count += page.len();
    }
    count
}

/// Pages have no entry.
fn is_none<K: Fronted, R>(pages: &[Page<K, R>]) -> bool
    requires { AreFull pages.now }
    ensures { result ≡ (length (entries_of pages.now) == 0) }
{
    pages.is_empty()
}

impl<K: Fronted, R> Tables<K, R> {
    /// An empty map. Takes no memory.
    pub fn new(alloc: Global) -> Tables<K, R>
        ensures { result.entries ≡ [] }
    {
        Tables {
            pages: Pages::new(alloc),
        }
    }

    /// How many keys have a row. Takes no memory.
    pub fn len(&self) -> usize
        ensures { result ≡ length self.now.entries }
    {
        count(self.pages.as_slice())
    }

    /// How many entries are of streams that come from this side. Takes no memory.
    pub(crate) fn count(&self, sides: &[MergeSide], side: MergeSide) -> usize
        ensures { result ≡ length (part_of (merged.comes_from sides.now side) self.now.entries) }
    {
        let pages = self.pages.as_slice();
        count_from(scan_from(pages, Spot { page: 0, place: 0 }), sides, side)
    }

    /// How many pages the entries lie in. Takes no memory.
    pub fn pages(&self) -> usize
        ensures pages { result ≡ length self.now.pages }
        ensures entries { sum self.now.pages ≡ length self.now.entries }
        ensures limits { All (λ n. (1 ≤ n) × (n ≤ 128)) self.now.pages }
    {
        self.pages.as_slice().len()
    }

    /// How many entries page `i` has, 1 to 128. That there is such a page is the caller's. Takes no memory.
    pub fn page_len(&self, i: usize) -> usize
        requires { i < length self.now.pages }
        ensures { result ≡ slice_index self.now.pages i }
    {
        self.pages.as_slice()[i].len()
    }

    /// No key has a row. Takes no memory.
    pub fn is_empty(&self) -> bool
        ensures { IsTrue result ↔ (self.now.entries ≡ []) }
    {
        is_none(self.pages.as_slice())
    }

    /// The stream and row at a key, found by halves. Takes no memory.
    pub fn get(&self, key: &K) -> Option<(u8, &R)>
        ensures { option_map standing result ≡ value_at K.cmp self.now.entries key.now }
    {
        let pages = self.pages.as_slice();
        match spot_of(pages, 0, key) {
            Ok(spot) => {
                let entry = entry_at(pages, spot);
                let (stream, row) = &entry.1;
                Some((*stream, row))
            }
            Err(_) => None,
        }
    }

    /// All entries, by rising key. Takes no memory.
    pub fn iter(&self) -> Scan<'_, K, R>
        ensures entries { result ≡ self.now.entries }
        ensures rising { IsRising K.cmp self.now.entries }
    {
        scan_from(self.pages.as_slice(), Spot { page: 0, place: 0 })
    }

    /// The keys at which this map and another both have a row, by rising key. Takes no memory.
    pub fn common<'t>(&'t self, other: &'t Tables<K, R>) -> Common<'t, K, R>
        ensures { result ≡ shared.common K.cmp self.now.entries other.now.entries }
    {
        Common::new(self.iter(), other.iter())
    }

    /// The entries at a key and past it, by rising key. The first is found by halves. Takes no
    /// memory.
    pub fn scan(&self, from: &K) -> Scan<'_, K, R>
        ensures entries { result ≡ from_key K.cmp self.now.entries from.now }
        ensures rising { IsRising K.cmp self.now.entries }
    {
        let pages = self.pages.as_slice();
        match spot_of(pages, 0, from) {
            Ok(spot) => scan_from(pages, spot),
            Err(spot) => scan_from(pages, spot),
        }
    }

    /// The entries past a key and not at it, by rising key. The first is found by halves. Takes no
    /// memory.
    pub fn scan_past(&self, key: &K) -> Scan<'_, K, R>
        ensures entries { result ≡ past_key K.cmp self.now.entries key.now }
        ensures rising { IsRising K.cmp self.now.entries }
    {
        let pages = self.pages.as_slice();
        match spot_of(pages, 0, key) {
            Ok(spot) => scan_from(
                pages,
                Spot {
                    page: spot.page,
                    place: spot.place + 1,
                },
            ),
            Err(spot) => scan_from(pages, spot),
        }
    }
}

impl<K: Fronted + Drop, R: Drop> Tables<K, R> {
    /// Stages a stream's touches, of which the last of each key counts: a key is touched with a row,
    /// or with nothing. Takes all memory that `commit` will need, and leaves the entries as they
    /// are; what was staged before can still be committed.
    ///
    /// Refused 71 where a touched key's last touch is a row and a row of another stream stands
    /// there, with the least such key and that stream; 72 for want of memory.
    pub fn stage(
        &mut self,
        alloc: Global,
        stream: u8,
        touches: Vec<(K, Option<R>)>,
    ) -> Result<Staged<K, R>, TableFault<K>>
        ensures entries { self.new.entries ≡ self.old.entries }
        ensures room { self.old.room ≤ self.new.room }
        ensures stream { IfOk result (λ staged. staged.stream ≡ stream) }
        ensures last { IfOk result (λ staged. (k : K) → change_at K.cmp staged.changes k ≡ last_at K.cmp touches.items k) }
        ensures ready { IfOk result (IsReady K.cmp self.new) }
        ensures refused { IfErr result (IsRefusal K.cmp self.old.entries stream (last_at K.cmp touches.items)) }
    {
        let touched = Touched::new(alloc, touches)?;
        self.stage_touched(stream, touched)
    }

    /// Stages a stream's touches that were sorted before. The same as `stage` of these touches, without the work
    /// of sorting them. Takes all memory that `commit` will need, and leaves the entries as they are.
    ///
    /// Refused 71 where a touched key's last touch is a row and a row of another stream stands
    /// there, with the least such key and that stream; 72 for want of memory.
    pub fn stage_touched(
        &mut self,
        stream: u8,
        touched: Touched<K, R>,
    ) -> Result<Staged<K, R>, TableFault<K>>
        ensures entries { self.new.entries ≡ self.old.entries }
        ensures room { self.old.room ≤ self.new.room }
        ensures stream { IfOk result (λ staged. staged.stream ≡ stream) }
        ensures last { IfOk result (λ staged. (k : K) → change_at K.cmp staged.changes k ≡ change_at K.cmp touched k) }
        ensures ready { IfOk result (IsReady K.cmp self.new) }
        ensures refused { IfErr result (IsRefusal K.cmp self.old.entries stream (change_at K.cmp touched)) }
    {
        let mut changes = touched.changes;
        let mut spots = Vec::with_capacity(*changes.allocator(), changes.len())?;
        match survey(self.pages.as_slice(), stream, &changes, &mut spots) {
            Err(clash) => Err(TableFault::OwnedByOther {
                key: changes.swap_remove(clash.place).0,
                owner: clash.owner,
            }),
            Ok(count) => {
                self.reserve(count)?;
                Ok(Staged {
                    stream,
                    changes,
                    spots,
                })
            }
        }
    }

    /// Makes the changes that were staged, and hands on what they replaced or took away, to be dropped. Each key
    /// is looked for where staging found it, and sought where it isn't there any more. Takes no memory and always succeeds. That nothing was committed since they were staged is the
    /// caller's.
    pub fn commit(&mut self, staged: Staged<K, R>) -> Freed<K, R>
        requires { IsReady K.cmp self.old staged }
        ensures values { IsTouched K.cmp self.old.entries staged.stream (change_at K.cmp staged.changes) self.new.entries }
        ensures rising { IsRising K.cmp self.new.entries }
    {
        let Staged {
            stream,
            changes,
            spots,
        } = staged;
        let entries = change_all(&mut self.pages, stream, changes, &spots);
        Freed { entries, spots }
    }

    /// Makes a stream's touches: stages them and commits them. Of each key the touch that comes last
    /// counts: a row is then at the key as this stream's, nothing takes this stream's row away and
    /// leaves another stream's. A key without touch keeps what it has. What is replaced or taken away is
    /// handed on, to be dropped.
    ///
    /// Refused 71 where a touched key's last touch is a row and a row of another stream stands
    /// there, with the least such key and that stream; 72 for want of memory. A refusal leaves the
    /// entries as they are.
    pub fn apply(
        &mut self,
        alloc: Global,
        stream: u8,
        touches: Vec<(K, Option<R>)>,
    ) -> Result<Freed<K, R>, TableFault<K>>
        ensures put { OnOk result ((k : K) (row : R) → ComesLast K.cmp touches.items k (Some row)
            → value_at K.cmp self.new.entries k ≡ Some (stream, row)) }
        ensures taken { OnOk result ((k : K) → ComesLast K.cmp touches.items k None
            → value_at K.cmp self.new.entries k ≡ removed stream (value_at K.cmp self.old.entries k)) }
        ensures kept { OnOk result ((k : K) → IsUntouched K.cmp touches.items k
            → value_at K.cmp self.new.entries k ≡ value_at K.cmp self.old.entries k) }
        ensures values { OnOk result (IsTouched K.cmp self.old.entries stream (last_at K.cmp touches.items) self.new.entries) }
        ensures rising { OnOk result (IsRising K.cmp self.new.entries) }
        ensures clear { OnOk result (NoneInTheWay K.cmp self.old.entries stream (last_at K.cmp touches.items)) }
        ensures refused { IfErr result (IsRefusal K.cmp self.old.entries stream (last_at K.cmp touches.items)) }
        ensures unchanged { OnErr result (self.new.entries ≡ self.old.entries) }
    {
        let staged = self.stage(alloc, stream, touches)?;
        let freed = self.commit(staged);
        Ok(freed)
    }

    /// Puts a row of a stream behind all others, so that a map can be built by rising key. That the key is
    /// greater than theirs is the caller's. An error is want of memory, and leaves the entries as they are.
    pub fn push(&mut self, key: K, stream: u8, row: R) -> Result<(), AllocError>
        requires { AreBelow K.cmp key self.old.entries }
        ensures pushed { OnOk result (self.new.entries ≡ self.old.entries ++ (key, (stream, row)) ∷ []) }
        ensures unchanged { OnErr result (self.new.entries ≡ self.old.entries) }
    {
        self.pages.reserve(1)?;
        put_last(&mut self.pages, (key, (stream, row)), 0);
        Ok(())
    }

    /// Sees that so many new keys can be put in without memory, and rising ones into full pages. An error is want of
    /// memory, and leaves the entries as they are.
    pub(crate) fn reserve(&mut self, count: usize) -> Result<(), AllocError>
        ensures entries { self.new.entries ≡ self.old.entries }
        ensures room { self.old.room ≤ self.new.room }
        ensures ok { OnOk result (count ≤ self.new.room) }
    {
        let spares = spares_for(count, self.pages.as_slice().len() + FOR_RUNS);
        self.pages.reserve(spares)?;
        Ok(())
    }

    /// Puts an entry behind all others, after which so many more may be put. Takes no memory.
    pub(crate) fn push_reserved(&mut self, entry: (K, (u8, R)), left: usize)
        requires below { AreBelow K.cmp entry.0 self.old.entries }
        requires room { 1 ≤ self.old.room }
        ensures entries { self.new.entries ≡ self.old.entries ++ entry ∷ [] }
        ensures room { (n : ℕ) → n ≤ left → n + 1 ≤ self.old.room → n ≤ self.new.room }
        ensures rising { IsRising K.cmp self.new.entries }
    {
        put_last(&mut self.pages, entry, left);
    }

    /// The entries of the streams that come from this side, to be taken out; the others are dropped. Takes no memory.
    pub(crate) fn into_part(
        self,
        alloc: Global,
        sides: &[MergeSide],
        side: MergeSide,
    ) -> SidePart<'_, K, R>
        ensures entries { result ≡ part_of (merged.comes_from sides.now side) self.entries }
        ensures rising { IsRising K.cmp self.entries }
    {
        let list = self.pages.into_list();
        SidePart::new(Taken::new(alloc, list), sides, side)
    }

    /// Takes every entry away. Takes no memory.
    pub fn clear(&mut self)
        ensures { self.new.entries ≡ [] }
    {
        self.pages.clear();
    }
}

impl<K: Fronted + Clone + Drop, R: Clone + Drop> Tables<K, R> {
    /// A copy of the map, which holds equal keys and rows. Takes memory for the copy alone. That a
    /// clone of a key or of a row equals it is the caller's; it is a fact of their types.
    pub fn try_clone(&self, alloc: Global) -> Result<Tables<K, R>, AllocError>
        requires keys { (key copy : K) → K.is_clone key copy → copy ≡ key }
        requires rows { (row copy : R) → R.is_clone row copy → copy ≡ row }
        ensures { IfOk result (λ copy. copy.entries ≡ self.now.entries) }
    {
        let pages = self.pages.try_clone(alloc)?;
        Ok(Tables { pages })
    }
}
