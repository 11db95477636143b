//! How far the tables of a stream are copied.

ghost use Rattle.std.specs.Prelude.{◌≡◌, ◌<◌, ◌↔◌, IsTrue, IfOk, None};
ghost use Rattle.pk_copy.specs.Marks.{AreMarks, KeepsInside, mark_of, is_inside, is_past, marks_cmp, moved_to, next_table};
ghost use Rattle.pk_copy.specs.MarkView.{mark_value};

use crate::key::Key;
use crate::mark::Mark;
use crate::view::KeyView;
use std::alloc::{AllocError, Global};
use std::cmp::Ordering;
use std::marker::Model;

/// How far the tables of a stream are copied, in the plan's order: the first ones are done, then one may
/// be copied up to a key of it, and the others wait. A mark never goes back.
#[derive(Debug, Drop)]
pub struct CopyState {
    tables: u8,
    done: u8,
    upto: Option<Key>,
}

impl Model for CopyState {
    ghost use Rattle.pk_copy.specs.Marks.{Marks, AreMarks};

    ghost Value = { Marks };

    ghost view = { λ s. record { tables = s.tables; done = s.done; upto = s.upto } };

    ghost invariant = { λ s. AreMarks (record { tables = s.tables; done = s.done; upto = s.upto }) };
}

impl CopyState {
    /// Of so many tables nothing is copied yet.
    pub fn new(tables: u8) -> CopyState
        ensures { result ≡ record { tables = tables; done = 0; upto = None } }
    {
        CopyState {
            tables,
            done: 0,
            upto: None,
        }
    }

    /// How many tables there are.
    pub fn tables(&self) -> u8
        ensures { result ≡ self.now.tables }
    {
        self.tables
    }

    /// How many tables are done: the first ones.
    pub fn done(&self) -> u8
        ensures { result ≡ self.now.done }
    {
        self.done
    }

    /// Whether all tables are done.
    pub fn finished(&self) -> bool
        ensures { IsTrue result ↔ (self.now.done ≡ self.now.tables) }
    {
        self.done == self.tables
    }

    /// The mark of table `t`.
    pub fn mark(&self, t: u8) -> Mark<'_>
        ensures mark { mark_value result ≡ mark_of self.now t }
        // What is true of all marks together.
        ensures sound { AreMarks self.now }
    {
        if t < self.done {
            return Mark::Done;
        }
        match &self.upto {
            Some(last) if t == self.done => Mark::Upto(last),
            _ => Mark::Waiting,
        }
    }

    /// Whether the key is copied: its table is done, or is copied up to a key that this one is at most.
    /// Takes no memory.
    pub fn inside(&self, key: &KeyView<'_>) -> bool
        ensures { result ≡ is_inside self.now key.now }
    {
        match self.mark(key.table()) {
            Mark::Waiting => false,
            Mark::Upto(last) => key.cmp(&last.view()).is_le(),
            Mark::Done => true,
        }
    }

    /// Whether the key is still to be copied out of the first table that isn't done: it is of that table,
    /// and greater than the table's mark, if there is one. Takes no memory.
    pub fn past(&self, key: &KeyView<'_>) -> bool
        ensures { result ≡ is_past self.now key.now }
    {
        if self.done == self.tables || key.table() != self.done {
            return false;
        }
        match &self.upto {
            None => true,
            Some(last) => key.cmp(&last.view()).is_gt(),
        }
    }

    /// How far on these marks are beside others of as many tables: more tables done are further on than
    /// fewer, then a mark up to a key is further on than none, by that key. That there are as many tables is
    /// the caller's. Takes no memory.
    pub fn further(&self, other: &CopyState) -> Ordering
        requires { self.now.tables ≡ other.now.tables }
        ensures { result ≡ marks_cmp self.now other.now }
    {
        self.done.cmp(&other.done).then(self.upto.cmp(&other.upto))
    }

    /// The first table that isn't done is copied up to a key of it. That `past` holds of this
    /// one is the caller's. Takes no memory.
    pub fn move_to(&mut self, key: Key)
        requires { IsTrue (is_past self.old key) }
        ensures moved { self.new ≡ moved_to key self.old }
        ensures kept { KeepsInside self.old self.new }
    {
        self.upto = Some(key);
    }

    /// The first table that isn't done is done. That there is one is the caller's. Takes no memory.
    pub fn finish_table(&mut self)
        requires { self.old.done < self.old.tables }
        ensures moved { self.new ≡ next_table self.old }
        ensures kept { KeepsInside self.old self.new }
    {
        self.done += 1;
        self.upto = None;
    }

    /// A copy of the marks. An error is want of memory.
    pub fn try_clone(&self, alloc: Global) -> Result<CopyState, AllocError>
        ensures { IfOk result (λ copy. copy ≡ self.now) }
    {
        let upto = match &self.upto {
            None => None,
            Some(last) => Some(last.try_clone(alloc)?),
        };
        Ok(CopyState {
            tables: self.tables,
            done: self.done,
            upto,
        })
    }
}
