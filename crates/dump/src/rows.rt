//! Rows by rising key.

ghost use Rattle.std.specs.Prelude.{◌≡◌, ◌↔◌, [], ◌∷◌, ◌++◌, IsTrue, IfOk, OnOk, OnErr, length, option_copied};
ghost use Rattle.pk_copy.specs.KeyOrder.{key_cmp};
ghost use Rattle.target_tables.specs.Rising.{IsRising, AreBelow};
ghost use Rattle.dump.specs.DumpRowsValue.{row_with_key};

use crate::places::place_of;
use pk_copy::{Key, KeyView};
use row_view::RowBuf;
use std::alloc::{AllocError, Global};
use std::marker::Model;

/// Rows in memory of their own, by rising key, so each key once. Seen in contracts as the list of keys
/// and rows.
#[derive(Drop)]
pub struct DumpRows {
    pairs: Vec<(Key, RowBuf)>,
}

impl Model for DumpRows {
    ghost use Rattle.pk_copy.specs.KeyOrder.{key_cmp};
    ghost use Rattle.target_tables.specs.Rising.{IsRising};
    ghost use Rattle.dump.specs.DumpRowsValue.{DumpRowsValue};

    ghost Value = { DumpRowsValue };

    ghost view = { λ r. r.pairs.items };

    ghost invariant = { λ r. IsRising key_cmp r.pairs.items };
}

impl DumpRows {
    /// No rows. Takes no memory.
    pub fn new(alloc: Global) -> DumpRows
        ensures { result ≡ [] }
    {
        DumpRows {
            pairs: Vec::new(alloc),
        }
    }

    /// How many rows there are. Takes no memory.
    pub fn len(&self) -> usize
        ensures { result ≡ length self.now }
    {
        self.pairs.len()
    }

    /// Whether there is no row. Takes no memory.
    pub fn is_empty(&self) -> bool
        ensures { IsTrue result ↔ (self.now ≡ []) }
    {
        self.pairs.is_empty()
    }

    /// Whether a key is greater than that of every row, so that a row can be pushed at it. Looks at the
    /// last row alone and takes no memory.
    pub fn is_behind_all(&self, key: &Key) -> bool
        ensures { IsTrue result ↔ AreBelow key_cmp key.now self.now }
    {
        match self.pairs.last() {
            None => true,
            Some((last, _)) => last.cmp(key).is_lt(),
        }
    }

    /// Puts a row behind the others. That its key is greater than theirs is the caller's. An error is
    /// want of memory, and leaves the rows as they were.
    pub fn push(&mut self, key: Key, row: RowBuf) -> Result<(), AllocError>
        requires { AreBelow key_cmp key self.old }
        ensures ok { OnOk result (self.new ≡ self.old ++ (key, row) ∷ []) }
        ensures err { OnErr result (self.new ≡ self.old) }
    {
        self.pairs.push((key, row))?;
        Ok(())
    }

    /// Makes room for so many rows more, which can then be pushed without memory. An error is want of
    /// memory. The rows stay as they were.
    pub fn reserve(&mut self, count: usize) -> Result<(), AllocError>
        ensures { self.new ≡ self.old }
    {
        self.pairs.reserve(count)?;
        Ok(())
    }

    /// The row at a key, if there is one, found by halves. Takes no memory.
    pub fn get(&self, key: &KeyView<'_>) -> Option<&RowBuf>
        ensures { option_copied result ≡ row_with_key self.now key.now }
    {
        match place_of(&self.pairs, key) {
            Ok(place) => Some(&self.pairs[place].1),
            Err(_) => None,
        }
    }

    /// The keys and rows, by rising key.
    pub fn as_slice(&self) -> &[(Key, RowBuf)]
        ensures rows { result.now ≡ self.now }
        ensures rising { IsRising key_cmp self.now }
    {
        self.pairs.as_slice()
    }

    /// A copy of the rows. An error is want of memory.
    pub fn try_clone(&self, alloc: Global) -> Result<DumpRows, AllocError>
        ensures { IfOk result (λ copy. copy ≡ self.now) }
    {
        let mut pairs = Vec::with_capacity(alloc, self.pairs.len())?;
        for (key, row) in &self.pairs {
            pairs.push((key.try_clone(alloc)?, row.try_clone(alloc)?))?;
        }
        Ok(DumpRows { pairs })
    }
}
