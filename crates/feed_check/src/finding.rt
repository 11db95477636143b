//! What is told of a change.

ghost use Rattle.std.specs.Prelude.{◌≡◌, IfOk};

use crate::keyed::KeyedChange;
use pk_copy::LentKey;
use std::alloc::{AllocError, Global};
use std::marker::Model;

/// Why a change is told: it isn't true of the rows that the changes before it leave, or it moves its row.
#[derive(Clone, Copy)]
pub enum Doubt {
    /// An update or a delete of a row where none stands.
    NoRow,
    /// An update or a delete of a row where another one stands at its key.
    OtherRow,
    /// A row is put at a key where one stands.
    RowThere,
    /// An update puts its row at another key.
    Moved,
}

/// What is told of a change: its group's number, its place among all changes of the group, from 1, why it
/// is told, and the key. The key is lent from the feed's buffer.
#[derive(Drop)]
pub struct Finding<'h> {
    group: u32,
    place: usize,
    why: Doubt,
    key: LentKey<'h>,
}

impl<'h> Model for Finding<'h> {
    ghost use Rattle.feed_check.specs.Findings.{FindingValue};

    ghost Value = { FindingValue };

    ghost view = { λ f. record { group = f.group; place = f.place; why = f.why; key = f.key } };
}

impl<'h> Finding<'h> {
    /// What is told of a change. Takes memory for a key of several parts alone; an error is want of it.
    pub(crate) fn new(
        alloc: Global,
        change: &KeyedChange<'h>,
        why: Doubt,
        key: &LentKey<'h>,
    ) -> Result<Finding<'h>, AllocError>
        ensures { IfOk result (λ found. found ≡ record { group = change.now.group; place = change.now.place; why = why; key = key.now }) }
    {
        Ok(Finding {
            group: change.group,
            place: change.place,
            why,
            key: key.try_clone(alloc)?,
        })
    }

    /// The number of the change's group in its feed, from 1.
    pub fn group(&self) -> u32
        ensures { result ≡ self.now.group }
    {
        self.group
    }

    /// The change's place among all changes of its group, from 1.
    pub fn place(&self) -> usize
        ensures { result ≡ self.now.place }
    {
        self.place
    }

    /// Why the change is told.
    pub fn why(&self) -> Doubt
        ensures { result ≡ self.now.why }
    {
        self.why
    }

    /// The key: that of the row before it, or of the row after it where that one is told.
    pub fn key(&self) -> &LentKey<'h>
        ensures { result.now ≡ self.now.key }
    {
        &self.key
    }
}
