//! The changes of a group, of which a single one needs no block of memory.

ghost use Rattle.std.specs.Prelude.{◌≡◌};
ghost use Rattle.source_feed.specs.Private.KeptChanges.{listed};

use crate::planned::PlannedChange;
use std::slice;

/// Changes one behind the other: one kept in place, or any number in a block of memory.
#[derive(Drop)]
pub(crate) enum Changes<'h> {
    One(PlannedChange<'h>),
    Many(Vec<PlannedChange<'h>>),
}

impl<'h> Changes<'h> {
    /// The same changes, of which a single one gives its block back.
    pub(crate) fn from_vec(changes: Vec<PlannedChange<'h>>) -> Changes<'h>
        ensures { listed result ≡ changes.entry.items }
    {
        let mut changes = changes;
        if changes.len() != 1 {
            changes.shrink_to_fit();
            return Changes::Many(changes);
        }
        match changes.pop() {
            Some(only) => Changes::One(only),
            None => Changes::Many(changes),
        }
    }

    /// The changes in their order.
    pub(crate) fn as_slice(&self) -> &[PlannedChange<'h>]
        ensures { result.now ≡ listed self.now }
    {
        match self {
            Changes::One(only) => slice::from_ref(only),
            Changes::Many(many) => many.as_slice(),
        }
    }
}
