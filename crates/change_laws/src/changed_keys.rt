//! Which keys have changed since a board was told.

use pk_copy::Key;
use std::collections::BTreeSet;

/// Which keys have changed since a board was told.
#[derive(Drop)]
pub enum ChangedKeys {
    /// Nothing was told: all rows are new.
    All,
    /// These keys were touched, by rising key: what stands there may be as it was.
    Touched(BTreeSet<Key>),
}
