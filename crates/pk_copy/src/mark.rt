//! The mark of a table.

use crate::key::Key;

/// How far a table is copied.
#[derive(Clone, Copy, Debug)]
pub enum Mark<'a> {
    /// Nothing of the table is copied yet.
    Waiting,
    /// Its keys up to this one are copied.
    Upto(&'a Key),
    /// All of it is copied.
    Done,
}
