//! Who is told how far a work is.

/// Who is told how far a work is, in parts of it: rows, groups, or what else it goes through one by one. Parts that one
/// work goes through twice count twice.
pub trait Meter {
    /// So many parts more are to be done.
    fn begins(&self, parts: usize);

    /// So many parts more are done.
    fn has_done(&self, parts: usize);
}

/// Nobody is told.
pub struct Unmetered;

impl Meter for Unmetered {
    fn begins(&self, _parts: usize) {}

    fn has_done(&self, _parts: usize) {}
}
