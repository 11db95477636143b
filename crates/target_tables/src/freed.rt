//! What a commit replaced.

use crate::spots::Spot;

/// The entries that a commit replaced or took away, in memory of their own. It is there to be dropped: where
/// a map is shared, after the others have it back, so that they don't wait while memory is freed.
#[derive(Drop)]
pub struct Freed<K, R> {
    pub(crate) entries: Vec<(K, Option<R>)>,
    /// the places that staging had found
    pub(crate) spots: Vec<Spot>,
}
