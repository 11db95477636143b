//! What a stream has staged.

use crate::spots::Spot;
use std::marker::Model;

/// The changes of a stream's group, staged for a map: each touched key once, with its last touch.
/// Seen in contracts as the stream and these changes, in no order that contracts tell.
#[derive(Drop)]
pub struct Staged<K: Ord, R> {
    pub(crate) stream: u8,
    /// by falling key
    pub(crate) changes: Vec<(K, Option<R>)>,
    /// where staging found each key, that of the last change first
    pub(crate) spots: Vec<Spot>,
}

impl<K: Ord, R> Model for Staged<K, R> {
    ghost use Rattle.std.specs.Ordering.{flip_args};
    ghost use Rattle.target_tables.specs.Rising.{IsRising};
    ghost use Rattle.target_tables.specs.Touches.{Staging, staging_code};

    ghost Value = { Staging K R };

    ghost coded = { staging_code K.code R.code };

    ghost view = { λ s. record { stream = s.stream; changes = s.changes.items } };

    ghost invariant = { λ s. IsRising (flip_args K.cmp) s.changes.items };
}
