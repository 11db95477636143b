//! The touches of a group, as they are staged.

ghost use Rattle.std.specs.Prelude.{◌≡◌, IfOk, IsTrue};
ghost use Rattle.std.specs.Ordering.{flip_args};
ghost use Rattle.target_tables.specs.Kept.{ends_at};
ghost use Rattle.target_tables.specs.Rising.{IsRising, NeverFalls};
ghost use Rattle.target_tables.specs.Touches.{last_at, change_at};

use std::alloc::{AllocError, Global};
use std::marker::Model;

/// A stream's touches of a group: each touched key once, with its last touch. They are sorted when they are
/// made, so where a map is shared, before it is held. Seen in contracts as these changes, in no order that
/// contracts tell.
#[derive(Drop)]
pub struct Touched<K: Ord, R> {
    /// by falling key
    pub(crate) changes: Vec<(K, Option<R>)>,
}

impl<K: Ord, R> Model for Touched<K, R> {
    ghost use Rattle.std.specs.Prelude.{List, Option};
    ghost use Rattle.std.specs.Ordering.{flip_args};
    ghost use Rattle.target_tables.specs.Rising.{IsRising};

    ghost Value = { List (K × Option R) };

    ghost view = { λ t. t.changes.items };

    ghost invariant = { λ t. IsRising (flip_args K.cmp) t.changes.items };
}

impl<K: Ord + Drop, R: Drop> Touched<K, R> {
    /// Of touches the last of each key. Touches that rise by their keys, each key once, are only turned round;
    /// others are sorted once. An error is want of memory, and touches that rise take none.
    pub fn new(alloc: Global, touches: Vec<(K, Option<R>)>) -> Result<Touched<K, R>, AllocError>
        ensures { IfOk result (λ touched. (k : K) → change_at K.cmp touched k ≡ last_at K.cmp touches.items k) }
    {
        let changes = last_touches(alloc, touches)?;
        Ok(Touched { changes })
    }
}

/// Each key is greater than the one before it.
fn rises<K: Ord, R>(touches: &[(K, Option<R>)]) -> bool
    ensures { IsTrue result → IsRising K.cmp touches.now }
{
    let mut next = 1;
    while next < touches.len() {
        if !touches[next - 1].0.cmp(&touches[next].0).is_lt() {
            return false;
        }
        next += 1;
    }
    true
}

/// The last of the touches has the key.
fn ends_at_key<K: Ord, R>(touches: &[(K, Option<R>)], key: &K) -> bool
    ensures { result ≡ ends_at K.cmp key.now touches.now }
{
    if touches.is_empty() {
        return false;
    }
    touches[touches.len() - 1].0.cmp(key).is_eq()
}

/// Of touches whose keys don't fall the last of each key, by falling key.
fn last_of_each<K: Ord + Drop, R: Drop>(
    alloc: Global,
    mut touches: Vec<(K, Option<R>)>,
) -> Result<Vec<(K, Option<R>)>, AllocError>
    requires { NeverFalls K.cmp touches.items }
    ensures falling { IfOk result (λ kept. IsRising (flip_args K.cmp) kept.items) }
    ensures last { IfOk result (λ kept. (k : K) → change_at K.cmp kept.items k ≡ last_at K.cmp touches.items k) }
{
    let mut kept = Vec::with_capacity(alloc, touches.len())?;
    while let Some(touch) = touches.pop() {
        if !ends_at_key(&kept, &touch.0) {
            kept.push(touch)?;
        }
    }
    Ok(kept)
}

/// The last touch of each key, by falling key. Touches that rise are turned round; others are sorted once.
pub fn last_touches<K: Ord + Drop, R: Drop>(
    alloc: Global,
    mut touches: Vec<(K, Option<R>)>,
) -> Result<Vec<(K, Option<R>)>, AllocError>
    ensures falling { IfOk result (λ kept. IsRising (flip_args K.cmp) kept.items) }
    ensures last { IfOk result (λ kept. (k : K) → change_at K.cmp kept.items k ≡ last_at K.cmp touches.items k) }
{
    if rises(&touches) {
        touches.reverse();
        return Ok(touches);
    }
    touches.sort_by(|a, b| a.0.cmp(&b.0))?;
    last_of_each(alloc, touches)
}
