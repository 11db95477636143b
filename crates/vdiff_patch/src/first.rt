//! The first difference of two lists of rows by rising key, and what is left behind it.

ghost use Rattle.std.specs.Prelude.{◌≡◌, ◌≢◌, ◌↔◌, [], ◌∷◌, IsTrue, MatchOption};
ghost use Rattle.pk_copy.specs.KeyOrder.{key_cmp};
ghost use Rattle.target_tables.specs.Rising.{IsRising, AreAbove};
ghost use Rattle.vdiff_patch.specs.AllDifferences.{differences_of};
ghost use Rattle.vdiff_patch.specs.Private.Walk.{IsBehindSame, IsFirstFound, HeadsDiffer};

use pk_copy::{Key, keys_tie_where_they_are_equal};
use row_view::RowBuf;
use std::cmp::Ordering;
use vdiff::Found;

/// The first of all differences of the two, with the rows at greater keys, which have the others. There is none where
/// they have no difference. One walk over what is the same. Takes no memory.
pub(crate) fn first_of<'r>(
    source: &'r [(Key, RowBuf)],
    target: &'r [(Key, RowBuf)],
) -> Option<Found<'r>>
    requires source { IsRising key_cmp source.now }
    requires target { IsRising key_cmp target.now }
    ensures { MatchOption result (differences_of source.entry.now target.entry.now ≡ []) (IsFirstFound source.entry.now target.entry.now) }
{
    keys_tie_where_they_are_equal();
    let (left, right) = behind_same(source, target);
    match (left.split_first(), right.split_first()) {
        (None, None) => None,
        (Some((ours, lefts)), None) => Some(of_source(ours, lefts, right)),
        (None, Some((theirs, rights))) => Some(of_target(theirs, left, rights)),
        (Some((ours, lefts)), Some((theirs, rights))) => match ours.0.cmp(&theirs.0) {
            Ordering::Less => Some(of_source(ours, lefts, right)),
            Ordering::Greater => Some(of_target(theirs, left, rights)),
            Ordering::Equal => Some(of_both(ours, lefts, theirs, rights)),
        },
    }
}

/// What is left of the two behind the rows that they begin with alike.
fn behind_same<'r>(
    source: &'r [(Key, RowBuf)],
    target: &'r [(Key, RowBuf)],
) -> (&'r [(Key, RowBuf)], &'r [(Key, RowBuf)])
    requires source { IsRising key_cmp source.now }
    requires target { IsRising key_cmp target.now }
    ensures walked { IsBehindSame source.entry.now target.entry.now result.0.now result.1.now }
    ensures stops { HeadsDiffer result.0.now result.1.now }
{
    let mut left = source;
    let mut right = target;
    while let (Some((ours, lefts)), Some((theirs, rights))) = (
        left.split_first(),
        right.split_first(),
    ) {
        if !are_same(ours, theirs) {
            return (left, right);
        }
        left = lefts;
        right = rights;
    }
    (left, right)
}

/// Whether two rows with their keys are the same.
fn are_same(ours: &(Key, RowBuf), theirs: &(Key, RowBuf)) -> bool
    ensures { IsTrue result ↔ (ours.now ≡ theirs.now) }
{
    keys_tie_where_they_are_equal();
    ours.0.cmp(&theirs.0).is_eq() && ours.1.same(&theirs.1)
}

/// A row of the source alone, whose key is the least.
fn of_source<'r>(
    row: &'r (Key, RowBuf),
    lefts: &'r [(Key, RowBuf)],
    right: &'r [(Key, RowBuf)],
) -> Found<'r>
    requires source { IsRising key_cmp (row.now ∷ lefts.now) }
    requires target { IsRising key_cmp right.now }
    requires above { AreAbove key_cmp row.now.0 right.now }
    ensures { IsFirstFound (row.entry.now ∷ lefts.entry.now) right.entry.now result }
{
    Found {
        key: &row.0,
        source: Some(&row.1),
        target: None,
        source_left: lefts,
        target_left: right,
    }
}

/// A row of the target alone, whose key is the least.
fn of_target<'r>(
    row: &'r (Key, RowBuf),
    left: &'r [(Key, RowBuf)],
    rights: &'r [(Key, RowBuf)],
) -> Found<'r>
    requires source { IsRising key_cmp left.now }
    requires target { IsRising key_cmp (row.now ∷ rights.now) }
    requires above { AreAbove key_cmp row.now.0 left.now }
    ensures { IsFirstFound left.entry.now (row.entry.now ∷ rights.entry.now) result }
{
    Found {
        key: &row.0,
        source: None,
        target: Some(&row.1),
        source_left: left,
        target_left: rights,
    }
}

/// Rows at one key, which is the least, that aren't the same.
fn of_both<'r>(
    row: &'r (Key, RowBuf),
    lefts: &'r [(Key, RowBuf)],
    other: &'r (Key, RowBuf),
    rights: &'r [(Key, RowBuf)],
) -> Found<'r>
    requires source { IsRising key_cmp (row.now ∷ lefts.now) }
    requires target { IsRising key_cmp (other.now ∷ rights.now) }
    requires key { row.now.0 ≡ other.now.0 }
    requires rows { row.now.1 ≢ other.now.1 }
    ensures { IsFirstFound (row.entry.now ∷ lefts.entry.now) (other.entry.now ∷ rights.entry.now) result }
{
    Found {
        key: &row.0,
        source: Some(&row.1),
        target: Some(&other.1),
        source_left: lefts,
        target_left: rights,
    }
}
