//! Two sets of rows compared.

ghost use Rattle.std.specs.Prelude.{◌≡◌, ◌+◌, MatchOption};
ghost use Rattle.pk_copy.specs.KeyOrder.{key_cmp};
ghost use Rattle.target_tables.specs.Rising.{IsRising};
ghost use Rattle.vdiff.specs.Report.{report_of, HaveKeys, IsFirstDifference};

use dump::DumpRows;
use pk_copy::{Key, keys_tie_where_they_are_equal};
use row_view::RowBuf;
use std::cmp::Ordering;

/// How many keys of two sets of rows there are of each kind.
#[derive(Clone, Copy, Debug, PartialEq, Eq)]
pub struct Report {
    /// Keys in either: the sum of the others.
    pub processed: usize,
    /// Keys in both, with equal columns.
    pub matching: usize,
    /// Keys in both, with other columns.
    pub mismatched: usize,
    /// Keys of the source alone.
    pub extra_source: usize,
    /// Keys of the target alone.
    pub extra_target: usize,
}

/// Compares the rows of a source and of a target, key by key, in one walk over both. NULL and the
/// empty value are told apart. Takes no memory.
pub fn compare(source: &DumpRows, target: &DumpRows) -> Report
    ensures report { result ≡ report_of source.now target.now }
    // As many keys as are processed stand in either.
    ensures keys { HaveKeys source.now target.now result.processed }
{
    keys_tie_where_they_are_equal();
    compare_rows(source.as_slice(), target.as_slice())
}

/// No keys of any kind.
fn no_keys() -> Report
    ensures { result ≡ record { processed = 0; matching = 0; mismatched = 0; extra_source = 0; extra_target = 0 } }
{
    Report {
        processed: 0,
        matching: 0,
        mismatched: 0,
        extra_source: 0,
        extra_target: 0,
    }
}

/// The same of lists of rows by rising key; that the keys rise is the caller's. Takes no memory.
pub fn compare_rows(source: &[(Key, RowBuf)], target: &[(Key, RowBuf)]) -> Report
    requires source { IsRising key_cmp source.now }
    requires target { IsRising key_cmp target.now }
    ensures { result ≡ report_of source.now target.now }
{
    keys_tie_where_they_are_equal();
    let mut report = no_keys();
    let mut left = source;
    let mut right = target;
    while let (Some((ours, lefts)), Some((theirs, rights))) = (
        left.split_first(),
        right.split_first(),
    ) {
        match ours.0.cmp(&theirs.0) {
            Ordering::Less => {
                report.extra_source += 1;
                left = lefts;
            }
            Ordering::Greater => {
                report.extra_target += 1;
                right = rights;
            }
            Ordering::Equal => {
                if ours.1.same(&theirs.1) {
                    report.matching += 1;
                } else {
                    report.mismatched += 1;
                }
                left = lefts;
                right = rights;
            }
        }
    }
    report.extra_source += left.len();
    report.extra_target += right.len();
    report.processed = report.matching
        + report.mismatched
        + report.extra_source
        + report.extra_target;
    report
}

/// The least key at which the two differ: one of the source alone, of the target alone, or of both
/// with other columns. There is none exactly where they are the same. One walk over what is the same.
/// Takes no memory.
pub fn first_difference<'r>(source: &'r DumpRows, target: &'r DumpRows) -> Option<&'r Key>
    ensures { MatchOption result (source.now ≡ target.now)
        (λ key. IsFirstDifference source.now target.now key.now) }
{
    keys_tie_where_they_are_equal();
    let mut left = source.as_slice();
    let mut right = target.as_slice();
    while let (Some((ours, lefts)), Some((theirs, rights))) = (
        left.split_first(),
        right.split_first(),
    ) {
        match ours.0.cmp(&theirs.0) {
            Ordering::Less => return Some(&ours.0),
            Ordering::Greater => return Some(&theirs.0),
            Ordering::Equal => {
                if !ours.1.same(&theirs.1) {
                    return Some(&ours.0);
                }
            }
        }
        left = lefts;
        right = rights;
    }
    match (left.first(), right.first()) {
        (Some(ours), _) => Some(&ours.0),
        (None, Some(theirs)) => Some(&theirs.0),
        (None, None) => None,
    }
}
