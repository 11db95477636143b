//! Whether a position has some numbers of a transaction.

ghost use Rattle.std.specs.Prelude.{◌≡◌};
ghost use Rattle.std.specs.List.{list_any};
ghost use Rattle.gtid_set.specs.Position.{holds_interval};
ghost use Rattle.log_transcribe.specs.Apart.{shared, meets, clashes, overlaps};

use gtid_set::{GtidSet, Interval};

/// The numbers that two intervals share.
fn shared(one: &Interval, other: &Interval) -> Interval
    ensures { result ≡ shared one.now other.now }
{
    Interval {
        uuid: one.uuid,
        first: one.first.max(other.first),
        last: one.last.min(other.last),
    }
}

/// Two intervals share numbers.
fn meets(one: &Interval, other: &Interval) -> bool
    ensures { result ≡ meets one.now other.now }
{
    one.uuid == other.uuid && one.first.max(other.first) <= one.last.min(other.last)
}

/// Each number of the other interval is in the one.
fn covers(one: &Interval, other: &Interval) -> bool
    ensures { result ≡ holds_interval one.now other.now }
{
    one.uuid == other.uuid && one.first <= other.first && other.last <= one.last
}

/// One of the intervals has each number of this one.
fn is_covered(before: &[Interval], part: &Interval) -> bool
    ensures { result ≡ list_any (λ k. holds_interval k part.now) before.now }
{
    before.iter().any(|one| covers(one, part))
}

/// Two intervals share numbers that aren't in the position before.
fn clashes(before: &[Interval], one: &Interval, other: &Interval) -> bool
    ensures { result ≡ clashes before.now one.now other.now }
{
    meets(one, other) && !is_covered(before, &shared(one, other))
}

/// An interval shares such numbers with one of these.
fn clashes_with_any(before: &[Interval], one: &Interval, position: &[Interval]) -> bool
    ensures { result ≡ list_any (λ other. clashes before.now one.now other) position.now }
{
    position.iter().any(|other| clashes(before, one, other))
}

/// One of the intervals shares such numbers with one of the others.
fn any_clashes(had: &[Interval], before: &[Interval], position: &[Interval]) -> bool
    ensures { result ≡ list_any (λ one. list_any (λ other. clashes before.now one other) position.now) had.now }
{
    had.iter()
        .any(|one| clashes_with_any(before, one, position))
}

/// A position has numbers of the transaction between two positions of a log.
pub(crate) fn overlaps(had: &GtidSet, before: &GtidSet, position: &GtidSet) -> bool
    ensures { result ≡ overlaps had.now before.now position.now }
{
    if had.is_within(before) {
        return false;
    }
    any_clashes(had.intervals(), before.intervals(), position.intervals())
}
