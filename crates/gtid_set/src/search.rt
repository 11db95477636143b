//! Where an interval stands among merged rising ones: membership and subset.

ghost use Rattle.std.specs.Prelude.{◌≡◌, ◌≤◌, ◌<◌, length, take, false};
ghost use Rattle.std.specs.List.{HoldsAt};
ghost use Rattle.gtid_set.specs.Position.{has, ends_before, IsCanonical, within_of};
ghost use Rattle.gtid_set.specs.Inner.Order.{AllEndBefore};

use crate::interval::Interval;

/// The place of the first interval that doesn't end before `interval` begins, by halves.
pub(crate) fn place_of(set: &[Interval], interval: &Interval) -> usize
    requires { IsCanonical set.now }
    ensures bound { result ≤ length set.now }
    ensures passed { AllEndBefore interval.now (take result set.now) }
    ensures stops { result < length set.now → HoldsAt (λ i. ends_before i interval.now ≡ false) set.now result }
{
    set.partition_point(|i| i.ends_before(interval))
}

/// The same place, where all intervals before `from` end before `interval`: by steps that double,
/// and then by halves.
#[inline(always)]
fn reach(set: &[Interval], from: usize, interval: &Interval) -> usize
    requires canonical { IsCanonical set.now }
    requires inside { from ≤ length set.now }
    requires passed { AllEndBefore interval.now (take from set.now) }
    ensures bound { result ≤ length set.now }
    ensures passed { AllEndBefore interval.now (take result set.now) }
    ensures stops { result < length set.now → HoldsAt (λ i. ends_before i interval.now ≡ false) set.now result }
{
    if from < set.len() && !set[from].ends_before(interval) {
        return from;
    }
    let mut low = from;
    let mut step = 1;
    while step <= set.len() - low && set[low + step - 1].ends_before(interval) {
        low += step;
        step = step.saturating_mul(2);
    }
    let high = low + step.min(set.len() - low);
    low + place_of(&set[low..high], interval)
}

/// Each interval of `some` lies in one of `all`.
pub(crate) fn are_within(some: &[Interval], all: &[Interval]) -> bool
    requires some { IsCanonical some.now }
    requires all { IsCanonical all.now }
    ensures { result ≡ within_of some.now all.now }
{
    let mut place = 0;
    for interval in some {
        place = reach(all, place, interval);
        if place == all.len() || !all[place].covers(interval) {
            return false;
        }
    }
    true
}

/// The pair is in the set.
pub(crate) fn has_pair(set: &[Interval], uuid: u128, number: u64) -> bool
    requires { IsCanonical set.now }
    ensures { result ≡ has set.now uuid number }
{
    let pair = Interval {
        uuid,
        first: number,
        last: number,
    };
    let place = place_of(set, &pair);
    place < set.len() && set[place].covers(&pair)
}
