//! Rising intervals merged into a set, and the union of two sets.

ghost use Rattle.std.specs.Prelude.{◌≡◌, ◌+◌, ◌≤◌, ◌<◌, [], IfOk, OnOk, OnErr, length, take, drop};
ghost use Rattle.std.specs.List.{AllByRecursion};
ghost use Rattle.gtid_set.specs.Position.{IsInterval, IsCanonical, with_interval, union_of};
ghost use Rattle.gtid_set.specs.Text.{set_of};
ghost use Rattle.gtid_set.specs.Inner.Kept.{intervals_listed};
ghost use Rattle.gtid_set.specs.Inner.Order.{AllStartBy, AllStartOver, IsRisingByStart};

use crate::interval::Interval;
use crate::intervals::Intervals;
use std::alloc::{AllocError, Global};

/// Adds an interval to a set of which none begins after it.
fn append(set: &mut Vec<Interval>, next: Interval) -> Result<(), AllocError>
    requires canonical { IsCanonical set.old.items }
    requires interval { IsInterval next }
    requires starts { AllStartBy next set.old.items }
    ensures ok { OnOk result (set.new.items ≡ with_interval set.old.items next) }
    ensures err { OnErr result (set.new.items ≡ set.old.items) }
{
    let count = set.len();
    if count > 0 {
        let last = set[count - 1];
        if !last.ends_before(&next) {
            set[count - 1] = Interval {
                last: last.last.max(next.last),
                ..last
            };
            return Ok(());
        }
    }
    set.push(next)?;
    Ok(())
}

/// Adds intervals that rise by their beginnings to a set of which none begins after the first of
/// them.
fn append_all(set: &mut Vec<Interval>, rising: &[Interval]) -> Result<(), AllocError>
    requires canonical { IsCanonical set.old.items }
    requires each { AllByRecursion IsInterval rising.now }
    requires rising { IsRisingByStart rising.now }
    requires starts { AllStartOver set.old.items rising.now }
    ensures { OnOk result (set.new.items ≡ union_of set.old.items rising.now) }
{
    for next in rising {
        append(set, *next)?;
    }
    Ok(())
}

/// Adds an interval to the set that stands before `kept`, of which none begins after it, and says
/// how long that set then is.
fn append_in_place(set: &mut Vec<Interval>, kept: usize, next: Interval) -> usize
    requires inside { kept < length set.old.items }
    requires canonical { IsCanonical (take kept set.old.items) }
    requires interval { IsInterval next }
    requires starts { AllStartBy next (take kept set.old.items) }
    ensures joined { take result set.new.items ≡ with_interval (take kept set.old.items) next }
    ensures left { drop (kept + 1) set.new.items ≡ drop (kept + 1) set.old.items }
    ensures length { length set.new.items ≡ length set.old.items }
    ensures bound { result ≤ kept + 1 }
{
    if kept > 0 {
        let before = set[kept - 1];
        if !before.ends_before(&next) {
            set[kept - 1].last = before.last.max(next.last);
            return kept;
        }
    }
    set[kept] = next;
    kept + 1
}

/// Makes a set of intervals that rise by their beginnings, in place, and gives back what room it
/// can.
fn merge(intervals: &mut Vec<Interval>)
    requires each { AllByRecursion IsInterval intervals.old.items }
    requires rising { IsRisingByStart intervals.old.items }
    ensures { intervals.new.items ≡ union_of [] intervals.old.items }
{
    let mut kept = 0;
    for place in 0..intervals.len() {
        kept = append_in_place(intervals, kept, intervals[place]);
    }
    intervals.truncate(kept);
    intervals.shrink_to_fit();
}

/// The set of some intervals, in any order.
pub(crate) fn merged(intervals: Intervals) -> Intervals
    requires { AllByRecursion IsInterval (intervals_listed intervals) }
    ensures { intervals_listed result ≡ set_of (intervals_listed intervals) }
{
    match intervals {
        Intervals::Empty => Intervals::Empty,
        Intervals::One(only) => Intervals::One(only),
        Intervals::Many(mut many) => {
            many.sort_unstable();
            merge(&mut many);
            Intervals::from_vec(many)
        }
    }
}

/// The union of two sets, without spare room where the allocator gives it back.
pub(crate) fn union(
    alloc: Global,
    one: &[Interval],
    other: &[Interval],
) -> Result<Vec<Interval>, AllocError>
    requires one { IsCanonical one.now }
    requires other { IsCanonical other.now }
    ensures { IfOk result (λ both. both.items ≡ union_of one.now other.now) }
{
    let mut both = Vec::with_capacity(alloc, one.len() + other.len())?;
    let mut i = 0;
    let mut j = 0;
    while i < one.len() && j < other.len() {
        if one[i].starts_by(&other[j]) {
            append(&mut both, one[i])?;
            i += 1;
        } else {
            append(&mut both, other[j])?;
            j += 1;
        }
    }
    append_all(&mut both, &one[i..])?;
    append_all(&mut both, &other[j..])?;
    both.shrink_to_fit();
    Ok(both)
}
