//! One pair more among merged rising intervals.

ghost use Rattle.std.specs.Prelude.{◌≡◌, ◌≤◌, ◌<◌, ◌^◌, OnOk, OnErr, length, vec_len};
ghost use Rattle.gtid_set.specs.Position.{IsCanonical, StandsApart, last_number, with_pair};
ghost use Rattle.gtid_set.specs.Inner.Kept.{intervals_listed};
ghost use Rattle.gtid_set.specs.Inner.Order.{widened};

use crate::interval::Interval;
use crate::intervals::Intervals;
use crate::search::place_of;
use std::alloc::{AllocError, Global};

/// Adds a pair to a set. An error leaves the set as it was.
pub(crate) fn add_pair(
    set: &mut Intervals,
    alloc: Global,
    uuid: u128,
    number: u64,
) -> Result<(), AllocError>
    requires canonical { IsCanonical (intervals_listed set.old) }
    requires uuid { uuid < 2 ^ 128 }
    requires from_one { 1 ≤ number }
    requires to_last { number ≤ last_number }
    ensures ok { OnOk result (intervals_listed set.new ≡ with_pair (intervals_listed set.old) uuid number) }
    ensures err { OnErr result (intervals_listed set.new ≡ intervals_listed set.old) }
    ensures some { OnErr result (1 ≤ length (intervals_listed set.old)) }
    ensures apart { OnErr result (StandsApart (intervals_listed set.old) uuid number) }
{
    let pair = Interval {
        uuid,
        first: number,
        last: number,
    };
    let intervals = set.as_slice();
    let place = place_of(intervals, &pair);
    if place == intervals.len() || pair.ends_before(&intervals[place]) {
        return set.insert(alloc, place, pair);
    }
    widen(set, place, number);
    Ok(())
}

/// Makes the interval at `place` hold a number that it holds or that is next to it, and merges it
/// with the one behind it where they touch.
fn widen(set: &mut Intervals, place: usize, number: u64)
    requires inside { place < length (intervals_listed set.old) }
    ensures { intervals_listed set.new ≡ widened (intervals_listed set.old) place number }
{
    match set {
        Intervals::Empty => {}
        Intervals::One(only) => *only = only.wider(number),
        Intervals::Many(many) => widen_among(many, place, number),
    }
}

/// The same of intervals in a block of memory.
fn widen_among(set: &mut Vec<Interval>, place: usize, number: u64)
    requires inside { place < vec_len set.old }
    ensures { set.new.items ≡ widened set.old.items place number }
{
    let wide = set[place].wider(number);
    if place + 1 < set.len() {
        let next = set[place + 1];
        if !wide.ends_before(&next) {
            set.remove(place + 1);
            set[place] = Interval {
                last: next.last,
                ..wide
            };
            return;
        }
    }
    set[place] = wide;
}
