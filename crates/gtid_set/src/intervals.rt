//! Intervals in a row, of which a single one needs no block of memory.

ghost use Rattle.std.specs.Prelude.{◌≡◌, ◌≤◌, [], IfOk, OnOk, OnErr, length};
ghost use Rattle.std.specs.List.{insert};
ghost use Rattle.gtid_set.specs.Inner.Kept.{intervals_listed};

use crate::interval::Interval;
use std::alloc::{AllocError, Global};
use std::slice;

/// Intervals one behind the other: none, one kept in place, or any number in a block of memory.
#[derive(Drop)]
pub(crate) enum Intervals {
    Empty,
    One(Interval),
    Many(Vec<Interval>),
}

impl Intervals {
    /// The intervals in their order.
    pub(crate) fn as_slice(&self) -> &[Interval]
        ensures { result.now ≡ intervals_listed self.now }
    {
        match self {
            Intervals::Empty => &[],
            Intervals::One(only) => slice::from_ref(only),
            Intervals::Many(many) => many.as_slice(),
        }
    }

    /// The same intervals, of which a single one gives its block back.
    pub(crate) fn from_vec(intervals: Vec<Interval>) -> Intervals
        ensures { intervals_listed result ≡ intervals.items }
    {
        match intervals.as_slice() {
            [] => Intervals::Empty,
            [only] => Intervals::One(*only),
            _ => Intervals::Many(intervals),
        }
    }

    /// A copy of some intervals. Fails for want of memory alone, and for two intervals or more.
    pub(crate) fn copied(alloc: Global, intervals: &[Interval]) -> Result<Intervals, AllocError>
        ensures value { IfOk result (λ copy. intervals_listed copy ≡ intervals.now) }
        ensures err { OnErr result (2 ≤ length intervals.now) }
    {
        match intervals {
            [] => Ok(Intervals::Empty),
            [only] => Ok(Intervals::One(*only)),
            many => Ok(Intervals::Many(Vec::from_slice(alloc, many)?)),
        }
    }

    /// Puts an interval at a place. Fails for want of memory alone, where there is an interval
    /// already, and then changes nothing.
    pub(crate) fn insert(
        &mut self,
        alloc: Global,
        place: usize,
        interval: Interval,
    ) -> Result<(), AllocError>
        requires { place ≤ length (intervals_listed self.old) }
        ensures ok { OnOk result (intervals_listed self.new ≡ insert (intervals_listed self.old) place interval) }
        ensures err { OnErr result (intervals_listed self.new ≡ intervals_listed self.old) }
        ensures memory { OnErr result (1 ≤ length (intervals_listed self.old)) }
    {
        match self {
            Intervals::One(only) => {
                let both = if place == 0 {
                    [interval, *only]
                } else {
                    [*only, interval]
                };
                *self = Intervals::Many(Vec::from_slice(alloc, &both)?);
                Ok(())
            }
            Intervals::Many(many) if !many.is_empty() => {
                many.insert(place, interval)?;
                Ok(())
            }
            _ => {
                *self = Intervals::One(interval);
                Ok(())
            }
        }
    }
}
