//! The intervals of a text while it is read.

ghost use Rattle.std.specs.Prelude.{◌++◌, ◌∷◌, [], List};
ghost use Rattle.gtid_set.specs.declared.interval.Interval.{Interval as IntervalValue};
ghost use Rattle.gtid_set.specs.Inner.Kept.{Keeps};

use crate::interval::Interval;
use crate::intervals::Intervals;
use std::alloc::Global;

/// The intervals that a text named so far, or that memory for them was wanting: the text is then
/// read on, since a fault that stands further on is told before want of memory.
#[derive(Drop)]
pub(crate) enum Named {
    Kept(Intervals),
    Wanting,
}

impl Named {
    /// Takes one more interval.
    pub(crate) fn put(&mut self, alloc: Global, interval: Interval)
        ensures { (front : List IntervalValue) → Keeps self.old front → Keeps self.new (front ++ interval ∷ []) }
    {
        if let Named::Kept(intervals) = self {
            let place = intervals.as_slice().len();
            if intervals.insert(alloc, place, interval).is_err() {
                *self = Named::Wanting;
            }
        }
    }
}
