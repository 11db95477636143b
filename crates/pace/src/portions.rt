//! Parts told of many at a time.

use crate::meter::Meter;

/// How many parts are told of at once.
const PORTION: usize = 1_024;

/// Parts of a work that are done one by one, and told of in portions: a part costs an addition.
#[derive(Drop)]
pub struct Portions<'m, M: Meter> {
    meter: &'m M,
    /// How many are done that weren't told of.
    untold: usize,
}

impl<'m, M: Meter> Portions<'m, M> {
    /// Parts that are told to a meter.
    pub fn of(meter: &'m M) -> Portions<'m, M> {
        Portions { meter, untold: 0 }
    }

    /// One part more is done.
    pub fn has_done_one(&mut self) {
        self.untold = self.untold.saturating_add(1);
        if self.untold >= PORTION {
            self.tell();
        }
    }

    /// Tells of all that are done.
    pub fn tell(&mut self) {
        self.meter.has_done(self.untold);
        self.untold = 0;
    }
}
