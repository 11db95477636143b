//! The numbers of one uuid from a first to a last one.

/// The numbers of a uuid from `first` to `last`, both included. The uuid is its number of 128
/// bits, high byte first (RFC 9562), so uuids are ordered as their texts are.
#[derive(Clone, Copy, PartialEq, Eq, PartialOrd, Ord)]
pub struct Interval {
    pub uuid: u128,
    pub first: u64,
    pub last: u64,
}

impl Interval {
    ghost use Rattle.std.specs.Prelude.{◌≡◌};
    ghost use Rattle.gtid_set.specs.Position.{holds, ends_before, starts_by, holds_interval};
    ghost use Rattle.gtid_set.specs.Inner.Order.{wider};

    /// The number of the uuid is in the interval.
    pub(crate) fn holds(&self, uuid: u128, number: u64) -> bool
        ensures { result ≡ holds self.now uuid number }
    {
        self.uuid == uuid && self.first <= number && number <= self.last
    }

    /// The interval ends before the other begins, with a number between them where both are of
    /// one uuid.
    pub(crate) fn ends_before(&self, other: &Interval) -> bool
        ensures { result ≡ ends_before self.now other.now }
    {
        self.uuid < other.uuid
            || (self.uuid == other.uuid && self.last < other.first && 1 < other.first - self.last)
    }

    /// The interval begins no later than the other.
    pub(crate) fn starts_by(&self, other: &Interval) -> bool
        ensures { result ≡ starts_by self.now other.now }
    {
        self.uuid < other.uuid || (self.uuid == other.uuid && self.first <= other.first)
    }

    /// The interval with one number more, which it holds or which is next to it.
    pub(crate) fn wider(&self, number: u64) -> Interval
        ensures { result ≡ wider self.now number }
    {
        Interval {
            first: self.first.min(number),
            last: self.last.max(number),
            ..*self
        }
    }

    /// Each number of the other interval is in this one.
    pub(crate) fn covers(&self, other: &Interval) -> bool
        ensures { result ≡ holds_interval self.now other.now }
    {
        self.uuid == other.uuid && self.first <= other.first && other.last <= self.last
    }
}
