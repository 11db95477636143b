//! Sets of pairs of a uuid and a number.

ghost use Rattle.std.specs.Prelude.{◌≡◌, ◌≤◌, ◌<◌, ◌↔◌, [], IsTrue, IfOk, IfErr, OnOk, OnErr, Err, length};
ghost use Rattle.std.specs.Int.{w128, from_be_bytes};
ghost use Rattle.gtid_set.specs.declared.fault.GtidFault.{GtidFault as FaultValue};
ghost use Rattle.gtid_set.specs.declared.fault.GtidFault.TheVariants.{Memory};
ghost use Rattle.list_laws.specs.Outcome.{GivesUnless};
ghost use Rattle.gtid_set.specs.Fault.{meant};
ghost use Rattle.gtid_set.specs.Position.{has, IsWithin, IsCanonical, HasBoth, HasPairMore, StandsApart, last_number, union_of, with_pair, within_of};
ghost use Rattle.gtid_set.specs.Text.{position_of_text, IsOfText, NamesSeveral};

use crate::add::add_pair;
use crate::fault::GtidFault;
use crate::interval::Interval;
use crate::intervals::Intervals;
use crate::merge::{merged, union};
use crate::read::intervals_of;
use crate::search::{are_within, has_pair};
use std::alloc::Global;
use std::marker::Model;
use std::mem::size_of;

/// A set of pairs of a uuid and a number (MySQL manual, "GTID Sets"), kept as its merged rising
/// intervals, so that sets with the same pairs are equal. Numbers are from 1 to 2^63 - 2. A set of
/// one interval, as most positions are, takes 48 bytes and no block of memory.
#[derive(Drop)]
pub struct GtidSet {
    intervals: Intervals,
}

const _: () = prove!(size_of::<GtidSet>() == 48);

impl Model for GtidSet {
    ghost use Rattle.std.specs.Prelude.{List};
    ghost use Rattle.gtid_set.specs.declared.interval.Interval.{Interval};
    ghost use Rattle.gtid_set.specs.Position.{IsCanonical};
    ghost use Rattle.gtid_set.specs.Inner.Kept.{intervals_listed};

    ghost Value = { List Interval };

    ghost view = { λ s. intervals_listed s.intervals };

    ghost invariant = { λ s. IsCanonical (intervals_listed s.intervals) };
}

impl GtidSet {
    /// The empty set. It takes no memory, so it needs no allocator.
    pub fn new() -> GtidSet
        ensures { result ≡ [] }
    {
        GtidSet {
            intervals: Intervals::Empty,
        }
    }

    /// The set that a position text means: an optional flavor `MySQL56/`, then parts between
    /// commas, each a uuid and its intervals `m` or `m-n` behind colons. Refused: `TooLarge` for
    /// more than 1,048,576 bytes, before all else; then the first from the left of `Flavor`,
    /// `BadUuid`, `Syntax` for no colon behind a uuid, and `BadNumber`. `Memory` comes only for a
    /// text without such a fault that names two intervals or more. Takes time linear in the text,
    /// and for `n` intervals that don't rise `n log n`.
    pub fn parse(alloc: Global, text: &str) -> Result<GtidSet, GtidFault>
        ensures exact { GivesUnless meant (λ set. set) result (position_of_text text.now) }
        ensures every_fault { (fault : FaultValue) → position_of_text text.now ≡ Err fault → result ≡ Err fault }
        ensures memory { result ≡ Err Memory → NamesSeveral text.now }
        ensures pairs { IfOk result (IsOfText text.now) }
        ensures canonical { IfOk result IsCanonical }
    {
        let named = intervals_of(alloc, text.as_bytes())?;
        Ok(GtidSet {
            intervals: merged(named),
        })
    }

    /// The set has no pair.
    pub fn is_empty(&self) -> bool
        ensures { IsTrue result ↔ (self.now ≡ []) }
    {
        self.intervals.as_slice().is_empty()
    }

    /// The pair is in the set. A uuid is its 16 bytes. Takes no memory, and the logarithm of the
    /// set's intervals in time.
    pub fn contains(&self, uuid: &[u8; 16], number: u64) -> bool
        ensures { result ≡ has self.now (from_be_bytes w128 uuid.now) number }
    {
        let intervals = self.intervals.as_slice();
        has_pair(intervals, u128::from_be_bytes(*uuid), number)
    }

    /// Each pair of the set is in the other. Takes no memory. A set of `m` intervals against one
    /// of `n` takes time of the order of `m`, times the logarithm of `n / m` where that is more,
    /// and no more than `m` and `n` together.
    pub fn is_within(&self, other: &GtidSet) -> bool
        ensures value { result ≡ within_of self.now other.now }
        ensures subset { IsTrue result ↔ IsWithin self.now other.now }
    {
        match (&self.intervals, &other.intervals) {
            (Intervals::One(some), Intervals::One(all)) => all.covers(some),
            (some, all) => are_within(some.as_slice(), all.as_slice()),
        }
    }

    /// The pairs of both sets, in time linear in their intervals. `Memory` is its only fault.
    pub fn union(&self, alloc: Global, other: &GtidSet) -> Result<GtidSet, GtidFault>
        ensures value { IfOk result (λ both. both ≡ union_of self.now other.now) }
        ensures pairs { IfOk result (HasBoth self.now other.now) }
        ensures canonical { IfOk result IsCanonical }
        ensures memory { IfErr result (λ fault. fault ≡ Memory) }
    {
        let both = union(alloc, self.intervals.as_slice(), other.intervals.as_slice())?;
        Ok(GtidSet {
            intervals: Intervals::from_vec(both),
        })
    }

    /// Adds a pair, of a number from 1 to 2^63 - 2. `Memory` is its only fault, and then the set is
    /// as it was. It comes only where the set isn't empty and the pair stands apart from its
    /// intervals: a number that is there already, or next to one, takes no memory. Takes the
    /// logarithm of the intervals in time, and what moving those behind the pair takes.
    pub fn add(&mut self, alloc: Global, uuid: &[u8; 16], number: u64) -> Result<(), GtidFault>
        requires from_one { 1 ≤ number }
        requires to_last { number ≤ last_number }
        ensures value { OnOk result (self.new ≡ with_pair self.old (from_be_bytes w128 uuid.now) number) }
        ensures pairs { OnOk result (HasPairMore self.old (from_be_bytes w128 uuid.now) number self.new) }
        ensures err { OnErr result (self.new ≡ self.old) }
        ensures memory { IfErr result (λ fault. fault ≡ Memory) }
        ensures some { OnErr result (1 ≤ length self.old) }
        ensures apart { OnErr result (StandsApart self.old (from_be_bytes w128 uuid.now) number) }
    {
        add_pair(
            &mut self.intervals,
            alloc,
            u128::from_be_bytes(*uuid),
            number,
        )?;
        Ok(())
    }

    /// The same set once more. `Memory` is its only fault, and comes only for two intervals or
    /// more.
    pub fn try_clone(&self, alloc: Global) -> Result<GtidSet, GtidFault>
        ensures value { IfOk result (λ copy. copy ≡ self.now) }
        ensures memory { IfErr result (λ fault. fault ≡ Memory) }
        ensures several { OnErr result (2 ≤ length self.now) }
    {
        Ok(GtidSet {
            intervals: Intervals::copied(alloc, self.intervals.as_slice())?,
        })
    }

    /// The merged rising intervals of the set.
    pub fn intervals(&self) -> &[Interval]
        ensures value { result.now ≡ self.now }
        ensures canonical { IsCanonical result.now }
    {
        self.intervals.as_slice()
    }
}

/// Sets are equal if they have the same pairs.
impl PartialEq for GtidSet {
    ghost use Rattle.gtid_set.specs.Position.{same_set};
    ghost use Rattle.gtid_set.specs.Equal.{same_set-laws};

    ghost eq = { same_set };

    ghost laws = { same_set-laws };

    fn eq(&self, other: &GtidSet) -> bool {
        self.intervals.as_slice() == other.intervals.as_slice()
    }
}
