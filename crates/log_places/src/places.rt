//! Positions of groups one after another, and of logs.

ghost use Rattle.std.specs.Prelude.{◌≡◌, ◌∷◌, [], true, IfOk};
ghost use Rattle.std.specs.List.{list_any};
ghost use Rattle.list_laws.specs.Outcome.{GivesUnless};
ghost use Rattle.gtid_set.specs.Position.{IsInterval, union_of};
ghost use Rattle.log_events.specs.Event.{log_event};
ghost use Rattle.log_groups.specs.Step.{gtid_value};
ghost use Rattle.log_places.specs.Fault.{meant};
ghost use Rattle.log_places.specs.Place.{position_behind, goes_on};
ghost use Rattle.log_places.specs.Private.Next.{reaches_up_to, LacksTheLast};

use crate::fault::{PlaceError, PlaceFault};
use crate::interval::{added_by, both, set_of};
use crate::lists::list_of;
use gtid_set::{
    GtidSet, Interval, equal_members_equal_sets, union_is_the_least_set_over_both, within_is_subset,
};
use log_events::Event;
use log_groups::Gtid;
use std::alloc::{AllocError, Global};

/// Whether an interval ends before the last of these numbers, and has all others of them.
fn reaches_up_to(added: &Interval, one: &Interval) -> bool
    ensures { result ≡ reaches_up_to added.now one.now }
{
    one.uuid == added.uuid && one.first <= added.first && one.last == added.last.saturating_sub(1)
}

/// Whether an interval of some has all of these numbers but the last.
fn any_reaches(added: &Interval, intervals: &[Interval]) -> bool
    ensures { result ≡ list_any (reaches_up_to added.now) intervals.now }
{
    for one in intervals {
        if reaches_up_to(added, one) {
            return true;
        }
    }
    false
}

/// Whether a position has all of these numbers but the last.
fn lacks_the_last(reached: &GtidSet, added: &Interval) -> bool
    requires { IsInterval added.now }
    ensures { result ≡ true → LacksTheLast reached.now added.now }
{
    any_reaches(added, reached.intervals())
        && !reached.contains(&added.uuid.to_be_bytes(), added.last)
}

/// A position and the last of these numbers.
fn with_last(alloc: Global, reached: &GtidSet, added: &Interval) -> Result<GtidSet, AllocError>
    requires interval { IsInterval added.now }
    requires lacks { LacksTheLast reached.now added.now }
    ensures { IfOk result (λ set. set ≡ union_of reached.now (added.now ∷ [])) }
{
    equal_members_equal_sets();
    union_is_the_least_set_over_both();
    let mut set = match reached.try_clone(alloc) {
        Ok(set) => set,
        Err(_) => return Err(AllocError),
    };
    match set.add(alloc, &added.uuid.to_be_bytes(), added.last) {
        Ok(()) => Ok(set),
        Err(_) => Err(AllocError),
    }
}

/// The position behind a transaction. An error is a fault of its number, or want of memory. Takes no memory where the
/// position has all numbers that the transaction adds but the last, as they mostly follow one another.
#[tactic(auto, unfolding(crate::specs::Place::position_behind))]
pub fn position_behind(
    alloc: Global,
    reached: &GtidSet,
    gtid: &Gtid<'_>,
) -> Result<GtidSet, PlaceError>
    ensures { GivesUnless meant (λ set. set) result (position_behind reached.now (gtid_value gtid.now)) }
{
    within_is_subset();
    let interval = added_by(gtid)?;
    if lacks_the_last(reached, &interval) {
        let next = with_last(alloc, reached, &interval)?;
        return Ok(next);
    }
    let one = set_of(alloc, &interval)?;
    if one.is_within(reached) {
        return Err(PlaceError::Fault(PlaceFault::GoesBack));
    }
    let behind = both(alloc, reached, &one)?;
    Ok(behind)
}

/// A log goes on where these positions were reached, by its first event behind the format description. An error is why
/// it doesn't, or want of memory.
#[tactic(auto, unfolding(crate::specs::Place::goes_on))]
pub fn goes_on(alloc: Global, reached: &GtidSet, event: &Event<'_>) -> Result<(), PlaceError>
    ensures { GivesUnless meant (λ x. x) result (goes_on reached.now (log_event event.now)) }
{
    let list = list_of(alloc, event)?;
    if list == *reached {
        return Ok(());
    }
    Err(PlaceError::Fault(PlaceFault::Elsewhere))
}
