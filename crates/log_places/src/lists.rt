//! The positions with which a log begins.

ghost use Rattle.std.specs.Prelude.{◌≡◌, [], IfOk};
ghost use Rattle.list_laws.specs.Outcome.{Gives, GivesUnless};
ghost use Rattle.gtid_set.specs.Position.{IsInterval};
ghost use Rattle.log_events.specs.Event.{log_event};
ghost use Rattle.log_places.specs.Fault.{meant, of_part};
ghost use Rattle.log_places.specs.List.{times, span_in, span_at, uuid_there, uuid_at, maria_list, mysql_list, list_of};
ghost use Rattle.log_tables.specs.Part.{front_at};

use crate::fault::{PlaceError, PlaceFault};
use crate::interval::{domain_uuid, span, uuid_of, with_span};
use gtid_set::{GtidSet, Interval};
use log_events::{Event, Size, number_at};
use log_groups::{EventClass, class_of};
use log_tables::front_of;
use std::alloc::Global;

/// What numbers a list has one behind another.
#[derive(Clone, Copy)]
pub(crate) enum Spans {
    /// Of each domain the last one.
    OfDomains,
    /// Of one uuid a first one, and the one behind the last.
    OfUuid(u128),
}

/// So many bytes of a list, and the others.
fn part_of(bytes: &[u8], count: u64) -> Result<(&[u8], &[u8]), PlaceFault>
    ensures { Gives (λ x. (x.0.now, x.1.now)) result (of_part (front_at count bytes.now)) }
{
    let parts = front_of(bytes, count)?;
    Ok(parts)
}

/// The numbers in some bytes.
fn span_in(which: Spans, bytes: &[u8]) -> Result<Interval, PlaceFault>
    ensures value { Gives (λ i. i) result (span_in which bytes.now) }
    ensures right { IfOk result IsInterval }
{
    let last = number_at(bytes, 8, Size::Eight);
    match which {
        Spans::OfDomains => {
            let uuid = domain_uuid(number_at(bytes, 0, Size::Four));
            span(uuid, 1, last)
        }
        Spans::OfUuid(uuid) => {
            let first = number_at(bytes, 0, Size::Eight);
            span(uuid, first, last.saturating_sub(1))
        }
    }
}

/// A position with the numbers at the front, and the bytes after them.
#[tactic(auto, unfolding(crate::specs::List::span_at))]
fn span_of<'b>(
    alloc: Global,
    which: Spans,
    reached: &GtidSet,
    bytes: &'b [u8],
) -> Result<(GtidSet, &'b [u8]), PlaceError>
    ensures { GivesUnless meant (λ x. (x.0, x.1.now)) result (span_at which (reached.now, bytes.now)) }
{
    let (front, rest) = part_of(bytes, 16)?;
    let interval = span_in(which, front)?;
    let set = with_span(alloc, reached, &interval)?;
    Ok((set, rest))
}

/// A position with so many spans, and the bytes after them.
fn spans_of(
    alloc: Global,
    which: Spans,
    count: u64,
    set: GtidSet,
    bytes: &[u8],
) -> Result<(GtidSet, &[u8]), PlaceError>
    ensures { GivesUnless meant (λ x. (x.0, x.1.now)) result (times (span_at which) count (set, bytes.now)) }
{
    let mut reached = set;
    let mut left = bytes;
    for _ in 0..count {
        let (more, rest) = span_of(alloc, which, &reached, left)?;
        reached = more;
        left = rest;
    }
    Ok((reached, left))
}

/// The uuid, where there is one.
fn uuid_there(uuid: Option<u128>) -> Result<u128, PlaceFault>
    ensures { Gives (λ x. x) result (uuid_there uuid) }
{
    match uuid {
        Some(uuid) => Ok(uuid),
        None => Err(PlaceFault::NoNumber),
    }
}

/// A position with the numbers of the uuid at the front, and the bytes after them.
#[tactic(auto, unfolding(crate::specs::List::uuid_at))]
fn of_uuid(alloc: Global, set: GtidSet, bytes: &[u8]) -> Result<(GtidSet, &[u8]), PlaceError>
    ensures { GivesUnless meant (λ x. (x.0, x.1.now)) result (uuid_at (set, bytes.now)) }
{
    let (head, rest) = part_of(bytes, 24)?;
    let uuid = uuid_there(uuid_of(head))?;
    spans_of(
        alloc,
        Spans::OfUuid(uuid),
        number_at(head, 16, Size::Eight),
        set,
        rest,
    )
}

/// A position with those of so many uuids, and the bytes after them.
fn of_uuids(alloc: Global, count: u64, bytes: &[u8]) -> Result<(GtidSet, &[u8]), PlaceError>
    ensures { GivesUnless meant (λ x. (x.0, x.1.now)) result (times uuid_at count ([], bytes.now)) }
{
    let mut reached = GtidSet::new();
    let mut left = bytes;
    for _ in 0..count {
        let (more, rest) = of_uuid(alloc, reached, left)?;
        reached = more;
        left = rest;
    }
    Ok((reached, left))
}

/// The positions that a list of MariaDB has.
#[tactic(auto, unfolding(crate::specs::List::maria_list))]
fn maria_list(alloc: Global, body: &[u8]) -> Result<GtidSet, PlaceError>
    ensures { GivesUnless meant (λ set. set) result (maria_list body.now) }
{
    let (head, rest) = part_of(body, 4)?;
    let count = number_at(head, 0, Size::Four) % (1 << 28);
    let (set, _) = spans_of(alloc, Spans::OfDomains, count, GtidSet::new(), rest)?;
    Ok(set)
}

/// The positions that a list of MySQL has.
#[tactic(auto, unfolding(crate::specs::List::mysql_list))]
fn mysql_list(alloc: Global, body: &[u8]) -> Result<GtidSet, PlaceError>
    ensures { GivesUnless meant (λ set. set) result (mysql_list body.now) }
{
    let (head, rest) = part_of(body, 8)?;
    if number_at(head, 7, Size::One) != 0 {
        return Err(PlaceError::Fault(PlaceFault::Tagged));
    }
    let (set, _) = of_uuids(alloc, number_at(head, 0, Size::Eight), rest)?;
    Ok(set)
}

/// The positions that an event lists: the first one of a log behind its format description. An error is the first
/// fault, or want of memory.
#[tactic(auto, unfolding(crate::specs::List::list_of))]
pub fn list_of(alloc: Global, event: &Event<'_>) -> Result<GtidSet, PlaceError>
    ensures { GivesUnless meant (λ set. set) result (list_of (log_event event.now)) }
{
    match class_of(event.kind, event.flags) {
        EventClass::MariaList => maria_list(alloc, event.body),
        EventClass::MysqlList => mysql_list(alloc, event.body),
        _ => Err(PlaceError::Fault(PlaceFault::NoList)),
    }
}
