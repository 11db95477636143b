//! One event.

ghost use Rattle.std.specs.Prelude.{◌≡◌, ℕ, List, IfOk, IfErr};
ghost use Rattle.list_laws.specs.Outcome.{Gives};
ghost use Rattle.vevent.specs.declared.fault.EventFault.{EventFault};
ghost use Rattle.vevent.specs.EventValue.{EventValue};
ghost use Rattle.vevent.specs.Message.{event_of};
ghost use Rattle.vevent.specs.Event.{accepted_at, event_at};
ghost use Rattle.vevent.specs.Standing.{IsEvent, IsRefused};
ghost use Rattle.vevent.specs.Private.EventParts.{AreAllParts};
ghost use Rattle.vevent.specs.Private.Sound.{IsSound};
ghost use Rattle.vevent.specs.EventView.{event_value};

use crate::event_parts::{EventParts, event_parts_of};
use crate::fault::EventFault;
use crate::field_event::FieldEvent;
use crate::ignored::IgnoredEvent;
use crate::kind::EventKind;
use crate::row_event::RowEvent;
use crate::text::text_of;
use crate::used_texts::are_used_texts;
use crate::vgtid_event::VGtid;
use proto_wire::last_text;

/// An event of a VStream (`binlogdata.proto`, VEvent), by its type. What it holds is lent from the
/// bytes that were read.
#[derive(Drop)]
pub enum Event<'b> {
    /// Type 1: the whole position after the transaction.
    Gtid(&'b str),
    /// Type 2: a transaction begins.
    Begin,
    /// Type 3: a transaction ends.
    Commit,
    /// Type 4: a transaction ends and is dropped.
    Rollback,
    /// Type 12: changes of a table's rows.
    Row(RowEvent<'b>),
    /// Type 13: the columns of a table from here on.
    Field(FieldEvent<'b>),
    /// Type 15: the whole position after the transaction, of each shard.
    Vgtid(VGtid<'b>),
    /// A type that changes nothing here.
    Ignored(IgnoredEvent),
}

/// An event that has no fault: its type, and what it holds.
#[derive(Drop)]
struct Accepted<'b> {
    kind: EventKind,
    parts: EventParts<'b>,
}

/// What the bytes hold as an event, or the first of their faults.
#[tactic(auto, unfolding(crate::specs::Event::accepted_at))]
fn accept(bytes: &[u8]) -> Result<Accepted<'_>, EventFault>
    ensures kind { Gives (λ accepted. accepted.kind) result (accepted_at bytes.now) }
    ensures sound { IfOk result (λ accepted. IsSound accepted.kind bytes.now) }
    ensures held { IfOk result (λ accepted. AreAllParts bytes.now accepted.parts) }
{
    let parts = event_parts_of(bytes).map_err(EventFault::Wire)?;
    if parts.repeats() {
        return Err(EventFault::RepeatedMessage);
    }
    let number = parts.type_number;
    let kind = EventKind::from_number(number).ok_or(EventFault::BadType(number))?;
    if !are_used_texts(kind, &parts) {
        return Err(EventFault::NotUtf8);
    }
    if parts.rows.is_partial {
        return Err(EventFault::PartialRow);
    }
    if let Some(fault) = parts.rows.fault {
        return Err(EventFault::Row(fault));
    }
    Ok(Accepted { kind, parts })
}

/// The event of the bytes that were accepted so.
fn event_as<'b>(accepted: &Accepted<'b>) -> Event<'b>
    requires { (bytes : List ℕ) × IsSound accepted.now.kind bytes × AreAllParts bytes accepted.now.parts }
    ensures { (bytes : List ℕ) → AreAllParts bytes accepted.now.parts → event_value result ≡ event_of accepted.now.kind bytes }
{
    let parts = &accepted.parts;
    match accepted.kind {
        EventKind::Gtid => Event::Gtid(text_of(parts.gtid)),
        EventKind::Begin => Event::Begin,
        EventKind::Commit => Event::Commit,
        EventKind::Rollback => Event::Rollback,
        EventKind::Row => {
            let name = text_of(parts.rows.table_name);
            Event::Row(RowEvent::new(name, parts.row_event.message(), parts.rows.columns))
        }
        EventKind::Field => {
            let message = parts.field_event.message();
            Event::Field(FieldEvent::new(text_of(last_text(message, 1)), message))
        }
        EventKind::Vgtid => Event::Vgtid(VGtid::new(parts.vgtid.message())),
        EventKind::Ignored(which) => Event::Ignored(which),
    }
}

/// The event that the bytes are, or the first of their faults.
#[tactic(auto, unfolding(crate::specs::Event::event_at))]
fn event_of_bytes(bytes: &[u8]) -> Result<Event<'_>, EventFault>
    ensures { Gives event_value result (event_at bytes.now) }
{
    let accepted = accept(bytes)?;
    Ok(event_as(&accepted))
}

impl<'b> Event<'b> {
    /// Reads an event (`binlogdata.proto`, VEvent): type = 1, gtid = 3, row_event = 5,
    /// field_event = 6, vgtid = 7. Fields come in any order; unknown fields, and known ones of
    /// another wire type, are skipped; of a type, a text or a column's type that occurs twice the
    /// last counts. The known messages are read whatever the type. Takes no memory.
    ///
    /// Refused in this order, each a condition on the whole event: `Wire`, `RepeatedMessage`,
    /// `BadType`, `NotUtf8`, `PartialRow`, `Row`.
    pub fn read(bytes: &'b [u8]) -> Result<Event<'b>, EventFault>
        // What is read is the event that stands in the bytes,
        ensures event { IfOk result (λ event. IsEvent bytes.now (event_value event)) }
        // and what is refused has this fault.
        ensures refused { IfErr result (λ fault. IsRefused bytes.now fault) }
        // What stands in the bytes is read,
        ensures every_event { (value : EventValue) → IsEvent bytes.now value
            → Gives event_value result (Ok value) }
        // and each fault is found.
        ensures every_refusal { (fault : EventFault) → IsRefused bytes.now fault
            → Gives event_value result (Err fault) }
        // The same by a function of the bytes.
        ensures exact { Gives event_value result (event_at bytes.now) }
    {
        event_of_bytes(bytes)
    }
}
