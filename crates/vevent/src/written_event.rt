//! Writing of events.

ghost use Rattle.std.specs.Prelude.{◌≡◌, ◌++◌, length, OnOk, OnErr, IfOk};
ghost use Rattle.proto_wire.specs.Writing.{written_fields, Begins};
ghost use Rattle.vevent.specs.EventView.{event_value};
ghost use Rattle.vevent.specs.WrittenEvent.{ignored_number, type_number, body_fields, written_event, EventsAreReadAgain};

use crate::event::Event;
use crate::ignored::IgnoredEvent;
use crate::written_changes::{put_row_event, row_event_size};
use crate::written_columns::{field_event_size, put_field_event};
use crate::written_entries::{put_vgtid, vgtid_size};
use crate::written_laws::events_are_read_again;
use proto_wire::{
    bytes_field_size, cut_after_error, number_field_size, put_bytes_head, put_number, put_text,
    size_of_both, text_field_size,
};
use std::alloc::AllocError;

/// The number of an ignored event's type.
fn ignored_number(which: IgnoredEvent) -> u64
    ensures { result ≡ ignored_number which }
{
    match which {
        IgnoredEvent::Ddl => 5,
        IgnoredEvent::Other => 11,
        IgnoredEvent::Heartbeat => 14,
        IgnoredEvent::Version => 17,
        IgnoredEvent::Savepoint => 19,
    }
}

/// The number of an event's type.
fn type_number(event: &Event<'_>) -> u64
    ensures { result ≡ type_number (event_value event.now) }
{
    match event {
        Event::Gtid(_) => 1,
        Event::Begin => 2,
        Event::Commit => 3,
        Event::Rollback => 4,
        Event::Row(_) => 12,
        Event::Field(_) => 13,
        Event::Vgtid(_) => 15,
        Event::Ignored(which) => ignored_number(*which),
    }
}

/// How many bytes that takes which an event of its type holds.
fn body_size(event: &Event<'_>) -> Result<usize, AllocError>
    ensures { IfOk result (λ n. n ≡ length (written_fields (body_fields (event_value event.now)))) }
{
    match event {
        Event::Gtid(position) => text_field_size(3, position.len()),
        Event::Row(row_event) => bytes_field_size(5, row_event_size(row_event)?),
        Event::Field(field_event) => bytes_field_size(6, field_event_size(field_event)?),
        Event::Vgtid(vgtid) => bytes_field_size(7, vgtid_size(vgtid)?),
        Event::Begin | Event::Commit | Event::Rollback | Event::Ignored(_) => Ok(0),
    }
}

/// Appends what an event of its type holds.
fn put_body(out: &mut Vec<u8>, event: &Event<'_>) -> Result<(), AllocError>
    ensures written { OnOk result (out.new.items ≡ out.old.items ++ written_fields (body_fields (event_value event.now))) }
    ensures kept { Begins out.old.items out.new.items }
{
    match event {
        Event::Gtid(position) => put_text(out, 3, position.as_bytes())?,
        Event::Row(row_event) => {
            put_bytes_head(out, 5, row_event_size(row_event)?)?;
            put_row_event(out, row_event)?;
        }
        Event::Field(field_event) => {
            put_bytes_head(out, 6, field_event_size(field_event)?)?;
            put_field_event(out, field_event)?;
        }
        Event::Vgtid(vgtid) => {
            put_bytes_head(out, 7, vgtid_size(vgtid)?)?;
            put_vgtid(out, vgtid)?;
        }
        Event::Begin | Event::Commit | Event::Rollback | Event::Ignored(_) => {}
    }
    Ok(())
}

/// How many bytes an event has as it is written. An error is want of memory, since no memory has as
/// many.
pub fn event_size(event: &Event<'_>) -> Result<usize, AllocError>
    ensures { IfOk result (λ n. n ≡ length (written_event (event_value event.now))) }
{
    let number = number_field_size(1, type_number(event));
    size_of_both(number, body_size(event)?)
}

/// Appends an event.
fn append_event(out: &mut Vec<u8>, event: &Event<'_>) -> Result<(), AllocError>
    ensures written { OnOk result (out.new.items ≡ out.old.items ++ written_event (event_value event.now)) }
    ensures kept { Begins out.old.items out.new.items }
{
    put_number(out, 1, type_number(event))?;
    put_body(out, event)?;
    Ok(())
}

/// Appends an event (`binlogdata.proto`, VEvent): its type, and what an event of this type holds. An
/// error is want of memory, and leaves what is there.
pub fn write_event(out: &mut Vec<u8>, event: &Event<'_>) -> Result<(), AllocError>
    ensures written { OnOk result (out.new.items ≡ out.old.items ++ written_event (event_value event.now)) }
    ensures unchanged { OnErr result (out.new.items ≡ out.old.items) }
    // An event within the limits that is written is read as this event.
    ensures read_again { EventsAreReadAgain }
{
    events_are_read_again();
    out.reserve(event_size(event)?)?;
    let before = out.len();
    let outcome = append_event(out, event);
    cut_after_error(out, before, outcome)
}
