//! The messages of a base.

ghost use Rattle.std.specs.Prelude.{◌≡◌, ◌++◌, ◌∷◌, ◌<◌, ◌^◌, [], IfOk, IfErr, OnOk, Ok, length, map};
ghost use Rattle.vevent.specs.Event.{event_at};
ghost use Rattle.vevent.specs.EventValue.{Begin, Commit};
ghost use Rattle.vevent.specs.EventView.{event_value};
ghost use Rattle.vevent.specs.WrittenEvent.{IsSoundEvent, written_event};
ghost use Rattle.event_laws.specs.WrittenMessages.{framed, written_response};
ghost use Rattle.compaction.specs.Compacting.{HasLongRow, others_message};
ghost use Rattle.compaction.specs.Private.Limits.{IsOverBy};
ghost use Rattle.compaction.specs.Private.Sized.{joined};
ghost use Rattle.compaction.specs.Private.Written.{AddsEnd, AddsFields, AddsRows, AreNamed};

use crate::fault::WriteFault;
use crate::left_rows::LeftRows;
use crate::portion::Portion;
use crate::waiting::Waiting;
use feed_bytes::{FieldBytes, write_message};
use filter_rule::Plan;
use proto_wire::Parts;
use std::alloc::{AllocError, Global};
use vevent::{Event, write_event};

/// A law of what is in memory: it has no more bytes than 64 bits count.
fn is_short(out: &Vec<u8>)
    ensures { length out.now.items < 2 ^ 64 }
{
    out.len();
}

/// An event as bytes that are read as this event. An error is want of memory.
fn bytes_of(alloc: Global, event: &Event<'_>) -> Result<Vec<u8>, AllocError>
    requires { IsSoundEvent (event_value event.now) }
    ensures read { IfOk result (λ bytes. event_at bytes.items ≡ Ok (event_value event.now)) }
    ensures written { IfOk result (λ bytes. bytes.items ≡ written_event (event_value event.now)) }
{
    let mut bytes = Vec::new(alloc);
    write_event(&mut bytes, event)?;
    is_short(&bytes);
    Ok(bytes)
}

/// The events of FIELDs, and one event behind them.
fn with_fields<'f>(
    alloc: Global,
    fields: &'f [FieldBytes<'_>],
    last: &'f [u8],
) -> Result<Vec<&'f [u8]>, AllocError>
    ensures { IfOk result (λ events. map (λ event. event.now) events.items ≡ map (λ field. field.bytes) fields.entry.now ++ last.entry.now ∷ []) }
{
    let mut events = Vec::new(alloc);
    for field in fields {
        events.push(field.bytes())?;
    }
    events.push(last)?;
    Ok(events)
}

/// Appends the message of the FIELDs in force and a BEGIN.
pub(crate) fn write_fields(
    alloc: Global,
    out: &mut Vec<u8>,
    fields: &[FieldBytes<'_>],
) -> Result<(), AllocError>
    ensures adds { OnOk result (AddsFields out.old.items out.new.items fields.now) }
    ensures bytes { OnOk result (out.new.items ≡ out.old.items ++ framed (written_response (map (λ field. field.bytes) fields.now ++ written_event Begin ∷ []))) }
{
    let begin = bytes_of(alloc, &Event::Begin)?;
    let events = with_fields(alloc, fields, &begin)?;
    write_message(out, &events)?;
    Ok(())
}

/// Puts the messages of ROWs that insert rows behind others.
pub(crate) fn push_rows<'h>(
    alloc: Global,
    portions: &mut Vec<Portion<'h>>,
    plan: &Plan,
    fields: &[FieldBytes<'h>],
    rows: &LeftRows<'h>,
) -> Result<(), WriteFault>
    requires { AreNamed plan.now fields.now rows.now }
    ensures adds { OnOk result (AddsRows plan.now (joined portions.old.items) (joined portions.new.items) rows.now) }
    ensures long { IfErr result (IsOverBy (HasLongRow rows.now)) }
{
    let mut waiting = Waiting::new(alloc);
    for (key, _, row) in rows.scan() {
        let table = key.table();
        waiting.make_room(alloc, table, portions, plan, fields)?;
        waiting.push(table, row)?;
    }
    waiting.flush(alloc, portions, plan, fields)?;
    Ok(())
}

/// Appends the message of an event that carries a position, and a COMMIT.
pub(crate) fn write_end(alloc: Global, out: &mut Vec<u8>, place: &[u8]) -> Result<(), AllocError>
    ensures adds { OnOk result (AddsEnd out.old.items out.new.items place.now) }
    ensures bytes { OnOk result (out.new.items ≡ out.old.items ++ framed (written_response (place.now ∷ written_event Commit ∷ []))) }
{
    let commit = bytes_of(alloc, &Event::Commit)?;
    write_message(out, &[place, &commit])?;
    Ok(())
}

/// The events that are left of a message.
fn gathered<'h>(alloc: Global, others: Parts<'h>) -> Result<Vec<&'h [u8]>, AllocError>
    ensures { IfOk result (λ events. map (λ event. event.now) events.items ≡ others.entry) }
{
    let mut events = Vec::new(alloc);
    for event in others {
        events.push(event)?;
    }
    Ok(events)
}

/// Appends the events that are left of a message as one of their own, if there are some.
pub(crate) fn write_others(
    alloc: Global,
    out: &mut Vec<u8>,
    others: Parts<'_>,
) -> Result<(), AllocError>
    ensures { OnOk result (out.new.items ≡ out.old.items ++ others_message others.entry) }
{
    let events = gathered(alloc, others)?;
    if events.is_empty() {
        return Ok(());
    }
    write_message(out, &events)
}
