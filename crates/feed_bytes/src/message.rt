//! Messages of events that are there as bytes.

ghost use Rattle.std.specs.Prelude.{◌≡◌, ◌++◌, map, length, OnOk, OnErr, IfOk};
ghost use Rattle.proto_wire.specs.Writing.{written_fields, Begins};
ghost use Rattle.vevent.specs.WrittenEvent.{message_fields};
ghost use Rattle.event_laws.specs.WrittenMessages.{written_response, framed};

use proto_wire::{bytes_field_size, cut_after_error, put_bytes_head, put_varint, size_of_both};
use std::alloc::AllocError;

/// How many bytes a response of these events has.
fn response_size(events: &[&[u8]]) -> Result<usize, AllocError>
    ensures { IfOk result (λ n. n ≡ length (written_response (map (λ event. event.now) events.now))) }
{
    let mut size = 0;
    for event in events {
        let one = bytes_field_size(1, event.len())?;
        size = size_of_both(size, one)?;
    }
    Ok(size)
}

/// Appends a response of these events.
fn put_response(out: &mut Vec<u8>, events: &[&[u8]]) -> Result<(), AllocError>
    ensures written { OnOk result (out.new.items ≡ out.old.items ++ written_response (map (λ event. event.now) events.now)) }
    ensures kept { Begins out.old.items out.new.items }
{
    for event in events {
        put_bytes_head(out, 1, event.len())?;
        out.extend_from_slice(event)?;
    }
    Ok(())
}

/// Appends a message of these events, behind its length.
fn append_message(out: &mut Vec<u8>, events: &[&[u8]]) -> Result<(), AllocError>
    ensures written { OnOk result (out.new.items ≡ out.old.items ++ framed (written_response (map (λ event. event.now) events.now))) }
    ensures kept { Begins out.old.items out.new.items }
{
    put_varint(out, response_size(events)? as u64)?;
    put_response(out, events)
}

/// Appends a message of a feed, behind its length: a response with these events, each as its bytes. An error is want of
/// memory, and leaves what is there.
pub fn write_message(out: &mut Vec<u8>, events: &[&[u8]]) -> Result<(), AllocError>
    ensures written { OnOk result (out.new.items ≡ out.old.items ++ framed (written_response (map (λ event. event.now) events.now))) }
    ensures unchanged { OnErr result (out.new.items ≡ out.old.items) }
{
    let before = out.len();
    let outcome = append_message(out, events);
    cut_after_error(out, before, outcome)
}
