//! What an event holds, in one walk down to its rows.

ghost use Rattle.std.specs.Prelude.{◌≡◌, ◌||◌, ℕ, List, [], None, Some, MatchResult, OnOk};
ghost use Rattle.std.specs.Result.{result_err};
ghost use Rattle.proto_wire.specs.Field.{fields_of};
ghost use Rattle.vevent.specs.Fault.{in_event, in_plain, wire_fault_by, event_wire_fault};
ghost use Rattle.vevent.specs.Private.Singular.{repeats_behind};
ghost use Rattle.vevent.specs.Private.EventParts.{AreParts, AreAllParts, PutsRowEvent};

use crate::row_parts::{RowParts, row_parts_of};
use crate::singular::Singular;
use crate::walk::{MessageParts, walk};
use crate::wire::check_holder;
use proto_wire::{Field, Payload, WireFault};

/// What was met so far of an event.
#[derive(Drop)]
pub(crate) struct EventParts<'b> {
    /// the last number of a type
    pub(crate) type_number: u64,
    /// the last position
    pub(crate) gtid: &'b [u8],
    pub(crate) row_event: Singular<'b>,
    /// what the first row event holds
    pub(crate) rows: RowParts<'b>,
    pub(crate) field_event: Singular<'b>,
    pub(crate) vgtid: Singular<'b>,
}

impl<'b> EventParts<'b> {
    /// Nothing was met.
    fn new() -> EventParts<'b>
        ensures { (event : List ℕ) → AreParts event result (fields_of event).items }
    {
        EventParts {
            type_number: 0,
            gtid: &[],
            row_event: Singular::Absent,
            rows: RowParts::new(),
            field_event: Singular::Absent,
            vgtid: Singular::Absent,
        }
    }

    /// Meets a row event.
    fn put_row_event(&mut self, message: &'b [u8]) -> Result<(), WireFault>
        ensures wire { result_err result ≡ wire_fault_by (in_plain 2) message.now }
        ensures put { OnOk result (PutsRowEvent message.now self.old self.new) }
    {
        let rows = row_parts_of(message)?;
        if self.row_event.is_absent() {
            self.rows = rows;
        }
        self.row_event.put(message);
        Ok(())
    }

    /// Whether a message that stands alone occurs twice.
    pub(crate) fn repeats(&self) -> bool
        ensures { result ≡ (repeats_behind self.now.row_event [] || repeats_behind self.now.field_event [] || repeats_behind self.now.vgtid [] || self.now.rows.repeats) }
    {
        self.row_event.repeats()
            || self.field_event.repeats()
            || self.vgtid.repeats()
            || self.rows.repeats
    }
}

impl<'b> MessageParts<'b> for EventParts<'b> {
    ghost inside = { λ _. in_event };

    ghost make_up = { AreParts };

    fn put(&mut self, field: Field<'b>) -> Result<(), WireFault> {
        match (field.number, field.payload) {
            (1, Payload::Varint(number)) => {
                self.type_number = number;
                Ok(())
            }
            (3, Payload::Bytes(gtid)) => {
                self.gtid = gtid;
                Ok(())
            }
            (5, Payload::Bytes(message)) => self.put_row_event(message),
            (6, Payload::Bytes(message)) => {
                self.field_event.put(message);
                check_holder(message, 2)
            }
            (7, Payload::Bytes(message)) => {
                self.vgtid.put(message);
                check_holder(message, 1)
            }
            _ => Ok(()),
        }
    }
}

/// All that an event holds, or the first fault in it of what isn't a list of fields.
pub(crate) fn event_parts_of(event: &[u8]) -> Result<EventParts<'_>, WireFault>
    ensures { MatchResult result
        (λ parts. (event_wire_fault event.now ≡ None) × AreAllParts event.now parts)
        (λ fault. event_wire_fault event.now ≡ Some fault) }
{
    let mut parts = EventParts::new();
    walk(event, &mut parts)?;
    Ok(parts)
}
