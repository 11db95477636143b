//! The events of a file one after another.

ghost use Rattle.std.specs.Prelude.{◌≡◌, length};
ghost use Rattle.item_readers.specs.Reading.{Reading, Next};
ghost use Rattle.log_events.specs.Event.{LogEvent, log_event, events_of, AreEvents};
ghost use Rattle.log_events.specs.Unread.{ReadsBytes};
ghost use Rattle.log_events.specs.declared.fault.EventFault.{EventFault};

use crate::crc::CrcTable;
use crate::event::{Event, event_of};
use crate::fault::EventFault;
use std::marker::Model;

/// The events that are still to come, in the order of the bytes. Seen in contracts as that list with the fault that ends
/// it, if one does, and how many bytes aren't read yet.
#[derive(Drop)]
pub struct Events<'t, 'b> {
    table: &'t CrcTable,
    checked: bool,
    rest: &'b [u8],
}

impl<'t, 'b> Model for Events<'t, 'b> {
    ghost use Rattle.std.specs.Prelude.{length};
    ghost use Rattle.log_events.specs.Event.{LogEvent, events_of};
    ghost use Rattle.log_events.specs.Unread.{Unread};
    ghost use Rattle.log_events.specs.declared.fault.EventFault.{EventFault};

    ghost Value = { Unread LogEvent EventFault };

    ghost view = { λ a. record { reading = events_of a.checked a.rest.now; left = length a.rest.now } };
}

impl<'t, 'b> Events<'t, 'b> {
    /// The events of the whole of `bytes`, each with its check if `checked` says so. Nothing is read yet, and
    /// no memory is taken.
    pub fn new(table: &'t CrcTable, checked: bool, bytes: &'b [u8]) -> Events<'t, 'b>
        ensures reading { result.reading ≡ events_of checked bytes.now }
        ensures left { result.left ≡ length bytes.now }
        // The bytes are these events one after another, and then the end or that fault,
        ensures spelled { AreEvents checked bytes.now result.reading }
        // and no others.
        ensures only { (other : Reading LogEvent EventFault) → AreEvents checked bytes.now other → other ≡ result.reading }
    {
        Events {
            table,
            checked,
            rest: bytes,
        }
    }

    /// The next event, or `None` at the end. After the end the end is answered again, and after a fault the
    /// same fault; neither changes anything. Takes no memory.
    pub fn next_event(&mut self) -> Result<Option<Event<'b>>, EventFault>
        ensures next { Next log_event self.old.reading result self.new.reading }
        // The bytes of the event that is given are read; at the end and at a fault none are.
        ensures left { ReadsBytes self.old.left result self.new.left }
    {
        if self.rest.is_empty() {
            return Ok(None);
        }
        let (event, rest) = event_of(self.table, self.checked, self.rest)?;
        self.rest = rest;
        Ok(Some(event))
    }

    /// How many bytes aren't read yet. At a fault these begin with the event that is at fault.
    pub fn bytes_left(&self) -> usize
        ensures { result ≡ self.now.left }
    {
        self.rest.len()
    }
}
