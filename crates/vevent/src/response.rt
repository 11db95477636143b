//! The events of a response.

ghost use Rattle.std.specs.Prelude.{◌≡◌};
ghost use Rattle.proto_wire.specs.Reading.{Reading, Next};
ghost use Rattle.vevent.specs.declared.fault.EventFault.{EventFault};
ghost use Rattle.vevent.specs.EventValue.{EventValue};
ghost use Rattle.vevent.specs.EventView.{event_value};
ghost use Rattle.vevent.specs.Response.{response_of, IsResponse};

use crate::event::Event;
use crate::fault::EventFault;
use crate::messages::Messages;
use std::marker::Model;

/// The events of a response that are still to come (`binlogdata.proto`, VStreamResponse), in the
/// order of the bytes. Seen in contracts as that list and the fault that ends it, if one does.
#[derive(Drop)]
pub struct Response<'b> {
    messages: Messages<'b>,
    /// the fault of the event that ended the reading
    ended: Option<EventFault>,
}

impl<'b> Model for Response<'b> {
    ghost use Rattle.proto_wire.specs.Reading.{Reading};
    ghost use Rattle.vevent.specs.declared.fault.EventFault.{EventFault};
    ghost use Rattle.vevent.specs.EventValue.{EventValue};
    ghost use Rattle.vevent.specs.Response.{events_in, unless_ended};

    ghost Value = { Reading EventValue EventFault };

    ghost view = { λ a. unless_ended a.ended (events_in a.messages) };
}

impl<'b> Response<'b> {
    /// The events of the whole of `bytes`. Nothing is read yet, and no memory is taken.
    #[tactic(auto, unfolding(crate::specs::Response::response_of))]
    pub fn new(bytes: &'b [u8]) -> Response<'b>
        ensures reading { result ≡ response_of bytes.now }
        // The bytes are a response of these events, and then the end or that fault,
        ensures spelled { IsResponse bytes.now result }
        // and of no others.
        ensures only { (other : Reading EventValue EventFault) → IsResponse bytes.now other → other ≡ result }
    {
        Response {
            messages: Messages::new(bytes, 1),
            ended: None,
        }
    }

    /// The next event, or `None` at the end. After the end the end is answered again, and after a
    /// fault the same fault. Where the response itself stops to be fields the fault is `Wire`, and
    /// comes after the events before that place. Takes no memory.
    pub fn next_event(&mut self) -> Result<Option<Event<'b>>, EventFault>
        ensures { Next event_value self.old result self.new }
    {
        if let Some(fault) = self.ended {
            return Err(fault);
        }
        let Some(message) = self.messages.next_message().map_err(EventFault::Wire)? else {
            return Ok(None);
        };
        match Event::read(message) {
            Ok(event) => Ok(Some(event)),
            Err(fault) => {
                self.ended = Some(fault);
                Err(fault)
            }
        }
    }
}
