//! The messages that a message holds under one number.

ghost use Rattle.std.specs.Prelude.{◌≡◌};
ghost use Rattle.std.specs.Iterator.{YieldsFirstBy, item_count};
ghost use Rattle.proto_wire.specs.declared.fault.WireFault.{WireFault};
ghost use Rattle.proto_wire.specs.Reading.{Reading, Next};
ghost use Rattle.proto_wire.specs.Field.{WireField, AreFields, fields_of};
ghost use Rattle.proto_wire.specs.Parts.{parts_left};

use proto_wire::{Fields, WireFault};
use std::marker::Model;

/// The messages under one number that are still to come, in the order of the bytes. Seen in contracts as that list and
/// the fault that ends it, if one does.
#[derive(Drop)]
pub(crate) struct Messages<'b> {
    fields: Fields<'b>,
    number: u32,
}

impl<'b> Model for Messages<'b> {
    ghost use Rattle.std.specs.Prelude.{ℕ, List};
    ghost use Rattle.proto_wire.specs.declared.fault.WireFault.{WireFault};
    ghost use Rattle.proto_wire.specs.Reading.{Reading};
    ghost use Rattle.proto_wire.specs.Parts.{parts_left};

    ghost Value = { Reading (List ℕ) WireFault };

    ghost view = { λ a. parts_left a.number a.fields };
}

impl<'b> Messages<'b> {
    /// All that the message holds under the number. Nothing is read yet, and no memory is taken.
    pub(crate) fn new(message: &'b [u8], number: u32) -> Messages<'b>
        ensures reading { result ≡ parts_left number (fields_of message.now) }
        // The bytes are these fields one after another,
        ensures spelled { AreFields message.now (fields_of message.now) }
        // and no others.
        ensures only { (other : Reading WireField WireFault) → AreFields message.now other → other ≡ fields_of message.now }
    {
        Messages {
            fields: Fields::new(message),
            number,
        }
    }

    /// The next message, or `None` at the end. After the end the end is answered again, and after a fault the same
    /// fault.
    #[inline(always)]
    pub(crate) fn next_message(&mut self) -> Result<Option<&'b [u8]>, WireFault>
        ensures { Next (λ message. message.now) self.old result self.new }
    {
        self.fields.next_part(self.number)
    }
}

/// A fault ends them.
impl<'b> Iterator for Messages<'b> {
    type Item = &'b [u8];

    ghost next_gives = { YieldsFirstBy (λ message. message.now) (λ rest. rest.items) };

    ghost remaining = { item_count (λ rest. rest.items) };

    #[inline(always)]
    fn next(&mut self) -> Option<&'b [u8]> {
        match self.next_message() {
            Ok(message) => message,
            Err(_) => None,
        }
    }
}
