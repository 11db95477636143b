//! The fields of a message.

ghost use Rattle.std.specs.Prelude.{◌≡◌};
ghost use Rattle.proto_wire.specs.Reading.{Reading, Next};
ghost use Rattle.proto_wire.specs.Field.{WireField, wire_field, fields_of, AreFields};
ghost use Rattle.proto_wire.specs.declared.fault.WireFault.{WireFault};

use crate::fault::WireFault;
use crate::field::{Field, field_of};
use std::marker::Model;

/// The fields of a message that are still to come, in the order of the bytes. Seen in contracts as
/// that list and the fault that ends it, if one does.
#[derive(Debug, Drop)]
pub struct Fields<'b> {
    rest: &'b [u8],
}

impl<'b> Model for Fields<'b> {
    ghost use Rattle.proto_wire.specs.Reading.{Reading};
    ghost use Rattle.proto_wire.specs.Field.{WireField, fields_of};
    ghost use Rattle.proto_wire.specs.declared.fault.WireFault.{WireFault};

    ghost Value = { Reading WireField WireFault };

    ghost view = { λ a. fields_of a.rest.now };
}

impl<'b> Fields<'b> {
    /// The fields of the whole of `bytes`. Nothing is read yet, and no memory is taken.
    pub fn new(bytes: &'b [u8]) -> Fields<'b>
        ensures reading { result ≡ fields_of bytes.now }
        // The bytes are these fields one after another, and then the end or that fault,
        ensures spelled { AreFields bytes.now result }
        // and no others.
        ensures only { (other : Reading WireField WireFault) → AreFields bytes.now other → other ≡ result }
    {
        Fields { rest: bytes }
    }

    /// The next field, or `None` at the end. After the end the end is answered again, and after a
    /// fault the same fault; neither changes anything. Takes no memory.
    #[inline(always)]
    pub fn next_field(&mut self) -> Result<Option<Field<'b>>, WireFault>
        ensures { Next wire_field self.old result self.new }
    {
        if self.rest.is_empty() {
            return Ok(None);
        }
        let (field, rest) = field_of(self.rest)?;
        self.rest = rest;
        Ok(Some(field))
    }
}
