//! Whether a message and those in it are lists of fields.

ghost use Rattle.std.specs.Prelude.{◌≡◌, None, ⊤};
ghost use Rattle.std.specs.Result.{result_err};
ghost use Rattle.proto_wire.specs.Field.{fields_of};
ghost use Rattle.vevent.specs.Fault.{in_plain, wire_fault_by};

use crate::walk::{MessageParts, walk};
use proto_wire::{Field, Payload, WireFault};

/// A message that holds no others.
#[derive(Clone, Copy)]
struct Plain;

impl<'b> MessageParts<'b> for Plain {
    ghost inside = { λ _ _ _. None };

    ghost make_up = { λ _ _ _. ⊤ };

    fn put(&mut self, _field: Field<'b>) -> Result<(), WireFault> {
        Ok(())
    }
}

/// A message that holds plain ones under one number.
#[derive(Clone, Copy)]
struct Holder {
    wanted: u32,
}

impl<'b> MessageParts<'b> for Holder {
    ghost inside = { λ holder. in_plain holder.wanted };

    ghost make_up = { λ _ _ _. ⊤ };

    fn put(&mut self, field: Field<'b>) -> Result<(), WireFault> {
        match field.payload {
            Payload::Bytes(part) if field.number == self.wanted => check_plain(part),
            _ => Ok(()),
        }
    }
}

/// The fault of a message that holds no others.
#[tactic(auto, using(crate::proofs::Walks::first_in_none))]
pub(crate) fn check_plain(message: &[u8]) -> Result<(), WireFault>
    ensures { result_err result ≡ (fields_of message.now).fault }
{
    walk(message, &mut Plain)
}

/// The first fault in a message that holds plain ones under one number.
pub(crate) fn check_holder(message: &[u8], wanted: u32) -> Result<(), WireFault>
    ensures { result_err result ≡ wire_fault_by (in_plain wanted) message.now }
{
    walk(message, &mut Holder { wanted })
}
