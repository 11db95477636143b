//! The one walk over the fields of a message.

ghost use Rattle.std.specs.Prelude.{◌≡◌, ℕ, List, [], ◌∷◌, Option, None, OnOk, option_and_then};
ghost use Rattle.std.specs.Result.{result_err};
ghost use Rattle.proto_wire.specs.declared.fault.WireFault.{WireFault};
ghost use Rattle.proto_wire.specs.Field.{WireField, wire_field, fields_of};
ghost use Rattle.proto_wire.specs.Parts.{bytes_in};
ghost use Rattle.vevent.specs.Fault.{first_in, wire_fault_by};

use proto_wire::{Field, Fields, WireFault};

/// What a walk over a message's fields has met so far.
pub(crate) trait MessageParts<'b>: Drop {
    /// what is at fault in the bytes under a number
    ghost inside: { Self → ℕ → List ℕ → Option WireFault };

    /// what was met, and these fields that are still to come, are the whole message
    ghost make_up: { List ℕ → Self → List WireField → Type 0 };

    /// Meets a field.
    fn put(&mut self, field: Field<'b>) -> Result<(), WireFault>
        ensures wire { let f = wire_field field.entry in
            result_err result ≡ option_and_then (inside self.old f.number) (bytes_in f.value) }
        ensures put { OnOk result ((message : List ℕ) (more : List WireField) → make_up message self.old (wire_field field.entry ∷ more) → make_up message self.new more) }
        ensures stays { inside self.new ≡ inside self.old };
}

/// Meets the fields of a message up to the first fault from the left of what isn't a list of fields in it, and answers
/// that fault.
#[inline(always)]
pub(crate) fn walk<'b, P: MessageParts<'b>>(
    message: &'b [u8],
    parts: &mut P,
) -> Result<(), WireFault>
    requires { P.make_up message.now parts.old (fields_of message.now).items }
    ensures wire { result_err result ≡ wire_fault_by (P.inside parts.old) message.now }
    ensures met { OnOk result (P.make_up message.now parts.new []) }
    // Where nothing inside of the fields is at fault all of them are met, whatever ends them.
    ensures ended { first_in (P.inside parts.old) (fields_of message.now).items None ≡ None → P.make_up message.now parts.new [] }
{
    let mut fields = Fields::new(message);
    while let Some(field) = fields.next_field()? {
        parts.put(field)?;
    }
    Ok(())
}
