//! A packed list of varints.

ghost use Rattle.std.specs.Prelude.{◌≡◌, ℕ};
ghost use Rattle.proto_wire.specs.Reading.{Reading, Next};
ghost use Rattle.proto_wire.specs.Varint.{varints_of, AreVarints};
ghost use Rattle.proto_wire.specs.declared.fault.WireFault.{WireFault};

use crate::fault::WireFault;
use crate::varint::varint_of;
use std::marker::Model;

/// The varints of a packed list that are still to come. Seen in contracts as that list and the fault
/// that ends it, if one does.
#[derive(Drop)]
pub struct Varints<'b> {
    rest: &'b [u8],
}

impl<'b> Model for Varints<'b> {
    ghost use Rattle.std.specs.Prelude.{ℕ};
    ghost use Rattle.proto_wire.specs.Reading.{Reading};
    ghost use Rattle.proto_wire.specs.Varint.{varints_of};
    ghost use Rattle.proto_wire.specs.declared.fault.WireFault.{WireFault};

    ghost Value = { Reading ℕ WireFault };

    ghost view = { λ a. varints_of a.rest.now };
}

impl<'b> Varints<'b> {
    /// The varints of the whole of `bytes`. Nothing is read yet, and no memory is taken.
    pub fn new(bytes: &'b [u8]) -> Varints<'b>
        ensures reading { result ≡ varints_of bytes.now }
        // The bytes are these varints one after another, and then the end or that fault,
        ensures spelled { AreVarints bytes.now result }
        // and no others.
        ensures only { (other : Reading ℕ WireFault) → AreVarints bytes.now other → other ≡ result }
    {
        Varints { rest: bytes }
    }

    /// The next varint, or `None` at the end. After the end the end is answered again, and after a
    /// fault (`Truncated` or `VarintTooLong`) the same fault. Takes no memory.
    #[inline(always)]
    pub fn next_varint(&mut self) -> Result<Option<u64>, WireFault>
        ensures { Next (λ n. n) self.old result self.new }
    {
        if self.rest.is_empty() {
            return Ok(None);
        }
        let (value, rest) = varint_of(self.rest)?;
        self.rest = rest;
        Ok(Some(value))
    }
}
