//! Messages one after another, each behind its length.

ghost use Rattle.std.specs.Prelude.{◌≡◌, ℕ, List};
ghost use Rattle.proto_wire.specs.Reading.{Reading, Next};
ghost use Rattle.proto_wire.specs.Frame.{frames_of, AreFrames};
ghost use Rattle.proto_wire.specs.declared.fault.FrameFault.{FrameFault};

use crate::fault::FrameFault;
use crate::field::sized_of;
use std::marker::Model;

/// The messages of a buffer that are still to come, in the order of the bytes. Seen in contracts as
/// that list and the fault that ends it, if one does.
#[derive(Drop)]
pub struct Frames<'b> {
    rest: &'b [u8],
    /// how many bytes the whole buffer has
    total: usize,
}

impl<'b> Model for Frames<'b> {
    ghost use Rattle.std.specs.Prelude.{ℕ, List, length, ◌≤◌};
    ghost use Rattle.proto_wire.specs.Reading.{Reading, reading_of};
    ghost use Rattle.proto_wire.specs.Frame.{frame_at};
    ghost use Rattle.proto_wire.specs.declared.fault.FrameFault.{FrameFault};

    ghost Value = { Reading (List ℕ) FrameFault };

    ghost view = { λ a. reading_of (frame_at a.total) a.rest.now };

    ghost invariant = { λ a. length a.rest.now ≤ a.total };
}

impl<'b> Frames<'b> {
    /// The messages of the whole of `bytes`. Nothing is read yet, and no memory is taken.
    pub fn new(bytes: &'b [u8]) -> Frames<'b>
        ensures reading { result ≡ frames_of bytes.now }
        // The bytes are these messages one after another, and then the end or that fault,
        ensures spelled { AreFrames bytes.now result }
        // and no others.
        ensures only { (other : Reading (List ℕ) FrameFault) → AreFrames bytes.now other → other ≡ result }
    {
        Frames {
            rest: bytes,
            total: bytes.len(),
        }
    }

    /// The next message's bytes, or `None` at the end. After the end the end is answered again, and
    /// after a fault the same fault. Takes no memory.
    pub fn next_frame(&mut self) -> Result<Option<&'b [u8]>, FrameFault>
        ensures { Next (λ m. m.now) self.old result self.new }
    {
        if self.rest.is_empty() {
            return Ok(None);
        }
        match sized_of(self.rest) {
            Ok((message, rest)) => {
                self.rest = rest;
                Ok(Some(message))
            }
            Err(cause) => Err(FrameFault {
                place: self.total - self.rest.len(),
                cause,
            }),
        }
    }
}
