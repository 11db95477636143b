//! Pieces that live as long as they are lent.

ghost use Rattle.std.specs.Prelude.{◌≡◌, take, IfErr, IfOk};

use crate::fault::GrownFault;
use std::alloc::{AllocError, Global};
use std::sync::Wait;

/// Pieces of bytes that stay where they are, so that what is made of them can borrow of each while further ones come.
#[derive(Drop)]
pub struct Pieces {
    kept: boxcar::Vec<Vec<u8>>,
}

impl Pieces {
    /// None. An error is want of memory.
    pub fn new(alloc: Global) -> Result<Pieces, AllocError> {
        let kept = boxcar::Vec::new(alloc)?;
        Ok(Pieces { kept })
    }

    /// Keeps the first `count` of these bytes, and gives up the others; lends them as long as the pieces are lent. They take
    /// at most twice their memory. May wait for another thread that keeps a piece.
    ///
    /// An error is want of memory: nothing is kept.
    pub fn keep<R: Wait>(&self, rt: &R, bytes: Vec<u8>, count: usize) -> Result<&[u8], GrownFault>
        ensures kept { IfOk result (λ kept. kept.now ≡ take count bytes.items) }
        ensures memory { IfErr result (λ fault. fault ≡ GrownFault.Memory) }
    {
        match self.kept.push_shown(rt, front_of(bytes, count)) {
            Ok(pushed) => Ok(self.kept.value(&pushed).as_slice()),
            Err(_) => Err(GrownFault::Memory),
        }
    }
}

/// The first `count` of these bytes, in at most twice their memory where a smaller piece of it is to be had.
fn front_of(mut bytes: Vec<u8>, count: usize) -> Vec<u8>
    ensures { result.items ≡ take count bytes.items }
{
    bytes.truncate(count);
    if bytes.len() < bytes.capacity() / 2 {
        bytes.shrink_to_fit();
    }
    bytes
}
