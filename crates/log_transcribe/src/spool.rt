//! What is written, kept in memory.

ghost use Rattle.std.specs.Prelude.{◌≡◌, [], Some};

use printing::{Out, OutFailed};
use std::alloc::Global;
use std::marker::Model;

/// A writer that keeps what is written. A write fails where a growth of memory was refused. Seen in contracts as these bytes,
/// and how many writes failed.
#[derive(Drop)]
pub struct Spool {
    bytes: Vec<u8>,
    failures: u64,
}

impl Model for Spool {
    ghost use Rattle.std.specs.Prelude.{Some};
    ghost use Rattle.printing.specs.Printing.{Written};

    ghost Value = { Written };

    ghost view = { λ s. record { bytes = Some s.bytes.items; failures = s.failures } };
}

impl Spool {
    /// Nothing was written.
    pub fn new(alloc: Global) -> Spool
        ensures { result ≡ record { bytes = Some []; failures = 0 } }
    {
        Spool {
            bytes: Vec::new(alloc),
            failures: 0,
        }
    }

    /// What was written.
    pub fn into_bytes(self) -> Vec<u8>
        ensures { self.bytes ≡ Some result.items }
    {
        let Spool { bytes, failures: _ } = self;
        bytes
    }
}

impl Out for Spool {
    ghost written = { λ s. s };

    fn write(&mut self, piece: &[u8]) -> Result<usize, OutFailed> {
        match self.bytes.extend_from_slice(piece) {
            Ok(()) => Ok(piece.len()),
            Err(_) => {
                self.failures = self.failures.wrapping_add(1);
                Err(OutFailed)
            }
        }
    }
}
