//! Writers, as all printing sees them.

ghost use Rattle.std.specs.Prelude.{◌≡◌, MatchResult};
ghost use Rattle.printing.specs.Printing.{Written, IsTaken, IsFailed};

use std::io;
use std::io::Write;
use std::marker::Model;

/// A write failed, or took no byte of a piece that isn't empty.
#[derive(Clone, Copy, Debug, PartialEq, Eq)]
pub struct OutFailed;

/// A writer that counts its failed writes.
pub trait Out {
    // The bytes that it took, where they are known, and how many of its writes failed.
    ghost written: { Self → Written };

    /// Writes some bytes from the front of a piece, and answers how many: none only where the piece is
    /// empty. A write that fails takes none.
    fn write(&mut self, piece: &[u8]) -> Result<usize, OutFailed>
        ensures { MatchResult result
            (IsTaken (written self.old) (written self.new) piece.now)
            (λ _. IsFailed (written self.old) (written self.new)) };
}

/// Any `io::Write` as a writer. A write that was interrupted is made again, at most 2^64 times; one
/// that takes no byte of a piece that isn't empty has failed. Nothing is kept back: whoever gives a
/// writer that does flushes it.
#[derive(Drop)]
pub struct Writer<W: Write> {
    out: W,
    failures: u64,
}

impl<W: Write> Model for Writer<W> {
    ghost use Rattle.printing.specs.Printing.{Written};

    ghost Value = { Written };

    ghost view = { λ w. record { bytes = W.contents w.out; failures = w.failures } };
}

impl<W: Write> Writer<W> {
    /// A writer none of whose writes has failed yet.
    pub fn new(out: W) -> Writer<W>
        ensures { result ≡ record { bytes = W.contents out; failures = 0 } }
    {
        Writer { out, failures: 0 }
    }
}

impl<W: Write> Out for Writer<W> {
    ghost written = { λ w. w };

    fn write(&mut self, piece: &[u8]) -> Result<usize, OutFailed> {
        for _try in 0..u64::MAX {
            match self.out.write(piece) {
                Ok(0) if !piece.is_empty() => break,
                Ok(count) => return Ok(count),
                Err(fault) if fault.kind() != io::ErrorKind::Interrupted => break,
                Err(_) => {}
            }
        }
        self.failures = self.failures.wrapping_add(1);
        Err(OutFailed)
    }
}
