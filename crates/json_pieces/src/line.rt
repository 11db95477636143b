//! A line that is told to a writer.

ghost use Rattle.std.specs.Prelude.{◌≡◌, List, ℕ};
ghost use Rattle.printing.specs.Printing.{Prints, Written};
ghost use Rattle.json_pieces.specs.Telling.{LineValue, Tells, at, fresh};

use printing::{Gathered, Out, OutFailed};
use std::marker::Model;

/// A line that is told to a writer piece by piece. Small pieces wait and are written together; behind a write that failed
/// nothing more is written. So each piece is simply put, and `finish` says at the end how it went. Seen in contracts as
/// the bytes that wait, and whether a write failed.
#[derive(Drop)]
pub struct Line {
    text: Gathered,
    failed: bool,
}

impl Model for Line {
    ghost use Rattle.json_pieces.specs.Telling.{LineValue};

    ghost Value = { LineValue };

    ghost view = { λ l. record { waits = l.text; failed = l.failed } };
}

/// Puts a piece, unless a write failed before; answers whether one did, then or now.
fn put_unless<O: Out>(failed: bool, text: &mut Gathered, out: &mut O, piece: &[u8]) -> bool
    ensures { Tells (at (O.written out.old) (record { waits = text.old; failed = failed })) (at (O.written out.new) (record { waits = text.new; failed = result })) piece.now }
{
    if failed {
        return true;
    }
    text.put(out, piece).is_err()
}

/// Writes what waits, unless a write failed before.
fn finish_unless<O: Out>(failed: bool, text: Gathered, out: &mut O) -> Result<(), OutFailed>
    ensures { (begun : Written) (told : List ℕ) → Tells (at begun fresh) (at (O.written out.old) (record { waits = text; failed = failed })) told → Prints result begun (O.written out.new) told }
{
    if failed {
        return Err(OutFailed);
    }
    let mut text = text;
    text.finish(out)
}

impl Line {
    /// Nothing is told.
    pub fn new() -> Line
        ensures { result ≡ fresh }
    {
        Line {
            text: Gathered::new(),
            failed: false,
        }
    }

    /// Puts a piece behind what was told. Takes no memory.
    pub fn put<O: Out>(&mut self, out: &mut O, piece: &[u8])
        ensures { Tells (at (O.written out.old) self.old) (at (O.written out.new) self.new) piece.now }
    {
        self.failed = put_unless(self.failed, &mut self.text, out, piece);
    }

    /// Writes what waits. Fails where a write failed, then or before: what was written is then a beginning of what was
    /// told, and else the whole of it.
    pub fn finish<O: Out>(self, out: &mut O) -> Result<(), OutFailed>
        ensures { (begun : Written) (told : List ℕ) → Tells (at begun fresh) (at (O.written out.old) self) told → Prints result begun (O.written out.new) told }
    {
        let Line { text, failed } = self;
        finish_unless(failed, text, out)
    }
}
