//! A compacted feed before it is written.

ghost use Rattle.std.specs.Prelude.{◌≡◌, ◌<◌, ◌≤◌, ◌++◌, ◌^◌, IfOk, IfErr, length};
ghost use Rattle.printing.specs.Printing.{Prints};
ghost use Rattle.compaction.specs.Private.Limits.{IsOverBy};
ghost use Rattle.compaction.specs.Private.Sized.{joined};

use crate::fault::WriteFault;
use crate::portion::{Portion, put_portions, size_of_portions};
use json_pieces::Line;
use printing::{Out, OutFailed};
use proto_wire::size_of_both;
use source_feed::FEED_BYTES;
use std::marker::Model;

/// A compacted feed, which is written piece by piece: its rows and what stands behind its base are lent from the old feed's
/// bytes, and no piece is made before it is written. Seen in contracts as its bytes, fewer than 2^31.
#[derive(Drop)]
pub struct CompactedFeed<'h> {
    /// the message before the rows
    head: Vec<u8>,
    /// the messages of rows
    portions: Vec<Portion<'h>>,
    /// the message behind them, and the other events of the one that the old feed was cut in
    tail: Vec<u8>,
    /// what stands behind that message
    rest: &'h [u8],
    size: usize,
}

impl<'h> Model for CompactedFeed<'h> {
    ghost use Rattle.std.specs.Prelude.{◌≡◌, ℕ, List, ◌++◌};
    ghost use Rattle.std.specs.Prelude.{length as long};
    ghost use Rattle.compaction.specs.Private.Sized.{joined};

    ghost Value = { List ℕ };

    ghost view = { λ f. f.head.items ++ (joined f.portions.items ++ (f.tail.items ++ f.rest.now)) };

    ghost invariant = { λ f. f.size ≡ long (f.head.items ++ (joined f.portions.items ++ (f.tail.items ++ f.rest.now))) };
}

impl<'h> CompactedFeed<'h> {
    /// The feed of these pieces, unless it would be too long. Any other error is want of memory.
    pub(crate) fn new(
        head: Vec<u8>,
        portions: Vec<Portion<'h>>,
        tail: Vec<u8>,
        rest: &'h [u8],
    ) -> Result<CompactedFeed<'h>, WriteFault>
        ensures pieces { IfOk result (λ feed. feed ≡ head.items ++ (joined portions.entry.items ++ (tail.items ++ rest.entry.now))) }
        ensures short { IfOk result (λ feed. length feed < 2 ^ 31) }
        ensures long { IfErr result (IsOverBy (2 ^ 31 ≤ length (head.items ++ (joined portions.entry.items ++ (tail.items ++ rest.entry.now))))) }
    {
        let middle = size_of_portions(&portions)?;
        let behind = size_of_both(tail.len(), rest.len())?;
        let size = size_of_both(head.len(), size_of_both(middle, behind)?)?;
        if size > FEED_BYTES {
            return Err(WriteFault::TooLong);
        }
        Ok(CompactedFeed {
            head,
            portions,
            tail,
            rest,
            size,
        })
    }

    /// How many bytes it has.
    pub fn size(&self) -> usize
        ensures { result ≡ length self.now }
    {
        self.size
    }

    /// Writes it. Takes no memory. After a fault, which comes only of a write that failed, what was written is a beginning
    /// of it.
    pub fn write<O: Out>(&self, out: &mut O) -> Result<(), OutFailed>
        ensures { Prints result (O.written out.old) (O.written out.new) self.now }
    {
        let mut line = Line::new();
        line.put(out, &self.head);
        put_portions(out, &mut line, &self.portions);
        line.put(out, &self.tail);
        line.put(out, self.rest);
        line.finish(out)
    }
}
