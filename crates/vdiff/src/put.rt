//! Words and numbers behind text that waits.

ghost use Rattle.std.specs.Prelude.{decimal};
ghost use Rattle.printing.specs.Printing.{Adds};

use itoa::Buffer;
use printing::{Gathered, Out, OutFailed};

/// Adds a text.
pub(crate) fn put_str<O: Out>(
    out: &mut O,
    text: &mut Gathered,
    piece: &str,
) -> Result<(), OutFailed>
    ensures { Adds result (O.written out.old) text.old (O.written out.new) text.new piece.now }
{
    text.put(out, piece.as_bytes())
}

/// Adds a number in decimal digits.
pub(crate) fn put_number<O: Out>(
    out: &mut O,
    text: &mut Gathered,
    number: usize,
) -> Result<(), OutFailed>
    ensures { Adds result (O.written out.old) text.old (O.written out.new) text.new (decimal number) }
{
    let mut digits = Buffer::new();
    put_str(out, text, digits.format(number))
}
