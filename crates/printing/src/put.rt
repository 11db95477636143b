//! The one loop over `write`.

ghost use Rattle.printing.specs.Printing.{Prints};

use crate::writer::{Out, OutFailed};

/// Writes all the bytes: the one loop over `write`. After a fault, which comes only of a write that
/// failed in this call, what was written is a beginning of the bytes. Takes no memory.
pub fn put_all<O: Out>(out: &mut O, bytes: &[u8]) -> Result<(), OutFailed>
    ensures { Prints result (O.written out.old) (O.written out.new) bytes.now }
{
    let mut rest = bytes;
    while !rest.is_empty() {
        let count = out.write(rest)?;
        rest = &rest[count..];
    }
    Ok(())
}
