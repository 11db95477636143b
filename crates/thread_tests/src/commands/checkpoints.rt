//! The checkpoint of the board behind a script.

use crate::commands::feeds::{ONE_ROW, inputs_over};
use crate::commands::printed::is_told;
use printing::Writer;
use std::alloc::{AllocError, Global};
use std::io::Cursor;
use std::test::Fail;
use vrepl_main::save;

/// The checkpoint of the board that has copied and applied the group of one row.
pub const SAVED: &[u8] =
    b"VREPLCP2c\n\x03-80\x12\\\x08\x02\x12U\n\x07\n\x02id\x10\x89\x02\n\x06\n\x01v\x10\x950\x12\x07\n\x02id\x10\x89\x02\x1a.MySQL56/3e11fa47-71ca-11e1-9e33-c80aa9429562:1\"\x09\n\x02\x02\x04\x12\x031ab\x1a\x01t";

/// `save` prints its 108 bytes, the replies aren't among them, and on standard error just this.
fn is_saved(alloc: Global, script: &[u8], strict: bool, note: &[u8]) -> Result<bool, AllocError> {
    let inputs = inputs_over(alloc, ONE_ROW, script)?;
    let (mut out, mut err) = ([0u8; 128], [0u8; 64]);
    let mut bytes = Writer::new(Cursor::new(&mut out[..]));
    let mut line = Writer::new(Cursor::new(&mut err[..]));
    let status = save(alloc, &inputs, strict, &mut bytes, &mut line);
    is_told(status, &out, &err, SAVED, note)
}

const TAKEN: &[u8] = b"offer 0 1\nadvance 0\nopen 0 1\ncopy 0 1\nstate 0\ndump\n";

const REFUSED: &[u8] = b"offer 0 1\nadvance 0\nopen 0 1\ncopy 0 1\nadvance 0\nstate 1\n";

#[test]
fn checkpoint_of_one_row(rt: HostRuntime) -> Result<(), Fail> {
    assert!(rt; is_saved(rt.alloc(), TAKEN, true, b"")?);
    Ok(())
}

#[test]
fn count_of_refused_steps(rt: HostRuntime) -> Result<(), Fail> {
    assert!(rt; is_saved(rt.alloc(), REFUSED, false, b"2 of 6 steps were refused\n")?);
    Ok(())
}
