//! Names between backticks.

ghost use Rattle.std.specs.Prelude.{◌≡◌, ◌++◌, OnOk};
ghost use Rattle.std.specs.List.{flat_map};
ghost use Rattle.vdiff_sql.specs.Literals.{name_byte, quoted_name};

use std::alloc::AllocError;

/// Adds a name between backticks, each backtick in it twice. An error is want of memory.
pub(crate) fn push_name(text: &mut Vec<u8>, name: &str) -> Result<(), AllocError>
    ensures { OnOk result (text.new.items ≡ text.old.items ++ quoted_name name.now) }
{
    text.push(b'`')?;
    push_name_bytes(text, name.as_bytes())?;
    text.push(b'`')?;
    Ok(())
}

/// Adds the bytes of a name, each backtick twice.
fn push_name_bytes(text: &mut Vec<u8>, bytes: &[u8]) -> Result<(), AllocError>
    ensures { OnOk result (text.new.items ≡ text.old.items ++ flat_map name_byte bytes.now) }
{
    for byte in bytes {
        push_name_byte(text, *byte)?;
    }
    Ok(())
}

/// Adds a byte of a name, a backtick twice.
fn push_name_byte(text: &mut Vec<u8>, byte: u8) -> Result<(), AllocError>
    ensures { OnOk result (text.new.items ≡ text.old.items ++ name_byte byte) }
{
    if byte == b'`' {
        text.push(byte)?;
    }
    text.push(byte)?;
    Ok(())
}
