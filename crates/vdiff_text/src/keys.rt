//! The line of a key.

ghost use Rattle.std.specs.Prelude.{◌≡◌, ◌++◌, true, OnOk, map};
ghost use Rattle.pk_copy.specs.PartValue.{part_value};
ghost use Rattle.vdiff_text.specs.ShownDifferences.{bar_before, head_line, shown_part, shown_parts};

use crate::values::push_value;
use filter_rule::Table;
use itoa::Buffer;
use pk_copy::{Key, KeyPart};
use shown_text::printable;
use std::alloc::{AllocError, Global};

/// Adds the first line of a difference: the table, the key, and what there is of it. An error is want of memory.
pub(crate) fn push_head(
    alloc: Global,
    text: &mut Vec<u8>,
    table: &Table,
    key: &Key,
    what: &[u8],
) -> Result<(), AllocError>
    ensures { OnOk result (text.new.items ≡ text.old.items ++ head_line table.now key.now what.now) }
{
    let name = printable(alloc, table.name().as_bytes())?;
    text.extend_from_slice(b"table ")?;
    text.extend_from_slice(name.as_bytes())?;
    text.extend_from_slice(b" key ")?;
    let view = key.view();
    push_parts(alloc, text, view.parts())?;
    text.extend_from_slice(what)?;
    Ok(())
}

/// Adds the parts of a key, parted by bars.
fn push_parts(alloc: Global, text: &mut Vec<u8>, parts: &[KeyPart<'_>]) -> Result<(), AllocError>
    ensures { OnOk result (text.new.items ≡ text.old.items ++ shown_parts true (map part_value parts.now)) }
{
    for i in 0..parts.len() {
        push_bar(text, i == 0)?;
        push_part(alloc, text, &parts[i])?;
    }
    Ok(())
}

/// Adds what stands before a part.
fn push_bar(text: &mut Vec<u8>, is_first: bool) -> Result<(), AllocError>
    ensures { OnOk result (text.new.items ≡ text.old.items ++ bar_before is_first) }
{
    if is_first {
        return Ok(());
    }
    text.extend_from_slice(b" | ")?;
    Ok(())
}

/// Adds a part of a key, a number by its digits.
fn push_part(alloc: Global, text: &mut Vec<u8>, part: &KeyPart<'_>) -> Result<(), AllocError>
    ensures { OnOk result (text.new.items ≡ text.old.items ++ shown_part (part_value part.now)) }
{
    match part {
        KeyPart::Number(value) => {
            let mut buffer = Buffer::new();
            let digits = buffer.format(*value);
            text.extend_from_slice(digits.as_bytes())?;
            Ok(())
        }
        KeyPart::Bytes(bytes) => push_value(alloc, text, bytes),
    }
}
