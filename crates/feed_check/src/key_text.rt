//! Keys as text.

ghost use Rattle.std.specs.Prelude.{◌≡◌, ◌∷◌, ◌++◌, OnOk, IfOk, map};
ghost use Rattle.std.specs.String.{string_bytes};
ghost use Rattle.hex.specs.Hex.{encode_lower};
ghost use Rattle.pk_copy.specs.PartValue.{part_value};
ghost use Rattle.feed_check.specs.Report.{more_parts, part_cell, parts_text};

use itoa::Buffer;
use pk_copy::{KeyPart, LentKey};
use std::alloc::{AllocError, Global};

/// Bytes in lower case hexadecimal behind an `x`.
fn cell_text(alloc: Global, bytes: &[u8]) -> Result<String, AllocError>
    ensures { IfOk result (λ text. string_bytes text ≡ 120 ∷ encode_lower bytes.now) }
{
    let digits = hex::encode(alloc, bytes)?;
    format!(in alloc; "x{digits}")
}

/// A part of a key as a cell of a dump. An error is want of memory.
pub fn part_text(alloc: Global, part: &KeyPart<'_>) -> Result<String, AllocError>
    ensures { IfOk result (λ text. string_bytes text ≡ part_cell (part_value part.now)) }
{
    match part {
        KeyPart::Number(value) => {
            let mut buffer = Buffer::new();
            let digits = buffer.format(*value);
            cell_text(alloc, digits.as_bytes())
        }
        KeyPart::Bytes(bytes) => cell_text(alloc, bytes),
    }
}

/// Puts further parts behind a text, each behind a comma.
fn push_more(alloc: Global, parts: &[KeyPart<'_>], text: &mut String) -> Result<(), AllocError>
    ensures { OnOk result (string_bytes text.new ≡ string_bytes text.old ++ more_parts (map part_value parts.now)) }
{
    for part in parts {
        let cell = part_text(alloc, part)?;
        text.push_str(",")?;
        text.push_str(&cell)?;
    }
    Ok(())
}

/// The parts of a key as cells of a dump, parted by commas.
pub(crate) fn key_text(alloc: Global, key: &LentKey<'_>) -> Result<String, AllocError>
    ensures { IfOk result (λ text. string_bytes text ≡ parts_text key.now.parts) }
{
    let view = key.view();
    match view.parts() {
        [] => Ok(String::new(alloc)),
        [first, others @ ..] => {
            let mut text = part_text(alloc, first)?;
            push_more(alloc, others, &mut text)?;
            Ok(text)
        }
    }
}
