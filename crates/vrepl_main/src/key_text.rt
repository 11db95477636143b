//! Keys as text.

ghost use Rattle.std.specs.Prelude.{map};
ghost use Rattle.pk_copy.specs.PartValue.{part_value};
ghost use Rattle.dump.specs.KeyText.{part_cell, more_parts, key_text};
ghost use Rattle.vrepl_main.specs.Adding.{AddsText, at};

use crate::output::{print_cell, put_all};
use itoa::Buffer;
use pk_copy::{Key, KeyPart};
use printing::{Gathered, Out, OutFailed};
use row_view::Column;

/// Adds a key: its parts as cells, parted by commas, a number as its shortest decimal text. Takes no
/// memory.
pub(crate) fn print_key<W: Out>(
    out: &mut W,
    text: &mut Gathered,
    key: &Key,
) -> Result<(), OutFailed>
    ensures { AddsText result (at (W.written out.old) text.old) (at (W.written out.new) text.new) (key_text key.now) }
{
    let view = key.view();
    match view.parts() {
        [] => Ok(()),
        [first, others @ ..] => {
            print_part(out, text, first)?;
            print_more_parts(out, text, others)
        }
    }
}

/// Adds further parts, each behind a comma.
fn print_more_parts<W: Out>(
    out: &mut W,
    text: &mut Gathered,
    parts: &[KeyPart<'_>],
) -> Result<(), OutFailed>
    ensures { AddsText result (at (W.written out.old) text.old) (at (W.written out.new) text.new) (more_parts (map part_value parts.now)) }
{
    for part in parts {
        put_all(out, text, b",")?;
        print_part(out, text, part)?;
    }
    Ok(())
}

/// Adds a part of a key as a cell.
fn print_part<W: Out>(out: &mut W, text: &mut Gathered, part: &KeyPart<'_>) -> Result<(), OutFailed>
    ensures { AddsText result (at (W.written out.old) text.old) (at (W.written out.new) text.new) (part_cell (part_value part.now)) }
{
    match part {
        KeyPart::Number(value) => {
            let mut buffer = Buffer::new();
            let digits = buffer.format(*value);
            print_cell(out, text, &Column::Bytes(digits.as_bytes()))
        }
        KeyPart::Bytes(bytes) => print_cell(out, text, &Column::Bytes(bytes)),
    }
}
