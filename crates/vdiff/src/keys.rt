//! Keys as text.

ghost use Rattle.std.specs.Prelude.{◌≡◌, map};
ghost use Rattle.filter_rule.specs.PlanTable.{name_of_table};
ghost use Rattle.pk_copy.specs.PartValue.{part_value};
ghost use Rattle.printing.specs.Printing.{Adds};
ghost use Rattle.dump.specs.KeyText.{part_cell, more_parts, key_text};
ghost use Rattle.vdiff.specs.Texts.{key_line};

use crate::put::put_str;
use dump::add_cell;
use filter_rule::Table;
use itoa::Buffer;
use pk_copy::{Key, KeyPart};
use printing::{Gathered, Out, OutFailed};
use row_view::Column;

/// Adds the line of a key: a word, the name of its table, ` key ` and the key. Takes no memory.
pub fn add_key_line<O: Out>(
    out: &mut O,
    text: &mut Gathered,
    tables: &[Table],
    word: &str,
    key: &Key,
) -> Result<(), OutFailed>
    ensures { Adds result (O.written out.old) text.old (O.written out.new) text.new (key_line tables.now word.now key.now) }
{
    put_str(out, text, word)?;
    put_str(out, text, name_of_table(tables, key.table()))?;
    put_str(out, text, " key ")?;
    add_key(out, text, key)?;
    put_str(out, text, "\n")
}

/// The name of a table by its number.
pub fn name_of_table(tables: &[Table], t: u8) -> &str
    ensures { result.now ≡ name_of_table tables.now t }
{
    match tables.get(usize::from(t)) {
        None => "",
        Some(table) => table.name(),
    }
}

/// Adds a key: its parts as cells, parted by commas, a number as its shortest decimal text. Takes no memory.
pub fn add_key<O: Out>(out: &mut O, text: &mut Gathered, key: &Key) -> Result<(), OutFailed>
    ensures { Adds result (O.written out.old) text.old (O.written out.new) text.new (key_text key.now) }
{
    let view = key.view();
    match view.parts() {
        [] => Ok(()),
        [first, others @ ..] => {
            add_part(out, text, first)?;
            add_more_parts(out, text, others)
        }
    }
}

/// Adds further parts, each behind a comma.
fn add_more_parts<O: Out>(
    out: &mut O,
    text: &mut Gathered,
    parts: &[KeyPart<'_>],
) -> Result<(), OutFailed>
    ensures { Adds result (O.written out.old) text.old (O.written out.new) text.new (more_parts (map part_value parts.now)) }
{
    for part in parts {
        put_str(out, text, ",")?;
        add_part(out, text, part)?;
    }
    Ok(())
}

/// Adds a part of a key as a cell.
fn add_part<O: Out>(out: &mut O, text: &mut Gathered, part: &KeyPart<'_>) -> Result<(), OutFailed>
    ensures { Adds result (O.written out.old) text.old (O.written out.new) text.new (part_cell (part_value part.now)) }
{
    match part {
        KeyPart::Number(value) => {
            let mut buffer = Buffer::new();
            let digits = buffer.format(*value);
            add_cell(out, text, &Column::Bytes(digits.as_bytes()))
        }
        KeyPart::Bytes(bytes) => add_cell(out, text, &Column::Bytes(bytes)),
    }
}
