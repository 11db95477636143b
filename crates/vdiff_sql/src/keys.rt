//! The row of a key alone.

ghost use Rattle.std.specs.Prelude.{◌≡◌, ◌++◌, true, OnOk, codes, map, option_copied};
ghost use Rattle.pk_copy.specs.PartValue.{part_value};
ghost use Rattle.vdiff_sql.specs.Columns.{listed};
ghost use Rattle.vdiff_sql.specs.Keys.{condition, conditions_from, part_literal, where_text};

use crate::columns::{key_column, push_name_of, push_parting};
use crate::literals::push_hex;
use filter_rule::{ColumnDef, Table};
use itoa::Buffer;
use pk_copy::{Key, KeyPart};
use std::alloc::{AllocError, Global};

/// Adds the condition that a row has a key, and the end of the statement. An error is want of memory.
pub(crate) fn push_where(
    alloc: Global,
    text: &mut Vec<u8>,
    table: &Table,
    key: &Key,
) -> Result<(), AllocError>
    ensures { OnOk result (text.new.items ≡ text.old.items ++ where_text table.now key.now) }
{
    text.extend_from_slice(b" WHERE ")?;
    let view = key.view();
    push_conditions(alloc, text, table, view.parts())?;
    text.extend_from_slice(b";\n")?;
    Ok(())
}

/// Adds the conditions of the parts of a key.
fn push_conditions(
    alloc: Global,
    text: &mut Vec<u8>,
    table: &Table,
    parts: &[KeyPart<'_>],
) -> Result<(), AllocError>
    ensures { OnOk result (text.new.items ≡ text.old.items ++ listed (codes " AND ") true (conditions_from table.now 0 (map part_value parts.now))) }
{
    for i in 0..parts.len() {
        push_parting(text, i == 0, b" AND ")?;
        push_condition(alloc, text, key_column(table, i), &parts[i])?;
    }
    Ok(())
}

/// Adds the condition that a column of a key has a value.
fn push_condition(
    alloc: Global,
    text: &mut Vec<u8>,
    column: Option<&ColumnDef>,
    part: &KeyPart<'_>,
) -> Result<(), AllocError>
    ensures { OnOk result (text.new.items ≡ text.old.items ++ condition (option_copied column.entry) (part_value part.now)) }
{
    push_name_of(text, column)?;
    text.extend_from_slice(b" = ")?;
    push_part(alloc, text, part)
}

/// Adds a part of a key, a number by its digits.
fn push_part(alloc: Global, text: &mut Vec<u8>, part: &KeyPart<'_>) -> Result<(), AllocError>
    ensures { OnOk result (text.new.items ≡ text.old.items ++ part_literal (part_value part.now)) }
{
    match part {
        KeyPart::Number(value) => {
            let mut buffer = Buffer::new();
            let digits = buffer.format(*value);
            text.extend_from_slice(digits.as_bytes())?;
            Ok(())
        }
        KeyPart::Bytes(bytes) => push_hex(alloc, text, bytes),
    }
}
