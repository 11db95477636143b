//! Values as literals of SQL.

ghost use Rattle.std.specs.Prelude.{◌≡◌, [], ◌∷◌, ◌++◌, OnOk};
ghost use Rattle.std.specs.List.{list_all};
ghost use Rattle.filter_rule.specs.TypeNumbers.{is_one_of};
ghost use Rattle.row_view.specs.ColumnValue.{column_value};
ghost use Rattle.vdiff_sql.specs.Literals.{are_digits, behind_minus, hex_literal, is_digit, is_plain, is_whole_text, json_literal, literal, plain_types, value_literal};

use filter_rule::is_whole_number;
use row_view::Column;
use std::alloc::{AllocError, Global};

/// The type number of JSON (`query.proto`, Type).
const JSON: u32 = 2078;

/// Adds a column's value by its type: NULL, a whole number by its digits, another number, a date or a time between
/// quotes, and any other value by its bytes. An error is want of memory.
pub(crate) fn push_literal(
    alloc: Global,
    text: &mut Vec<u8>,
    type_number: u32,
    column: &Column<'_>,
) -> Result<(), AllocError>
    ensures { OnOk result (text.new.items ≡ text.old.items ++ literal type_number (column_value column.now)) }
{
    match column {
        Column::Null => {
            text.extend_from_slice(b"NULL")?;
            Ok(())
        }
        Column::Bytes(value) => push_value(alloc, text, type_number, value),
    }
}

/// Adds a value by its column's type.
fn push_value(
    alloc: Global,
    text: &mut Vec<u8>,
    type_number: u32,
    value: &[u8],
) -> Result<(), AllocError>
    ensures { OnOk result (text.new.items ≡ text.old.items ++ value_literal type_number value.now) }
{
    if is_whole_number(type_number) && is_whole_text(value) {
        text.extend_from_slice(value)?;
        Ok(())
    } else if is_plain_type(type_number) && are_plain(value) {
        push_plain(text, value)
    } else if type_number == JSON {
        push_json(alloc, text, value)
    } else {
        push_hex(alloc, text, value)
    }
}

/// Adds a value between quotes as it is.
fn push_plain(text: &mut Vec<u8>, value: &[u8]) -> Result<(), AllocError>
    ensures { OnOk result (text.new.items ≡ text.old.items ++ 39 ∷ value.now ++ 39 ∷ []) }
{
    text.push(b'\'')?;
    text.extend_from_slice(value)?;
    text.push(b'\'')?;
    Ok(())
}

/// Adds a value of JSON.
fn push_json(alloc: Global, text: &mut Vec<u8>, value: &[u8]) -> Result<(), AllocError>
    ensures { OnOk result (text.new.items ≡ text.old.items ++ json_literal value.now) }
{
    text.extend_from_slice(b"CONVERT(")?;
    push_hex(alloc, text, value)?;
    text.extend_from_slice(b" USING utf8mb4)")?;
    Ok(())
}

/// Adds a value by its bytes in hexadecimal. An error is want of memory.
pub(crate) fn push_hex(alloc: Global, text: &mut Vec<u8>, value: &[u8]) -> Result<(), AllocError>
    ensures { OnOk result (text.new.items ≡ text.old.items ++ hex_literal value.now) }
{
    let digits = hex::encode(alloc, value)?;
    text.extend_from_slice(b"x'")?;
    text.extend_from_slice(digits.as_bytes())?;
    text.push(b'\'')?;
    Ok(())
}

/// Whether values of a type are numbers, dates or times, which travel as text of few characters.
fn is_plain_type(type_number: u32) -> bool
    ensures { result ≡ is_one_of plain_types type_number }
{
    matches!(
        type_number,
        18 | 785 | 1035 | 1036 | 2061 | 2062 | 2063 | 2064
    )
}

/// Whether each byte may stand in such a text.
fn are_plain(value: &[u8]) -> bool
    ensures { result ≡ list_all is_plain value.now }
{
    value.iter().all(|byte| is_plain(*byte))
}

/// Whether a byte is a digit, or one of ` +-.:Ee`.
fn is_plain(byte: u8) -> bool
    ensures { result ≡ is_plain byte }
{
    is_digit(byte) || matches!(byte, b' ' | b'+' | b'-' | b'.' | b':' | b'E' | b'e')
}

/// Whether a text is of digits, with a minus in front or without.
fn is_whole_text(text: &[u8]) -> bool
    ensures { result ≡ is_whole_text text.now }
{
    are_digits(behind_minus(text))
}

/// What stands behind a minus in front.
fn behind_minus(text: &[u8]) -> &[u8]
    ensures { result.now ≡ behind_minus text.now }
{
    match text.split_first() {
        Some((b'-', others)) => others,
        _ => text,
    }
}

/// Whether a text is of digits, one or more.
fn are_digits(text: &[u8]) -> bool
    ensures { result ≡ are_digits text.now }
{
    !text.is_empty() && are_all_digits(text)
}

/// Whether each byte of a text is a digit.
fn are_all_digits(text: &[u8]) -> bool
    ensures { result ≡ list_all is_digit text.now }
{
    text.iter().all(|byte| is_digit(*byte))
}

/// Whether a byte is a decimal digit.
fn is_digit(byte: u8) -> bool
    ensures { result ≡ is_digit byte }
{
    byte >= b'0' && byte <= b'9'
}
