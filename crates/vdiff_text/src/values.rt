//! Values of columns as a person reads them.

ghost use Rattle.std.specs.Prelude.{◌≡◌, ◌++◌, OnOk, option_copied};
ghost use Rattle.std.specs.List.{list_all};
ghost use Rattle.row_view.specs.ColumnValue.{column_value};
ghost use Rattle.vdiff_text.specs.ShownValues.{has_space_at_end, is_byte, is_plain, is_plain_byte, looks_otherwise, shown_cell, shown_value};

use row_view::Column;
use std::alloc::{AllocError, Global};

/// Adds a column's value: NULL, or as `push_value`. An error is want of memory.
pub(crate) fn push_cell(
    alloc: Global,
    text: &mut Vec<u8>,
    column: &Column<'_>,
) -> Result<(), AllocError>
    ensures { OnOk result (text.new.items ≡ text.old.items ++ shown_cell (column_value column.now)) }
{
    match column {
        Column::Null => {
            text.extend_from_slice(b"NULL")?;
            Ok(())
        }
        Column::Bytes(value) => push_value(alloc, text, value),
    }
}

/// Adds a value: as it is where that can be read and looks as no other value does, else its bytes in hexadecimal. An error
/// is want of memory.
pub(crate) fn push_value(alloc: Global, text: &mut Vec<u8>, value: &[u8]) -> Result<(), AllocError>
    ensures { OnOk result (text.new.items ≡ text.old.items ++ shown_value value.now) }
{
    if is_plain(value) {
        text.extend_from_slice(value)?;
        return Ok(());
    }
    let digits = hex::encode(alloc, value)?;
    text.extend_from_slice(b"0x")?;
    text.extend_from_slice(digits.as_bytes())?;
    Ok(())
}

/// Whether a value is shown as it is.
fn is_plain(text: &[u8]) -> bool
    ensures { result ≡ is_plain text.now }
{
    !text.is_empty() && are_plain(text) && !has_space_at_end(text) && !looks_otherwise(text)
}

/// Whether each byte is printable, and none the bar.
fn are_plain(text: &[u8]) -> bool
    ensures { result ≡ list_all is_plain_byte text.now }
{
    text.iter().all(|byte| is_plain_byte(*byte))
}

/// Whether a byte is printable in ASCII, and not the bar.
fn is_plain_byte(byte: u8) -> bool
    ensures { result ≡ is_plain_byte byte }
{
    byte >= b' ' && byte <= b'~' && byte != b'|'
}

/// Whether a text begins or ends in a space.
fn has_space_at_end(text: &[u8]) -> bool
    ensures { result ≡ has_space_at_end text.now }
{
    is_byte(text.first(), b' ') || is_byte(text.last(), b' ')
}

/// Whether a text looks as NULL does, or as bytes in hexadecimal do.
fn looks_otherwise(text: &[u8]) -> bool
    ensures { result ≡ looks_otherwise text.now }
{
    text == b"NULL".as_slice() || (is_byte(text.first(), b'0') && is_byte(text.get(1), b'x'))
}

/// Whether a byte is there.
fn is_byte(there: Option<&u8>, byte: u8) -> bool
    ensures { result ≡ is_byte byte (option_copied there.entry) }
{
    match there {
        None => false,
        Some(there) => *there == byte,
    }
}
