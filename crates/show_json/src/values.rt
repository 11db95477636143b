//! Values of columns as JSON.

ghost use Rattle.std.specs.Prelude.{◌≡◌, ◌∷◌, ◌<◌, [], true, slice_index};
ghost use Rattle.std.specs.List.{list_all};
ghost use Rattle.hex.specs.Hex.{encode_lower, lower_digits};
ghost use Rattle.json.specs.Print.{escape, quoted};
ghost use Rattle.row_view.specs.ColumnValue.{column_value};
ghost use Rattle.serde_json.specs.Written.{compact_text};
ghost use Rattle.json_pieces.specs.Telling.{Tells, at};
ghost use Rattle.show_json.specs.Values.{bytes_data, cell_data, is_text_byte, value_data};

use json_pieces::{Line, Piece, put_pieces};
use printing::Out;
use row_view::Column;
use std::str::from_utf8;

/// The digits in lower case.
const DIGITS: [u8; 16] = *b"0123456789abcdef";

/// Whether a byte is no control character of ASCII but a tab, a line feed or a carriage return.
fn is_text_byte(byte: u8) -> bool
    ensures { result ≡ is_text_byte byte }
{
    (byte >= 32 && byte != 127) || byte == 9 || byte == 10 || byte == 13
}

/// Whether each byte is one of a text.
fn are_text_bytes(bytes: &[u8]) -> bool
    ensures { result ≡ list_all is_text_byte bytes.now }
{
    bytes.iter().all(|byte| is_text_byte(*byte))
}

/// A hexadecimal digit.
fn digit(value: u8) -> u8
    requires { value < 16 }
    ensures { result ≡ slice_index lower_digits value }
{
    DIGITS[usize::from(value)]
}

/// Puts a hexadecimal digit.
fn put_digit<O: Out>(out: &mut O, line: &mut Line, value: u8)
    requires { value < 16 }
    ensures { Tells (at (O.written out.old) line.old) (at (O.written out.new) line.new) (escape (slice_index lower_digits value ∷ [])) }
{
    line.put(out, &[digit(value)]);
}

/// Puts a byte in lower case hexadecimal.
fn put_pair<O: Out>(out: &mut O, line: &mut Line, byte: u8)
    ensures { Tells (at (O.written out.old) line.old) (at (O.written out.new) line.new) (escape (encode_lower (byte ∷ []))) }
{
    put_digit(out, line, byte / 16);
    put_digit(out, line, byte % 16);
}

/// Puts bytes in lower case hexadecimal.
fn put_hex<O: Out>(out: &mut O, line: &mut Line, bytes: &[u8])
    ensures { Tells (at (O.written out.old) line.old) (at (O.written out.new) line.new) (escape (encode_lower bytes.now)) }
{
    for byte in bytes {
        put_pair(out, line, *byte);
    }
}

/// Puts bytes as a cell of a dump.
fn put_cell<O: Out>(out: &mut O, line: &mut Line, bytes: &[u8])
    ensures { Tells (at (O.written out.old) line.old) (at (O.written out.new) line.new) (compact_text (cell_data bytes.now)) }
{
    line.put(out, b"{\"bytes\":\"x");
    put_hex(out, line, bytes);
    line.put(out, b"\"}");
}

/// Puts a text as a string.
pub(crate) fn put_text<O: Out>(out: &mut O, line: &mut Line, text: &str)
    ensures { Tells (at (O.written out.old) line.old) (at (O.written out.new) line.new) (quoted text.now) }
{
    put_pieces(out, line, &[Piece::Name(text)]);
}

/// Puts a value without control characters, as the text that it is or as its bytes.
fn put_utf8<O: Out>(out: &mut O, line: &mut Line, bytes: &[u8])
    requires { list_all is_text_byte bytes.now ≡ true }
    ensures { Tells (at (O.written out.old) line.old) (at (O.written out.new) line.new) (compact_text (bytes_data bytes.now)) }
{
    match from_utf8(bytes) {
        Ok(text) => put_text(out, line, text),
        Err(_) => put_cell(out, line, bytes),
    }
}

/// Puts a value.
fn put_bytes<O: Out>(out: &mut O, line: &mut Line, bytes: &[u8])
    ensures { Tells (at (O.written out.old) line.old) (at (O.written out.new) line.new) (compact_text (bytes_data bytes.now)) }
{
    if are_text_bytes(bytes) {
        put_utf8(out, line, bytes)
    } else {
        put_cell(out, line, bytes)
    }
}

/// Puts the value of a column.
pub(crate) fn put_value<O: Out>(out: &mut O, line: &mut Line, column: &Column<'_>)
    ensures { Tells (at (O.written out.old) line.old) (at (O.written out.new) line.new) (compact_text (value_data (column_value column.now))) }
{
    match column {
        Column::Null => line.put(out, b"null"),
        Column::Bytes(bytes) => put_bytes(out, line, bytes),
    }
}
