//! Keys and rows as lists of strings of JSON.

ghost use Rattle.std.specs.Prelude.{◌≡◌, ◌∷◌, ◌<◌, [], slice_index};
ghost use Rattle.hex.specs.Hex.{encode_lower, lower_digits};
ghost use Rattle.json.specs.Print.{escape, quoted};
ghost use Rattle.row_view.specs.ColumnValue.{column_value};
ghost use Rattle.serde_json.specs.Written.{compact_text};
ghost use Rattle.json_pieces.specs.Telling.{Tells, at};
ghost use Rattle.std.specs.Option.{option_copied, option_map};
ghost use Rattle.target_tables.specs.Contents.{standing};
ghost use Rattle.live_json.specs.Answers.{cell_data, count_data, key_data, or_null, row_data, row_there, stream_there};

use json_pieces::{Line, Piece, put_comma_if, put_pieces};
use pk_copy::Key;
use printing::Out;
use row_view::{Column, RowBuf};

/// The digits in lower case.
const DIGITS: [u8; 16] = *b"0123456789abcdef";

/// A hexadecimal digit.
fn digit(value: u8) -> u8
    requires { value < 16 }
    ensures { result ≡ slice_index lower_digits value }
{
    DIGITS[usize::from(value)]
}

/// Puts a hexadecimal digit.
fn put_digit<O: Out>(out: &mut O, line: &mut Line, value: u8)
    requires { value < 16 }
    ensures { Tells (at (O.written out.old) line.old) (at (O.written out.new) line.new) (escape (slice_index lower_digits value ∷ [])) }
{
    line.put(out, &[digit(value)]);
}

/// Puts a byte in lower case hexadecimal.
fn put_pair<O: Out>(out: &mut O, line: &mut Line, byte: u8)
    ensures { Tells (at (O.written out.old) line.old) (at (O.written out.new) line.new) (escape (encode_lower (byte ∷ []))) }
{
    put_digit(out, line, byte / 16);
    put_digit(out, line, byte % 16);
}

/// Puts bytes in lower case hexadecimal.
fn put_hex<O: Out>(out: &mut O, line: &mut Line, bytes: &[u8])
    ensures { Tells (at (O.written out.old) line.old) (at (O.written out.new) line.new) (escape (encode_lower bytes.now)) }
{
    for byte in bytes {
        put_pair(out, line, *byte);
    }
}

/// Puts a cell of a row.
fn put_cell<O: Out>(out: &mut O, line: &mut Line, column: &Column<'_>)
    ensures { Tells (at (O.written out.old) line.old) (at (O.written out.new) line.new) (compact_text (cell_data (column_value column.now))) }
{
    match column {
        Column::Null => line.put(out, b"\"N\""),
        Column::Bytes(bytes) => {
            line.put(out, b"\"x");
            put_hex(out, line, bytes);
            line.put(out, b"\"");
        }
    }
}

/// Puts a row.
pub(crate) fn put_row<O: Out>(out: &mut O, line: &mut Line, row: &RowBuf)
    ensures { Tells (at (O.written out.old) line.old) (at (O.written out.new) line.new) (compact_text (row_data row.now)) }
{
    line.put(out, b"[");
    let mut later = false;
    for column in row.columns() {
        put_comma_if(out, line, later);
        put_cell(out, line, &column);
        later = true;
    }
    line.put(out, b"]");
}

/// Puts a key.
pub(crate) fn put_key<O: Out>(out: &mut O, line: &mut Line, key: &Key)
    ensures { Tells (at (O.written out.old) line.old) (at (O.written out.new) line.new) (compact_text (key_data key.now)) }
{
    let view = key.view();
    put_pieces(out, line, &[Piece::Parts(view.parts())]);
}

/// Puts the row that stands at a key, or null.
pub(crate) fn put_row_there<O: Out>(out: &mut O, line: &mut Line, there: Option<(u8, &RowBuf)>)
    ensures { Tells (at (O.written out.old) line.old) (at (O.written out.new) line.new) (compact_text (row_there (option_map standing there.entry))) }
{
    if let Some((_, row)) = there {
        put_row(out, line, row);
    } else {
        line.put(out, b"null");
    }
}

/// Puts the stream whose row stands at a key, or null.
pub(crate) fn put_stream_there<O: Out>(out: &mut O, line: &mut Line, there: Option<(u8, &RowBuf)>)
    ensures { Tells (at (O.written out.old) line.old) (at (O.written out.new) line.new) (compact_text (stream_there (option_map standing there.entry))) }
{
    match there {
        None => line.put(out, b"null"),
        Some((stream, _)) => put_count(out, line, u64::from(stream)),
    }
}

/// Puts a number.
pub(crate) fn put_count<O: Out>(out: &mut O, line: &mut Line, count: u64)
    ensures { Tells (at (O.written out.old) line.old) (at (O.written out.new) line.new) (compact_text (count_data count)) }
{
    put_pieces(out, line, &[Piece::Number(count)]);
}

/// Puts a key, or null.
pub(crate) fn put_key_or_null<O: Out>(out: &mut O, line: &mut Line, key: Option<&Key>)
    ensures { Tells (at (O.written out.old) line.old) (at (O.written out.new) line.new) (compact_text (or_null key_data (option_copied key.entry))) }
{
    match key {
        None => line.put(out, b"null"),
        Some(key) => put_key(out, line, key),
    }
}

/// Puts a text as a string.
pub(crate) fn put_name<O: Out>(out: &mut O, line: &mut Line, name: &str)
    ensures { Tells (at (O.written out.old) line.old) (at (O.written out.new) line.new) (quoted name.now) }
{
    put_pieces(out, line, &[Piece::Name(name)]);
}
