//! Keys as lists of strings of JSON.

ghost use Rattle.std.specs.Prelude.{◌≡◌, [], ◌∷◌, map};
ghost use Rattle.hex.specs.Hex.{encode_lower};
ghost use Rattle.json.specs.Print.{escape, quoted};
ghost use Rattle.pk_copy.specs.PartValue.{part_value};
ghost use Rattle.serde_json.specs.Written.{comma_if, compact_text};
ghost use Rattle.json_pieces.specs.Pieces.{cell_of, list_data, part_data};
ghost use Rattle.json_pieces.specs.Telling.{Tells, at};

use crate::escaped::put_escaped;
use crate::line::Line;
use itoa::Buffer;
use pk_copy::KeyPart;
use printing::Out;

/// The digits in lower case.
const DIGITS: [u8; 16] = *b"0123456789abcdef";

/// Puts a byte in lower case hexadecimal.
#[tactic(auto, unfolding(hex::specs::Hex::encode_with))]
fn put_pair<O: Out>(out: &mut O, line: &mut Line, byte: u8)
    ensures { Tells (at (O.written out.old) line.old) (at (O.written out.new) line.new) (escape (encode_lower (byte ∷ []))) }
{
    let high = DIGITS[usize::from(byte / 16)];
    let low = DIGITS[usize::from(byte % 16)];
    put_escaped(out, line, &[high, low]);
}

/// Puts bytes in lower case hexadecimal.
fn put_hex<O: Out>(out: &mut O, line: &mut Line, bytes: &[u8])
    ensures { Tells (at (O.written out.old) line.old) (at (O.written out.new) line.new) (escape (encode_lower bytes.now)) }
{
    for byte in bytes {
        put_pair(out, line, *byte);
    }
}

/// Puts bytes as a cell.
fn put_cell<O: Out>(out: &mut O, line: &mut Line, bytes: &[u8])
    ensures { Tells (at (O.written out.old) line.old) (at (O.written out.new) line.new) (quoted (cell_of bytes.now)) }
{
    line.put(out, b"\"x");
    put_hex(out, line, bytes);
    line.put(out, b"\"");
}

/// Puts a part of a key as a cell.
fn put_part<O: Out>(out: &mut O, line: &mut Line, part: &KeyPart<'_>)
    ensures { Tells (at (O.written out.old) line.old) (at (O.written out.new) line.new) (compact_text (part_data (part_value part.now))) }
{
    match part {
        KeyPart::Number(value) => {
            let mut digits = Buffer::new();
            put_cell(out, line, digits.format(*value).as_bytes());
        }
        KeyPart::Bytes(bytes) => put_cell(out, line, bytes),
    }
}

/// Puts a comma, where something stands before.
pub fn put_comma_if<O: Out>(out: &mut O, line: &mut Line, later: bool)
    ensures { Tells (at (O.written out.old) line.old) (at (O.written out.new) line.new) (comma_if later) }
{
    if later {
        line.put(out, b",");
    }
}

/// Puts the parts of a key as a list.
pub(crate) fn put_parts<O: Out>(out: &mut O, line: &mut Line, parts: &[KeyPart<'_>])
    ensures { Tells (at (O.written out.old) line.old) (at (O.written out.new) line.new) (compact_text (list_data part_data (map part_value parts.now))) }
{
    line.put(out, b"[");
    let mut later = false;
    for part in parts {
        put_comma_if(out, line, later);
        put_part(out, line, part);
        later = true;
    }
    line.put(out, b"]");
}
