//! Strings of JSON.

ghost use Rattle.std.specs.Prelude.{◌≡◌, ◌<◌, map, take};
ghost use Rattle.std.specs.Char.{digit_char};
ghost use Rattle.json.specs.Print.{escape, escape_byte, escape_letter, quoted};
ghost use Rattle.shown_text.specs.Shown.{printable_byte, shown};
ghost use Rattle.json_pieces.specs.Telling.{Tells, at};

use crate::line::Line;
use printing::Out;

/// How many bytes of a text are shown.
const SHOWN: usize = 200;

/// The letter of a byte's short escape, 0 where it has none.
fn escape_letter(byte: u8) -> u8
    ensures { result ≡ escape_letter byte }
{
    if byte == b'"' || byte == b'\\' {
        byte
    } else if byte == 8 {
        b'b'
    } else if byte == 12 {
        b'f'
    } else if byte == 10 {
        b'n'
    } else if byte == 13 {
        b'r'
    } else if byte == 9 {
        b't'
    } else {
        0
    }
}

/// A hexadecimal digit in lower case.
fn digit(value: u8) -> u8
    requires { value < 16 }
    ensures { result ≡ digit_char value }
{
    if value < 10 {
        b'0' + value
    } else {
        b'a' - 10 + value
    }
}

/// Puts a byte of a string, by an escape where it has to be.
#[tactic(auto, unfolding(json::specs::Print::escape_byte))]
pub(crate) fn put_byte<O: Out>(out: &mut O, line: &mut Line, byte: u8)
    ensures { Tells (at (O.written out.old) line.old) (at (O.written out.new) line.new) (escape_byte byte) }
{
    let letter = escape_letter(byte);
    if letter > 0 {
        line.put(out, &[b'\\', letter]);
    } else if byte < 32 {
        let high = digit(byte / 16);
        let low = digit(byte % 16);
        line.put(out, &[b'\\', b'u', b'0', b'0', high, low]);
    } else {
        line.put(out, &[byte]);
    }
}

/// Puts bytes of a string.
pub(crate) fn put_escaped<O: Out>(out: &mut O, line: &mut Line, bytes: &[u8])
    ensures { Tells (at (O.written out.old) line.old) (at (O.written out.new) line.new) (escape bytes.now) }
{
    for byte in bytes {
        put_byte(out, line, *byte);
    }
}

/// Puts a string.
pub(crate) fn put_string<O: Out>(out: &mut O, line: &mut Line, bytes: &[u8])
    ensures { Tells (at (O.written out.old) line.old) (at (O.written out.new) line.new) (quoted bytes.now) }
{
    line.put(out, b"\"");
    put_escaped(out, line, bytes);
    line.put(out, b"\"");
}

/// A byte as it is printed for a person.
fn printable(byte: u8) -> u8
    ensures { result ≡ printable_byte byte }
{
    if byte >= 32 && byte <= 126 {
        byte
    } else {
        b'?'
    }
}

/// At most so many of the first bytes.
#[tactic(auto, using(list_laws::proofs::Fronts::front_within))]
fn front(bytes: &[u8], most: usize) -> &[u8]
    ensures { result.now ≡ take most bytes.now }
{
    &bytes[..bytes.len().min(most)]
}

/// Puts bytes of a string as they are shown.
fn put_printable<O: Out>(out: &mut O, line: &mut Line, bytes: &[u8])
    ensures { Tells (at (O.written out.old) line.old) (at (O.written out.new) line.new) (escape (map printable_byte bytes.now)) }
{
    for byte in bytes {
        put_byte(out, line, printable(*byte));
    }
}

/// Puts a text as a string, as it is shown.
#[tactic(auto, unfolding(shown_text::specs::Shown::shown))]
pub(crate) fn put_shown<O: Out>(out: &mut O, line: &mut Line, bytes: &[u8])
    ensures { Tells (at (O.written out.old) line.old) (at (O.written out.new) line.new) (quoted (shown bytes.now)) }
{
    line.put(out, b"\"");
    put_printable(out, line, front(bytes, SHOWN));
    line.put(out, b"\"");
}
