//! Pieces of JSON.

ghost use Rattle.std.specs.Prelude.{◌≡◌, decimal};
ghost use Rattle.json_pieces.specs.Pieces.{piece_text, pieces_text};
ghost use Rattle.json_pieces.specs.Telling.{Tells, at};

use crate::cell::put_parts;
use crate::escaped::{put_shown, put_string};
use crate::line::Line;
use crate::place::put_position;
use gtid_set::GtidSet;
use itoa::Buffer;
use pk_copy::KeyPart;
use printing::Out;

/// A piece of JSON, lent.
#[derive(Drop)]
pub enum Piece<'p> {
    /// Text that stands as it is, as brackets and the names of members.
    Text(&'p str),
    /// A string.
    Name(&'p str),
    /// A string: the first 200 bytes, each that isn't printable in ASCII as a question mark.
    Shown(&'p [u8]),
    /// A number.
    Number(u64),
    /// A string: a position.
    Position(&'p GtidSet),
    /// A list of strings: the parts of a key as cells of a dump.
    Parts(&'p [KeyPart<'p>]),
}

/// Puts a number in decimal digits.
fn put_number<O: Out>(out: &mut O, line: &mut Line, number: u64)
    ensures { Tells (at (O.written out.old) line.old) (at (O.written out.new) line.new) (decimal number) }
{
    let mut digits = Buffer::new();
    line.put(out, digits.format(number).as_bytes());
}

/// Puts a piece.
fn put_piece<O: Out>(out: &mut O, line: &mut Line, piece: &Piece<'_>)
    ensures { Tells (at (O.written out.old) line.old) (at (O.written out.new) line.new) (piece_text piece.now) }
{
    match piece {
        Piece::Text(text) => line.put(out, text.as_bytes()),
        Piece::Name(text) => put_string(out, line, text.as_bytes()),
        Piece::Shown(text) => put_shown(out, line, text),
        Piece::Number(number) => put_number(out, line, *number),
        Piece::Position(position) => put_position(out, line, position),
        Piece::Parts(parts) => put_parts(out, line, parts),
    }
}

/// Puts pieces one behind the other. Takes no memory.
pub fn put_pieces<O: Out>(out: &mut O, line: &mut Line, pieces: &[Piece<'_>])
    ensures { Tells (at (O.written out.old) line.old) (at (O.written out.new) line.new) (pieces_text pieces.now) }
{
    for piece in pieces {
        put_piece(out, line, piece);
    }
}
