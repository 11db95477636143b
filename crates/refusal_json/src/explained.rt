//! What a number means, as JSON.

ghost use Rattle.std.specs.Prelude.{List, ℕ, ◌≡◌, ◌++◌};
ghost use Rattle.printing.specs.Printing.{Prints};
ghost use Rattle.json_pieces.specs.Pieces.{pieces_text};
ghost use Rattle.json_pieces.specs.Telling.{Tells, at};
ghost use Rattle.refusal_words.specs.Texts.{has_text};
ghost use Rattle.refusal_json.specs.Explained.{IsExplainedJson, IsNumberLine, explained_data, line_if, lines_below, listed_data, parts_value};
ghost use Rattle.refusal_json.specs.Refusal.{json_line};

use crate::meaning::meaning_of;
use crate::parts::{Parts, parts_of};
use json_pieces::{Line, Piece, put_pieces};
use printing::{Out, OutFailed};
use refusal_words::texts::{explained, has_text};

/// All numbers are below this one.
const NUMBERS: u64 = 256;

/// A number and what it means in a line.
#[tactic(auto, unfolding(json::specs::Print::escape_byte))]
fn listed_pieces(number: u64) -> [Piece<'static>; 5]
    ensures { pieces_text result ≡ json_line (listed_data number) }
{
    [
        Piece::Text("{\"refused\":"),
        Piece::Number(number),
        Piece::Text(",\"text\":"),
        Piece::Name(meaning_of(number)),
        Piece::Text("}\n"),
    ]
}

/// A number with the parts of its text.
fn explained_pieces<'t>(number: u64, parts: &Parts<'t>) -> [Piece<'t>; 11]
    ensures { pieces_text result ≡ json_line (explained_data number (parts_value parts.now)) }
{
    [
        Piece::Text("{\"causes\":"),
        Piece::Name(parts.causes),
        Piece::Text(",\"do\":"),
        Piece::Name(parts.todo.trim()),
        Piece::Text(",\"means\":"),
        Piece::Name(parts.means),
        Piece::Text(",\"refused\":"),
        Piece::Number(number),
        Piece::Text(",\"text\":"),
        Piece::Name(meaning_of(number)),
        Piece::Text("}\n"),
    ]
}

/// Puts the line of a number.
fn put_number<O: Out>(out: &mut O, line: &mut Line, number: u64)
    ensures { (text : List ℕ) × IsNumberLine number text × Tells (at (O.written out.old) line.old) (at (O.written out.new) line.new) text }
{
    match parts_of(explained(Some(number))) {
        Some(parts) => put_pieces(out, line, &explained_pieces(number, &parts)),
        None => put_pieces(out, line, &listed_pieces(number)),
    }
}

/// Puts the line of a number that has a text.
fn put_listed<O: Out>(out: &mut O, line: &mut Line, number: u64)
    ensures { Tells (at (O.written out.old) line.old) (at (O.written out.new) line.new) (line_if (has_text number) number) }
{
    if has_text(number) {
        put_pieces(out, line, &listed_pieces(number));
    }
}

/// Puts the lines of all numbers.
fn put_list<O: Out>(out: &mut O, line: &mut Line)
    ensures { Tells (at (O.written out.old) line.old) (at (O.written out.new) line.new) (lines_below NUMBERS) }
{
    for number in 0..NUMBERS {
        put_listed(out, line, number);
    }
}

/// Puts what is said of a number, or the lines of all.
fn put_explained<O: Out>(out: &mut O, line: &mut Line, number: Option<u64>)
    ensures { (text : List ℕ) × IsExplainedJson number text × Tells (at (O.written out.old) line.old) (at (O.written out.new) line.new) text }
{
    match number {
        None => put_list(out, line),
        Some(number) => put_number(out, line, number),
    }
}

/// Prints what is said of a refusal's number as an object of JSON on a line of its own: its usual causes, what to do, what
/// it means, the number, and its line in the list. Or where no number is given a line for each that there is, with the last
/// two. Takes no memory. After a fault what was written is a beginning of it.
pub fn print_explained<O: Out>(out: &mut O, number: Option<u64>) -> Result<(), OutFailed>
    ensures { (text : List ℕ) × IsExplainedJson number text × Prints result (O.written out.old) (O.written out.new) text }
{
    let mut line = Line::new();
    put_explained(out, &mut line, number);
    line.finish(out)
}
