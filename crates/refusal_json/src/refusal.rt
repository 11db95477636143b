//! The line of a refusal.

ghost use Rattle.std.specs.Prelude.{◌≡◌, option_map};
ghost use Rattle.printing.specs.Printing.{Prints};
ghost use Rattle.serde_json.specs.Written.{compact_text};
ghost use Rattle.json_pieces.specs.Pieces.{piece_text, pieces_text};
ghost use Rattle.json_pieces.specs.Telling.{Tells, at};
ghost use Rattle.refusal_json.specs.Details.{details_value};
ghost use Rattle.refusal_json.specs.Private.Parts.{place_part};
ghost use Rattle.refusal_json.specs.Refusal.{place_data, refusal_json};

use crate::details::{Details, put_details};
use crate::meaning::meaning_of;
use json_pieces::{Line, Piece, put_pieces};
use printing::{Out, OutFailed};

/// A place as a piece of JSON: null where none is told.
fn place_piece(place: Option<&str>) -> Piece<'_>
    ensures { piece_text result ≡ compact_text (place_data (option_map (λ place. place.now) place.entry)) }
{
    match place {
        None => Piece::Text("null"),
        Some(place) => Piece::Name(place),
    }
}

/// What stands behind the details.
fn place_pieces(number: u64, place: Option<&str>) -> [Piece<'_>; 7]
    ensures { pieces_text result ≡ place_part number (option_map (λ place. place.now) place.entry) }
{
    [
        Piece::Text(",\"place\":"),
        place_piece(place),
        Piece::Text(",\"refused\":"),
        Piece::Number(number),
        Piece::Text(",\"text\":"),
        Piece::Name(meaning_of(number)),
        Piece::Text("}\n"),
    ]
}

/// Puts the line of a refusal.
fn put_refusal<O: Out>(
    out: &mut O,
    line: &mut Line,
    number: u64,
    details: &Details<'_>,
    place: Option<&str>,
)
    ensures { Tells (at (O.written out.old) line.old) (at (O.written out.new) line.new) (refusal_json number (details_value details.now) (option_map (λ place. place.now) place.entry)) }
{
    line.put(out, b"{\"details\":");
    put_details(out, line, details);
    put_pieces(out, line, &place_pieces(number, place));
}

/// Prints a refusal as an object of JSON on a line of its own, without spaces: what stands behind the number in the other
/// form, where the fault stands, the number, and what it means. Takes no memory. After a fault what was written is a
/// beginning of it.
pub fn print_refusal<O: Out>(
    out: &mut O,
    number: u64,
    details: &Details<'_>,
    place: Option<&str>,
) -> Result<(), OutFailed>
    ensures { Prints result (O.written out.old) (O.written out.new) (refusal_json number (details_value details.now) (option_map (λ place. place.now) place.entry)) }
{
    let mut line = Line::new();
    put_refusal(out, &mut line, number, details, place);
    line.finish(out)
}
