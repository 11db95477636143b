//! All that is told, as one list of JSON.

ghost use Rattle.std.specs.Prelude.{◌≡◌};
ghost use Rattle.std.specs.Option.{option_copied};
ghost use Rattle.serde_json.specs.Written.{compact_text};
ghost use Rattle.json_pieces.specs.Pieces.{piece_text, pieces_text};
ghost use Rattle.json_pieces.specs.Telling.{Tells, at};
ghost use Rattle.check_said.specs.Json.{class_word, item_data, note_class, note_item, position_or_null, told_data};

use crate::file_notes::{flaw_word, table_piece};
use crate::items::{Class, Item};
use gtid_set::GtidSet;
use json_pieces::{Line, Piece, put_comma_if, put_pieces};
use printing::Out;
use workflow_check::{Flaw, Note};

/// The word for a class.
fn class_word(class: Class) -> &'static str
    ensures { result.now ≡ class_word class }
{
    match class {
        Class::Fault => "fault",
        Class::Note => "note",
    }
}

/// The class of what is told of a file.
fn note_class(flaw: Flaw) -> Class
    ensures { result ≡ note_class flaw }
{
    if flaw.may_stand() {
        Class::Note
    } else {
        Class::Fault
    }
}

/// A position, null where none is said.
fn place_piece(position: Option<&GtidSet>) -> Piece<'_>
    ensures { piece_text result ≡ compact_text (position_or_null (option_copied position.entry)) }
{
    match position {
        None => Piece::Text("null"),
        Some(position) => Piece::Position(position),
    }
}

/// An item of a stream.
#[tactic(auto, unfolding(json::specs::Print::escape_byte))]
fn item_pieces<'p>(item: &'p Item<'_>) -> [Piece<'p>; 15]
    ensures { pieces_text result ≡ compact_text (item_data item.entry.now) }
{
    [
        Piece::Text("{\"class\":"),
        Piece::Name(class_word(item.class())),
        Piece::Text(",\"count\":"),
        Piece::Number(item.count() as u64),
        Piece::Text(",\"kind\":"),
        Piece::Name(item.kind()),
        Piece::Text(",\"path\":"),
        Piece::Text("null"),
        Piece::Text(",\"position\":"),
        place_piece(item.position()),
        Piece::Text(",\"stream\":"),
        Piece::Number(item.stream() as u64),
        Piece::Text(",\"table\":"),
        table_piece(item.table()),
        Piece::Text("}"),
    ]
}

/// Puts an item of a stream.
fn put_item<O: Out>(out: &mut O, line: &mut Line, item: &Item<'_>)
    ensures { Tells (at (O.written out.old) line.old) (at (O.written out.new) line.new) (compact_text (item_data item.now)) }
{
    put_pieces(out, line, &item_pieces(item));
}

/// An item of the file.
#[tactic(auto, unfolding(json::specs::Print::escape_byte))]
fn note_pieces(note: &Note) -> [Piece<'_>; 11]
    ensures { pieces_text result ≡ compact_text (note_item note.entry.now) }
{
    [
        Piece::Text("{\"class\":"),
        Piece::Name(class_word(note_class(note.flaw()))),
        Piece::Text(",\"count\":"),
        Piece::Number(1),
        Piece::Text(",\"kind\":"),
        Piece::Name(flaw_word(note.flaw())),
        Piece::Text(",\"path\":"),
        Piece::Name(note.place()),
        Piece::Text(",\"position\":null,\"stream\":null,\"table\":"),
        table_piece(note.table()),
        Piece::Text("}"),
    ]
}

/// Puts an item of the file.
fn put_note<O: Out>(out: &mut O, line: &mut Line, note: &Note)
    ensures { Tells (at (O.written out.old) line.old) (at (O.written out.new) line.new) (compact_text (note_item note.now)) }
{
    put_pieces(out, line, &note_pieces(note));
}

/// Puts the list: the items of the streams, and behind them those of the file.
pub(crate) fn put_told<O: Out>(out: &mut O, line: &mut Line, items: &[Item<'_>], notes: &[Note])
    ensures { Tells (at (O.written out.old) line.old) (at (O.written out.new) line.new) (compact_text (told_data items.now notes.now)) }
{
    line.put(out, b"[");
    let mut later = false;
    for item in items {
        put_comma_if(out, line, later);
        put_item(out, line, item);
        later = true;
    }
    for note in notes {
        put_comma_if(out, line, later);
        put_note(out, line, note);
        later = true;
    }
    line.put(out, b"]");
}
