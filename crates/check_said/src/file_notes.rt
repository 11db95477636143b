//! What a workflow's file says, and what is told of it, as JSON.

ghost use Rattle.std.specs.Prelude.{◌≡◌};
ghost use Rattle.serde_json.specs.Written.{compact_text};
ghost use Rattle.json_pieces.specs.Pieces.{list_data, piece_text, pieces_text};
ghost use Rattle.json_pieces.specs.Telling.{Tells, at};
ghost use Rattle.check_said.specs.Json.{flaw_word, note_data, passed_data, table_or_null};

use json_pieces::{Line, Piece, put_comma_if, put_pieces};
use printing::Out;
use workflow_check::{Flaw, Note, Passed};

/// The word for why a note is told.
pub(crate) fn flaw_word(flaw: Flaw) -> &'static str
    ensures { result.now ≡ flaw_word flaw }
{
    match flaw {
        Flaw::Ignored => "ignored",
        Flaw::Unmatched => "unmatched",
        Flaw::Undecided => "undecided",
        Flaw::Untiled => "untiled",
    }
}

/// The name of a table, null where there is none.
pub(crate) fn table_piece(name: &str) -> Piece<'_>
    ensures { piece_text result ≡ compact_text (table_or_null name.entry.now) }
{
    if name.is_empty() {
        Piece::Text("null")
    } else {
        Piece::Name(name)
    }
}

/// A note: the path, the table, and why it is told.
#[tactic(auto, unfolding(json::specs::Print::escape_byte))]
fn note_pieces(note: &Note) -> [Piece<'_>; 7]
    ensures { pieces_text result ≡ compact_text (note_data note.entry.now) }
{
    [
        Piece::Text("{\"path\":"),
        Piece::Name(note.place()),
        Piece::Text(",\"table\":"),
        table_piece(note.table()),
        Piece::Text(",\"why\":"),
        Piece::Name(flaw_word(note.flaw())),
        Piece::Text("}"),
    ]
}

/// Puts a note.
fn put_note<O: Out>(out: &mut O, line: &mut Line, note: &Note)
    ensures { Tells (at (O.written out.old) line.old) (at (O.written out.new) line.new) (compact_text (note_data note.now)) }
{
    put_pieces(out, line, &note_pieces(note));
}

/// Puts notes.
pub(crate) fn put_notes<O: Out>(out: &mut O, line: &mut Line, notes: &[Note])
    ensures { Tells (at (O.written out.old) line.old) (at (O.written out.new) line.new) (compact_text (list_data note_data notes.now)) }
{
    line.put(out, b"[");
    let mut later = false;
    for note in notes {
        put_comma_if(out, line, later);
        put_note(out, line, note);
        later = true;
    }
    line.put(out, b"]");
}

/// The rows of a table that a stream passes.
#[tactic(auto, unfolding(json::specs::Print::escape_byte))]
fn rule_pieces(passed: &Passed) -> [Piece<'_>; 7]
    ensures { pieces_text result ≡ compact_text (passed_data passed.entry.now) }
{
    [
        Piece::Text("{\"rows\":"),
        Piece::Name(passed.rows()),
        Piece::Text(",\"stream\":"),
        Piece::Number(passed.stream() as u64),
        Piece::Text(",\"table\":"),
        Piece::Name(passed.table()),
        Piece::Text("}"),
    ]
}

/// Puts the rows of a table that a stream passes.
fn put_rule<O: Out>(out: &mut O, line: &mut Line, passed: &Passed)
    ensures { Tells (at (O.written out.old) line.old) (at (O.written out.new) line.new) (compact_text (passed_data passed.now)) }
{
    put_pieces(out, line, &rule_pieces(passed));
}

/// Puts the rows of tables that streams pass.
pub(crate) fn put_rules<O: Out>(out: &mut O, line: &mut Line, rules: &[Passed])
    ensures { Tells (at (O.written out.old) line.old) (at (O.written out.new) line.new) (compact_text (list_data passed_data rules.now)) }
{
    line.put(out, b"[");
    let mut later = false;
    for rule in rules {
        put_comma_if(out, line, later);
        put_rule(out, line, rule);
        later = true;
    }
    line.put(out, b"]");
}
