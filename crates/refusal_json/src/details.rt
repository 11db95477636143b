//! What stands behind the number in the line of a refusal.

ghost use Rattle.std.specs.Prelude.{◌≡◌, option_map};
ghost use Rattle.std.specs.Option.{option_copied};
ghost use Rattle.serde_json.specs.Data.{object};
ghost use Rattle.serde_json.specs.Written.{compact_text};
ghost use Rattle.json_pieces.specs.Pieces.{piece_text};
ghost use Rattle.json_pieces.specs.Telling.{Tells, at};
ghost use Rattle.refusal_json.specs.Details.{detail_value, details_members, details_value, told_data, told_value};
ghost use Rattle.refusal_json.specs.Private.Parts.{member_if, member_part};

use json_pieces::{Line, Piece, put_comma_if, put_pieces};
use printing::Out;

/// What a word tells.
#[derive(Clone, Copy)]
pub enum Told<'d> {
    /// A number.
    Number(u64),
    /// A text.
    Text(&'d str),
}

/// A word, and what it tells.
#[derive(Clone, Copy)]
pub struct Detail<'d> {
    /// The word.
    pub word: &'d str,
    /// What it tells.
    pub told: Told<'d>,
}

/// What stands behind the number: at most two words, each with what it tells.
#[derive(Clone, Copy)]
pub struct Details<'d> {
    /// The first of them.
    pub first: Option<Detail<'d>>,
    /// The one behind it.
    pub second: Option<Detail<'d>>,
}

/// What a word tells, as a piece of JSON.
fn told_piece<'d>(told: &Told<'d>) -> Piece<'d>
    ensures { piece_text result ≡ compact_text (told_data (told_value told.now)) }
{
    match told {
        Told::Number(number) => Piece::Number(*number),
        Told::Text(text) => Piece::Name(*text),
    }
}

/// Puts what a word tells by the word.
fn put_detail<O: Out>(out: &mut O, line: &mut Line, later: bool, detail: &Detail<'_>)
    ensures { Tells (at (O.written out.old) line.old) (at (O.written out.new) line.new) (member_part later (detail_value detail.now)) }
{
    put_comma_if(out, line, later);
    put_pieces(
        out,
        line,
        &[
            Piece::Name(detail.word),
            Piece::Text(":"),
            told_piece(&detail.told),
        ],
    );
}

/// The same where there is one.
fn put_detail_if<O: Out>(out: &mut O, line: &mut Line, later: bool, detail: Option<&Detail<'_>>)
    ensures { Tells (at (O.written out.old) line.old) (at (O.written out.new) line.new) (member_if later (option_map detail_value (option_copied detail.entry))) }
{
    if let Some(detail) = detail {
        put_detail(out, line, later, detail);
    }
}

/// Puts details as an object.
pub(crate) fn put_details<O: Out>(out: &mut O, line: &mut Line, details: &Details<'_>)
    ensures { Tells (at (O.written out.old) line.old) (at (O.written out.new) line.new) (compact_text (object (details_members (details_value details.now)))) }
{
    line.put(out, b"{");
    put_detail_if(out, line, false, details.first.as_ref());
    put_detail_if(out, line, details.first.is_some(), details.second.as_ref());
    line.put(out, b"}");
}
