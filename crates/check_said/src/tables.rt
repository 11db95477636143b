//! Tables of a stream, and names that no table has, as JSON.

ghost use Rattle.std.specs.Prelude.{◌≡◌, map};
ghost use Rattle.serde_json.specs.Written.{compact_text};
ghost use Rattle.json_pieces.specs.Pieces.{list_data, piece_text, pieces_text};
ghost use Rattle.json_pieces.specs.Telling.{Tells, at};
ghost use Rattle.check_said.specs.Json.{counts_data, name_data, nearest_data, tables_data};

use crate::checked_rows::CheckedRows;
use feed_check::behind_dot;
use filter_rule::Plan;
use json_pieces::{Line, Piece, put_comma_if, put_pieces};
use printing::Out;

/// A table of a stream: its counts and its name.
#[tactic(auto, unfolding(json::specs::Print::escape_byte))]
fn counts_pieces(name: &str, touching: usize, passing: usize, rows: usize) -> [Piece<'_>; 9]
    ensures { pieces_text result ≡ compact_text (counts_data name.entry.now touching passing rows) }
{
    [
        Piece::Text("{\"groups\":"),
        Piece::Number(touching as u64),
        Piece::Text(",\"passing\":"),
        Piece::Number(passing as u64),
        Piece::Text(",\"rows\":"),
        Piece::Number(rows as u64),
        Piece::Text(",\"table\":"),
        Piece::Name(name),
        Piece::Text("}"),
    ]
}

/// Puts a table of a stream.
fn put_table<O: Out>(
    out: &mut O,
    line: &mut Line,
    name: &str,
    touching: usize,
    passing: usize,
    rows: usize,
)
    ensures { Tells (at (O.written out.old) line.old) (at (O.written out.new) line.new) (compact_text (counts_data name.now touching passing rows)) }
{
    put_pieces(out, line, &counts_pieces(name, touching, passing, rows));
}

/// Puts the tables of a stream.
pub(crate) fn put_tables<O: Out>(out: &mut O, line: &mut Line, rows: &CheckedRows<'_, '_>)
    ensures { Tells (at (O.written out.old) line.old) (at (O.written out.new) line.new) (compact_text (tables_data rows.now)) }
{
    line.put(out, b"[");
    let check = rows.check();
    let tables = check.tables();
    let mut later = false;
    for t in 0..tables.len() {
        put_comma_if(out, line, later);
        put_table(
            out,
            line,
            tables[t].name(),
            check.touching(t),
            check.passing(t),
            rows.rows_of(t),
        );
        later = true;
    }
    line.put(out, b"]");
}

/// The nearest table of a name that no table has, null where there is none.
fn nearest_piece<'p>(plan: &Plan, name: &'p str) -> Piece<'p>
    ensures { piece_text result ≡ compact_text (nearest_data plan.now name.entry.now) }
{
    if plan.table(name).is_none() {
        Piece::Text("null")
    } else {
        Piece::Name(name)
    }
}

/// A name that no table has.
#[tactic(auto, unfolding(json::specs::Print::escape_byte))]
fn name_pieces<'p>(plan: &Plan, name: &'p str) -> [Piece<'p>; 5]
    ensures { pieces_text result ≡ compact_text (name_data plan.now name.entry.now) }
{
    [
        Piece::Text("{\"name\":"),
        Piece::Name(name),
        Piece::Text(",\"nearest\":"),
        nearest_piece(plan, behind_dot(name)),
        Piece::Text("}"),
    ]
}

/// Puts a name that no table has.
fn put_name<O: Out>(out: &mut O, line: &mut Line, plan: &Plan, name: &str)
    ensures { Tells (at (O.written out.old) line.old) (at (O.written out.new) line.new) (compact_text (name_data plan.now name.now)) }
{
    put_pieces(out, line, &name_pieces(plan, name));
}

/// Puts names that no table has.
pub(crate) fn put_names<O: Out>(out: &mut O, line: &mut Line, plan: &Plan, names: &[&str])
    ensures { Tells (at (O.written out.old) line.old) (at (O.written out.new) line.new) (compact_text (list_data (name_data plan.now) (map (λ name. name.now) names.now))) }
{
    line.put(out, b"[");
    let mut later = false;
    for name in names {
        put_comma_if(out, line, later);
        put_name(out, line, plan, name);
        later = true;
    }
    line.put(out, b"]");
}
