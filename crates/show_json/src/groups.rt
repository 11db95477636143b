//! Groups as lines of JSON.

ghost use Rattle.std.specs.Prelude.{◌≡◌};
ghost use Rattle.serde_json.specs.Written.{compact_text};
ghost use Rattle.printing.specs.Printing.{Prints};
ghost use Rattle.json_pieces.specs.Pieces.{list_data, pieces_text};
ghost use Rattle.json_pieces.specs.Telling.{Tells, at};
ghost use Rattle.show_json.specs.Private.Kept.{columns_in};
ghost use Rattle.show_json.specs.Private.Parts.{group_end};
ghost use Rattle.show_json.specs.Text.{change_data, group_data, json_line, json_text_of};

use crate::columns::FeedColumns;
use crate::rows::put_side;
use json_pieces::{Line, Piece, put_comma_if, put_pieces};
use printing::{Out, OutFailed};
use source_feed::{Change, Group, GroupChanges, Groups};

/// Puts a change.
fn put_change<O: Out>(
    out: &mut O,
    line: &mut Line,
    tables: &FeedColumns<'_>,
    change: &Change<'_, '_>,
)
    ensures { Tells (at (O.written out.old) line.old) (at (O.written out.new) line.new) (compact_text (change_data (columns_in tables.now) change.now)) }
{
    let table = change.table();
    line.put(out, b"{\"after\":");
    put_side(out, line, tables.columns(table), change.after_bytes());
    line.put(out, b",\"before\":");
    put_side(out, line, tables.columns(table), change.before_bytes());
    put_pieces(
        out,
        line,
        &[
            Piece::Text(",\"table\":"),
            Piece::Name(table),
            Piece::Text("}"),
        ],
    );
}

/// Puts changes.
fn put_changes<O: Out>(
    out: &mut O,
    line: &mut Line,
    tables: &FeedColumns<'_>,
    changes: GroupChanges<'_, '_>,
)
    ensures { Tells (at (O.written out.old) line.old) (at (O.written out.new) line.new) (compact_text (list_data (change_data (columns_in tables.now)) changes.entry)) }
{
    line.put(out, b"[");
    let mut later = false;
    for change in changes {
        put_comma_if(out, line, later);
        put_change(out, line, tables, &change);
        later = true;
    }
    line.put(out, b"]");
}

/// What stands behind the changes of a group.
fn end_pieces<'p>(group: &'p Group<'_, '_>) -> [Piece<'p>; 5]
    ensures { pieces_text result ≡ group_end group.entry.now }
{
    [
        Piece::Text(",\"group\":"),
        Piece::Number(u64::from(group.number())),
        Piece::Text(",\"position\":"),
        Piece::Position(group.position()),
        Piece::Text("}\n"),
    ]
}

/// Puts the line of a group.
fn put_group<O: Out>(out: &mut O, line: &mut Line, tables: &FeedColumns<'_>, group: &Group<'_, '_>)
    ensures { Tells (at (O.written out.old) line.old) (at (O.written out.new) line.new) (json_line (group_data (columns_in tables.now) group.now)) }
{
    line.put(out, b"{\"changes\":");
    put_changes(out, line, tables, group.changes());
    put_pieces(out, line, &end_pieces(group));
}

/// Puts the lines of groups.
fn put_groups<O: Out>(out: &mut O, line: &mut Line, tables: &FeedColumns<'_>, groups: &Groups<'_>)
    ensures { Tells (at (O.written out.old) line.old) (at (O.written out.new) line.new) (json_text_of (columns_in tables.now) groups.now.items) }
{
    for group in groups.iter() {
        put_group(out, line, tables, &group);
    }
}

/// Prints groups, each as an object of JSON on a line of its own, without spaces: its changes, each with the row after, the
/// row before and its table; its number; its position. A row is an object of its values in order, each by the name that
/// `tables` has for its column, or by its number. Takes no memory. After a fault what was written is a beginning of it.
pub fn print_groups_json<O: Out>(
    out: &mut O,
    tables: &FeedColumns<'_>,
    groups: &Groups<'_>,
) -> Result<(), OutFailed>
    ensures { Prints result (O.written out.old) (O.written out.new) (json_text_of (columns_in tables.now) groups.now.items) }
{
    let mut line = Line::new();
    put_groups(out, &mut line, tables, groups);
    line.finish(out)
}
