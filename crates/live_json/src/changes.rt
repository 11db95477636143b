//! What changed in the rows of a target.

ghost use Rattle.std.specs.Prelude.{◌≡◌, map};
ghost use Rattle.std.specs.Option.{option_map};
ghost use Rattle.filter_rule.specs.PlanTable.{name_of_table};
ghost use Rattle.json_pieces.specs.Pieces.{list_data};
ghost use Rattle.json_pieces.specs.Telling.{Tells, at};
ghost use Rattle.printing.specs.Printing.{Prints};
ghost use Rattle.serde_json.specs.Written.{compact_text};
ghost use Rattle.target_tables.specs.Contents.{standing};
ghost use Rattle.live_json.specs.Answers.{all_changes, change_data, changes_at, changes_data, ok_line};
ghost use Rattle.live_json.specs.Private.Parts.{stream_value};

use crate::cells::{put_key, put_name, put_row_there, put_stream_there};
use crate::line::{begun, end};
use crate::streams::{StreamTold, put_streams};
use filter_rule::Table;
use json_pieces::{Line, put_comma_if};
use pk_copy::Key;
use printing::{Out, OutFailed};
use row_view::RowBuf;
use std::collections::BTreeSet;
use target_tables::Tables;

/// The name of a table by its number.
fn name_of_table(tables: &[Table], t: u8) -> &str
    ensures { result.now ≡ name_of_table tables.now t }
{
    match tables.get(usize::from(t)) {
        None => "",
        Some(table) => table.name(),
    }
}

/// Puts what stands at a key of a table.
fn put_change<O: Out>(
    out: &mut O,
    line: &mut Line,
    tables: &[Table],
    key: &Key,
    there: Option<(u8, &RowBuf)>,
)
    ensures { Tells (at (O.written out.old) line.old) (at (O.written out.new) line.new) (compact_text (change_data tables.now (key.now, option_map standing there.entry))) }
{
    line.put(out, b"{\"key\":");
    put_key(out, line, key);
    line.put(out, b",\"row\":");
    put_row_there(out, line, there);
    line.put(out, b",\"stream\":");
    put_stream_there(out, line, there);
    line.put(out, b",\"table\":");
    put_name(out, line, name_of_table(tables, key.table()));
    line.put(out, b"}");
}

/// Puts all rows as changes.
fn put_all<O: Out>(out: &mut O, line: &mut Line, tables: &[Table], rows: &Tables<Key, RowBuf>)
    ensures { Tells (at (O.written out.old) line.old) (at (O.written out.new) line.new) (compact_text (list_data (change_data tables.now) (all_changes rows.now.entries))) }
{
    line.put(out, b"[");
    let mut later = false;
    for (key, stream, row) in rows.iter() {
        put_comma_if(out, line, later);
        put_change(out, line, tables, key, Some((stream, row)));
        later = true;
    }
    line.put(out, b"]");
}

/// Puts what stands at these keys.
fn put_touched<O: Out>(
    out: &mut O,
    line: &mut Line,
    tables: &[Table],
    rows: &Tables<Key, RowBuf>,
    keys: &BTreeSet<Key>,
)
    ensures { Tells (at (O.written out.old) line.old) (at (O.written out.new) line.new) (compact_text (list_data (change_data tables.now) (changes_at rows.now.entries keys.now.keys))) }
{
    line.put(out, b"[");
    let mut later = false;
    for key in keys.iter() {
        put_comma_if(out, line, later);
        put_change(out, line, tables, key, rows.get(key));
        later = true;
    }
    line.put(out, b"]");
}

/// Puts what stands at these keys, and where the streams stand.
fn put_changes<O: Out>(
    out: &mut O,
    line: &mut Line,
    tables: &[Table],
    rows: &Tables<Key, RowBuf>,
    keys: &BTreeSet<Key>,
    streams: &[StreamTold<'_>],
)
    ensures { Tells (at (O.written out.old) line.old) (at (O.written out.new) line.new) (compact_text (changes_data tables.now (changes_at rows.now.entries keys.now.keys) (map stream_value streams.now))) }
{
    line.put(out, b"{\"changes\":");
    put_touched(out, line, tables, rows, keys);
    line.put(out, b",\"streams\":");
    put_streams(out, line, streams);
    line.put(out, b"}");
}

/// Prints what stands at these keys, by rising key: the row that is there and its stream, or null; and where the streams
/// stand. Takes no memory. After a fault what was written is a beginning of it.
pub fn print_changes<O: Out>(
    out: &mut O,
    tables: &[Table],
    rows: &Tables<Key, RowBuf>,
    keys: &BTreeSet<Key>,
    streams: &[StreamTold<'_>],
) -> Result<(), OutFailed>
    ensures { Prints result (O.written out.old) (O.written out.new) (ok_line (changes_data tables.now (changes_at rows.now.entries keys.now.keys) (map stream_value streams.now))) }
{
    let mut line = begun(out, b"{\"ok\":");
    put_changes(out, &mut line, tables, rows, keys, streams);
    end(out, line)
}

/// Puts all rows, and where the streams stand.
fn put_all_rows<O: Out>(
    out: &mut O,
    line: &mut Line,
    tables: &[Table],
    rows: &Tables<Key, RowBuf>,
    streams: &[StreamTold<'_>],
)
    ensures { Tells (at (O.written out.old) line.old) (at (O.written out.new) line.new) (compact_text (changes_data tables.now (all_changes rows.now.entries) (map stream_value streams.now))) }
{
    line.put(out, b"{\"changes\":");
    put_all(out, line, tables, rows);
    line.put(out, b",\"streams\":");
    put_streams(out, line, streams);
    line.put(out, b"}");
}

/// Prints all rows as changes, by rising key, and where the streams stand. Takes no memory. After a fault what was
/// written is a beginning of it.
pub fn print_all_rows<O: Out>(
    out: &mut O,
    tables: &[Table],
    rows: &Tables<Key, RowBuf>,
    streams: &[StreamTold<'_>],
) -> Result<(), OutFailed>
    ensures { Prints result (O.written out.old) (O.written out.new) (ok_line (changes_data tables.now (all_changes rows.now.entries) (map stream_value streams.now))) }
{
    let mut line = begun(out, b"{\"ok\":");
    put_all_rows(out, &mut line, tables, rows, streams);
    end(out, line)
}
