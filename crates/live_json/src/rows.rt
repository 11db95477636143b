//! Rows of a target.

ghost use Rattle.std.specs.Prelude.{◌≡◌, map};
ghost use Rattle.std.specs.Option.{option_copied, option_map};
ghost use Rattle.serde_json.specs.Written.{compact_text};
ghost use Rattle.target_tables.specs.Contents.{entry, standing};
ghost use Rattle.printing.specs.Printing.{Prints};
ghost use Rattle.json_pieces.specs.Pieces.{list_data};
ghost use Rattle.json_pieces.specs.Telling.{Tells, at};
ghost use Rattle.live_json.specs.Answers.{entry_data, ok_line, page_data, standing_data};

use crate::cells::{put_count, put_key, put_key_or_null, put_row, put_row_there, put_stream_there};
use crate::line::{begun, end};
use json_pieces::{Line, put_comma_if};
use pk_copy::Key;
use printing::{Out, OutFailed};
use row_view::RowBuf;

/// Puts an entry.
fn put_entry<O: Out>(out: &mut O, line: &mut Line, key: &Key, stream: u8, row: &RowBuf)
    ensures { Tells (at (O.written out.old) line.old) (at (O.written out.new) line.new) (compact_text (entry_data (key.now, (stream, row.now)))) }
{
    line.put(out, b"{\"key\":");
    put_key(out, line, key);
    line.put(out, b",\"row\":");
    put_row(out, line, row);
    line.put(out, b",\"stream\":");
    put_count(out, line, u64::from(stream));
    line.put(out, b"}");
}

/// Puts entries.
fn put_entries<O: Out>(out: &mut O, line: &mut Line, entries: &[(&Key, u8, &RowBuf)])
    ensures { Tells (at (O.written out.old) line.old) (at (O.written out.new) line.new) (compact_text (list_data entry_data (map entry entries.now))) }
{
    line.put(out, b"[");
    let mut later = false;
    for (key, stream, row) in entries {
        put_comma_if(out, line, later);
        put_entry(out, line, *key, *stream, *row);
        later = true;
    }
    line.put(out, b"]");
}

/// Puts rows, and the key behind them.
fn put_page<O: Out>(
    out: &mut O,
    line: &mut Line,
    entries: &[(&Key, u8, &RowBuf)],
    next: Option<&Key>,
)
    ensures { Tells (at (O.written out.old) line.old) (at (O.written out.new) line.new) (compact_text (page_data (record { rows = map entry entries.now; next = option_copied next.entry }))) }
{
    line.put(out, b"{\"next\":");
    put_key_or_null(out, line, next);
    line.put(out, b",\"rows\":");
    put_entries(out, line, entries);
    line.put(out, b"}");
}

/// Prints rows, and the key of the one behind them, if there is one. Takes no memory. After a fault what was written is
/// a beginning of it.
pub fn print_page<O: Out>(
    out: &mut O,
    entries: &[(&Key, u8, &RowBuf)],
    next: Option<&Key>,
) -> Result<(), OutFailed>
    ensures { Prints result (O.written out.old) (O.written out.new) (ok_line (page_data (record { rows = map entry entries.now; next = option_copied next.entry }))) }
{
    let mut line = begun(out, b"{\"ok\":");
    put_page(out, &mut line, entries, next);
    end(out, line)
}

/// Puts the row that stands at a key, and its stream.
fn put_found<O: Out>(out: &mut O, line: &mut Line, there: Option<(u8, &RowBuf)>)
    ensures { Tells (at (O.written out.old) line.old) (at (O.written out.new) line.new) (compact_text (standing_data (option_map standing there.entry))) }
{
    line.put(out, b"{\"row\":");
    put_row_there(out, line, there);
    line.put(out, b",\"stream\":");
    put_stream_there(out, line, there);
    line.put(out, b"}");
}

/// Prints the row that stands at a key, and its stream, or null. Takes no memory. After a fault what was written is a
/// beginning of it.
pub fn print_row<O: Out>(out: &mut O, there: Option<(u8, &RowBuf)>) -> Result<(), OutFailed>
    ensures { Prints result (O.written out.old) (O.written out.new) (ok_line (standing_data (option_map standing there.entry))) }
{
    let mut line = begun(out, b"{\"ok\":");
    put_found(out, &mut line, there);
    end(out, line)
}
