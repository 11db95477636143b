//! How many rows there are.

ghost use Rattle.std.specs.Prelude.{◌≡◌, map};
ghost use Rattle.json_pieces.specs.Pieces.{list_data};
ghost use Rattle.json_pieces.specs.Telling.{Tells, at};
ghost use Rattle.printing.specs.Printing.{Prints};
ghost use Rattle.serde_json.specs.Written.{compact_text};
ghost use Rattle.live_json.specs.Answers.{count_data, counts_data, ok_line, table_counts_data};
ghost use Rattle.live_json.specs.Private.Parts.{counts_value};

use crate::cells::{put_count, put_name};
use crate::line::{begun, end};
use json_pieces::{Line, put_comma_if};
use printing::{Out, OutFailed};

/// How many rows each stream has in a table, as it is told.
#[derive(Drop)]
pub struct CountsTold<'b> {
    /// the table's name
    pub table: &'b str,
    /// of each stream its rows
    pub rows: Vec<u64>,
}

/// Puts numbers.
fn put_numbers<O: Out>(out: &mut O, line: &mut Line, numbers: &[u64])
    ensures { Tells (at (O.written out.old) line.old) (at (O.written out.new) line.new) (compact_text (list_data count_data numbers.now)) }
{
    line.put(out, b"[");
    let mut later = false;
    for number in numbers {
        put_comma_if(out, line, later);
        put_count(out, line, *number);
        later = true;
    }
    line.put(out, b"]");
}

/// Puts the rows of a table.
fn put_table<O: Out>(out: &mut O, line: &mut Line, table: &CountsTold<'_>)
    ensures { Tells (at (O.written out.old) line.old) (at (O.written out.new) line.new) (compact_text (table_counts_data (counts_value table.now))) }
{
    line.put(out, b"{\"rows\":");
    put_numbers(out, line, table.rows.as_slice());
    line.put(out, b",\"table\":");
    put_name(out, line, table.table);
    line.put(out, b"}");
}

/// Puts those of tables.
fn put_tables<O: Out>(out: &mut O, line: &mut Line, tables: &[CountsTold<'_>])
    ensures { Tells (at (O.written out.old) line.old) (at (O.written out.new) line.new) (compact_text (list_data table_counts_data (map counts_value tables.now))) }
{
    line.put(out, b"[");
    let mut later = false;
    for table in tables {
        put_comma_if(out, line, later);
        put_table(out, line, table);
        later = true;
    }
    line.put(out, b"]");
}

/// Puts how many rows there are.
fn put_counts<O: Out>(out: &mut O, line: &mut Line, tables: &[CountsTold<'_>])
    ensures { Tells (at (O.written out.old) line.old) (at (O.written out.new) line.new) (compact_text (counts_data (map counts_value tables.now))) }
{
    line.put(out, b"{\"tables\":");
    put_tables(out, line, tables);
    line.put(out, b"}");
}

/// Prints how many rows each stream has in each of these tables. Takes no memory. After a fault what was written is a
/// beginning of it.
pub fn print_counts<O: Out>(out: &mut O, tables: &[CountsTold<'_>]) -> Result<(), OutFailed>
    ensures { Prints result (O.written out.old) (O.written out.new) (ok_line (counts_data (map counts_value tables.now))) }
{
    let mut line = begun(out, b"{\"ok\":");
    put_counts(out, &mut line, tables);
    end(out, line)
}
