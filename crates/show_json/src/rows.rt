//! Rows as objects of JSON.

ghost use Rattle.std.specs.Prelude.{◌≡◌, [], decimal, length};
ghost use Rattle.row_view.specs.ColumnValue.{column_value};
ghost use Rattle.serde_json.specs.Written.{compact_text};
ghost use Rattle.json_pieces.specs.Telling.{Tells, at};
ghost use Rattle.show_json.specs.Private.Listed.{listed};
ghost use Rattle.show_json.specs.Private.Parts.{member_part};
ghost use Rattle.show_json.specs.Values.{behind_first, name_of, row_data, side_data};

use crate::values::{put_text, put_value};
use itoa::Buffer;
use json_pieces::{Line, put_comma_if};
use printing::Out;
use row_view::{Column, Columns, RowBytes};
use vevent::ColumnFields;

/// Puts a value by a name.
fn put_named<O: Out>(out: &mut O, line: &mut Line, later: bool, name: &str, value: &Column<'_>)
    ensures { Tells (at (O.written out.old) line.old) (at (O.written out.new) line.new) (member_part later name.now (column_value value.now)) }
{
    put_comma_if(out, line, later);
    put_text(out, line, name);
    line.put(out, b":");
    put_value(out, line, value);
}

/// Puts a value by the number of its column.
fn put_numbered<O: Out>(out: &mut O, line: &mut Line, later: bool, number: u64, value: &Column<'_>)
    ensures { Tells (at (O.written out.old) line.old) (at (O.written out.new) line.new) (member_part later (decimal number) (column_value value.now)) }
{
    let mut digits = Buffer::new();
    put_named(out, line, later, digits.format(number), value);
}

/// Puts a value by the name of the first column that is left, or by its number where none is.
fn put_member<O: Out>(
    out: &mut O,
    line: &mut Line,
    later: bool,
    columns: &mut ColumnFields<'_>,
    number: u64,
    value: &Column<'_>,
)
    ensures told { Tells (at (O.written out.old) line.old) (at (O.written out.new) line.new) (member_part later (name_of number columns.old) (column_value value.now)) }
    ensures rest { columns.new ≡ behind_first columns.old }
{
    match columns.next() {
        Some(column) => put_named(out, line, later, column.name, value),
        None => put_numbered(out, line, later, number, value),
    }
}

/// Puts a row of so many values, each by the name of its column.
fn put_named_row<O: Out>(
    out: &mut O,
    line: &mut Line,
    columns: ColumnFields<'_>,
    row: Columns<'_>,
    count: usize,
)
    requires { length row ≡ count }
    ensures { Tells (at (O.written out.old) line.old) (at (O.written out.new) line.new) (compact_text (row_data columns.entry row.entry)) }
{
    line.put(out, b"{");
    let mut columns = columns;
    let mut number: u64 = 0;
    let mut later = false;
    for value in row {
        number += 1;
        put_member(out, line, later, &mut columns, number, &value);
        later = true;
    }
    line.put(out, b"}");
}

/// Puts a row of so many values, each by the number of its column.
fn put_numbered_row<O: Out>(out: &mut O, line: &mut Line, row: Columns<'_>, count: usize)
    requires { length row ≡ count }
    ensures { Tells (at (O.written out.old) line.old) (at (O.written out.new) line.new) (compact_text (row_data [] row.entry)) }
{
    line.put(out, b"{");
    let mut number: u64 = 0;
    let mut later = false;
    for value in row {
        number += 1;
        put_numbered(out, line, later, number, &value);
        later = true;
    }
    line.put(out, b"}");
}

/// Puts a row, its values by these columns' names or by their numbers.
fn put_row<O: Out>(
    out: &mut O,
    line: &mut Line,
    columns: Option<ColumnFields<'_>>,
    row: &RowBytes<'_>,
)
    ensures { Tells (at (O.written out.old) line.old) (at (O.written out.new) line.new) (compact_text (row_data (listed columns.entry) row.now)) }
{
    let count = row.view().len();
    match columns {
        Some(columns) => put_named_row(out, line, columns, row.columns(), count),
        None => put_numbered_row(out, line, row.columns(), count),
    }
}

/// Puts a row, or null where there is none.
pub(crate) fn put_side<O: Out>(
    out: &mut O,
    line: &mut Line,
    columns: Option<ColumnFields<'_>>,
    row: Option<RowBytes<'_>>,
)
    ensures { Tells (at (O.written out.old) line.old) (at (O.written out.new) line.new) (compact_text (side_data (listed columns.entry) row.entry)) }
{
    match row {
        None => line.put(out, b"null"),
        Some(row) => put_row(out, line, columns, &row),
    }
}
