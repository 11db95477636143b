//! Rows that are to be written, each with the sizes of its parts.

ghost use Rattle.std.specs.Prelude.{◌≡◌, ◌≤◌, ◌^◌, IfOk, IfErr, length};
ghost use Rattle.row_view.specs.WrittenRow.{IsWithinLimits, written_lengths, written_row, written_values};
ghost use Rattle.json_pieces.specs.Telling.{Tells, at};
ghost use Rattle.compaction.specs.Private.Limits.{IsOverBy};
ghost use Rattle.compaction.specs.Private.Sized.{HasSizes, change_field, held_head, lengths_head, text_head};

use crate::fault::WriteFault;
use crate::sizes::{held_size, is_within, number_of, packed_size, row_size, sizes_of, value_of};
use crate::varint::put_number;
use json_pieces::Line;
use printing::Out;
use row_view::{ROW_BYTES, RowBytes};
use std::marker::Model;

/// The tag of a field that holds a change, a row behind it, or a row's values.
const HELD: u8 = 18;

/// The tag of packed lengths.
const LENGTHS: u8 = 10;

/// The tag of a length in a field of its own.
const LENGTH: u8 = 8;

/// A row within the limits, and how many bytes its lengths and its values have. Seen in contracts as the row.
#[derive(Drop)]
pub(crate) struct SizedRow<'h> {
    row: RowBytes<'h>,
    lengths: u32,
    values: u32,
}

impl<'h> Model for SizedRow<'h> {
    ghost use Rattle.row_view.specs.Row.{RowValue};
    ghost use Rattle.compaction.specs.Private.Sized.{HasSizes};

    ghost Value = { RowValue };

    ghost view = { λ s. s.row };

    ghost invariant = { λ s. HasSizes s.row s.lengths s.values };
}

/// Puts what stands before so many bytes that a field holds.
fn put_held_head<O: Out>(out: &mut O, line: &mut Line, tag: u8, size: usize)
    ensures { Tells (at (O.written out.old) line.old) (at (O.written out.new) line.new) (held_head tag size) }
{
    line.put(out, &[tag]);
    put_number(out, line, size as u64);
}

/// Puts what stands before a text of so many bytes: nothing before an empty one.
fn put_text_head<O: Out>(out: &mut O, line: &mut Line, tag: u8, size: usize)
    ensures { Tells (at (O.written out.old) line.old) (at (O.written out.new) line.new) (text_head tag size) }
{
    if size > 0 {
        put_held_head(out, line, tag, size);
    }
}

/// Puts what stands before the lengths of a row.
fn put_lengths_head<O: Out>(out: &mut O, line: &mut Line, lengths: usize, values: usize)
    requires lengths { lengths ≤ 2 ^ 24 }
    requires values { values ≤ 2 ^ 24 }
    ensures { Tells (at (O.written out.old) line.old) (at (O.written out.new) line.new) (lengths_head lengths values) }
{
    if packed_size(lengths, values) > ROW_BYTES {
        line.put(out, &[LENGTH]);
    } else {
        put_text_head(out, line, LENGTHS, lengths);
    }
}

/// Puts the lengths of a row.
fn put_lengths<O: Out>(out: &mut O, line: &mut Line, row: &RowBytes<'_>)
    requires { length (written_values row.now) ≤ 2 ^ 24 }
    ensures { Tells (at (O.written out.old) line.old) (at (O.written out.new) line.new) (written_lengths row.now) }
{
    for column in row.columns() {
        put_number(out, line, number_of(&column));
    }
}

/// Puts the values of a row.
fn put_values<O: Out>(out: &mut O, line: &mut Line, row: &RowBytes<'_>)
    ensures { Tells (at (O.written out.old) line.old) (at (O.written out.new) line.new) (written_values row.now) }
{
    for column in row.columns() {
        line.put(out, value_of(&column));
    }
}

/// Puts a row of these sizes.
fn put_row<O: Out>(out: &mut O, line: &mut Line, row: &RowBytes<'_>, lengths: usize, values: usize)
    requires { HasSizes row.now lengths values }
    ensures { Tells (at (O.written out.old) line.old) (at (O.written out.new) line.new) (written_row row.now) }
{
    put_lengths_head(out, line, lengths, values);
    put_lengths(out, line, row);
    put_text_head(out, line, HELD, values);
    put_values(out, line, row);
}

/// Puts the change that inserts a row of these sizes, behind what stands before it.
fn put_change_of<O: Out>(
    out: &mut O,
    line: &mut Line,
    row: &RowBytes<'_>,
    lengths: usize,
    values: usize,
)
    requires { HasSizes row.now lengths values }
    ensures { Tells (at (O.written out.old) line.old) (at (O.written out.new) line.new) (change_field row.now) }
{
    let size = row_size(lengths, values);
    put_held_head(out, line, HELD, held_size(size));
    put_held_head(out, line, HELD, size);
    put_row(out, line, row, lengths, values);
}

impl<'h> SizedRow<'h> {
    /// A row with its sizes.
    pub(crate) fn of(row: &RowBytes<'h>) -> Result<SizedRow<'h>, WriteFault>
        ensures row { IfOk result (λ sized. sized ≡ row.now) }
        ensures within { IfOk result (λ _. IsWithinLimits row.now) }
        ensures long { IfErr result (IsOverBy (¬ IsWithinLimits row.now)) }
    {
        let sizes = sizes_of(row)?;
        if is_within(sizes) {
            Ok(SizedRow {
                row: row.copy(),
                lengths: sizes.lengths as u32,
                values: sizes.values as u32,
            })
        } else {
            Err(WriteFault::TooLong)
        }
    }

    /// How many bytes it has.
    pub(crate) fn size(&self) -> usize
        ensures size { result ≡ length (written_row self.now) }
        ensures few { result ≤ 2 ^ 24 }
    {
        row_size(self.lengths as usize, self.values as usize)
    }

    /// Puts the change that inserts it, as a field of its event. Takes no memory.
    pub(crate) fn put_change<O: Out>(&self, out: &mut O, line: &mut Line)
        ensures { Tells (at (O.written out.old) line.old) (at (O.written out.new) line.new) (change_field self.now) }
    {
        put_change_of(
            out,
            line,
            &self.row,
            self.lengths as usize,
            self.values as usize,
        );
    }
}

/// How many bytes the change that inserts a row has as a field of its event.
pub(crate) fn change_size(row: &SizedRow<'_>) -> usize
    ensures { result ≡ length (change_field row.now) }
{
    held_size(held_size(row.size()))
}
