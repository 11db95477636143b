//! The columns of a row's line in a dump.

ghost use Rattle.std.specs.Prelude.{◌≡◌, ◌-◌, ◌<◌, ◌≤◌, ◌+◌, [], take, IfSome, IfOk, IfErr, OnOk, Some, None, Ok, Err, length, map};
ghost use Rattle.std.specs.Option.{option_map};
ghost use Rattle.row_view.specs.ColumnValue.{column_value};
ghost use Rattle.row_view.specs.Row.{row_of_message};
ghost use Rattle.row_view.specs.WrittenRow.{IsWithinLimits};
ghost use Rattle.dump.specs.DumpReading.{BeginsAsRow};
ghost use Rattle.dump.specs.DumpRowsValue.{RowValue};
ghost use Rattle.dump.specs.Private.Reading.{digit_of, pair_of, pair_front, bytes_front, with_bytes, cell_front, behind_byte, cells_front, row_front, TakesCell, TakesCells, TakesMessage, NoRowIn};
ghost use Rattle.dump.specs.Private.Spans.{bytes_at, columns_at, EndsWithin, AreWithin};

use crate::line_fault::LineFault;
use row_view::{Column, ROW_BYTES, ROW_COLUMNS, rows_are_read_again, write_columns};
use std::alloc::{AllocError, Global};
use std::marker::Model;

/// The most bytes that are read at once.
const PIECE: usize = 64;

/// The most columns that are lent in place.
const FEW: usize = 8;

/// The value of each character as a digit in lower case, 16 where it is none.
static DIGITS: [u8; 256] =
    *b"\x10\x10\x10\x10\x10\x10\x10\x10\x10\x10\x10\x10\x10\x10\x10\x10\x10\x10\x10\x10\x10\x10\x10\x10\x10\x10\x10\x10\x10\x10\x10\x10\x10\x10\x10\x10\x10\x10\x10\x10\x10\x10\x10\x10\x10\x10\x10\x10\x00\x01\x02\x03\x04\x05\x06\x07\x08\x09\x10\x10\x10\x10\x10\x10\x10\x10\x10\x10\x10\x10\x10\x10\x10\x10\x10\x10\x10\x10\x10\x10\x10\x10\x10\x10\x10\x10\x10\x10\x10\x10\x10\x10\x10\x10\x10\x10\x10\x0a\x0b\x0c\x0d\x0e\x0f\x10\x10\x10\x10\x10\x10\x10\x10\x10\x10\x10\x10\x10\x10\x10\x10\x10\x10\x10\x10\x10\x10\x10\x10\x10\x10\x10\x10\x10\x10\x10\x10\x10\x10\x10\x10\x10\x10\x10\x10\x10\x10\x10\x10\x10\x10\x10\x10\x10\x10\x10\x10\x10\x10\x10\x10\x10\x10\x10\x10\x10\x10\x10\x10\x10\x10\x10\x10\x10\x10\x10\x10\x10\x10\x10\x10\x10\x10\x10\x10\x10\x10\x10\x10\x10\x10\x10\x10\x10\x10\x10\x10\x10\x10\x10\x10\x10\x10\x10\x10\x10\x10\x10\x10\x10\x10\x10\x10\x10\x10\x10\x10\x10\x10\x10\x10\x10\x10\x10\x10\x10\x10\x10\x10\x10\x10\x10\x10\x10\x10\x10\x10\x10\x10\x10\x10\x10\x10\x10\x10\x10\x10\x10\x10\x10\x10\x10\x10\x10\x10\x10\x10\x10";

/// Where a column's value lies among the values of its line.
#[derive(Clone, Copy)]
pub(crate) struct Span {
    start: usize,
    end: usize,
}

/// The columns of a line, read one after another: the bytes of its values together, and where each lies
/// among them, nothing for NULL. Its memory serves one line after another. Seen in contracts as the
/// columns' values.
#[derive(Drop)]
pub(crate) struct RowCells {
    values: Vec<u8>,
    spans: Vec<Option<Span>>,
}

impl Model for RowCells {
    ghost use Rattle.std.specs.Prelude.{length};
    ghost use Rattle.dump.specs.DumpRowsValue.{RowValue};
    ghost use Rattle.dump.specs.Private.Spans.{columns_at, AreWithin};

    ghost Value = { RowValue };

    ghost view = { λ c. columns_at c.values.items c.spans.items };

    ghost invariant = { λ c. AreWithin (length c.values.items) c.spans.items };
}

impl RowCells {
    /// No column.
    pub(crate) fn new(alloc: Global) -> RowCells
        ensures { result ≡ [] }
    {
        RowCells {
            values: Vec::new(alloc),
            spans: Vec::new(alloc),
        }
    }

    /// Forgets the columns and keeps their memory.
    fn clear(&mut self)
        ensures { self.new ≡ [] }
    {
        self.spans.clear();
        self.values.clear();
    }

    /// Takes a cell off the front and pushes its column.
    fn take_cell<'t>(&mut self, text: &'t [u8]) -> Result<&'t [u8], LineFault>
        ensures taken { IfOk result (λ rest. TakesCell self.old self.new text.now rest.now) }
        ensures bad { result ≡ Err LineFault.Bad → cell_front text.now ≡ None }
        ensures memory { result ≡ Err LineFault.Memory → BeginsAsRow text.now }
    {
        let Some((first, rest)) = text.split_first() else {
            return Err(LineFault::Bad);
        };
        match *first {
            b'N' => {
                self.spans.push(None)?;
                Ok(rest)
            }
            b'x' => {
                let start = self.values.len();
                let behind = push_bytes(&mut self.values, rest)?;
                let end = self.values.len();
                self.spans.push(Some(Span { start, end }))?;
                Ok(behind)
            }
            _ => Err(LineFault::Bad),
        }
    }

    /// Takes so many cells off the front, each with the tab before it.
    fn take_cells<'t>(&mut self, count: usize, text: &'t [u8]) -> Result<&'t [u8], LineFault>
        ensures taken { IfOk result (λ rest. TakesCells count self.old self.new text.now rest.now) }
        ensures bad { result ≡ Err LineFault.Bad → cells_front count text.now ≡ None }
    {
        let mut rest = text;
        for _ in 0..count {
            let cell = take_byte(rest, b'\t')?;
            rest = self.take_cell(cell)?;
        }
        Ok(rest)
    }

    /// Writes the row of these columns over a message.
    fn write_over(&self, message: &mut Vec<u8>, alloc: Global) -> Result<(), LineFault>
        ensures row { OnOk result ((row_of_message message.new.items ≡ Ok self.now) × IsWithinLimits self.now) }
        ensures bad { result ≡ Err LineFault.Bad → IsWithinLimits self.now → ⊥ }
    {
        let count = self.spans.len();
        if count <= FEW {
            let mut room = [Column::Null; FEW];
            lend_columns(&mut room, &self.values, &self.spans);
            write_row(message, &room[..count])?;
            return Ok(());
        }
        let columns = columns_of(alloc, &self.values, &self.spans)?;
        write_row(message, &columns)?;
        Ok(())
    }
}

/// Writes the columns of spans of these values, lent, over room for them.
fn lend_columns<'c>(room: &mut [Column<'c>], values: &'c [u8], spans: &[Option<Span>])
    requires within { AreWithin (length values.now) spans.now }
    requires few { length spans.now ≤ length room.old }
    ensures columns { map column_value (take (length spans.now) room.new) ≡ columns_at values.now spans.now }
    ensures room { length room.new ≡ length room.old }
{
    let mut place = 0;
    for span in spans {
        room[place] = column_of(values, span);
        place += 1;
    }
}

/// The columns of spans of these values, lent.
fn columns_of<'c>(
    alloc: Global,
    values: &'c [u8],
    spans: &[Option<Span>],
) -> Result<Vec<Column<'c>>, AllocError>
    requires { AreWithin (length values.now) spans.now }
    ensures { IfOk result (λ columns. map column_value columns.items ≡ columns_at values.now spans.now) }
{
    let mut columns = Vec::with_capacity(alloc, spans.len())?;
    for span in spans {
        columns.push(column_of(values, span))?;
    }
    Ok(columns)
}

/// The column of a span, lent.
fn column_of<'c>(values: &'c [u8], span: &Option<Span>) -> Column<'c>
    requires { EndsWithin (length values.now) span.now }
    ensures { column_value result ≡ option_map (bytes_at values.now) span.now }
{
    match span {
        None => Column::Null,
        Some(span) => Column::Bytes(&values[span.start..span.end]),
    }
}

/// Writes the row of these columns over a message.
fn write_row(message: &mut Vec<u8>, columns: &[Column<'_>]) -> Result<(), LineFault>
    ensures row { OnOk result ((row_of_message message.new.items ≡ Ok (map column_value columns.now)) × IsWithinLimits (map column_value columns.now)) }
    ensures bad { result ≡ Err LineFault.Bad → IsWithinLimits (map column_value columns.now) → ⊥ }
{
    rows_are_read_again();
    if columns.len() > usize::from(ROW_COLUMNS) {
        return Err(LineFault::Bad);
    }
    message.clear();
    write_columns(message, columns)?;
    if message.len() > ROW_BYTES {
        return Err(LineFault::Bad);
    }
    Ok(())
}

/// Takes the line of a row off the front, of at least one column, and writes the row over a message; the answer
/// is what stands behind the line.
pub(crate) fn take_row<'t>(
    cells: &mut RowCells,
    message: &mut Vec<u8>,
    alloc: Global,
    width: usize,
    text: &'t [u8],
) -> Result<&'t [u8], LineFault>
    requires { 0 < width }
    ensures taken { IfOk result (λ rest. TakesMessage width message.new.items text.now rest.now) }
    ensures bad { result ≡ Err LineFault.Bad → NoRowIn width text.now }
    ensures memory { result ≡ Err LineFault.Memory → BeginsAsRow text.now }
{
    let rest = take_line(cells, width - 1, text)?;
    cells.write_over(message, alloc)?;
    Ok(rest)
}

/// Takes a row's line off the front, of a cell and so many more; its columns stand in place of those before.
fn take_line<'t>(cells: &mut RowCells, count: usize, text: &'t [u8]) -> Result<&'t [u8], LineFault>
    ensures taken { IfOk result (λ rest. row_front count text.now ≡ Some (cells.new, rest.now)) }
    ensures bad { result ≡ Err LineFault.Bad → row_front count text.now ≡ None }
    ensures memory { result ≡ Err LineFault.Memory → BeginsAsRow text.now }
{
    cells.clear();
    let others = cells.take_cell(text)?;
    let end = cells.take_cells(count, others)?;
    let rest = take_byte(end, b'\n')?;
    Ok(rest)
}

/// What stands behind a byte in front.
fn take_byte(text: &[u8], byte: u8) -> Result<&[u8], LineFault>
    ensures taken { IfOk result (λ rest. behind_byte byte text.now ≡ Some rest.now) }
    ensures bad { IfErr result (λ fault. behind_byte byte text.now ≡ None) }
{
    match text.split_first() {
        Some((first, rest)) if *first == byte => Ok(rest),
        _ => Err(LineFault::Bad),
    }
}

/// Pushes the bytes that pairs of digits in front spell; the answer is what stands behind these.
fn push_bytes<'t>(bytes: &mut Vec<u8>, text: &'t [u8]) -> Result<&'t [u8], AllocError>
    ensures pushed { IfOk result (λ rest. with_bytes bytes.old.items (bytes_front text.now) ≡ (bytes.new.items, rest.now)) }
    ensures kept { length bytes.old.items ≤ length bytes.new.items }
{
    let mut room = [0; PIECE];
    let mut rest = text;
    loop {
        let (count, behind) = take_piece(&mut room, rest);
        bytes.extend_from_slice(&room[..count])?;
        if count < PIECE {
            return Ok(behind);
        }
        rest = behind;
    }
}

/// Writes bytes that pairs of digits in front spell over room for some: all of them, or as many as there is
/// room for. The answer is how many, and what stands behind these.
#[inline(always)]
fn take_piece<'t>(room: &mut [u8], text: &'t [u8]) -> (usize, &'t [u8])
    ensures room { length room.new ≡ length room.old }
    ensures taken { bytes_front text.now ≡ with_bytes (take result.0 room.new) (bytes_front result.1.now) }
    ensures within { result.0 ≤ length room.old }
    ensures all { result.0 < length room.old → pair_front result.1.now ≡ None }
    ensures parts { length result.1.now + result.0 ≤ length text.now }
{
    let count = room.len().min(text.len() / 2);
    for i in 0..count {
        let Some(byte) = pair_value(text[2 * i], text[2 * i + 1]) else {
            return (i, text.split_at(2 * i).1);
        };
        room[i] = byte;
    }
    (count, text.split_at(2 * count).1)
}

/// The byte that a pair of digits spells.
#[inline(always)]
fn pair_value(first: u8, second: u8) -> Option<u8>
    ensures { result ≡ pair_of (digit_of first) (digit_of second) }
{
    let high = digit_value(first)?;
    let low = digit_value(second)?;
    Some(high * 16 + low)
}

/// The value of a digit in lower case, below 16.
#[inline(always)]
fn digit_value(character: u8) -> Option<u8>
    ensures value { result ≡ digit_of character }
    ensures range { IfSome result (λ digit. digit < 16) }
{
    let value = DIGITS[usize::from(character)];
    if value > 15 {
        return None;
    }
    Some(value)
}
