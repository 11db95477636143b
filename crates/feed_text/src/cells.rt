//! The cells of a row's line.

ghost use Rattle.std.specs.Prelude.{◌<◌, ◌≤◌, length, IfSome, IfOk};

use crate::fault::{LineError, TextCause};
use crate::lines::next_cell;
use row_view::{Column, ROW_BYTES, ROW_COLUMNS, write_columns};
use std::alloc::{AllocError, Global};

/// The columns of a row, read from the cells of its line: the bytes of their values together, and how many each has,
/// nothing for NULL. Its memory serves one line after another.
#[derive(Drop)]
pub(crate) struct RowCells {
    values: Vec<u8>,
    lengths: Vec<Option<usize>>,
}

impl RowCells {
    /// No column.
    pub(crate) fn new(alloc: Global) -> RowCells {
        RowCells {
            values: Vec::new(alloc),
            lengths: Vec::new(alloc),
        }
    }

    /// How many columns there are.
    pub(crate) fn len(&self) -> usize {
        self.lengths.len()
    }

    /// Reads the cells of a line, which stand behind its table's name. A fault's place is counted from there.
    pub(crate) fn read(&mut self, cells: &[u8]) -> Result<(), LineError> {
        self.values.clear();
        self.lengths.clear();
        let mut rest = cells;
        while let Some((cell, behind)) = next_cell(rest) {
            if let Err(error) = self.push(cell) {
                let place = cells.len().saturating_sub(rest.len());
                return Err(error.behind(place.saturating_add(1)));
            }
            rest = behind;
        }
        Ok(())
    }

    /// Reads a cell behind the others.
    fn push(&mut self, cell: &[u8]) -> Result<(), LineError> {
        if cell == b"N".as_slice() {
            self.lengths.push(None)?;
            return Ok(());
        }
        match cell.split_first() {
            Some((b'x', digits)) => self.push_value(digits),
            _ => Err(LineError::At(0, TextCause::Cell)),
        }
    }

    /// Reads the digits of a cell.
    fn push_value(&mut self, digits: &[u8]) -> Result<(), LineError> {
        let read = push_bytes(&mut self.values, digits)?;
        if read < digits.len() || digits.len() % 2 == 1 {
            return Err(LineError::At(read.saturating_add(1), TextCause::Cell));
        }
        self.lengths.push(Some(digits.len() / 2))?;
        Ok(())
    }

    /// Writes the row of these columns over a message. The place of a fault is 0.
    pub(crate) fn write_over(&self, alloc: Global, message: &mut Vec<u8>) -> Result<(), LineError> {
        message.clear();
        if self.lengths.len() > usize::from(ROW_COLUMNS) {
            return Err(LineError::At(0, TextCause::TooWide));
        }
        let columns = columns_of(alloc, &self.values, &self.lengths)?;
        write_columns(message, &columns)?;
        if message.len() > ROW_BYTES {
            return Err(LineError::At(0, TextCause::RowTooLong));
        }
        Ok(())
    }
}

/// The columns of values that stand one behind another, lent.
fn columns_of<'c>(
    alloc: Global,
    values: &'c [u8],
    lengths: &[Option<usize>],
) -> Result<Vec<Column<'c>>, AllocError> {
    let mut columns = Vec::with_capacity(alloc, lengths.len())?;
    let mut rest = values;
    for length in lengths {
        match length {
            None => columns.push(Column::Null)?,
            Some(length) => {
                let (value, behind) = rest.split_at((*length).min(rest.len()));
                columns.push(Column::Bytes(value))?;
                rest = behind;
            }
        }
    }
    Ok(columns)
}

/// Pushes the bytes that pairs of digits spell, up to the first that isn't one; the answer is how many digits were read.
fn push_bytes(bytes: &mut Vec<u8>, digits: &[u8]) -> Result<usize, AllocError>
    ensures { IfOk result (λ read. read ≤ length digits.now) }
{
    for i in 0..digits.len() / 2 {
        let Some(high) = digit_value(digits[2 * i]) else {
            return Ok(2 * i);
        };
        let Some(low) = digit_value(digits[2 * i + 1]) else {
            return Ok(2 * i + 1);
        };
        bytes.push(high * 16 + low)?;
    }
    let even = digits.len() / 2 * 2;
    if even < digits.len() && digit_value(digits[even]).is_some() {
        return Ok(digits.len());
    }
    Ok(even)
}

/// The value of a digit in lower case.
fn digit_value(digit: u8) -> Option<u8>
    ensures { IfSome result (λ value. value < 16) }
{
    if digit >= b'0' && digit <= b'9' {
        return Some(digit - b'0');
    }
    if digit >= b'a' && digit <= b'f' {
        return Some(digit - b'a' + 10);
    }
    None
}
