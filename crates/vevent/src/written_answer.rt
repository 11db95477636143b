//! Writing of answers of a stream of rows.

ghost use Rattle.std.specs.Prelude.{◌≡◌, ◌++◌, map, length, OnOk, OnErr, IfOk};
ghost use Rattle.proto_wire.specs.Writing.{written_field, written_fields, message_field, Begins};
ghost use Rattle.row_view.specs.WrittenRow.{written_row};
ghost use Rattle.vevent.specs.ColumnView.{field_value};
ghost use Rattle.vevent.specs.ContentView.{answer_content};
ghost use Rattle.vevent.specs.WrittenEvent.{message_fields, written_column};
ghost use Rattle.vevent.specs.WrittenPart.{written_answer, AnswersAreReadAgain};

use crate::field_event::ColumnField;
use crate::written_changes::{put_row_field, row_field_size};
use crate::written_columns::{column_size, put_column};
use crate::written_laws::answers_are_read_again;
use proto_wire::{
    bytes_field_size, cut_after_error, put_bytes_head, put_text, size_of_both, text_field_size,
};
use row_view::{RowBytes, RowView};
use std::alloc::AllocError;

/// What an answer is to say that is written.
#[derive(Drop)]
pub struct AnswerContent<'a> {
    pub fields: &'a [ColumnField<'a>],
    pub pkfields: &'a [ColumnField<'a>],
    pub gtid: &'a str,
    pub rows: &'a [RowBytes<'a>],
    /// The key of the last row, as a row.
    pub lastpk: Option<RowBytes<'a>>,
}

/// How many bytes a column takes under a number.
fn column_field_size(number: u32, column: &ColumnField<'_>) -> Result<usize, AllocError>
    ensures { IfOk result (λ n. n ≡ length (written_field (message_field number (written_column (field_value column.now))))) }
{
    bytes_field_size(number, column_size(column)?)
}

/// How many bytes columns take under a number.
fn columns_size(number: u32, columns: &[ColumnField<'_>]) -> Result<usize, AllocError>
    ensures { IfOk result (λ n. n ≡ length (written_fields (message_fields number (map written_column (map field_value columns.now))))) }
{
    let mut size = 0;
    for column in columns {
        size = size_of_both(size, column_field_size(number, column)?)?;
    }
    Ok(size)
}

/// Appends columns under a number.
fn put_columns(
    out: &mut Vec<u8>,
    number: u32,
    columns: &[ColumnField<'_>],
) -> Result<(), AllocError>
    ensures written { OnOk result (out.new.items ≡ out.old.items ++ written_fields (message_fields number (map written_column (map field_value columns.now)))) }
    ensures kept { Begins out.old.items out.new.items }
{
    for column in columns {
        put_bytes_head(out, number, column_size(column)?)?;
        put_column(out, column)?;
    }
    Ok(())
}

/// How many bytes rows take.
fn rows_size(rows: &[RowBytes<'_>]) -> Result<usize, AllocError>
    ensures { IfOk result (λ n. n ≡ length (written_fields (message_fields 4 (map written_row rows.now)))) }
{
    let mut size = 0;
    for row in rows {
        let one = bytes_field_size(4, row.written_size()?)?;
        size = size_of_both(size, one)?;
    }
    Ok(size)
}

/// Appends rows.
fn put_rows(out: &mut Vec<u8>, rows: &[RowBytes<'_>]) -> Result<(), AllocError>
    ensures written { OnOk result (out.new.items ≡ out.old.items ++ written_fields (message_fields 4 (map written_row rows.now))) }
    ensures kept { Begins out.old.items out.new.items }
{
    for row in rows {
        put_bytes_head(out, 4, row.written_size()?)?;
        row.write(out)?;
    }
    Ok(())
}

/// The row, if there is one.
fn view_of<'b>(row: &Option<RowBytes<'b>>) -> Option<RowView<'b>>
    ensures { result ≡ row.now }
{
    match row {
        None => None,
        Some(row) => Some(row.view()),
    }
}

/// How many bytes an answer has as it is written. An error is want of memory, since no memory has as
/// many.
pub fn answer_size(answer: &AnswerContent<'_>) -> Result<usize, AllocError>
    ensures { IfOk result (λ n. n ≡ length (written_answer (answer_content answer.now))) }
{
    let fields = columns_size(1, answer.fields)?;
    let pkfields = columns_size(2, answer.pkfields)?;
    let gtid = text_field_size(3, answer.gtid.len())?;
    let rows = rows_size(answer.rows)?;
    let lastpk = row_field_size(5, &view_of(&answer.lastpk))?;
    let columns = size_of_both(fields, pkfields)?;
    size_of_both(size_of_both(columns, gtid)?, size_of_both(rows, lastpk)?)
}

/// Appends an answer.
pub(crate) fn put_answer(out: &mut Vec<u8>, answer: &AnswerContent<'_>) -> Result<(), AllocError>
    ensures written { OnOk result (out.new.items ≡ out.old.items ++ written_answer (answer_content answer.now)) }
    ensures kept { Begins out.old.items out.new.items }
{
    put_columns(out, 1, answer.fields)?;
    put_columns(out, 2, answer.pkfields)?;
    put_text(out, 3, answer.gtid.as_bytes())?;
    put_rows(out, answer.rows)?;
    put_row_field(out, 5, &view_of(&answer.lastpk))?;
    Ok(())
}

/// Appends an answer (`binlogdata.proto`, VStreamRowsResponse). An error is want of memory, and leaves
/// what is there.
pub fn write_answer(out: &mut Vec<u8>, answer: &AnswerContent<'_>) -> Result<(), AllocError>
    ensures written { OnOk result (out.new.items ≡ out.old.items ++ written_answer (answer_content answer.now)) }
    ensures unchanged { OnErr result (out.new.items ≡ out.old.items) }
    // An answer within the limits that is written is read as this answer.
    ensures read_again { AnswersAreReadAgain }
{
    answers_are_read_again();
    out.reserve(answer_size(answer)?)?;
    let before = out.len();
    let outcome = put_answer(out, answer);
    cut_after_error(out, before, outcome)
}
