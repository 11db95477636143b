//! Writing of the parts of a checkpoint.

ghost use Rattle.std.specs.Prelude.{◌≡◌, ◌++◌, map, length, OnOk, OnErr, IfOk};
ghost use Rattle.proto_wire.specs.Writing.{written_fields, Begins};
ghost use Rattle.vevent.specs.ContentView.{table_content, stream_content};
ghost use Rattle.vevent.specs.WrittenEvent.{message_fields};
ghost use Rattle.vevent.specs.WrittenPart.{written_table_part, written_stream_part, TablePartsAreReadAgain, StreamPartsAreReadAgain};

use crate::checkpoint_part::TableMark;
use crate::written_answer::{AnswerContent, answer_size, put_answer};
use crate::written_laws::{stream_parts_are_read_again, table_parts_are_read_again};
use proto_wire::{
    bytes_field_size, cut_after_error, number_field_size, put_bytes_head, put_number, put_text,
    size_of_both, text_field_size,
};
use std::alloc::AllocError;

/// What a table's part is to say that is written.
#[derive(Drop)]
pub struct TableContent<'a> {
    pub mark: TableMark,
    pub answer: AnswerContent<'a>,
    /// The bytes of the table's name; none, and no name is written.
    pub name: &'a [u8],
}

/// What a stream's part is to say that is written.
#[derive(Drop)]
pub struct StreamContent<'a> {
    pub shard: &'a str,
    pub tables: &'a [TableContent<'a>],
}

/// How many bytes a table's part has as it is written. An error is want of memory, since no memory has
/// as many.
pub fn table_part_size(part: &TableContent<'_>) -> Result<usize, AllocError>
    ensures { IfOk result (λ n. n ≡ length (written_table_part (table_content part.now))) }
{
    let answer = bytes_field_size(2, answer_size(&part.answer)?)?;
    let name = text_field_size(3, part.name.len())?;
    let head = size_of_both(number_field_size(1, part.mark.number()), answer)?;
    let size = size_of_both(head, name)?;
    Ok(size)
}

/// Appends a table's part.
fn put_table_part(out: &mut Vec<u8>, part: &TableContent<'_>) -> Result<(), AllocError>
    ensures written { OnOk result (out.new.items ≡ out.old.items ++ written_table_part (table_content part.now)) }
    ensures kept { Begins out.old.items out.new.items }
{
    put_number(out, 1, part.mark.number())?;
    put_bytes_head(out, 2, answer_size(&part.answer)?)?;
    put_answer(out, &part.answer)?;
    put_text(out, 3, part.name)?;
    Ok(())
}

/// Appends a table's part of a checkpoint. An error is want of memory, and leaves what is there.
pub fn write_table_part(out: &mut Vec<u8>, part: &TableContent<'_>) -> Result<(), AllocError>
    ensures written { OnOk result (out.new.items ≡ out.old.items ++ written_table_part (table_content part.now)) }
    ensures unchanged { OnErr result (out.new.items ≡ out.old.items) }
    // A part within the limits that is written is read as this part.
    ensures read_again { TablePartsAreReadAgain }
{
    table_parts_are_read_again();
    out.reserve(table_part_size(part)?)?;
    let before = out.len();
    let outcome = put_table_part(out, part);
    cut_after_error(out, before, outcome)
}

/// How many bytes the parts of tables take.
fn tables_size(tables: &[TableContent<'_>]) -> Result<usize, AllocError>
    ensures { IfOk result (λ n. n ≡ length (written_fields (message_fields 2 (map written_table_part (map table_content tables.now))))) }
{
    let mut size = 0;
    for table in tables {
        let one = bytes_field_size(2, table_part_size(table)?)?;
        size = size_of_both(size, one)?;
    }
    Ok(size)
}

/// Appends the parts of tables.
fn put_tables(out: &mut Vec<u8>, tables: &[TableContent<'_>]) -> Result<(), AllocError>
    ensures written { OnOk result (out.new.items ≡ out.old.items ++ written_fields (message_fields 2 (map written_table_part (map table_content tables.now)))) }
    ensures kept { Begins out.old.items out.new.items }
{
    for table in tables {
        put_bytes_head(out, 2, table_part_size(table)?)?;
        put_table_part(out, table)?;
    }
    Ok(())
}

/// How many bytes a stream's part has as it is written. An error is want of memory, since no memory
/// has as many.
pub fn stream_part_size(part: &StreamContent<'_>) -> Result<usize, AllocError>
    ensures { IfOk result (λ n. n ≡ length (written_stream_part (stream_content part.now))) }
{
    let shard = text_field_size(1, part.shard.len())?;
    size_of_both(shard, tables_size(part.tables)?)
}

/// Appends a stream's part.
fn put_stream_part(out: &mut Vec<u8>, part: &StreamContent<'_>) -> Result<(), AllocError>
    ensures written { OnOk result (out.new.items ≡ out.old.items ++ written_stream_part (stream_content part.now)) }
    ensures kept { Begins out.old.items out.new.items }
{
    put_text(out, 1, part.shard.as_bytes())?;
    put_tables(out, part.tables)?;
    Ok(())
}

/// Appends a stream's part of a checkpoint. An error is want of memory, and leaves what is there.
pub fn write_stream_part(out: &mut Vec<u8>, part: &StreamContent<'_>) -> Result<(), AllocError>
    ensures written { OnOk result (out.new.items ≡ out.old.items ++ written_stream_part (stream_content part.now)) }
    ensures unchanged { OnErr result (out.new.items ≡ out.old.items) }
    // A part within the limits that is written is read as this part.
    ensures read_again { StreamPartsAreReadAgain }
{
    stream_parts_are_read_again();
    out.reserve(stream_part_size(part)?)?;
    let before = out.len();
    let outcome = put_stream_part(out, part);
    cut_after_error(out, before, outcome)
}
