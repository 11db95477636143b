//! Events of a message, each as the field that it is there.

use filter_rule::ColumnDef;
use proto_wire::{
    bytes_field_size, number_field_size, put_bytes_head, put_number, put_text, put_text_head,
    size_of_both, text_field_size,
};
use std::alloc::AllocError;

/// The numbers of the events' types.
const BEGIN: u64 = 2;

const COMMIT: u64 = 3;

const ROW: u64 = 12;

const FIELD: u64 = 13;

const VGTID: u64 = 15;

/// The type of a column whose table isn't known: VARBINARY.
const VARBINARY: u64 = 10262;

/// A table's name as it stands in a feed: behind the keyspace and a dot, where it would lose a part without them.
#[derive(Clone, Copy)]
pub(crate) struct FeedName<'k, 't> {
    keyspace: &'k str,
    table: &'t str,
}

impl<'k, 't> FeedName<'k, 't> {
    /// The name of a table of a keyspace.
    pub(crate) fn new(keyspace: &'k str, table: &'t str) -> FeedName<'k, 't> {
        if loses_a_part(keyspace, table) {
            return FeedName { keyspace, table };
        }
        FeedName {
            keyspace: "",
            table,
        }
    }

    /// How many bytes it has as a field.
    fn size(&self) -> Result<usize, AllocError> {
        text_field_size(1, self.len()?)
    }

    /// How many bytes it has.
    fn len(&self) -> Result<usize, AllocError> {
        if self.keyspace.is_empty() {
            return Ok(self.table.len());
        }
        let front = size_of_both(self.keyspace.len(), 1)?;
        size_of_both(front, self.table.len())
    }

    /// Appends it as a field.
    fn put(&self, out: &mut Vec<u8>) -> Result<(), AllocError> {
        put_text_head(out, 1, self.len()?)?;
        if !self.keyspace.is_empty() {
            out.extend_from_slice(self.keyspace.as_bytes())?;
            out.extend_from_slice(b".")?;
        }
        out.extend_from_slice(self.table.as_bytes())
    }
}

/// Whether a table's name begins with the keyspace and a dot.
fn loses_a_part(keyspace: &str, table: &str) -> bool {
    match table.strip_prefix(keyspace) {
        Some(rest) => !keyspace.is_empty() && rest.starts_with('.'),
        None => false,
    }
}

/// Appends an event of a type that holds nothing.
fn put_plain(out: &mut Vec<u8>, kind: u64) -> Result<(), AllocError> {
    put_bytes_head(out, 1, number_field_size(1, kind))?;
    put_number(out, 1, kind)
}

/// Appends what stands before a message of so many bytes that an event of a type holds under a number.
fn put_head(out: &mut Vec<u8>, kind: u64, number: u32, size: usize) -> Result<(), AllocError> {
    let event = size_of_both(number_field_size(1, kind), bytes_field_size(number, size)?)?;
    put_bytes_head(out, 1, event)?;
    put_number(out, 1, kind)?;
    put_bytes_head(out, number, size)
}

/// Appends a BEGIN.
pub(crate) fn put_begin(out: &mut Vec<u8>) -> Result<(), AllocError> {
    put_plain(out, BEGIN)
}

/// Appends a COMMIT.
pub(crate) fn put_commit(out: &mut Vec<u8>) -> Result<(), AllocError> {
    put_plain(out, COMMIT)
}

/// Appends the VGTID of a shard's position.
pub(crate) fn put_position(
    out: &mut Vec<u8>,
    keyspace: &str,
    shard: &str,
    position: &str,
) -> Result<(), AllocError> {
    let place = size_of_both(
        text_field_size(1, keyspace.len())?,
        text_field_size(2, shard.len())?,
    )?;
    let entry = size_of_both(place, text_field_size(3, position.len())?)?;
    put_head(out, VGTID, 7, bytes_field_size(1, entry)?)?;
    put_bytes_head(out, 1, entry)?;
    put_text(out, 1, keyspace.as_bytes())?;
    put_text(out, 2, shard.as_bytes())?;
    put_text(out, 3, position.as_bytes())
}

/// Appends a column as a field of a FIELD's message.
fn put_column(fields: &mut Vec<u8>, name: &str, type_number: u64) -> Result<(), AllocError> {
    let size = size_of_both(
        text_field_size(1, name.len())?,
        number_field_size(2, type_number),
    )?;
    put_bytes_head(fields, 2, size)?;
    put_text(fields, 1, name.as_bytes())?;
    put_number(fields, 2, type_number)
}

/// Appends the columns of a table of the workflow.
pub(crate) fn put_columns(fields: &mut Vec<u8>, columns: &[ColumnDef]) -> Result<(), AllocError> {
    for column in columns {
        put_column(fields, column.name(), u64::from(column.type_number()))?;
    }
    Ok(())
}

/// Appends so many columns of a table that isn't known, each with its number as its name.
pub(crate) fn put_unknown_columns(fields: &mut Vec<u8>, width: usize) -> Result<(), AllocError> {
    let mut digits = itoa::Buffer::new();
    for i in 0..width {
        put_column(fields, digits.format(i), VARBINARY)?;
    }
    Ok(())
}

/// Appends the FIELD of a table with these columns.
pub(crate) fn put_field(
    out: &mut Vec<u8>,
    name: FeedName<'_, '_>,
    fields: &[u8],
) -> Result<(), AllocError> {
    put_head(out, FIELD, 6, size_of_both(name.size()?, fields.len())?)?;
    name.put(out)?;
    out.extend_from_slice(fields)
}

/// How many bytes a row's message has as a field, if there is one.
fn row_size(number: u32, row: Option<&[u8]>) -> Result<usize, AllocError> {
    match row {
        Some(row) => bytes_field_size(number, row.len()),
        None => Ok(0),
    }
}

/// Appends a row's message as a field, if there is one.
fn put_row(out: &mut Vec<u8>, number: u32, row: Option<&[u8]>) -> Result<(), AllocError> {
    if let Some(row) = row {
        put_bytes_head(out, number, row.len())?;
        out.extend_from_slice(row)?;
    }
    Ok(())
}

/// Appends the ROW of one change of a table's row.
pub(crate) fn put_change(
    out: &mut Vec<u8>,
    name: FeedName<'_, '_>,
    before: Option<&[u8]>,
    after: Option<&[u8]>,
) -> Result<(), AllocError> {
    let change = size_of_both(row_size(1, before)?, row_size(2, after)?)?;
    let size = size_of_both(name.size()?, bytes_field_size(2, change)?)?;
    put_head(out, ROW, 5, size)?;
    name.put(out)?;
    put_bytes_head(out, 2, change)?;
    put_row(out, 1, before)?;
    put_row(out, 2, after)
}
