//! Events of a feed as their bytes.

ghost use Rattle.std.specs.Prelude.{◌≡◌, [], ◌∷◌, map, IfOk, OnOk, ◌++◌};
ghost use Rattle.list_laws.specs.Outcome.{GivesUnless};
ghost use Rattle.proto_wire.specs.Writing.{written_field, written_fields, message_field};
ghost use Rattle.vevent.specs.EventValue.{Begin, Commit, Vgtid};
ghost use Rattle.vevent.specs.WrittenEvent.{message_fields, written_column, written_field_event, written_event};
ghost use Rattle.log_tables.specs.TableMap.{map_value};
ghost use Rattle.log_tables.specs.Column.{wanted_value, column_value, columns_of};
ghost use Rattle.log_rows.specs.Head.{head_value};
ghost use Rattle.log_feed.specs.Fault.{trouble_meant, of_columns};
ghost use Rattle.log_feed.specs.Table.{table_value, field_of};
ghost use Rattle.log_feed.specs.Rows.{field_event_of, row_told, told_under, row_of};
ghost use Rattle.log_feed.specs.Private.Bytes.{event_with, event_bytes, rows_bytes};

use crate::changes::{OneChange, put_changes, put_message};
use crate::fault::{Trouble, TroubleError};
use crate::table::FeedTable;
use log_rows::{RowsHead, RowsKind};
use log_tables::{LogColumn, TableError, TableMap, Wanted, columns_of};
use proto_wire::{put_number, put_text};
use std::alloc::{AllocError, Global};

/// How many bytes a position's text and what is told around it mostly have at most.
const PLACE: usize = 192;

/// How many bytes stand before a message at most: a type, a number and the message's length.
const HEAD: usize = 24;

/// The event of a type with a message under a field number.
fn event_with(alloc: Global, kind: u64, number: u32, message: &[u8]) -> Result<Vec<u8>, AllocError>
    ensures { IfOk result (λ event. event.items ≡ event_with kind number message.now) }
{
    let mut event = Vec::with_capacity(alloc, message.len().saturating_add(HEAD))?;
    put_number(&mut event, 1, kind)?;
    put_message(&mut event, number, message)?;
    Ok(event)
}

/// A BEGIN. An error is want of memory.
pub fn begin_event(alloc: Global) -> Result<Vec<u8>, AllocError>
    ensures { IfOk result (λ event. event.items ≡ written_event Begin) }
{
    let mut event = Vec::new(alloc);
    put_number(&mut event, 1, 2)?;
    Ok(event)
}

/// A COMMIT. An error is want of memory.
pub fn commit_event(alloc: Global) -> Result<Vec<u8>, AllocError>
    ensures { IfOk result (λ event. event.items ≡ written_event Commit) }
{
    let mut event = Vec::new(alloc);
    put_number(&mut event, 1, 3)?;
    Ok(event)
}

/// A VGTID that says the position of a shard, as a text. An error is want of memory.
pub fn position_event(
    alloc: Global,
    keyspace: &str,
    shard: &str,
    position: &str,
) -> Result<Vec<u8>, AllocError>
    ensures { IfOk result (λ event. event.items ≡ written_event (Vgtid (record { keyspace = keyspace.now; shard = shard.now; gtid = position.now } ∷ []))) }
{
    let mut entry = Vec::with_capacity(alloc, PLACE)?;
    put_text(&mut entry, 1, keyspace.as_bytes())?;
    put_text(&mut entry, 2, shard.as_bytes())?;
    put_text(&mut entry, 3, position.as_bytes())?;
    let mut vgtid = Vec::with_capacity(alloc, PLACE)?;
    put_message(&mut vgtid, 1, &entry)?;
    event_with(alloc, 15, 7, &vgtid)
}

/// The message of a column.
fn column_message(alloc: Global, column: &Wanted<'_>) -> Result<Vec<u8>, AllocError>
    ensures { IfOk result (λ message. message.items ≡ written_column (field_of (wanted_value column.now))) }
{
    let mut message = Vec::new(alloc);
    put_text(&mut message, 1, column.name)?;
    put_number(&mut message, 2, u64::from(column.type_number))?;
    Ok(message)
}

/// Appends a column.
fn put_column(alloc: Global, out: &mut Vec<u8>, column: &Wanted<'_>) -> Result<(), AllocError>
    ensures { OnOk result (out.new.items ≡ out.old.items ++ written_field (message_field 2 (written_column (field_of (wanted_value column.now))))) }
{
    let message = column_message(alloc, column)?;
    put_message(out, 2, &message)
}

/// Appends columns.
fn put_columns(alloc: Global, out: &mut Vec<u8>, columns: &[Wanted<'_>]) -> Result<(), AllocError>
    ensures { OnOk result (out.new.items ≡ out.old.items ++ written_fields (message_fields 2 (map written_column (map (λ w. field_of (wanted_value w)) columns.now)))) }
{
    for column in columns {
        put_column(alloc, out, column)?;
    }
    Ok(())
}

/// The message of a table's columns.
fn fields_message(alloc: Global, name: &[u8], columns: &[Wanted<'_>]) -> Result<Vec<u8>, AllocError>
    ensures { IfOk result (λ message. message.items ≡ written_field_event name.now (map field_of (map wanted_value columns.now))) }
{
    let mut message = Vec::new(alloc);
    put_text(&mut message, 1, name)?;
    put_columns(alloc, &mut message, columns)?;
    Ok(message)
}

/// The FIELD that says a table's columns. An error is want of memory.
pub fn field_event(alloc: Global, table: &FeedTable<'_>) -> Result<Vec<u8>, AllocError>
    ensures { IfOk result (λ event. event.items ≡ written_event (field_event_of (table_value table.now))) }
{
    let message = fields_message(alloc, table.name.as_bytes(), &table.columns)?;
    event_with(alloc, 13, 6, &message)
}

/// The columns of a table map, under those of a table.
fn columns_under<'b>(
    alloc: Global,
    table: &FeedTable<'_>,
    table_map: &TableMap<'b>,
) -> Result<Vec<LogColumn<'b>>, TroubleError>
    ensures { GivesUnless trouble_meant (λ cs. map column_value cs.items) result (of_columns (columns_of (table_value table.now).columns (map_value table_map.now))) }
{
    match columns_of(alloc, &table.columns, table_map) {
        Ok(columns) => Ok(columns),
        Err(TableError::Memory) => Err(TroubleError::Memory),
        Err(TableError::Fault(fault)) => Err(TroubleError::Is(Trouble::Columns(fault))),
    }
}

/// The message of one row event at a time. Its memory is kept for the next one.
#[derive(Drop)]
pub(crate) struct OneMessage {
    change: OneChange,
    message: Vec<u8>,
}

impl OneMessage {
    /// Nothing yet. Takes no memory.
    pub(crate) fn new(alloc: Global) -> OneMessage {
        OneMessage {
            change: OneChange::new(alloc),
            message: Vec::new(alloc),
        }
    }
}

/// Makes the message of a row event of a table of this name, under its columns.
fn fill_message(
    one: &mut OneMessage,
    name: &str,
    kind: RowsKind,
    head: &RowsHead<'_>,
    columns: &[LogColumn<'_>],
) -> Result<(), TroubleError>
    ensures { GivesUnless trouble_meant (λ x. one.new.message.items) result (rows_bytes name.now kind (head_value head.now) (map column_value columns.now)) }
{
    if !head.has_all(columns.len()) {
        return Err(TroubleError::Is(Trouble::NotAll));
    }
    one.message.clear();
    put_text(&mut one.message, 1, name.as_bytes())?;
    put_changes(&mut one.change, &mut one.message, kind, columns, head.rows)
}

/// The ROW of a row event of a table of this name, under its columns.
fn row_under(
    alloc: Global,
    one: &mut OneMessage,
    name: &str,
    kind: RowsKind,
    head: &RowsHead<'_>,
    columns: &[LogColumn<'_>],
) -> Result<Vec<u8>, TroubleError>
    ensures { GivesUnless trouble_meant (λ event. event.items) result (event_bytes (row_told name.now (told_under kind (head_value head.now) (map column_value columns.now)))) }
{
    match fill_message(one, name, kind, head, columns) {
        Ok(()) => {
            let event = event_with(alloc, 12, 5, &one.message)?;
            Ok(event)
        }
        Err(error) => Err(error),
    }
}

/// The ROW of a row event.
pub(crate) fn row_event(
    alloc: Global,
    one: &mut OneMessage,
    kind: RowsKind,
    table_map: &TableMap<'_>,
    head: &RowsHead<'_>,
    table: &FeedTable<'_>,
) -> Result<Vec<u8>, TroubleError>
    ensures { GivesUnless trouble_meant (λ event. event.items) result (event_bytes (row_of kind (map_value table_map.now) (head_value head.now) (table_value table.now))) }
{
    let columns = columns_under(alloc, table, table_map)?;
    row_under(alloc, one, table.name, kind, head, &columns)
}
