//! Writing of row changes and row events.

ghost use Rattle.std.specs.Prelude.{◌≡◌, ◌++◌, map, length, OnOk, IfOk};
ghost use Rattle.proto_wire.specs.Writing.{written_fields, Begins};
ghost use Rattle.vevent.specs.WrittenEvent.{message_fields, row_field, written_change, written_row_event};

use crate::row_event::{RowChange, RowChanges, RowEvent};
use proto_wire::{bytes_field_size, put_bytes_head, put_text, size_of_both, text_field_size};
use row_view::{RowView, row_size, write_row};
use std::alloc::AllocError;

/// How many bytes a row takes under a number; an absent one takes none.
pub(crate) fn row_field_size(number: u32, row: &Option<RowView<'_>>) -> Result<usize, AllocError>
    ensures { IfOk result (λ n. n ≡ length (written_fields (row_field number row.now))) }
{
    match row {
        None => Ok(0),
        Some(row) => bytes_field_size(number, row_size(row)?),
    }
}

/// Appends a row under a number; an absent one isn't written.
pub(crate) fn put_row_field(
    out: &mut Vec<u8>,
    number: u32,
    row: &Option<RowView<'_>>,
) -> Result<(), AllocError>
    ensures written { OnOk result (out.new.items ≡ out.old.items ++ written_fields (row_field number row.now)) }
    ensures kept { Begins out.old.items out.new.items }
{
    if let Some(row) = row {
        put_bytes_head(out, number, row_size(row)?)?;
        write_row(out, row)?;
    }
    Ok(())
}

/// How many bytes a row change has.
fn change_size(change: &RowChange<'_>) -> Result<usize, AllocError>
    ensures { IfOk result (λ n. n ≡ length (written_change change.now)) }
{
    let before = row_field_size(1, &change.before())?;
    size_of_both(before, row_field_size(2, &change.after())?)
}

/// Appends a row change.
fn put_change(out: &mut Vec<u8>, change: &RowChange<'_>) -> Result<(), AllocError>
    ensures written { OnOk result (out.new.items ≡ out.old.items ++ written_change change.now) }
    ensures kept { Begins out.old.items out.new.items }
{
    put_row_field(out, 1, &change.before())?;
    put_row_field(out, 2, &change.after())?;
    Ok(())
}

/// How many bytes row changes take.
fn changes_size(changes: RowChanges<'_>) -> Result<usize, AllocError>
    ensures { IfOk result (λ n. n ≡ length (written_fields (message_fields 2 (map written_change changes.entry)))) }
{
    let mut size = 0;
    for change in changes {
        let one = bytes_field_size(2, change_size(&change)?)?;
        size = size_of_both(size, one)?;
    }
    Ok(size)
}

/// Appends row changes.
fn put_changes(out: &mut Vec<u8>, changes: RowChanges<'_>) -> Result<(), AllocError>
    ensures written { OnOk result (out.new.items ≡ out.old.items ++ written_fields (message_fields 2 (map written_change changes.entry))) }
    ensures kept { Begins out.old.items out.new.items }
{
    for change in changes {
        put_bytes_head(out, 2, change_size(&change)?)?;
        put_change(out, &change)?;
    }
    Ok(())
}

/// How many bytes a row event has.
pub(crate) fn row_event_size(event: &RowEvent<'_>) -> Result<usize, AllocError>
    ensures { IfOk result (λ n. n ≡ length (written_row_event event.now.table_name event.now.changes)) }
{
    let name = text_field_size(1, event.table_name().len())?;
    size_of_both(name, changes_size(event.changes())?)
}

/// Appends a row event.
pub(crate) fn put_row_event(out: &mut Vec<u8>, event: &RowEvent<'_>) -> Result<(), AllocError>
    ensures written { OnOk result (out.new.items ≡ out.old.items ++ written_row_event event.now.table_name event.now.changes) }
    ensures kept { Begins out.old.items out.new.items }
{
    put_text(out, 1, event.table_name().as_bytes())?;
    put_changes(out, event.changes())?;
    Ok(())
}
