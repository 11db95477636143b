//! Writing of columns and field events.

ghost use Rattle.std.specs.Prelude.{◌≡◌, ◌++◌, map, length, OnOk, IfOk};
ghost use Rattle.proto_wire.specs.Writing.{written_fields, Begins};
ghost use Rattle.vevent.specs.ColumnView.{field_value};
ghost use Rattle.vevent.specs.WrittenEvent.{message_fields, written_column, written_field_event};

use crate::field_event::{ColumnField, ColumnFields, FieldEvent};
use proto_wire::{
    bytes_field_size, number_field_size, put_bytes_head, put_number, put_text, size_of_both,
    text_field_size,
};
use std::alloc::AllocError;

/// How many bytes a column has.
pub(crate) fn column_size(column: &ColumnField<'_>) -> Result<usize, AllocError>
    ensures { IfOk result (λ n. n ≡ length (written_column (field_value column.now))) }
{
    let name = text_field_size(1, column.name.len())?;
    size_of_both(name, number_field_size(2, column.type_number))
}

/// Appends a column.
pub(crate) fn put_column(out: &mut Vec<u8>, column: &ColumnField<'_>) -> Result<(), AllocError>
    ensures written { OnOk result (out.new.items ≡ out.old.items ++ written_column (field_value column.now)) }
    ensures kept { Begins out.old.items out.new.items }
{
    put_text(out, 1, column.name.as_bytes())?;
    put_number(out, 2, column.type_number)?;
    Ok(())
}

/// How many bytes columns take.
fn columns_size(columns: ColumnFields<'_>) -> Result<usize, AllocError>
    ensures { IfOk result (λ n. n ≡ length (written_fields (message_fields 2 (map written_column columns.entry)))) }
{
    let mut size = 0;
    for column in columns {
        let one = bytes_field_size(2, column_size(&column)?)?;
        size = size_of_both(size, one)?;
    }
    Ok(size)
}

/// Appends columns.
fn put_columns(out: &mut Vec<u8>, columns: ColumnFields<'_>) -> Result<(), AllocError>
    ensures written { OnOk result (out.new.items ≡ out.old.items ++ written_fields (message_fields 2 (map written_column columns.entry))) }
    ensures kept { Begins out.old.items out.new.items }
{
    for column in columns {
        put_bytes_head(out, 2, column_size(&column)?)?;
        put_column(out, &column)?;
    }
    Ok(())
}

/// How many bytes a field event has.
pub(crate) fn field_event_size(event: &FieldEvent<'_>) -> Result<usize, AllocError>
    ensures { IfOk result (λ n. n ≡ length (written_field_event event.now.table_name event.now.fields)) }
{
    let name = text_field_size(1, event.table_name().len())?;
    size_of_both(name, columns_size(event.fields())?)
}

/// Appends a field event.
pub(crate) fn put_field_event(out: &mut Vec<u8>, event: &FieldEvent<'_>) -> Result<(), AllocError>
    ensures written { OnOk result (out.new.items ≡ out.old.items ++ written_field_event event.now.table_name event.now.fields) }
    ensures kept { Begins out.old.items out.new.items }
{
    put_text(out, 1, event.table_name().as_bytes())?;
    put_columns(out, event.fields())?;
    Ok(())
}
