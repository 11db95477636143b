//! Messages that insert rows.

ghost use Rattle.std.specs.Prelude.{◌≡◌, ◌++◌, [], ◌∷◌, map, length, OnOk, OnErr, IfOk};
ghost use Rattle.proto_wire.specs.Writing.{written_fields, Begins};
ghost use Rattle.vevent.specs.WrittenEvent.{message_fields, written_change, written_row_event, written_event};
ghost use Rattle.event_laws.specs.WrittenMessages.{written_response, framed};
ghost use Rattle.feed_bytes.specs.Inserts.{insert_change, inserts};

use proto_wire::{
    bytes_field_size, cut_after_error, number_field_size, put_bytes_head, put_number, put_text,
    put_varint, size_of_both, text_field_size,
};
use row_view::{RowBytes, RowView, row_size, write_row};
use std::alloc::AllocError;

/// The number of a ROW event's type.
const ROW: u64 = 12;

/// How many bytes the change has that inserts a row.
fn insert_size(row: &RowView<'_>) -> Result<usize, AllocError>
    ensures { IfOk result (λ n. n ≡ length (written_change (insert_change row.now))) }
{
    bytes_field_size(2, row_size(row)?)
}

/// Appends the change that inserts a row.
fn put_insert(out: &mut Vec<u8>, row: &RowView<'_>) -> Result<(), AllocError>
    ensures written { OnOk result (out.new.items ≡ out.old.items ++ written_change (insert_change row.now)) }
    ensures kept { Begins out.old.items out.new.items }
{
    put_bytes_head(out, 2, row_size(row)?)?;
    write_row(out, row)
}

/// How many bytes the changes take that insert rows.
fn changes_size(rows: &[RowBytes<'_>]) -> Result<usize, AllocError>
    ensures { IfOk result (λ n. n ≡ length (written_fields (message_fields 2 (map written_change (map insert_change rows.now))))) }
{
    let mut size = 0;
    for row in rows {
        let one = bytes_field_size(2, insert_size(&row.view())?)?;
        size = size_of_both(size, one)?;
    }
    Ok(size)
}

/// Appends the changes that insert rows.
fn put_changes(out: &mut Vec<u8>, rows: &[RowBytes<'_>]) -> Result<(), AllocError>
    ensures written { OnOk result (out.new.items ≡ out.old.items ++ written_fields (message_fields 2 (map written_change (map insert_change rows.now)))) }
    ensures kept { Begins out.old.items out.new.items }
{
    for row in rows {
        let row = row.view();
        put_bytes_head(out, 2, insert_size(&row)?)?;
        put_insert(out, &row)?;
    }
    Ok(())
}

/// How many bytes a row event has that inserts rows.
fn row_event_size(name: &str, rows: &[RowBytes<'_>]) -> Result<usize, AllocError>
    ensures { IfOk result (λ n. n ≡ length (written_row_event name.now (map insert_change rows.now))) }
{
    let name = text_field_size(1, name.len())?;
    size_of_both(name, changes_size(rows)?)
}

/// Appends a row event that inserts rows.
fn put_row_event(out: &mut Vec<u8>, name: &str, rows: &[RowBytes<'_>]) -> Result<(), AllocError>
    ensures written { OnOk result (out.new.items ≡ out.old.items ++ written_row_event name.now (map insert_change rows.now)) }
    ensures kept { Begins out.old.items out.new.items }
{
    put_text(out, 1, name.as_bytes())?;
    put_changes(out, rows)
}

/// How many bytes an event has that inserts rows.
fn event_size(name: &str, rows: &[RowBytes<'_>]) -> Result<usize, AllocError>
    ensures { IfOk result (λ n. n ≡ length (written_event (inserts name.now rows.now))) }
{
    let number = number_field_size(1, ROW);
    let row_event = row_event_size(name, rows)?;
    let body = bytes_field_size(5, row_event)?;
    let size = size_of_both(number, body)?;
    Ok(size)
}

/// Appends an event that inserts rows.
fn put_event(out: &mut Vec<u8>, name: &str, rows: &[RowBytes<'_>]) -> Result<(), AllocError>
    ensures written { OnOk result (out.new.items ≡ out.old.items ++ written_event (inserts name.now rows.now)) }
    ensures kept { Begins out.old.items out.new.items }
{
    put_number(out, 1, ROW)?;
    put_bytes_head(out, 5, row_event_size(name, rows)?)?;
    put_row_event(out, name, rows)
}

/// Appends the message of one event that inserts rows.
fn append_inserts(out: &mut Vec<u8>, name: &str, rows: &[RowBytes<'_>]) -> Result<(), AllocError>
    ensures written { OnOk result (out.new.items ≡ out.old.items ++ framed (written_response (written_event (inserts name.now rows.now) ∷ []))) }
    ensures kept { Begins out.old.items out.new.items }
{
    let event = event_size(name, rows)?;
    let size = bytes_field_size(1, event)?;
    put_varint(out, size as u64)?;
    put_bytes_head(out, 1, event)?;
    put_event(out, name, rows)?;
    Ok(())
}

/// Appends a message of a feed, behind its length, with one event: the ROW that inserts these rows of the table of this
/// name. An error is want of memory, and leaves what is there.
pub fn write_inserts(out: &mut Vec<u8>, name: &str, rows: &[RowBytes<'_>]) -> Result<(), AllocError>
    ensures written { OnOk result (out.new.items ≡ out.old.items ++ framed (written_response (written_event (inserts name.now rows.now) ∷ []))) }
    ensures unchanged { OnErr result (out.new.items ≡ out.old.items) }
{
    let before = out.len();
    let outcome = append_inserts(out, name, rows);
    cut_after_error(out, before, outcome)
}
