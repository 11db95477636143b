//! The changes of a row event as those of a feed, in bytes.

ghost use Rattle.std.specs.Prelude.{◌≡◌, ◌<◌, ◌++◌, length, map, OnOk};
ghost use Rattle.list_laws.specs.Outcome.{GivesUnless};
ghost use Rattle.proto_wire.specs.Writing.{written_field, message_field};
ghost use Rattle.log_tables.specs.Column.{column_value};
ghost use Rattle.log_rows.specs.Change.{changes_of};
ghost use Rattle.log_rows.specs.Written.{cells_value};
ghost use Rattle.log_feed.specs.Fault.{trouble_meant, trouble_of};
ghost use Rattle.log_feed.specs.Private.Bytes.{row_bytes, with_row, change_bytes, with_change, with_changes, PutsIf, PutsNext};

use crate::fault::{Trouble, TroubleError};
use log_rows::{RowError, Rows, RowsKind, WrittenCells};
use log_tables::LogColumn;
use proto_wire::{put_bytes_head, put_text};
use std::alloc::{AllocError, Global};

/// How many bytes a row's message may have.
const LIMIT: usize = 1 << 24;

/// Appends a message under a field number.
pub(crate) fn put_message(out: &mut Vec<u8>, number: u32, message: &[u8]) -> Result<(), AllocError>
    ensures { OnOk result (out.new.items ≡ out.old.items ++ written_field (message_field number message.now)) }
{
    put_bytes_head(out, number, message.len())?;
    out.extend_from_slice(message)?;
    Ok(())
}

/// Makes the message of a row's cells.
fn fill_row(row: &mut Vec<u8>, cells: &WrittenCells) -> Result<(), AllocError>
    ensures { OnOk result (row.new.items ≡ row_bytes (cells_value cells.now)) }
{
    row.clear();
    put_text(row, 1, &cells.lengths)?;
    put_text(row, 2, &cells.values)?;
    Ok(())
}

/// Appends the message of a row's cells under a field number.
fn put_row(
    out: &mut Vec<u8>,
    row: &mut Vec<u8>,
    number: u32,
    cells: &WrittenCells,
) -> Result<(), TroubleError>
    ensures { GivesUnless trouble_meant (λ x. out.new.items) result (with_row number (cells_value cells.now) out.old.items) }
{
    fill_row(row, cells)?;
    if row.len() > LIMIT {
        return Err(TroubleError::Is(Trouble::TooLong));
    }
    put_message(out, number, row)?;
    Ok(())
}

/// Makes the message of a change.
fn fill_change(
    change: &mut Vec<u8>,
    row: &mut Vec<u8>,
    kind: RowsKind,
    before: &WrittenCells,
    after: &WrittenCells,
) -> Result<(), TroubleError>
    ensures { GivesUnless trouble_meant (λ x. change.new.items) result (change_bytes kind (cells_value before.now) (cells_value after.now)) }
{
    change.clear();
    match kind {
        RowsKind::Write => put_row(change, row, 2, after),
        RowsKind::Delete => put_row(change, row, 1, before),
        RowsKind::Update => match put_row(change, row, 1, before) {
            Ok(()) => put_row(change, row, 2, after),
            Err(error) => Err(error),
        },
    }
}

/// The rows and the messages of one change at a time. Their memory is kept for the next one.
#[derive(Drop)]
pub(crate) struct OneChange {
    before: WrittenCells,
    after: WrittenCells,
    row: Vec<u8>,
    change: Vec<u8>,
}

impl OneChange {
    /// Nothing yet. Takes no memory.
    pub(crate) fn new(alloc: Global) -> OneChange {
        OneChange {
            before: WrittenCells::new(alloc),
            after: WrittenCells::new(alloc),
            row: Vec::new(alloc),
            change: Vec::new(alloc),
        }
    }

    /// Appends the change of the rows that were read.
    #[tactic(auto, unfolding(crate::specs::Private::Bytes::with_change))]
    fn put(&mut self, out: &mut Vec<u8>, kind: RowsKind) -> Result<(), TroubleError>
        ensures { GivesUnless trouble_meant (λ x. out.new.items) result (with_change kind (cells_value self.old.before) (cells_value self.old.after) out.old.items) }
    {
        fill_change(
            &mut self.change,
            &mut self.row,
            kind,
            &self.before,
            &self.after,
        )?;
        put_message(out, 2, &self.change)?;
        Ok(())
    }
}

/// What is wrong with a row.
fn trouble_of(error: RowError) -> TroubleError
    ensures { result ≡ trouble_of error }
{
    match error {
        RowError::Memory => TroubleError::Memory,
        RowError::Fault(fault) => TroubleError::Is(Trouble::Value(fault)),
    }
}

/// Appends a change that was read, if one was, and answers that.
fn put_if(
    one: &mut OneChange,
    out: &mut Vec<u8>,
    kind: RowsKind,
    more: bool,
) -> Result<bool, TroubleError>
    ensures { PutsIf more (with_change kind (cells_value one.old.before) (cells_value one.old.after) out.old.items) result out.old.items out.new.items }
{
    if !more {
        return Ok(false);
    }
    match one.put(out, kind) {
        Ok(()) => Ok(true),
        Err(error) => Err(error),
    }
}

/// Appends the next change, if there is one, and answers that.
fn put_next(
    one: &mut OneChange,
    changes: &mut Rows<'_, '_>,
    out: &mut Vec<u8>,
    kind: RowsKind,
) -> Result<bool, TroubleError>
    ensures { PutsNext kind changes.old result changes.new out.old.items out.new.items }
{
    match changes.next_change(&mut one.before, &mut one.after) {
        Ok(more) => put_if(one, out, kind, more),
        Err(error) => Err(trouble_of(error)),
    }
}

/// Appends all changes of a row event, each as one of a feed's row event.
pub(crate) fn put_changes(
    one: &mut OneChange,
    out: &mut Vec<u8>,
    kind: RowsKind,
    columns: &[LogColumn<'_>],
    rows: &[u8],
) -> Result<(), TroubleError>
    requires { 0 < length columns.now }
    ensures { GivesUnless trouble_meant (λ x. out.new.items) result (with_changes kind (changes_of kind (map column_value columns.now) rows.now).items (changes_of kind (map column_value columns.now) rows.now).fault out.old.items) }
{
    let mut changes = Rows::new(kind, columns, rows);
    loop {
        match put_next(one, &mut changes, out, kind) {
            Ok(more) => {
                if !more {
                    return Ok(());
                }
            }
            Err(error) => return Err(error),
        }
    }
}
