//! What a row event holds, in one pass over it and its row changes.

ghost use Rattle.std.specs.Prelude.{◌≡◌, ℕ, List, None, Some, MatchResult, OnOk};
ghost use Rattle.std.specs.Result.{result_err};
ghost use Rattle.proto_wire.specs.Field.{fields_of};
ghost use Rattle.vevent.specs.Fault.{in_plain, wire_fault_by};
ghost use Rattle.vevent.specs.Private.EventParts.{AreRowParts, AreAllRowParts, PutsChange};

use crate::column_count::ColumnCount;
use crate::images::images_of;
use crate::walk::{MessageParts, walk};
use proto_wire::{Field, Payload, WireFault};
use row_view::RowFault;

/// What was met so far of a row event.
#[derive(Drop)]
pub(crate) struct RowParts<'b> {
    /// the last name of the table
    pub(crate) table_name: &'b [u8],
    /// whether a row change has two rows before or two after
    pub(crate) repeats: bool,
    /// whether a row change has a field besides its rows
    pub(crate) is_partial: bool,
    /// the first fault of a row
    pub(crate) fault: Option<RowFault>,
    /// how many columns the rows have
    pub(crate) columns: ColumnCount,
}

impl<'b> RowParts<'b> {
    /// Nothing was met.
    pub(crate) fn new() -> RowParts<'b>
        ensures { (row_event : List ℕ) → AreRowParts row_event result (fields_of row_event).items }
    {
        RowParts {
            table_name: &[],
            repeats: false,
            is_partial: false,
            fault: None,
            columns: ColumnCount::NoRow,
        }
    }

    /// Meets a row change.
    fn put_change(&mut self, change: &[u8]) -> Result<(), WireFault>
        ensures wire { result_err result ≡ (fields_of change.now).fault }
        ensures put { OnOk result (PutsChange change.now self.old self.new) }
    {
        let images = images_of(change)?;
        self.repeats = self.repeats || images.repeats();
        self.is_partial = self.is_partial || images.is_partial;
        self.fault = self.fault.or(images.fault);
        self.columns = self.columns.and(images.columns);
        Ok(())
    }
}

impl<'b> MessageParts<'b> for RowParts<'b> {
    ghost inside = { λ _. in_plain 2 };

    ghost make_up = { AreRowParts };

    fn put(&mut self, field: Field<'b>) -> Result<(), WireFault> {
        match (field.number, field.payload) {
            (1, Payload::Bytes(name)) => {
                self.table_name = name;
                Ok(())
            }
            (2, Payload::Bytes(change)) => self.put_change(change),
            _ => Ok(()),
        }
    }
}

/// All that a row event holds, or the first fault from the left of what isn't a list of fields in it.
pub(crate) fn row_parts_of(row_event: &[u8]) -> Result<RowParts<'_>, WireFault>
    ensures { MatchResult result
        (λ parts. (wire_fault_by (in_plain 2) row_event.now ≡ None) × AreAllRowParts row_event.now parts)
        (λ fault. wire_fault_by (in_plain 2) row_event.now ≡ Some fault) }
{
    let mut parts = RowParts::new();
    walk(row_event, &mut parts)?;
    Ok(parts)
}
