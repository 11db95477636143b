//! The rows before and after a row change, in one pass.

ghost use Rattle.std.specs.Prelude.{◌≡◌, ◌||◌, ◌&&◌, ℕ, List, [], None, Some, MatchResult};
ghost use Rattle.std.specs.Result.{result_err};
ghost use Rattle.proto_wire.specs.Field.{fields_of};
ghost use Rattle.row_view.specs.Row.{row_of_message};
ghost use Rattle.std.specs.Option.{option_or};
ghost use Rattle.vevent.specs.Private.Singular.{repeats_behind};
ghost use Rattle.vevent.specs.Private.ColumnCount.{all_have, image_has};
ghost use Rattle.vevent.specs.Private.EventParts.{AreImages};

use crate::column_count::ColumnCount;
use crate::singular::Singular;
use crate::walk::{MessageParts, walk};
use proto_wire::{Field, Payload, WireFault};
use row_view::{RowFault, RowView};

/// What was met so far of a row change.
#[derive(Drop)]
pub(crate) struct Images<'b> {
    before: Singular<'b>,
    after: Singular<'b>,
    /// whether there is a field besides the rows
    pub(crate) is_partial: bool,
    /// the first fault of a row
    pub(crate) fault: Option<RowFault>,
    /// how many columns the rows have
    pub(crate) columns: ColumnCount,
}

impl<'b> Images<'b> {
    /// Nothing was met.
    fn new() -> Images<'b>
        ensures { (change : List ℕ) → AreImages change result (fields_of change).items }
    {
        Images {
            before: Singular::Absent,
            after: Singular::Absent,
            is_partial: false,
            fault: None,
            columns: ColumnCount::NoRow,
        }
    }

    /// Reads a row: how many columns it has, or else its fault, where none was found before.
    fn put_row(&mut self, row: &[u8])
        ensures fault { self.new.fault ≡ option_or self.old.fault (result_err (row_of_message row.now)) }
        ensures columns { (wanted : ℕ) → all_have self.new.columns wanted ≡ (all_have self.old.columns wanted && image_has wanted row.now) }
        ensures before { self.new.before ≡ self.old.before }
        ensures after { self.new.after ≡ self.old.after }
        ensures partial { self.new.is_partial ≡ self.old.is_partial }
    {
        match RowView::read(row) {
            Ok(row) => self.columns = self.columns.and(ColumnCount::Same(row.len())),
            Err(fault) => self.fault = self.fault.or(Some(fault)),
        }
    }

    /// Whether there are two rows before or two after.
    pub(crate) fn repeats(&self) -> bool
        ensures { result ≡ (repeats_behind self.now.before [] || repeats_behind self.now.after []) }
    {
        self.before.repeats() || self.after.repeats()
    }
}

impl<'b> MessageParts<'b> for Images<'b> {
    ghost inside = { λ _ _ _. None };

    ghost make_up = { AreImages };

    fn put(&mut self, field: Field<'b>) -> Result<(), WireFault> {
        match (field.number, field.payload) {
            (1, Payload::Bytes(row)) => {
                self.before.put(row);
                self.put_row(row);
            }
            (2, Payload::Bytes(row)) => {
                self.after.put(row);
                self.put_row(row);
            }
            (1 | 2, _) => {}
            _ => self.is_partial = true,
        }
        Ok(())
    }
}

/// The rows of a row change, or why it isn't a list of fields.
#[tactic(auto, using(crate::proofs::Walks::first_in_none))]
pub(crate) fn images_of(change: &[u8]) -> Result<Images<'_>, WireFault>
    ensures { MatchResult result
        (λ images. ((fields_of change.now).fault ≡ None) × AreImages change.now images [])
        (λ fault. (fields_of change.now).fault ≡ Some fault) }
{
    let mut images = Images::new();
    walk(change, &mut images)?;
    Ok(images)
}
