//! What an answer of a stream of rows holds, in one walk down to its rows.

ghost use Rattle.std.specs.Prelude.{◌≡◌, ℕ, List, [], None, Some, MatchResult, OnOk};
ghost use Rattle.std.specs.Result.{result_err};
ghost use Rattle.proto_wire.specs.Field.{fields_of};
ghost use Rattle.row_view.specs.Row.{row_of_message};
ghost use Rattle.vevent.specs.Answer.{in_answer, answer_wire_fault, are_answer_texts};
ghost use Rattle.vevent.specs.Private.Singular.{repeats_behind};
ghost use Rattle.vevent.specs.Private.AnswerParts.{AreAnswerParts, AreAllAnswerParts, PutsColumn};

use crate::singular::Singular;
use crate::text::is_text;
use crate::walk::{MessageParts, walk};
use crate::wire::check_plain;
use proto_wire::{Field, Payload, WireFault, last_text};
use row_view::{RowFault, RowView};

/// What was met so far of an answer.
#[derive(Drop)]
pub(crate) struct AnswerParts<'b> {
    /// whether the names of the columns are texts
    are_names: bool,
    /// the last position
    gtid: &'b [u8],
    /// the first fault of a row
    pub(crate) fault: Option<RowFault>,
    lastpk: Singular<'b>,
}

/// What is at fault in a row.
fn row_fault_of(row: &[u8]) -> Option<RowFault>
    ensures { result ≡ result_err (row_of_message row.now) }
{
    RowView::read(row).err()
}

impl<'b> AnswerParts<'b> {
    /// Nothing was met.
    pub(crate) fn new() -> AnswerParts<'b>
        ensures { (answer : List ℕ) → AreAnswerParts answer result (fields_of answer).items }
    {
        AnswerParts {
            are_names: true,
            gtid: &[],
            fault: None,
            lastpk: Singular::Absent,
        }
    }

    /// Meets a column.
    fn put_column(&mut self, column: &[u8]) -> Result<(), WireFault>
        ensures wire { result_err result ≡ (fields_of column.now).fault }
        ensures put { OnOk result (PutsColumn column.now self.old self.new) }
    {
        check_plain(column)?;
        self.are_names = self.are_names && is_text(last_text(column, 1));
        Ok(())
    }

    /// Whether there are two last keys.
    pub(crate) fn repeats(&self) -> bool
        ensures { result ≡ repeats_behind self.now.lastpk [] }
    {
        self.lastpk.repeats()
    }

    /// Whether the texts are ones.
    pub(crate) fn are_texts(&self) -> bool
        ensures { (answer : List ℕ) → AreAllAnswerParts answer self.now → result ≡ are_answer_texts answer }
    {
        self.are_names && is_text(self.gtid)
    }
}

impl<'b> MessageParts<'b> for AnswerParts<'b> {
    ghost inside = { λ _. in_answer };

    ghost make_up = { AreAnswerParts };

    fn put(&mut self, field: Field<'b>) -> Result<(), WireFault> {
        match (field.number, field.payload) {
            (1 | 2, Payload::Bytes(column)) => self.put_column(column),
            (3, Payload::Bytes(gtid)) => {
                self.gtid = gtid;
                Ok(())
            }
            (4, Payload::Bytes(row)) => {
                self.fault = self.fault.or(row_fault_of(row));
                Ok(())
            }
            (5, Payload::Bytes(row)) => {
                self.lastpk.put(row);
                self.fault = self.fault.or(row_fault_of(row));
                Ok(())
            }
            _ => Ok(()),
        }
    }
}

/// All that an answer holds, or the first fault from the left of what isn't a list of fields in it.
pub(crate) fn answer_parts_of(answer: &[u8]) -> Result<AnswerParts<'_>, WireFault>
    ensures { MatchResult result
        (λ parts. (answer_wire_fault answer.now ≡ None) × AreAllAnswerParts answer.now parts)
        (λ fault. answer_wire_fault answer.now ≡ Some fault) }
{
    let mut parts = AnswerParts::new();
    walk(answer, &mut parts)?;
    Ok(parts)
}
