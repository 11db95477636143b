//! Answers of a stream of rows.

ghost use Rattle.std.specs.Prelude.{◌≡◌, ℕ, List, true, None, IfOk, IfErr, Ok, Err, option_map};
ghost use Rattle.std.specs.Iterator.{YieldsFirstBy, item_count};
ghost use Rattle.proto_wire.specs.Parts.{single};
ghost use Rattle.vevent.specs.declared.fault.EventFault.{EventFault};
ghost use Rattle.vevent.specs.Message.{image_of};
ghost use Rattle.vevent.specs.Judging.{IsValue, IsAtFault};
ghost use Rattle.vevent.specs.Answer.{AnswerValue, answer_of, are_answer_texts, answer_row_fault, answer_conditions, answer_at};

use crate::answer_parts::answer_parts_of;
use crate::fault::EventFault;
use crate::field_event::ColumnFields;
use crate::messages::Messages;
use crate::text::text_of;
use proto_wire::{last_text, single_of};
use row_view::RowBytes;
use std::marker::Model;

/// An answer of a stream of rows (`binlogdata.proto`, VStreamRowsResponse). Seen in contracts as what
/// it says. It is made by reading alone, so its texts are ones and its rows can be read.
#[derive(Drop)]
pub struct RowsAnswer<'b> {
    message: &'b [u8],
}

impl<'b> Model for RowsAnswer<'b> {
    ghost use Rattle.std.specs.Prelude.{◌≡◌, true, None};
    ghost use Rattle.vevent.specs.Answer.{AnswerValue, answer_of, are_answer_texts, answer_row_fault};

    ghost Value = { AnswerValue };

    ghost view = { λ a. answer_of a.message.now };

    ghost invariant = { λ a. (are_answer_texts a.message.now ≡ true) × (answer_row_fault a.message.now ≡ None) };
}

/// The answer that the bytes are, or the first of their faults.
#[tactic(auto, unfolding(crate::specs::Answer::answer_at))]
fn answer_of_bytes(bytes: &[u8]) -> Result<RowsAnswer<'_>, EventFault>
    ensures { result ≡ answer_at bytes.now }
{
    let parts = answer_parts_of(bytes).map_err(EventFault::Wire)?;
    if parts.repeats() {
        return Err(EventFault::RepeatedMessage);
    }
    if !parts.are_texts() {
        return Err(EventFault::NotUtf8);
    }
    if let Some(fault) = parts.fault {
        return Err(EventFault::Row(fault));
    }
    Ok(RowsAnswer { message: bytes })
}

impl<'b> RowsAnswer<'b> {
    /// Reads an answer: fields = 1, pkfields = 2, gtid = 3, rows = 4, lastpk = 5. Fields come in any
    /// order, and others are skipped. Takes no memory.
    ///
    /// Refused in this order, each a condition on the whole answer: `Wire`, `RepeatedMessage`,
    /// `NotUtf8`, `Row`.
    pub fn read(bytes: &'b [u8]) -> Result<RowsAnswer<'b>, EventFault>
        // What is read is the answer that stands in the bytes,
        ensures answer { IfOk result (λ answer. IsValue answer_conditions answer_of bytes.now answer) }
        // and what is refused has this fault.
        ensures refused { IfErr result (λ fault. IsAtFault answer_conditions bytes.now fault) }
        // What stands in the bytes is read,
        ensures every_answer { (value : AnswerValue) → IsValue answer_conditions answer_of bytes.now value → result ≡ Ok value }
        // and each fault is found.
        ensures every_refusal { (fault : EventFault) → IsAtFault answer_conditions bytes.now fault → result ≡ Err fault }
        // The same by a function of the bytes.
        ensures exact { result ≡ answer_at bytes.now }
    {
        answer_of_bytes(bytes)
    }

    /// The answer of a message whose texts are ones and whose rows can be read.
    pub(crate) fn of_answer(message: &'b [u8]) -> RowsAnswer<'b>
        requires texts { are_answer_texts message.now ≡ true }
        requires rows { answer_row_fault message.now ≡ None }
        ensures { result ≡ answer_of message.now }
    {
        RowsAnswer { message }
    }

    /// The columns, in the order of the bytes. Takes no memory.
    pub fn fields(&self) -> ColumnFields<'b>
        ensures { result ≡ self.now.fields }
    {
        ColumnFields::under(self.message, 1)
    }

    /// The columns of the key, in the order of the bytes. Takes no memory.
    pub fn pkfields(&self) -> ColumnFields<'b>
        ensures { result ≡ self.now.pkfields }
    {
        ColumnFields::under(self.message, 2)
    }

    /// The position.
    pub fn gtid(&self) -> &'b str
        ensures { result.now ≡ self.now.gtid }
    {
        text_of(last_text(self.message, 3))
    }

    /// The rows, in the order of the bytes. Takes no memory.
    pub fn rows(&self) -> AnswerRows<'b>
        ensures { result ≡ self.now.rows }
    {
        AnswerRows {
            messages: Messages::new(self.message, 4),
        }
    }

    /// The key of the last row, if there is one. Takes no memory.
    pub fn lastpk(&self) -> Option<RowBytes<'b>>
        ensures { result ≡ self.now.lastpk }
    {
        lastpk_in(self.message)
    }
}

/// The key of the last row of an answer.
fn lastpk_in(answer: &[u8]) -> Option<RowBytes<'_>>
    requires { answer_row_fault answer.now ≡ None }
    ensures { result ≡ option_map image_of (single 5 answer.now) }
{
    let row = single_of(answer, 5)?;
    Some(RowBytes::of_row(row))
}

/// The rows of an answer that are still to come. Seen in contracts as the list of them.
#[derive(Drop)]
pub struct AnswerRows<'b> {
    messages: Messages<'b>,
}

impl<'b> Model for AnswerRows<'b> {
    ghost use Rattle.std.specs.Prelude.{ℕ, List, Option, IsOk, map};
    ghost use Rattle.std.specs.List.{AllByRecursion};
    ghost use Rattle.row_view.specs.Row.{row_of_message};
    ghost use Rattle.vevent.specs.Message.{image_of};

    ghost Value = { List (List (Option (List ℕ))) };

    ghost view = { λ a. map image_of a.messages.items };

    ghost invariant = { λ a. AllByRecursion (λ row. IsOk (row_of_message row)) a.messages.items };
}

impl<'b> Iterator for AnswerRows<'b> {
    type Item = RowBytes<'b>;

    ghost next_gives = { YieldsFirstBy (λ row. row) (λ rest. rest) };

    ghost remaining = { item_count (λ rest. rest) };

    fn next(&mut self) -> Option<RowBytes<'b>> {
        let row = self.messages.next()?;
        Some(RowBytes::of_row(row))
    }
}
