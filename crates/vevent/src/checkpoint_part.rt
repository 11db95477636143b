//! The parts of a checkpoint: a stream's, and in it a table's.

ghost use Rattle.std.specs.Prelude.{◌≡◌, List, true, None, IfOk, IfErr, Ok, Err};
ghost use Rattle.std.specs.Iterator.{YieldsFirstBy, item_count};
ghost use Rattle.vevent.specs.declared.fault.EventFault.{EventFault};
ghost use Rattle.vevent.specs.Judging.{IsValue, IsAtFault};
ghost use Rattle.vevent.specs.CheckpointPart.{TablePartValue, StreamPartValue, mark_number, mark_of_number, table_part_of, stream_part_of, table_conditions, table_part_at, stream_conditions, stream_part_at};

use crate::fault::EventFault;
use crate::messages::Messages;
use crate::part_contents::{answer_in, stream_contents_of, table_contents_of};
use crate::rows_answer::RowsAnswer;
use crate::text::text_of;
use proto_wire::{last_text, last_varint};
use std::marker::Model;

/// How far a table is copied.
#[derive(Clone, Copy, Debug, PartialEq, Eq)]
pub enum TableMark {
    /// Not at all.
    Waiting,
    /// Up to a key, the last one of the answer.
    Upto,
    /// Wholly.
    Done,
}

impl TableMark {
    /// The number that stands for it: 0 to 2.
    pub fn number(self) -> u64
        ensures { result ≡ mark_number self }
    {
        match self {
            TableMark::Waiting => 0,
            TableMark::Upto => 1,
            TableMark::Done => 2,
        }
    }

    /// The mark of a number, the whole varint; other numbers are none.
    pub fn from_number(number: u64) -> Option<TableMark>
        ensures { result ≡ mark_of_number number }
    {
        match number {
            0 => Some(TableMark::Waiting),
            1 => Some(TableMark::Upto),
            2 => Some(TableMark::Done),
            _ => None,
        }
    }
}

/// A table's part of a checkpoint. Seen in contracts as what it says. It is made by reading alone, so
/// its texts are ones and its rows can be read.
#[derive(Drop)]
pub struct TablePart<'b> {
    message: &'b [u8],
}

impl<'b> Model for TablePart<'b> {
    ghost use Rattle.std.specs.Prelude.{◌≡◌, true, None};
    ghost use Rattle.vevent.specs.CheckpointPart.{TablePartValue, table_part_of, are_table_texts, table_row_fault};

    ghost Value = { TablePartValue };

    ghost view = { λ a. table_part_of a.message.now };

    ghost invariant = { λ a. (are_table_texts a.message.now ≡ true) × (table_row_fault a.message.now ≡ None) };
}

/// The table's part that the bytes are, or the first of their faults.
#[tactic(auto, unfolding(crate::specs::CheckpointPart::table_part_at))]
fn table_of_bytes(bytes: &[u8]) -> Result<TablePart<'_>, EventFault>
    ensures { result ≡ table_part_at bytes.now }
{
    let contents = table_contents_of(bytes).map_err(EventFault::Wire)?;
    if contents.repeats() {
        return Err(EventFault::RepeatedMessage);
    }
    if !contents.are_texts() {
        return Err(EventFault::NotUtf8);
    }
    if let Some(fault) = contents.fault() {
        return Err(EventFault::Row(fault));
    }
    Ok(TablePart { message: bytes })
}

impl<'b> TablePart<'b> {
    /// Reads a table's part: mark = 1, answer = 2, name = 3. Fields come in any order, and others are
    /// skipped; an absent answer is empty. Takes no memory.
    ///
    /// Refused in this order, each a condition on the whole part: `Wire`, `RepeatedMessage`,
    /// `NotUtf8`, `Row`.
    pub fn read(bytes: &'b [u8]) -> Result<TablePart<'b>, EventFault>
        // What is read is the part that stands in the bytes,
        ensures part { IfOk result (λ part. IsValue table_conditions table_part_of bytes.now part) }
        // and what is refused has this fault.
        ensures refused { IfErr result (λ fault. IsAtFault table_conditions bytes.now fault) }
        // What stands in the bytes is read,
        ensures every_part { (value : TablePartValue) → IsValue table_conditions table_part_of bytes.now value → result ≡ Ok value }
        // and each fault is found.
        ensures every_refusal { (fault : EventFault) → IsAtFault table_conditions bytes.now fault → result ≡ Err fault }
        // The same by a function of the bytes.
        ensures exact { result ≡ table_part_at bytes.now }
    {
        table_of_bytes(bytes)
    }

    /// How far the table is copied, or `None` where the number is none of a mark.
    pub fn mark(&self) -> Option<TableMark>
        ensures { result ≡ mark_of_number self.now.mark }
    {
        TableMark::from_number(last_varint(self.message, 1))
    }

    /// The table's rows, as an answer.
    pub fn answer(&self) -> RowsAnswer<'b>
        ensures { result ≡ self.now.answer }
    {
        RowsAnswer::of_answer(answer_in(self.message))
    }

    /// The bytes of the table's name, none where the part has no name. They needn't be UTF-8.
    pub fn name(&self) -> &'b [u8]
        ensures { result.now ≡ self.now.name }
    {
        last_text(self.message, 3)
    }
}

/// A stream's part of a checkpoint. Seen in contracts as what it says. It is made by reading alone,
/// so its texts are ones and its rows can be read.
#[derive(Drop)]
pub struct StreamPart<'b> {
    message: &'b [u8],
}

impl<'b> Model for StreamPart<'b> {
    ghost use Rattle.std.specs.Prelude.{◌≡◌, true, None};
    ghost use Rattle.vevent.specs.CheckpointPart.{StreamPartValue, stream_part_of, are_stream_texts, stream_row_fault};

    ghost Value = { StreamPartValue };

    ghost view = { λ a. stream_part_of a.message.now };

    ghost invariant = { λ a. (are_stream_texts a.message.now ≡ true) × (stream_row_fault a.message.now ≡ None) };
}

/// The stream's part that the bytes are, or the first of their faults.
#[tactic(auto, unfolding(crate::specs::CheckpointPart::stream_part_at))]
fn stream_of_bytes(bytes: &[u8]) -> Result<StreamPart<'_>, EventFault>
    ensures { result ≡ stream_part_at bytes.now }
{
    let contents = stream_contents_of(bytes).map_err(EventFault::Wire)?;
    if contents.repeats {
        return Err(EventFault::RepeatedMessage);
    }
    if !contents.are_texts() {
        return Err(EventFault::NotUtf8);
    }
    if let Some(fault) = contents.fault {
        return Err(EventFault::Row(fault));
    }
    Ok(StreamPart { message: bytes })
}

impl<'b> StreamPart<'b> {
    /// Reads a stream's part: shard = 1, tables = 2. Fields come in any order, and others are skipped.
    /// Takes no memory.
    ///
    /// Refused in this order, each a condition on the whole part: `Wire`, `RepeatedMessage`,
    /// `NotUtf8`, `Row`.
    pub fn read(bytes: &'b [u8]) -> Result<StreamPart<'b>, EventFault>
        // What is read is the part that stands in the bytes,
        ensures part { IfOk result (λ part. IsValue stream_conditions stream_part_of bytes.now part) }
        // and what is refused has this fault.
        ensures refused { IfErr result (λ fault. IsAtFault stream_conditions bytes.now fault) }
        // What stands in the bytes is read,
        ensures every_part { (value : StreamPartValue) → IsValue stream_conditions stream_part_of bytes.now value → result ≡ Ok value }
        // and each fault is found.
        ensures every_refusal { (fault : EventFault) → IsAtFault stream_conditions bytes.now fault → result ≡ Err fault }
        // The same by a function of the bytes.
        ensures exact { result ≡ stream_part_at bytes.now }
    {
        stream_of_bytes(bytes)
    }

    /// The shard's name.
    pub fn shard(&self) -> &'b str
        ensures { result.now ≡ self.now.shard }
    {
        text_of(last_text(self.message, 1))
    }

    /// The parts of the tables, in the order of the bytes. Takes no memory.
    pub fn tables(&self) -> TableParts<'b>
        ensures { result ≡ self.now.tables }
    {
        TableParts {
            messages: Messages::new(self.message, 2),
        }
    }
}

/// The parts of tables that are still to come. Seen in contracts as the list of them.
#[derive(Drop)]
pub struct TableParts<'b> {
    messages: Messages<'b>,
}

impl<'b> Model for TableParts<'b> {
    ghost use Rattle.std.specs.Prelude.{◌≡◌, true, None, List, map};
    ghost use Rattle.std.specs.List.{list_all};
    ghost use Rattle.vevent.specs.CheckpointPart.{TablePartValue, table_part_of, are_table_texts, first_in_tables};

    ghost Value = { List TablePartValue };

    ghost view = { λ a. map table_part_of a.messages.items };

    ghost invariant = { λ a. (list_all are_table_texts a.messages.items ≡ true) × (first_in_tables a.messages.items ≡ None) };
}

impl<'b> Iterator for TableParts<'b> {
    type Item = TablePart<'b>;

    ghost next_gives = { YieldsFirstBy (λ part. part) (λ rest. rest) };

    ghost remaining = { item_count (λ rest. rest) };

    fn next(&mut self) -> Option<TablePart<'b>> {
        Some(TablePart {
            message: self.messages.next()?,
        })
    }
}
