//! What the parts of a checkpoint hold, each in one walk down to its rows.

ghost use Rattle.std.specs.Prelude.{◌≡◌, ℕ, List, None, Some, MatchResult, OnOk};
ghost use Rattle.std.specs.Result.{result_err};
ghost use Rattle.proto_wire.specs.Field.{fields_of};
ghost use Rattle.proto_wire.specs.Parts.{embedded};
ghost use Rattle.vevent.specs.Answer.{answer_wire_fault};
ghost use Rattle.vevent.specs.CheckpointPart.{in_table, table_wire_fault, repeats_in_table, are_table_texts, table_row_fault, in_stream, stream_wire_fault, are_stream_texts};
ghost use Rattle.vevent.specs.Private.PartContents.{IsTable, IsWholeTable, PutsAnswer, IsStream, IsWholeStream, PutsTable};

use crate::answer_parts::{AnswerParts, answer_parts_of};
use crate::singular::Singular;
use crate::text::is_text;
use crate::walk::{MessageParts, walk};
use proto_wire::{Field, Payload, WireFault, single_of};
use row_view::RowFault;

/// The answer in a table's part; an absent one is empty.
pub(crate) fn answer_in(part: &[u8]) -> &[u8]
    ensures { result.now ≡ embedded 2 part.now }
{
    single_of(part, 2).unwrap_or(&[])
}

/// What was met so far of a table's part.
#[derive(Drop)]
pub(crate) struct TableContents<'b> {
    answer: Singular<'b>,
    /// what the first answer holds
    held: AnswerParts<'b>,
}

impl<'b> TableContents<'b> {
    /// Nothing was met.
    fn new() -> TableContents<'b>
        ensures { (part : List ℕ) → IsTable part result (fields_of part).items }
    {
        TableContents {
            answer: Singular::Absent,
            held: AnswerParts::new(),
        }
    }

    /// Meets an answer.
    fn put_answer(&mut self, answer: &'b [u8]) -> Result<(), WireFault>
        ensures wire { result_err result ≡ answer_wire_fault answer.now }
        ensures put { OnOk result (PutsAnswer answer.now self.old self.new) }
    {
        let held = answer_parts_of(answer)?;
        if self.answer.is_absent() {
            self.held = held;
        }
        self.answer.put(answer);
        Ok(())
    }

    /// Whether there are two answers, or two last keys in the first.
    pub(crate) fn repeats(&self) -> bool
        ensures { (part : List ℕ) → IsWholeTable part self.now → result ≡ repeats_in_table part }
    {
        self.answer.repeats() || self.held.repeats()
    }

    /// Whether the texts are ones.
    pub(crate) fn are_texts(&self) -> bool
        ensures { (part : List ℕ) → IsWholeTable part self.now → result ≡ are_table_texts part }
    {
        self.held.are_texts()
    }

    /// What is at fault in the first bad row.
    pub(crate) fn fault(&self) -> Option<RowFault>
        ensures { (part : List ℕ) → IsWholeTable part self.now → result ≡ table_row_fault part }
    {
        self.held.fault
    }
}

impl<'b> MessageParts<'b> for TableContents<'b> {
    ghost inside = { λ _. in_table };

    ghost make_up = { IsTable };

    fn put(&mut self, field: Field<'b>) -> Result<(), WireFault> {
        match (field.number, field.payload) {
            (2, Payload::Bytes(answer)) => self.put_answer(answer),
            _ => Ok(()),
        }
    }
}

/// All that a table's part holds, or the first fault from the left of what isn't a list of fields in it.
pub(crate) fn table_contents_of(part: &[u8]) -> Result<TableContents<'_>, WireFault>
    ensures { MatchResult result
        (λ contents. (table_wire_fault part.now ≡ None) × IsWholeTable part.now contents)
        (λ fault. table_wire_fault part.now ≡ Some fault) }
{
    let mut contents = TableContents::new();
    walk(part, &mut contents)?;
    Ok(contents)
}

/// What was met so far of a stream's part.
#[derive(Drop)]
pub(crate) struct StreamContents<'b> {
    /// the last name of the shard
    shard: &'b [u8],
    /// whether something occurs twice in a table's part
    pub(crate) repeats: bool,
    /// whether the texts of the tables are ones
    are_tables: bool,
    /// the first fault of a row
    pub(crate) fault: Option<RowFault>,
}

impl<'b> StreamContents<'b> {
    /// Nothing was met.
    fn new() -> StreamContents<'b>
        ensures { (part : List ℕ) → IsStream part result (fields_of part).items }
    {
        StreamContents {
            shard: &[],
            repeats: false,
            are_tables: true,
            fault: None,
        }
    }

    /// Meets a table's part.
    fn put_table(&mut self, part: &[u8]) -> Result<(), WireFault>
        ensures wire { result_err result ≡ table_wire_fault part.now }
        ensures put { OnOk result (PutsTable part.now self.old self.new) }
    {
        let table = table_contents_of(part)?;
        self.repeats = self.repeats || table.repeats();
        self.are_tables = self.are_tables && table.are_texts();
        self.fault = self.fault.or(table.fault());
        Ok(())
    }

    /// Whether the texts are ones.
    pub(crate) fn are_texts(&self) -> bool
        ensures { (part : List ℕ) → IsWholeStream part self.now → result ≡ are_stream_texts part }
    {
        is_text(self.shard) && self.are_tables
    }
}

impl<'b> MessageParts<'b> for StreamContents<'b> {
    ghost inside = { λ _. in_stream };

    ghost make_up = { IsStream };

    fn put(&mut self, field: Field<'b>) -> Result<(), WireFault> {
        match (field.number, field.payload) {
            (1, Payload::Bytes(shard)) => {
                self.shard = shard;
                Ok(())
            }
            (2, Payload::Bytes(part)) => self.put_table(part),
            _ => Ok(()),
        }
    }
}

/// All that a stream's part holds, or the first fault from the left of what isn't a list of fields in it.
pub(crate) fn stream_contents_of(part: &[u8]) -> Result<StreamContents<'_>, WireFault>
    ensures { MatchResult result
        (λ contents. (stream_wire_fault part.now ≡ None) × IsWholeStream part.now contents)
        (λ fault. stream_wire_fault part.now ≡ Some fault) }
{
    let mut contents = StreamContents::new();
    walk(part, &mut contents)?;
    Ok(contents)
}
