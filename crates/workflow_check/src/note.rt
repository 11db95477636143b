//! What is told of a workflow file.

ghost use Rattle.std.specs.Prelude.{◌≡◌, ◌++◌, IfOk, OnOk, decimal};
ghost use Rattle.std.specs.String.{string_bytes};
ghost use Rattle.workflow_check.specs.Notes.{item_place, class_text, flaw_text, may_stand, note_line};

use shown_text::shown;
use std::alloc::{AllocError, Global};
use std::marker::Model;

/// Why a value of the file is told.
#[derive(Clone, Copy)]
pub enum Flaw {
    /// A member that isn't read.
    Ignored,
    /// A rule that matches no table of the workflow.
    Unmatched,
    /// A stream that has no rule for a table.
    Undecided,
    /// A table of which the streams pass key ranges that don't lie end to end over all ids.
    Untiled,
}

impl Flaw {
    /// Whether it may well be so: a stream may have no rule for a table. The others are faults.
    pub fn may_stand(self) -> bool
        ensures { result ≡ may_stand self }
    {
        matches!(self, Flaw::Undecided)
    }
}

/// What is told of a workflow file: the path of a value, why it is told, and the name of the table of which it
/// is told, empty where the path says it.
#[derive(Drop)]
pub struct Note {
    place: String,
    flaw: Flaw,
    table: String,
}

impl Model for Note {
    ghost use Rattle.std.specs.String.{string_bytes};
    ghost use Rattle.workflow_check.specs.Notes.{NoteValue};

    ghost Value = { NoteValue };

    ghost view = { λ n. record { place = string_bytes n.place; flaw = n.flaw; table = string_bytes n.table } };
}

impl Note {
    /// A note of a path, with a copy of the table's name.
    pub(crate) fn new(
        alloc: Global,
        place: String,
        flaw: Flaw,
        table: &str,
    ) -> Result<Note, AllocError>
        ensures { IfOk result (λ note. note ≡ record { place = string_bytes place; flaw = flaw; table = table.now }) }
    {
        let table = String::from_str(alloc, table)?;
        Ok(Note { place, flaw, table })
    }

    /// The path of what is told, as `tables[3].key`.
    pub fn place(&self) -> &str
        ensures { result.now ≡ self.now.place }
    {
        self.place.as_str()
    }

    /// Why it is told.
    pub fn flaw(&self) -> Flaw
        ensures { result ≡ self.now.flaw }
    {
        self.flaw
    }

    /// The name of the table of which it is told, or nothing.
    pub fn table(&self) -> &str
        ensures { result.now ≡ self.now.table }
    {
        self.table.as_str()
    }
}

/// A number in decimal digits.
pub(crate) fn number_text(alloc: Global, number: usize) -> Result<String, AllocError>
    ensures { IfOk result (λ text. string_bytes text ≡ decimal number) }
{
    format!(in alloc; "{number}")
}

/// The path of an item of a list.
pub(crate) fn item_place(alloc: Global, list: &str, i: usize) -> Result<String, AllocError>
    ensures { IfOk result (λ text. string_bytes text ≡ item_place list.now i) }
{
    let number = number_text(alloc, i)?;
    let mut text = String::from_str(alloc, list)?;
    text.push_str("[")?;
    text.push_str(&number)?;
    text.push_str("]")?;
    Ok(text)
}

/// What is wrong, in words.
pub(crate) fn flaw_text(flaw: Flaw) -> &'static str
    ensures { result.now ≡ flaw_text flaw }
{
    match flaw {
        Flaw::Ignored => "isn't read",
        Flaw::Unmatched => "matches no table",
        Flaw::Undecided => "has no rule for table ",
        Flaw::Untiled => "has ranges that don't tile",
    }
}

/// Whether it is noted or warned of.
fn class_text(flaw: Flaw) -> &'static str
    ensures { result.now ≡ class_text flaw }
{
    if flaw.may_stand() { "note" } else { "warning" }
}

/// The line of a note.
fn note_line(alloc: Global, note: &Note) -> Result<String, AllocError>
    ensures { IfOk result (λ line. string_bytes line ≡ note_line note.now) }
{
    let place = shown(alloc, note.place().as_bytes())?;
    let table = shown(alloc, note.table().as_bytes())?;
    let mut line = String::from_str(alloc, class_text(note.flaw()))?;
    line.push_str(" workflow ")?;
    line.push_str(&place)?;
    line.push_str(" ")?;
    line.push_str(flaw_text(note.flaw()))?;
    line.push_str(&table)?;
    line.push_str("\n")?;
    Ok(line)
}

/// Puts the line of a note behind a text.
pub(crate) fn push_line(alloc: Global, note: &Note, text: &mut String) -> Result<(), AllocError>
    ensures { OnOk result (string_bytes text.new ≡ string_bytes text.old ++ note_line note.now) }
{
    let line = note_line(alloc, note)?;
    text.push_str(&line)?;
    Ok(())
}
