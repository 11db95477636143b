//! What `check` says, as one line of JSON.

ghost use Rattle.std.specs.Prelude.{◌≡◌, IfOk, map};
ghost use Rattle.std.specs.Option.{option_copied};
ghost use Rattle.serde_json.specs.Written.{compact_text};
ghost use Rattle.printing.specs.Printing.{Prints};
ghost use Rattle.feed_check.specs.Report.{tables_of};
ghost use Rattle.feed_check.specs.Shared as feeds;
ghost use Rattle.workflow_check.specs.File as file;
ghost use Rattle.workflow_check.specs.Passed as passed;
ghost use Rattle.json_pieces.specs.Pieces.{list_data};
ghost use Rattle.json_pieces.specs.Telling.{Tells, at};
ghost use Rattle.check_said.specs.Private.Parts.{begin_part, end_part};
ghost use Rattle.check_said.specs.Items.{items_with};
ghost use Rattle.check_said.specs.Json.{check_data, json_line, note_data, passed_data, shared_if, streams_data, told_data, whole_data};

use crate::checked_rows::{CheckedRows, with_rows};
use crate::file_notes::{put_notes, put_rules};
use crate::items::{Item, feed_items};
use crate::streams::{put_shared, put_streams};
use crate::told_list::put_told;
use feed_check::{Checked, SharedKey, shared_of, tables_of};
use filter_rule::Table;
use json_pieces::Line;
use printing::{Out, OutFailed};
use std::alloc::{AllocError, Global};
use std::marker::Model;
use workflow_check::{Note, Passed, notes_of, passed_of};

/// What `check` says as one line of JSON: all that the lines say, and of what is told all, not the first ten of a kind.
/// Nothing of its text is kept. Seen in contracts as the line.
#[derive(Drop)]
pub struct CheckJson<'c, 'h> {
    notes: Vec<Note>,
    rules: Vec<Passed>,
    files: &'c [&'c str],
    streams: Vec<CheckedRows<'c, 'h>>,
    told: Vec<Item<'c>>,
    tables: &'c [Table],
    shared: Option<SharedKey<'c, 'h>>,
    noted: bool,
    warned: bool,
}

impl<'c, 'h> Model for CheckJson<'c, 'h> {
    ghost use Rattle.std.specs.Prelude.{ℕ, List, map};
    ghost use Rattle.json_pieces.specs.Pieces.{list_data};
    ghost use Rattle.check_said.specs.Json.{json_line, note_data, passed_data, shared_if, streams_data, told_data, whole_data};

    ghost Value = { List ℕ };

    ghost view = { λ j. json_line (whole_data j.noted (list_data note_data j.notes.items) (list_data passed_data j.rules.items) (streams_data (map (λ file. file.now) j.files.now) j.streams.items) (told_data j.told.items j.notes.items) (shared_if j.tables.now j.shared) j.warned) };
}

/// Puts the beginning of the object, whether anything is noted.
fn put_begin<O: Out>(out: &mut O, line: &mut Line, noted: bool)
    ensures { Tells (at (O.written out.old) line.old) (at (O.written out.new) line.new) (begin_part noted) }
{
    if noted {
        line.put(out, b"{\"noted\":true,\"notes\":");
    } else {
        line.put(out, b"{\"noted\":false,\"notes\":");
    }
}

/// Puts whether anything is warned of, and the end of the object.
fn put_end<O: Out>(out: &mut O, line: &mut Line, warned: bool)
    ensures { Tells (at (O.written out.old) line.old) (at (O.written out.new) line.new) (end_part warned) }
{
    if warned {
        line.put(out, b",\"warned\":true}");
    } else {
        line.put(out, b",\"warned\":false}");
    }
}

/// Puts the whole object.
fn put_whole<O: Out>(
    out: &mut O,
    line: &mut Line,
    noted: bool,
    notes: &[Note],
    rules: &[Passed],
    files: &[&str],
    streams: &[CheckedRows<'_, '_>],
    told: &[Item<'_>],
    tables: &[Table],
    shared: Option<&SharedKey<'_, '_>>,
    warned: bool,
)
    ensures { Tells (at (O.written out.old) line.old) (at (O.written out.new) line.new) (compact_text (whole_data noted (list_data note_data notes.now) (list_data passed_data rules.now) (streams_data (map (λ file. file.now) files.now) streams.now) (told_data told.now notes.now) (shared_if tables.now (option_copied shared.entry)) warned)) }
{
    put_begin(out, line, noted);
    put_notes(out, line, notes);
    line.put(out, b",\"rules\":");
    put_rules(out, line, rules);
    line.put(out, b",\"streams\":");
    put_streams(out, line, files, streams);
    line.put(out, b",\"told\":");
    put_told(out, line, told, notes);
    line.put(out, b",\"touched\":");
    put_shared(out, line, tables, shared);
    put_end(out, line, warned);
}

impl<'c, 'h> CheckJson<'c, 'h> {
    /// What is said of a workflow's file and of checks of its feeds, whose files have these names. Takes memory for what
    /// is told of the file, 64 bytes for each kind of what is told of a table, and 16 bytes for each row that a stream
    /// leaves; an error is want of it.
    pub fn of(
        alloc: Global,
        workflow: &[u8],
        files: &'c [&'c str],
        checks: &'c [Checked<'h>],
        noted: bool,
        warned: bool,
    ) -> Result<CheckJson<'c, 'h>, AllocError>
        ensures { IfOk result (λ made. made ≡ json_line (check_data workflow.now (map (λ file. file.now) files.entry.now) checks.entry.now noted warned)) }
    {
        let shared = shared_of(alloc, checks)?;
        let told = feed_items(alloc, checks, shared.as_ref())?;
        Ok(CheckJson {
            notes: notes_of(alloc, workflow)?,
            rules: passed_of(alloc, workflow)?,
            files,
            streams: with_rows(alloc, checks)?,
            told,
            tables: tables_of(checks),
            shared,
            noted,
            warned,
        })
    }

    /// Prints the line, a piece behind another. Takes no memory. After a fault what was written is a beginning of it.
    pub fn print<O: Out>(&self, out: &mut O) -> Result<(), OutFailed>
        ensures { Prints result (O.written out.old) (O.written out.new) self.now }
    {
        let mut line = Line::new();
        put_whole(
            out,
            &mut line,
            self.noted,
            &self.notes,
            &self.rules,
            self.files,
            &self.streams,
            &self.told,
            self.tables,
            self.shared.as_ref(),
            self.warned,
        );
        line.put(out, b"\n");
        line.finish(out)
    }
}
