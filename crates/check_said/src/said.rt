//! What `check` says of feeds and of the workflow's file.

ghost use Rattle.std.specs.Prelude.{◌≡◌, IfOk, map};
ghost use Rattle.std.specs.Option.{option_copied};
ghost use Rattle.printing.specs.Printing.{Prints};
ghost use Rattle.feed_check.specs.Report.{check_report_of};
ghost use Rattle.check_said.specs.Said.{are_noted, are_warned, line_or, said_of, with_file};

use crate::told::CheckJson;
use feed_check::{CheckReport, Checked};
use printing::{Out, OutFailed, put_all};
use std::alloc::{AllocError, Global};
use std::marker::Model;
use vrepl_choices::ReportForm;
use workflow_check::{Note, note_lines, notes_of, rules_of};

/// What `check` says, whether it warns of anything, and whether it notes anything: its lines, or in their place a line of
/// JSON.
#[derive(Drop)]
pub struct Said<'c, 'h> {
    text: String,
    line: Option<CheckJson<'c, 'h>>,
    warned: bool,
    noted: bool,
}

impl<'c, 'h> Model for Said<'c, 'h> {
    ghost use Rattle.std.specs.String.{string_bytes};
    ghost use Rattle.feed_check.specs.Report.{ReportValue};
    ghost use Rattle.check_said.specs.Said.{line_or};

    ghost Value = { ReportValue };

    ghost view = { λ s. record { text = line_or s.line (string_bytes s.text); warned = s.warned; noted = s.noted } };
}

/// Whether something is a fault.
fn are_warned(notes: &[Note]) -> bool
    ensures { result ≡ are_warned notes.now }
{
    notes.iter().any(|note| !note.flaw().may_stand())
}

/// Whether something may well be so.
fn are_noted(notes: &[Note]) -> bool
    ensures { result ≡ are_noted notes.now }
{
    notes.iter().any(|note| note.flaw().may_stand())
}

/// A report, behind what the workflow's file says of the tables, and before what is told of the file.
fn with_file<'c, 'h>(
    alloc: Global,
    workflow: &[u8],
    report: &CheckReport,
) -> Result<Said<'c, 'h>, AllocError>
    ensures { IfOk result (λ said. said ≡ with_file workflow.now report.now) }
{
    let notes = notes_of(alloc, workflow)?;
    let lines = note_lines(alloc, &notes)?;
    let mut text = rules_of(alloc, workflow)?;
    text.push_str(report.text())?;
    text.push_str(&lines)?;
    Ok(Said {
        text,
        line: None,
        warned: report.warned() || are_warned(&notes),
        noted: report.noted() || are_noted(&notes),
    })
}

/// The lines of what is said.
fn said_in_lines<'c, 'h>(
    alloc: Global,
    workflow: &[u8],
    files: &[&str],
    checks: &[Checked<'_>],
) -> Result<Said<'c, 'h>, AllocError>
    ensures { IfOk result (λ said. said ≡ with_file workflow.now (check_report_of (map (λ file. file.now) files.now) checks.now)) }
{
    let report = CheckReport::of(alloc, files, checks)?;
    with_file(alloc, workflow, &report)
}

/// Prints a line of JSON, or where there is none a text.
fn print_either<O: Out>(
    line: Option<&CheckJson<'_, '_>>,
    text: &str,
    out: &mut O,
) -> Result<(), OutFailed>
    ensures { Prints result (O.written out.old) (O.written out.new) (line_or (option_copied line.entry) text.now) }
{
    match line {
        None => put_all(out, text.as_bytes()),
        Some(line) => line.print(out),
    }
}

impl<'c, 'h> Said<'c, 'h> {
    /// What is said of a workflow's file and of checks of its feeds, whose files have these names: as one line of
    /// JSON, or in lines. An error is want of memory.
    pub fn of(
        alloc: Global,
        form: ReportForm,
        workflow: &[u8],
        files: &'c [&'c str],
        checks: &'c [Checked<'h>],
    ) -> Result<Said<'c, 'h>, AllocError>
        ensures { IfOk result (λ said. said ≡ said_of form workflow.now (map (λ file. file.now) files.entry.now) checks.entry.now) }
    {
        let said = said_in_lines(alloc, workflow, files, checks)?;
        let warned = said.warned;
        let noted = said.noted;
        match form {
            ReportForm::Lines => Ok(said),
            ReportForm::Json => {
                let line = CheckJson::of(alloc, workflow, files, checks, noted, warned)?;
                Ok(Said {
                    text: String::new(alloc),
                    line: Some(line),
                    warned,
                    noted,
                })
            }
        }
    }

    /// Prints the whole text. Takes no memory. After a fault what was written is a beginning of it.
    pub fn print<O: Out>(&self, out: &mut O) -> Result<(), OutFailed>
        ensures { Prints result (O.written out.old) (O.written out.new) self.now.text }
    {
        print_either(self.line.as_ref(), self.text.as_str(), out)
    }

    /// Whether anything is warned of.
    pub fn warned(&self) -> bool
        ensures { result ≡ self.now.warned }
    {
        self.warned
    }

    /// Whether anything is noted.
    pub fn noted(&self) -> bool
        ensures { result ≡ self.now.noted }
    {
        self.noted
    }
}
