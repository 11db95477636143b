//! What a check of all streams says, as text.

ghost use Rattle.std.specs.Prelude.{◌≡◌, ◌++◌, OnOk, IfOk, map};
ghost use Rattle.std.specs.String.{string_bytes};
ghost use Rattle.feed_check.specs.Clean.{TellsUnlessClean, WarnsUnlessFaultless};
ghost use Rattle.feed_check.specs.Report.{file_name, stream_head, stream_line, counts_line, checked_table_lines, lines_from, notes_from, warnings_from, tables_of, all_notes, all_warnings, has_some, check_report_of};

use crate::checked::Checked;
use crate::last_rows::rows_of_table;
use crate::laws::checks_warn_unless_feeds_are_faultless;
use crate::places::places_text;
use crate::shared::shared_of;
use crate::shared_warning::push_shared_warning;
use crate::warnings::{push_stream_notes, push_stream_warnings};
use filter_rule::Table;
use shown_text::shown;
use std::alloc::{AllocError, Global};
use std::marker::Model;

/// What a check says: a line a stream and a line a table, behind them the lines of its notes, and behind these the lines
/// of its warnings.
#[derive(Drop)]
pub struct CheckReport {
    text: String,
    warned: bool,
    noted: bool,
}

impl Model for CheckReport {
    ghost use Rattle.std.specs.String.{string_bytes};
    ghost use Rattle.feed_check.specs.Report.{ReportValue};

    ghost Value = { ReportValue };

    ghost view = { λ r. record { text = string_bytes r.text; warned = r.warned; noted = r.noted } };
}

impl CheckReport {
    /// What checks of a workflow's streams say, in their order; their files have these names. An error is
    /// want of memory.
    pub fn of(
        alloc: Global,
        files: &[&str],
        checks: &[Checked<'_>],
    ) -> Result<CheckReport, AllocError>
        ensures report { IfOk result (λ report. report ≡ check_report_of (map (λ file. file.now) files.now) checks.now) }
        // It warns of nothing exactly where the feeds are without a fault.
        ensures faultless { IfOk result (λ report. WarnsUnlessFaultless checks.now report.warned) }
        // And notes nothing either exactly where they are clean.
        ensures clean { IfOk result (λ report. TellsUnlessClean checks.now report.warned report.noted) }
    {
        checks_warn_unless_feeds_are_faultless();
        let mut text = all_lines(alloc, files, checks)?;
        let notes = all_notes(alloc, checks)?;
        let warnings = all_warnings(alloc, checks)?;
        text.push_str(&notes)?;
        text.push_str(&warnings)?;
        Ok(CheckReport {
            text,
            warned: has_some(&warnings),
            noted: has_some(&notes),
        })
    }

    /// The whole text.
    pub fn text(&self) -> &str
        ensures { result.now ≡ self.now.text }
    {
        self.text.as_str()
    }

    /// Whether anything is warned of.
    pub fn warned(&self) -> bool
        ensures { result ≡ self.now.warned }
    {
        self.warned
    }

    /// Whether anything is noted.
    pub fn noted(&self) -> bool
        ensures { result ≡ self.now.noted }
    {
        self.noted
    }
}

/// The tables of the workflow, of which there are checks.
pub fn tables_of<'c>(checks: &'c [Checked<'_>]) -> &'c [Table]
    ensures { result.now ≡ tables_of checks.entry.now }
{
    match checks {
        [] => &[],
        [check, ..] => check.tables(),
    }
}

/// Whether a text has a byte.
fn has_some(text: &str) -> bool
    ensures { result ≡ has_some text.now }
{
    !text.is_empty()
}

/// The name of a stream's file.
pub fn file_name<'f>(files: &[&'f str], i: usize) -> &'f str
    ensures { result.now ≡ file_name (map (λ file. file.now) files.now) i }
{
    match files.get(i) {
        None => "",
        Some(file) => *file,
    }
}

/// A stream's number, its file, its shard, and how many groups its feed has.
fn stream_head(
    alloc: Global,
    i: usize,
    file: &str,
    check: &Checked<'_>,
) -> Result<String, AllocError>
    ensures { IfOk result (λ text. string_bytes text ≡ stream_head i file.now check.now) }
{
    let file = shown(alloc, file.as_bytes())?;
    let shard = shown(alloc, check.shard().as_bytes())?;
    let groups = check.len();
    let text = format!(in alloc; "stream {i} file {file} shard {shard} groups {groups}")?;
    Ok(text)
}

/// The line of a stream.
fn stream_line(
    alloc: Global,
    i: usize,
    file: &str,
    check: &Checked<'_>,
) -> Result<String, AllocError>
    ensures { IfOk result (λ text. string_bytes text ≡ stream_line i file.now check.now) }
{
    let head = stream_head(alloc, i, file, check)?;
    let places = places_text(alloc, check)?;
    let line = format!(in alloc; "{head}{places}\n")?;
    Ok(line)
}

/// The line of a table of a stream: its name, how many groups touch it, how many put a row that passes, and how
/// many such rows there are at the feed's end.
fn table_line(
    alloc: Global,
    name: &str,
    touching: usize,
    passing: usize,
    rows: usize,
) -> Result<String, AllocError>
    ensures { IfOk result (λ text. string_bytes text ≡ counts_line name.now touching passing rows) }
{
    let name = shown(alloc, name.as_bytes())?;
    let line = format!(in alloc; "table {name} groups {touching} passing {passing} rows {rows}\n")?;
    Ok(line)
}

/// Puts the lines of a stream's tables behind a text.
fn push_tables(alloc: Global, check: &Checked<'_>, text: &mut String) -> Result<(), AllocError>
    ensures { OnOk result (string_bytes text.new ≡ string_bytes text.old ++ checked_table_lines check.now 0 check.now.plan.tables) }
{
    let tables = check.tables();
    let rows = check.rows(alloc)?;
    for t in 0..tables.len() {
        let line = table_line(
            alloc,
            tables[t].name(),
            check.touching(t),
            check.passing(t),
            rows_of_table(&rows, t),
        )?;
        text.push_str(&line)?;
    }
    Ok(())
}

/// Puts the lines of a stream and its tables behind a text.
fn push_lines(
    alloc: Global,
    i: usize,
    file: &str,
    check: &Checked<'_>,
    text: &mut String,
) -> Result<(), AllocError>
    ensures { OnOk result (string_bytes text.new ≡ string_bytes text.old ++ (stream_line i file.now check.now ++ checked_table_lines check.now 0 check.now.plan.tables)) }
{
    let line = stream_line(alloc, i, file, check)?;
    text.push_str(&line)?;
    push_tables(alloc, check, text)?;
    Ok(())
}

/// The lines of all streams and their tables.
fn all_lines(alloc: Global, files: &[&str], checks: &[Checked<'_>]) -> Result<String, AllocError>
    ensures { IfOk result (λ text. string_bytes text ≡ lines_from (map (λ file. file.now) files.now) 0 checks.now) }
{
    let mut text = String::new(alloc);
    for i in 0..checks.len() {
        push_lines(alloc, i, file_name(files, i), &checks[i], &mut text)?;
    }
    Ok(text)
}

/// The notes of all streams.
fn all_notes(alloc: Global, checks: &[Checked<'_>]) -> Result<String, AllocError>
    ensures { IfOk result (λ text. string_bytes text ≡ all_notes checks.now) }
{
    let mut text = String::new(alloc);
    for i in 0..checks.len() {
        push_stream_notes(alloc, i, &checks[i], &mut text)?;
    }
    Ok(text)
}

/// Puts the warnings of all streams behind a text.
fn push_warnings(alloc: Global, checks: &[Checked<'_>], text: &mut String) -> Result<(), AllocError>
    ensures { OnOk result (string_bytes text.new ≡ string_bytes text.old ++ warnings_from 0 checks.now) }
{
    for i in 0..checks.len() {
        push_stream_warnings(alloc, i, &checks[i], text)?;
    }
    Ok(())
}

/// All warnings.
fn all_warnings(alloc: Global, checks: &[Checked<'_>]) -> Result<String, AllocError>
    ensures { IfOk result (λ text. string_bytes text ≡ all_warnings checks.now) }
{
    let mut text = String::new(alloc);
    push_warnings(alloc, checks, &mut text)?;
    let shared = shared_of(alloc, checks)?;
    push_shared_warning(alloc, tables_of(checks), shared.as_ref(), &mut text)?;
    Ok(text)
}
