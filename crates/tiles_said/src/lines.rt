//! The lines of a table and a source shard.

ghost use Rattle.std.specs.Prelude.{◌≡◌, ◌++◌, IfOk, OnOk, map, decimal};
ghost use Rattle.std.specs.Option.{option_copied};
ghost use Rattle.std.specs.String.{string_bytes};
ghost use Rattle.workflow_check.specs.Passing.{end_text, range_text};
ghost use Rattle.tiles_said.specs.Lines.{pair_text, fine_line, warning_line, file_name, holder_text, holders_text, misfit_text};

use crate::sources::Source;
use range_cover::Misfit;
use shown_text::shown;
use std::alloc::{AllocError, Global};

/// The table and the shard by their names.
fn pair_text(alloc: Global, source: &Source<'_>, table: &str) -> Result<String, AllocError>
    ensures { IfOk result (λ text. string_bytes text ≡ pair_text source.now table.now) }
{
    let mut text = String::from_str(alloc, "table ")?;
    text.push_str(&shown(alloc, table.as_bytes())?)?;
    text.push_str(" shard ")?;
    text.push_str(&shown(alloc, source.keyspace.as_bytes())?)?;
    text.push_str("/")?;
    text.push_str(&shown(alloc, source.shard.as_bytes())?)?;
    Ok(text)
}

/// A number in decimal digits.
fn number_text(alloc: Global, number: usize) -> Result<String, AllocError>
    ensures { IfOk result (λ text. string_bytes text ≡ decimal number) }
{
    format!(in alloc; "{number}")
}

/// The line of a table that is as it should be.
pub(crate) fn fine_line(
    alloc: Global,
    source: &Source<'_>,
    table: &str,
    files: usize,
    how: &str,
) -> Result<String, AllocError>
    ensures { IfOk result (λ text. string_bytes text ≡ fine_line source.now table.now files how.now) }
{
    let mut line = pair_text(alloc, source, table)?;
    line.push_str(" files ")?;
    line.push_str(&number_text(alloc, files)?)?;
    line.push_str(" ")?;
    line.push_str(how)?;
    line.push_str("\n")?;
    Ok(line)
}

/// The line of a warning.
pub(crate) fn warning_line(
    alloc: Global,
    source: &Source<'_>,
    table: &str,
    what: &str,
) -> Result<String, AllocError>
    ensures { IfOk result (λ text. string_bytes text ≡ warning_line source.now table.now what.now) }
{
    let mut line = String::from_str(alloc, "warning ")?;
    line.push_str(&pair_text(alloc, source, table)?)?;
    line.push_str(" ")?;
    line.push_str(what)?;
    line.push_str("\n")?;
    Ok(line)
}

/// The end of a range, nothing where it is open.
fn end_text(alloc: Global, end: Option<&[u8]>) -> Result<String, AllocError>
    ensures { IfOk result (λ text. string_bytes text ≡ end_text (option_copied end.entry)) }
{
    match end {
        None => Ok(String::new(alloc)),
        Some(end) => Ok(hex::encode(alloc, end)?),
    }
}

/// A range by its bounds.
fn range_text(alloc: Global, start: &[u8], end: Option<&[u8]>) -> Result<String, AllocError>
    ensures { IfOk result (λ text. string_bytes text ≡ range_text (record { start = start.now; end = option_copied end.entry })) }
{
    let mut text = hex::encode(alloc, start)?;
    let end = end_text(alloc, end)?;
    text.push_str("-")?;
    text.push_str(&end)?;
    Ok(text)
}

/// The name of a file.
fn file_name<'f>(files: &[&'f str], i: usize) -> &'f str
    ensures { result.now ≡ file_name (map (λ file. file.now) files.now) i }
{
    match files.get(i) {
        None => "",
        Some(file) => *file,
    }
}

/// Puts the names of files behind a text.
fn push_holders(
    alloc: Global,
    files: &[&str],
    holders: &[usize],
    text: &mut String,
) -> Result<(), AllocError>
    ensures { OnOk result (string_bytes text.new ≡ string_bytes text.old ++ holders_text (map (λ file. file.now) files.now) holders.now) }
{
    for holder in holders {
        let name = shown(alloc, file_name(files, *holder).as_bytes())?;
        text.push_str(" file ")?;
        text.push_str(&name)?;
    }
    Ok(())
}

/// Ids that no file passes, or several.
pub(crate) fn misfit_text(
    alloc: Global,
    files: &[&str],
    misfit: &Misfit<'_>,
) -> Result<String, AllocError>
    ensures { IfOk result (λ text. string_bytes text ≡ misfit_text (map (λ file. file.now) files.now) misfit.now) }
{
    let holders = misfit.holders();
    let word = if holders.is_empty() {
        "gap "
    } else {
        "overlap "
    };
    let mut text = String::from_str(alloc, word)?;
    let range = range_text(alloc, misfit.start(), misfit.end())?;
    text.push_str(&range)?;
    push_holders(alloc, files, holders, &mut text)?;
    Ok(text)
}
