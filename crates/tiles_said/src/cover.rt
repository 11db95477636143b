//! What is said of a table from a source shard, by what files pass of it.

ghost use Rattle.std.specs.Prelude.{◌≡◌, ◌++◌, OnOk, map};
ghost use Rattle.tiles_said.specs.Lines.{misfit_lines};
ghost use Rattle.tiles_said.specs.Private.Saying.{said_more, with_misfits, with_shared};
ghost use Rattle.tiles_said.specs.Said.{SaysOf};

use crate::lines::{fine_line, misfit_text, warning_line};
use crate::passing::Passing;
use crate::said::TilesSaid;
use crate::shares::{are_absent, are_alike, are_everything, shares_of, source_range, whole_range};
use crate::sources::Source;
use range_cover::{Misfit, misfits};
use std::alloc::{AllocError, Global};

/// Says a line more.
fn say(line: &str, told: bool, said: &mut TilesSaid) -> Result<(), AllocError>
    ensures { OnOk result (said.new ≡ said_more line.now told said.old) }
{
    said.text.push_str(line)?;
    said.told = said.told || told;
    Ok(())
}

/// Says which ids are in no range or in several.
fn say_misfits(
    alloc: Global,
    names: &[&str],
    source: &Source<'_>,
    table: &str,
    found: &[Misfit<'_>],
    said: &mut TilesSaid,
) -> Result<(), AllocError>
    ensures { OnOk result (said.new ≡ with_misfits (map (λ name. name.now) names.now) source.now table.now found.now said.old) }
{
    for misfit in found {
        let what = misfit_text(alloc, names, misfit)?;
        let line = warning_line(alloc, source, table, &what)?;
        say(&line, true, said)?;
    }
    Ok(())
}

/// Says how so many files share the ids.
fn say_found(
    alloc: Global,
    names: &[&str],
    source: &Source<'_>,
    table: &str,
    count: usize,
    found: &[Misfit<'_>],
    said: &mut TilesSaid,
) -> Result<(), AllocError>
    ensures { OnOk result (said.new ≡ with_shared (map (λ name. name.now) names.now) source.now table.now count found.now said.old) }
{
    if found.is_empty() {
        let line = fine_line(alloc, source, table, count, "once")?;
        return say(&line, false, said);
    }
    say_misfits(alloc, names, source, table, found, said)
}

/// Says what is found of a table from a source shard, of which files pass these rows.
pub(crate) fn say_cover(
    alloc: Global,
    names: &[&str],
    passings: &[Passing<'_>],
    source: &Source<'_>,
    table: &str,
    said: &mut TilesSaid,
) -> Result<(), AllocError>
    ensures { OnOk result (SaysOf (map (λ name. name.now) names.now) source.now passings.now table.now said.old said.new) }
{
    if are_absent(passings) {
        return Ok(());
    }
    let all = whole_range(alloc)?;
    let own = source_range(alloc, source)?;
    let shares = shares_of(alloc, passings, &all)?;
    if are_everything(passings) {
        let line = fine_line(alloc, source, table, shares.len(), "every row")?;
        return say(&line, false, said);
    }
    if !are_alike(passings) {
        let line = warning_line(alloc, source, table, "ranges by other columns or vindexes")?;
        return say(&line, true, said);
    }
    let found = misfits(alloc, &own, &shares)?;
    say_found(alloc, names, source, table, shares.len(), &found, said)
}
