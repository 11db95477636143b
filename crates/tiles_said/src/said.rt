//! What is said of workflow files, table by table of each source shard.

ghost use Rattle.std.specs.Prelude.{◌≡◌, IfOk, IfErr, OnOk, map, false};
ghost use Rattle.std.specs.List.{AllByRecursion};
ghost use Rattle.serde_json.specs.View.{view};
ghost use Rattle.tiles_said.specs.Cover.{AreSplit};
ghost use Rattle.tiles_said.specs.Said.{IsRead, IsRefusal, IsSaid, SaysSource, SaysPair, Through};
ghost use Rattle.tiles_said.specs.Sources.{file_in};

use crate::cover::say_cover;
use crate::fault::TilesFault;
use crate::files::{check_files, files_in};
use crate::laws::quiet_tiles_have_each_id_once;
use crate::passing::passings_of;
use crate::sources::{Source, TableName, sources_of, tables_of};
use serde_json::Value;
use std::alloc::{AllocError, Global};
use std::marker::Model;

/// What is said of workflow files, and whether anything of it is a warning.
#[derive(Drop)]
pub struct TilesSaid {
    pub(crate) text: String,
    pub(crate) told: bool,
}

impl Model for TilesSaid {
    ghost use Rattle.std.specs.String.{string_bytes};
    ghost use Rattle.tiles_said.specs.Said.{SaidValue};

    ghost Value = { SaidValue };

    ghost view = { λ s. record { text = string_bytes s.text; told = s.told } };
}

impl TilesSaid {
    /// The lines, one or more for each table of each source shard.
    pub fn text(&self) -> &str
        ensures { result.now ≡ self.now.text }
    {
        self.text.as_str()
    }

    /// Whether there is a warning among them.
    pub fn told(&self) -> bool
        ensures { result ≡ self.now.told }
    {
        self.told
    }
}

/// Says what is found of a table from a source shard.
fn say_pair(
    alloc: Global,
    names: &[&str],
    files: &[Value],
    source: &Source<'_>,
    table: &str,
    said: &mut TilesSaid,
) -> Result<(), AllocError>
    ensures { OnOk result (SaysPair (map (λ name. name.now) names.now) (map view files.now) source.now table.now said.old said.new) }
{
    let passings = passings_of(alloc, source, table, files)?;
    say_cover(alloc, names, &passings, source, table, said)
}

/// Says what is found of the tables from a source shard.
fn say_source(
    alloc: Global,
    names: &[&str],
    files: &[Value],
    tables: &[TableName<'_>],
    source: &Source<'_>,
    said: &mut TilesSaid,
) -> Result<(), AllocError>
    ensures { OnOk result (SaysSource (map (λ name. name.now) names.now) (map view files.now) tables.now source.now said.old said.new) }
{
    for table in tables {
        say_pair(alloc, names, files, source, table.text(), said)?;
    }
    Ok(())
}

/// Says what is found of the tables from all source shards.
fn say_sources(
    alloc: Global,
    names: &[&str],
    files: &[Value],
    tables: &[TableName<'_>],
    sources: &[Source<'_>],
    said: &mut TilesSaid,
) -> Result<(), AllocError>
    ensures { OnOk result (Through (SaysSource (map (λ name. name.now) names.now) (map view files.now) tables.now) sources.now said.old said.new) }
{
    for source in sources {
        say_source(alloc, names, files, tables, source, said)?;
    }
    Ok(())
}

/// What is said of workflow files that are read.
fn said_of(alloc: Global, names: &[&str], files: &[Value]) -> Result<TilesSaid, AllocError>
    ensures { IfOk result (IsSaid (map (λ name. name.now) names.now) (map view files.now)) }
{
    let sources = sources_of(alloc, files)?;
    let tables = tables_of(alloc, files)?;
    let mut said = TilesSaid {
        text: String::new(alloc),
        told: false,
    };
    say_sources(alloc, names, files, &tables, &sources, &mut said)?;
    Ok(said)
}

/// What is said of the workflow files of several targets, which have these names: for each source shard, by its keyspace
/// and its name, and each table whether all targets have each of its rows, or each keyspace id of the shard is in the range
/// of just one target, or where it is in none or in several. A shard's ids are those of its own range, and all where its name
/// is no key range. Targets without the table or a stream of the shard aren't asked; no row has no id, and every row has
/// all ids. Nothing is said where a file is refused, the first of them; an error may be want of memory too.
pub fn tiles_said(alloc: Global, names: &[&str], texts: &[Vec<u8>]) -> Result<TilesSaid, TilesFault>
    ensures said { IfOk result (IsSaid (map (λ name. name.now) names.now) (map file_in (map (λ text. text.items) texts.now))) }
    ensures read { IfOk result (λ _. AllByRecursion IsRead (map (λ text. text.items) texts.now)) }
    ensures refused { IfErr result (IsRefusal (map (λ text. text.items) texts.now)) }
    // Where nothing is warned of each id is in the range of just one target, or all targets have every row.
    ensures split { IfOk result (λ said. said.told ≡ false → AreSplit (map file_in (map (λ text. text.items) texts.now))) }
{
    quiet_tiles_have_each_id_once();
    check_files(alloc, texts)?;
    let files = files_in(alloc, texts)?;
    let said = said_of(alloc, names, &files)?;
    Ok(said)
}
