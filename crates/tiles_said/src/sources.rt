//! The source shards and the tables of which workflow files speak, each once.

ghost use Rattle.std.specs.Prelude.{◌≡◌, [], IfOk, OnOk, map};
ghost use Rattle.serde_json.specs.View.{view};
ghost use Rattle.tiles_said.specs.Sources.{SourceValue, is_source, has_source, source_in, with_source, with_streams, sources_from, has_name, with_name, with_tables, tables_from};

use crate::json::{items_at, text_at};
use serde_json::Value;
use std::alloc::{AllocError, Global};
use std::marker::Model;

/// A source shard, by the names of its keyspace and its own.
#[derive(Drop)]
pub(crate) struct Source<'v> {
    pub(crate) keyspace: &'v str,
    pub(crate) shard: &'v str,
}

impl<'v> Model for Source<'v> {
    ghost use Rattle.tiles_said.specs.Sources.{SourceValue};

    ghost Value = { SourceValue };

    ghost view = { λ s. record { keyspace = s.keyspace.now; shard = s.shard.now } };
}

/// Whether it is among these.
fn has_source(sources: &[Source<'_>], source: &Source<'_>) -> bool
    ensures { result ≡ has_source sources.now source.now }
{
    for other in sources {
        if source.keyspace == other.keyspace && source.shard == other.shard {
            return true;
        }
    }
    false
}

/// Puts it behind these, unless it is among them.
fn push_source<'v>(source: Source<'v>, sources: &mut Vec<Source<'v>>) -> Result<(), AllocError>
    ensures { OnOk result (sources.new.items ≡ with_source sources.old.items source.entry) }
{
    if !has_source(sources, &source) {
        sources.push(source)?;
    }
    Ok(())
}

/// Puts the shards of a keyspace's streams behind these.
fn push_streams<'v>(
    keyspace: &'v str,
    streams: &'v [Value],
    sources: &mut Vec<Source<'v>>,
) -> Result<(), AllocError>
    ensures { OnOk result (sources.new.items ≡ with_streams keyspace.entry.now sources.old.items (map view streams.entry.now)) }
{
    for stream in streams {
        let shard = text_at(stream, "shard");
        push_source(Source { keyspace, shard }, sources)?;
    }
    Ok(())
}

/// The source shards of files, in the order in which they are first named.
pub(crate) fn sources_of<'v>(
    alloc: Global,
    files: &'v [Value],
) -> Result<Vec<Source<'v>>, AllocError>
    ensures { IfOk result (λ sources. sources.items ≡ sources_from [] (map view files.entry.now)) }
{
    let mut sources = Vec::new(alloc);
    for file in files {
        push_streams(
            text_at(file, "keyspace"),
            items_at(file, "streams"),
            &mut sources,
        )?;
    }
    Ok(sources)
}

/// The name of a table.
#[derive(Drop)]
pub(crate) struct TableName<'v> {
    name: &'v str,
}

impl<'v> Model for TableName<'v> {
    ghost use Rattle.std.specs.Prelude.{ℕ, List};

    ghost Value = { List ℕ };

    ghost view = { λ t. t.name.now };
}

impl<'v> TableName<'v> {
    /// The name.
    pub(crate) fn text(&self) -> &'v str
        ensures { result.now ≡ self.now }
    {
        self.name
    }
}

/// Whether it is among these.
fn has_name(names: &[TableName<'_>], name: &str) -> bool
    ensures { result ≡ has_name names.now name.now }
{
    for other in names {
        if name == other.text() {
            return true;
        }
    }
    false
}

/// Puts it behind these, unless it is among them.
fn push_name<'v>(name: &'v str, names: &mut Vec<TableName<'v>>) -> Result<(), AllocError>
    ensures { OnOk result (names.new.items ≡ with_name names.old.items name.entry.now) }
{
    if !has_name(names, name) {
        names.push(TableName { name })?;
    }
    Ok(())
}

/// Puts the names of tables behind these.
fn push_tables<'v>(tables: &'v [Value], names: &mut Vec<TableName<'v>>) -> Result<(), AllocError>
    ensures { OnOk result (names.new.items ≡ with_tables names.old.items (map view tables.entry.now)) }
{
    for table in tables {
        push_name(text_at(table, "name"), names)?;
    }
    Ok(())
}

/// The names of the tables of files, in the order in which they are first named.
pub(crate) fn tables_of<'v>(
    alloc: Global,
    files: &'v [Value],
) -> Result<Vec<TableName<'v>>, AllocError>
    ensures { IfOk result (λ names. names.items ≡ tables_from [] (map view files.entry.now)) }
{
    let mut names = Vec::new(alloc);
    for file in files {
        push_tables(items_at(file, "tables"), &mut names)?;
    }
    Ok(names)
}
