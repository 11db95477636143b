//! What a file passes of a table from a source shard.

ghost use Rattle.std.specs.Prelude.{◌≡◌, IfOk, map};
ghost use Rattle.std.specs.Option.{option_copied, option_map};
ghost use Rattle.serde_json.specs.View.{view};
ghost use Rattle.filter_text.specs.Views.{rows_said};
ghost use Rattle.filter_text.specs.FilterText.{filter_of};
ghost use Rattle.workflow_check.specs.Passing.{RangedValue};
ghost use Rattle.workflow_check.specs.Rules.{own_vindex, rules_in, first_rule};
ghost use Rattle.tiles_said.specs.Passing.{rows_said_by, passing_by, in_range_if, passing_of, passing_between, stream_among, stream_in, table_among, passing_in, passings_of};
ghost use Rattle.tiles_said.specs.Sources.{SourceValue};

use crate::json::{first_filter, items_at, text_at, vindex_in};
use crate::sources::Source;
use filter_text::{Filter, FilterFault, Rows};
use serde_json::Value;
use std::alloc::{AllocError, Global};
use std::marker::Model;
use vindex::{KeyRange, Vindex};

/// A key range of ids, with the column and the vindex that give a row its id.
#[derive(Drop)]
pub(crate) struct Ranged<'v> {
    pub(crate) column: &'v str,
    pub(crate) vindex: Vindex,
    pub(crate) range: KeyRange,
}

impl<'v> Model for Ranged<'v> {
    ghost use Rattle.workflow_check.specs.Passing.{RangedValue};

    ghost Value = { RangedValue };

    ghost view = { λ r. record { column = r.column.now; vindex = r.vindex; range = r.range } };
}

/// What a file passes of a table from a source shard.
#[derive(Drop)]
pub(crate) enum Passing<'v> {
    /// It hasn't the table, or no stream of the shard.
    Absent,
    /// No row.
    NoRow,
    /// Every row.
    EveryRow,
    /// The rows whose ids are in a range.
    InRange(Ranged<'v>),
}

/// The rows that a filter names.
fn rows_of<'v>(alloc: Global, filter: Option<&'v str>) -> Result<Option<Rows<'v>>, AllocError>
    ensures { IfOk result (λ rows. option_map rows_said rows ≡ rows_said_by (option_map (λ filter. filter.now) filter.entry)) }
{
    let Some(filter) = filter else {
        return Ok(None);
    };
    match Filter::parse(alloc, filter) {
        Ok(filter) => Ok(Some(filter.rows)),
        Err(FilterFault::Memory) => Err(AllocError),
        Err(FilterFault::BadForm) => Ok(None),
    }
}

/// What is passed of a table with this vindex, by the rows that the filter names.
fn passing_by<'v>(own: Option<(&'v str, Vindex)>, rows: Option<Rows<'v>>) -> Passing<'v>
    ensures { result ≡ passing_by (option_map (λ v. (v.0.now, v.1)) own.entry) (option_map rows_said rows.entry) }
{
    match rows {
        None => Passing::NoRow,
        Some(Rows::EveryRow) => Passing::EveryRow,
        Some(Rows::OwnVindex { range }) => match own {
            None => Passing::NoRow,
            Some((column, vindex)) => Passing::InRange(Ranged {
                column,
                vindex,
                range,
            }),
        },
        Some(
            Rows::Named {
                column,
                vindex,
                range,
            },
        ) => Passing::InRange(Ranged {
            column,
            vindex,
            range,
        }),
    }
}

/// What a stream passes of a table.
fn passing_of<'v>(
    alloc: Global,
    name: &str,
    stream: &'v Value,
    table: &'v Value,
) -> Result<Passing<'v>, AllocError>
    ensures { IfOk result (λ passing. passing ≡ passing_of name.now (view stream.entry.now) (view table.entry.now)) }
{
    let rows = rows_of(alloc, first_filter(stream, name))?;
    Ok(passing_by(vindex_in(table), rows))
}

/// The stream of a shard.
fn stream_among<'v>(shard: &str, streams: &'v [Value]) -> Option<&'v Value>
    ensures { option_map (λ stream. view stream.now) result ≡ stream_among shard.now (map view streams.entry.now) }
{
    for stream in streams {
        if shard == text_at(stream, "shard") {
            return Some(stream);
        }
    }
    None
}

/// The stream of a source shard, if the file has one.
fn stream_in<'v>(source: &Source<'_>, file: &'v Value) -> Option<&'v Value>
    ensures { option_map (λ stream. view stream.now) result ≡ stream_in source.now (view file.entry.now) }
{
    if source.keyspace == text_at(file, "keyspace") {
        stream_among(source.shard, items_at(file, "streams"))
    } else {
        None
    }
}

/// The table of a name.
fn table_among<'v>(name: &str, tables: &'v [Value]) -> Option<&'v Value>
    ensures { option_map (λ table. view table.now) result ≡ table_among name.now (map view tables.entry.now) }
{
    for table in tables {
        if name == text_at(table, "name") {
            return Some(table);
        }
    }
    None
}

/// What a file passes of a table from a source shard.
fn passing_in<'v>(
    alloc: Global,
    source: &Source<'_>,
    name: &str,
    file: &'v Value,
) -> Result<Passing<'v>, AllocError>
    ensures { IfOk result (λ passing. passing ≡ passing_in source.now name.now (view file.entry.now)) }
{
    let Some(stream) = stream_in(source, file) else {
        return Ok(Passing::Absent);
    };
    let Some(table) = table_among(name, items_at(file, "tables")) else {
        return Ok(Passing::Absent);
    };
    passing_of(alloc, name, stream, table)
}

/// What each file passes of a table from a source shard.
pub(crate) fn passings_of<'v>(
    alloc: Global,
    source: &Source<'_>,
    name: &str,
    files: &'v [Value],
) -> Result<Vec<Passing<'v>>, AllocError>
    ensures { IfOk result (λ passings. passings.items ≡ passings_of source.now name.now (map view files.entry.now)) }
{
    let mut passings = Vec::with_capacity(alloc, files.len())?;
    for file in files {
        let passing = passing_in(alloc, source, name, file)?;
        passings.push(passing)?;
    }
    Ok(passings)
}
