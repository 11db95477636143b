//! Whose feed it is, by the workflow.

ghost use Rattle.std.specs.Prelude.{◌≡◌, ◌<◌, IfOk, IfSome, length, map, position};
ghost use Rattle.std.specs.Arc.{arc_value};
ghost use Rattle.log_feed.specs.Table.{table_value};
ghost use Rattle.log_tables.specs.Column.{wanted_value};
ghost use Rattle.vrepl_transcribe.specs.Private.Steps.{is_of_shard};
ghost use Rattle.vrepl_transcribe.specs.Source.{feed_table_of, first_unplain, place_of_shard, wanted_of};

use filter_rule::{ColumnDef, Plan, Table};
use log_feed::{FeedTable, is_plain_name};
use log_tables::Wanted;
use std::alloc::{AllocError, Global};
use std::sync::Arc;

/// The place of the stream of a shard, by the plans as they are shared.
fn place_among(plans: &[Arc<Plan>], shard: &str) -> Option<usize>
    ensures { result ≡ position (is_of_shard shard.now) plans.now }
{
    plans.iter().position(|plan| plan.shard() == shard)
}

/// The place of the stream of a shard.
pub(crate) fn place_of_shard(plans: &[Arc<Plan>], shard: &str) -> Option<usize>
    ensures { result ≡ place_of_shard (map arc_value plans.now) shard.now }
{
    place_among(plans, shard)
}

/// The place of the first table whose name isn't plain.
pub(crate) fn first_unplain(tables: &[Table]) -> Option<usize>
    ensures place { result ≡ first_unplain tables.now }
    ensures within { IfSome result (λ t. t < length tables.now) }
{
    tables
        .iter()
        .position(|table| !is_plain_name(table.name().as_bytes()))
}

/// A column of a table of the workflow, as it has to stand in the logs.
fn wanted_column<'w>(column: &'w ColumnDef) -> Wanted<'w>
    ensures { wanted_value result ≡ wanted_of column.entry.now }
{
    Wanted {
        name: column.name().as_bytes(),
        type_number: column.type_number(),
    }
}

/// The columns of a table of the workflow, as they have to stand in the logs.
fn wanted_of<'w>(alloc: Global, columns: &'w [ColumnDef]) -> Result<Vec<Wanted<'w>>, AllocError>
    ensures { IfOk result (λ wanted. map wanted_value wanted.items ≡ map wanted_of columns.entry.now) }
{
    let mut wanted = Vec::new(alloc);
    for column in columns {
        wanted.push(wanted_column(column))?;
    }
    Ok(wanted)
}

/// A table of the workflow, as one of a feed.
fn feed_table_of<'w>(alloc: Global, table: &'w Table) -> Result<FeedTable<'w>, AllocError>
    ensures { IfOk result (λ of_feed. table_value of_feed ≡ feed_table_of table.entry.now) }
{
    let columns = wanted_of(alloc, table.columns())?;
    Ok(FeedTable {
        name: table.name(),
        columns,
    })
}

/// The tables of the workflow, as those of a feed.
pub(crate) fn feed_tables_of<'w>(
    alloc: Global,
    tables: &'w [Table],
) -> Result<Vec<FeedTable<'w>>, AllocError>
    ensures { IfOk result (λ of_feed. map table_value of_feed.items ≡ map feed_table_of tables.entry.now) }
{
    let mut of_feed = Vec::new(alloc);
    for table in tables {
        let table = feed_table_of(alloc, table)?;
        of_feed.push(table)?;
    }
    Ok(of_feed)
}
