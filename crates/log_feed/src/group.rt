//! What a feed tells of a transaction's changes.

ghost use Rattle.std.specs.Prelude.{◌≡◌, ◌++◌, ◌-◌, [], ◌∷◌, length, slice_index_or, slice_set, map, option_map, OnOk};
ghost use Rattle.std.specs.Str.{bytes_eq};
ghost use Rattle.list_laws.specs.Outcome.{GivesUnless};
ghost use Rattle.vevent.specs.WrittenEvent.{written_event};
ghost use Rattle.log_tables.specs.TableMap.{map_value};
ghost use Rattle.log_rows.specs.Head.{head_value};
ghost use Rattle.log_groups.specs.Body.{query_value};
ghost use Rattle.log_groups.specs.Transaction.{done_value};
ghost use Rattle.log_feed.specs.Fault.{trouble_meant, meant, IsOfTable};
ghost use Rattle.log_feed.specs.Table.{table_value, table_of, stage_at};
ghost use Rattle.log_feed.specs.Rows.{field_event_of, row_of, events_of_rows};
ghost use Rattle.log_feed.specs.Group.{altered_at, altered_from, rows_there, rows_at, told_of, told_of_all, with_told};
ghost use Rattle.log_feed.specs.Private.Bytes.{with_event, with_events};

use crate::event::{OneMessage, field_event, row_event};
use crate::fault::{ChangeError, ChangeFault, Trouble, TroubleError};
use crate::statement::alters_to;
use crate::table::{FeedTable, Stage};
use log_groups::{Done, Query};
use log_rows::{RowsHead, RowsKind};
use log_tables::TableMap;
use std::alloc::{AllocError, Global};
use std::marker::Model;

/// What the logs so far say of the table at a place.
fn stage_at(stages: &Vec<Stage>, table: usize) -> Stage
    ensures { result ≡ stage_at stages.now.items table }
{
    match stages.get(table) {
        Some(stage) => *stage,
        None => Stage::Absent,
    }
}

/// Sets what is said of the table at a place, if there is one.
fn set_stage(stages: &mut Vec<Stage>, table: usize, stage: Stage)
    ensures { stages.new.items ≡ slice_set stages.old.items table stage }
{
    if table < stages.len() {
        stages[table] = stage;
    }
}

/// The last byte of a name, by which most tables of one feed differ.
fn last_byte(name: &[u8]) -> u8
    ensures { result ≡ slice_index_or name.now (length name.now - 1) 0 }
{
    match name.get(name.len().saturating_sub(1)) {
        Some(byte) => *byte,
        None => 0,
    }
}

/// Whether a table has a name.
fn is_named(table: &FeedTable<'_>, name: &[u8]) -> bool
    ensures { result ≡ bytes_eq (table_value table.now).name name.now }
{
    let own = table.name.as_bytes();
    if last_byte(own) != last_byte(name) {
        return false;
    }
    own == name
}

/// The table of a name, and its place.
fn table_of<'t, 'w>(tables: &'t [FeedTable<'w>], name: &[u8]) -> Option<(usize, &'t FeedTable<'w>)>
    ensures { option_map (λ x. (x.0, table_value x.1.now)) result ≡ table_of name.now (map table_value tables.entry.now) }
{
    for place in 0..tables.len() {
        let table = &tables[place];
        if is_named(table, name) {
            return Some((place, table));
        }
    }
    None
}

/// The trouble is that of the table at a place.
fn in_table(table: usize, error: TroubleError) -> ChangeError
    ensures { IsOfTable table error result }
{
    match error {
        TroubleError::Memory => ChangeError::Memory,
        TroubleError::Is(trouble) => ChangeError::Fault(ChangeFault { trouble, table }),
    }
}

/// Sets what the table at a place is behind a statement that alters tables.
fn alter_one(
    schema: &[u8],
    table: &FeedTable<'_>,
    stages: &mut Vec<Stage>,
    place: usize,
    query: &Query<'_>,
) -> Result<(), ChangeError>
    ensures { GivesUnless meant (λ x. stages.new.items) result (altered_at place schema.now (query_value query.now) (table_value table.now) stages.old.items) }
{
    match alters_to(
        schema,
        table.name.as_bytes(),
        query,
        stage_at(stages, place),
    ) {
        Ok(stage) => {
            set_stage(stages, place, stage);
            Ok(())
        }
        Err(trouble) => Err(ChangeError::Fault(ChangeFault {
            trouble,
            table: place,
        })),
    }
}

/// Sets what each table is behind a statement that alters tables.
fn alter_all(
    schema: &[u8],
    tables: &[FeedTable<'_>],
    stages: &mut Vec<Stage>,
    query: &Query<'_>,
) -> Result<(), ChangeError>
    ensures { GivesUnless meant (λ x. stages.new.items) result (altered_from 0 schema.now (query_value query.now) (map table_value tables.now) stages.old.items) }
{
    for place in 0..tables.len() {
        if let Err(error) = alter_one(schema, &tables[place], stages, place, query) {
            return Err(error);
        }
    }
    Ok(())
}

/// Appends an event.
fn push_event(events: &mut Vec<Vec<u8>>, event: Vec<u8>) -> Result<(), AllocError>
    ensures { OnOk result (map (λ e. e.items) events.new.items ≡ map (λ e. e.items) events.old.items ++ event.items ∷ []) }
{
    match events.push(event) {
        Ok(()) => Ok(()),
        Err(_) => Err(AllocError),
    }
}

/// Appends the ROW of a row event.
fn put_row(
    alloc: Global,
    one: &mut OneMessage,
    events: &mut Vec<Vec<u8>>,
    kind: RowsKind,
    table_map: &TableMap<'_>,
    head: &RowsHead<'_>,
    table: &FeedTable<'_>,
) -> Result<(), TroubleError>
    ensures { GivesUnless trouble_meant (λ x. map (λ e. e.items) events.new.items) result (with_event (row_of kind (map_value table_map.now) (head_value head.now) (table_value table.now)) (map (λ e. e.items) events.old.items)) }
{
    let event = row_event(alloc, one, kind, table_map, head, table)?;
    push_event(events, event)?;
    Ok(())
}

/// Appends the FIELD of a table, where it had no rows.
fn put_field(
    alloc: Global,
    events: &mut Vec<Vec<u8>>,
    table: &FeedTable<'_>,
) -> Result<(), AllocError>
    ensures { OnOk result (map (λ e. e.items) events.new.items ≡ map (λ e. e.items) events.old.items ++ written_event (field_event_of (table_value table.now)) ∷ []) }
{
    let event = field_event(alloc, table)?;
    push_event(events, event)
}

/// Appends what a feed tells of a row event.
#[tactic(auto, unfolding(crate::specs::Rows::events_of_rows))]
fn put_rows(
    alloc: Global,
    one: &mut OneMessage,
    events: &mut Vec<Vec<u8>>,
    kind: RowsKind,
    table_map: &TableMap<'_>,
    head: &RowsHead<'_>,
    table: &FeedTable<'_>,
    stage: Stage,
) -> Result<(), TroubleError>
    ensures { GivesUnless trouble_meant (λ x. map (λ e. e.items) events.new.items) result (with_events (events_of_rows kind (map_value table_map.now) (head_value head.now) (table_value table.now) stage) (map (λ e. e.items) events.old.items)) }
{
    match stage {
        Stage::Absent => Err(TroubleError::Is(Trouble::NotMade)),
        Stage::Made => {
            put_field(alloc, events, table)?;
            put_row(alloc, one, events, kind, table_map, head, table)
        }
        Stage::Filled => put_row(alloc, one, events, kind, table_map, head, table),
    }
}

/// Appends what a feed tells of rows of the table at a place, which has rows from then on.
fn put_rows_there(
    alloc: Global,
    stages: &mut Vec<Stage>,
    one: &mut OneMessage,
    events: &mut Vec<Vec<u8>>,
    kind: RowsKind,
    table_map: &TableMap<'_>,
    head: &RowsHead<'_>,
    place: usize,
    table: &FeedTable<'_>,
) -> Result<(), ChangeError>
    ensures { GivesUnless meant (λ x. (map (λ e. e.items) events.new.items, stages.new.items)) result (with_told (rows_there place kind (map_value table_map.now) (head_value head.now) stages.old.items (table_value table.now)) (map (λ e. e.items) events.old.items)) }
{
    let stage = stage_at(stages, place);
    match put_rows(alloc, one, events, kind, table_map, head, table, stage) {
        Ok(()) => {
            set_stage(stages, place, Stage::Filled);
            Ok(())
        }
        Err(error) => Err(in_table(place, error)),
    }
}

/// Appends what a feed tells of rows of the table of a map's name, if it is one of the feed.
fn put_rows_at(
    alloc: Global,
    tables: &[FeedTable<'_>],
    stages: &mut Vec<Stage>,
    one: &mut OneMessage,
    events: &mut Vec<Vec<u8>>,
    kind: RowsKind,
    table_map: &TableMap<'_>,
    head: &RowsHead<'_>,
) -> Result<(), ChangeError>
    ensures { GivesUnless meant (λ x. (map (λ e. e.items) events.new.items, stages.new.items)) result (with_told (rows_at kind (map_value table_map.now) (head_value head.now) stages.old.items (table_of (map_value table_map.now).name (map table_value tables.now))) (map (λ e. e.items) events.old.items)) }
{
    match table_of(tables, table_map.name) {
        None => Ok(()),
        Some((place, table)) => put_rows_there(
            alloc, stages, one, events, kind, table_map, head, place, table,
        ),
    }
}

/// Whether two names are the same.
fn is_same(one: &[u8], other: &[u8]) -> bool
    ensures { result ≡ bytes_eq one.now other.now }
{
    one == other
}

/// Appends what a feed tells of a change.
#[tactic(auto, unfolding(crate::specs::Group::told_of))]
fn put_done(
    alloc: Global,
    schema: &[u8],
    tables: &[FeedTable<'_>],
    stages: &mut Vec<Stage>,
    one: &mut OneMessage,
    events: &mut Vec<Vec<u8>>,
    done: &Done<'_>,
) -> Result<(), ChangeError>
    ensures { GivesUnless meant (λ x. (map (λ e. e.items) events.new.items, stages.new.items)) result (with_told (told_of schema.now (map table_value tables.now) (done_value done.now) stages.old.items) (map (λ e. e.items) events.old.items)) }
{
    match done {
        Done::Rows(kind, table_map, head) => {
            if !is_same(table_map.schema, schema) {
                return Ok(());
            }
            put_rows_at(alloc, tables, stages, one, events, *kind, table_map, head)
        }
        Done::Altered(query) => alter_all(schema, tables, stages, query),
    }
}

/// Appends what a feed tells of changes in order.
fn put_all(
    alloc: Global,
    schema: &[u8],
    tables: &[FeedTable<'_>],
    stages: &mut Vec<Stage>,
    one: &mut OneMessage,
    events: &mut Vec<Vec<u8>>,
    changes: &[Done<'_>],
) -> Result<(), ChangeError>
    ensures { GivesUnless meant (λ x. (map (λ e. e.items) events.new.items, stages.new.items)) result (with_told (told_of_all schema.now (map table_value tables.now) (map done_value changes.now) stages.old.items) (map (λ e. e.items) events.old.items)) }
{
    for done in changes {
        if let Err(error) = put_done(alloc, schema, tables, stages, one, events, done) {
            return Err(error);
        }
    }
    Ok(())
}

/// What a feed tells of the transactions of logs, one behind another, under its tables. Seen in contracts as its schema, its
/// tables, and what the logs so far say of each.
#[derive(Drop)]
pub struct GroupWriter<'t, 'w> {
    schema: &'t [u8],
    tables: &'t [FeedTable<'w>],
    stages: Vec<Stage>,
    one: OneMessage,
}

impl<'t, 'w> Model for GroupWriter<'t, 'w> {
    ghost use Rattle.std.specs.Prelude.{map};
    ghost use Rattle.log_feed.specs.Table.{table_value};
    ghost use Rattle.log_feed.specs.Group.{WriterValue};

    ghost Value = { WriterValue };

    ghost view = { λ w. record { schema = w.schema.now; tables = map table_value w.tables.now; stages = w.stages.items } };
}

impl<'t, 'w> GroupWriter<'t, 'w> {
    /// Tells the changes of these tables of a schema, of which the logs before have said so.
    pub fn new(
        schema: &'t [u8],
        tables: &'t [FeedTable<'w>],
        stages: Vec<Stage>,
    ) -> GroupWriter<'t, 'w>
        ensures { result ≡ record { schema = schema.now; tables = map table_value tables.now; stages = stages.items } }
    {
        let one = OneMessage::new(*stages.allocator());
        GroupWriter {
            schema,
            tables,
            stages,
            one,
        }
    }

    /// What a feed tells of a transaction's changes, each event as its bytes; none where it changes no table of the feed. An
    /// error is what is wrong with a table, or want of memory; behind it nothing is told of what the logs say.
    pub fn events_of(
        &mut self,
        alloc: Global,
        changes: &[Done<'_>],
    ) -> Result<Vec<Vec<u8>>, ChangeError>
        ensures told { GivesUnless meant (λ events. (map (λ e. e.items) events.items, self.new.stages)) result (with_told (told_of_all self.old.schema self.old.tables (map done_value changes.now) self.old.stages) []) }
        ensures same { (self.new.schema ≡ self.old.schema) × (self.new.tables ≡ self.old.tables) }
    {
        let mut events = Vec::new(alloc);
        put_all(
            alloc,
            self.schema,
            self.tables,
            &mut self.stages,
            &mut self.one,
            &mut events,
            changes,
        )?;
        Ok(events)
    }
}
