//! What a feed says of a source's tables, and how far it goes.

ghost use Rattle.std.specs.Prelude.{◌≡◌, map, option_map, replicate, slice_set, IfOk};
ghost use Rattle.std.specs.Str.{bytes_eq};
ghost use Rattle.list_laws.specs.Outcome.{GivesUnless};
ghost use Rattle.vevent.specs.EventValue as value;
ghost use Rattle.vevent.specs.EventView.{event_value};
ghost use Rattle.vevent.specs.Response.{response_of};
ghost use Rattle.source_feed.specs.EventList.{events_of_feed};
ghost use Rattle.source_feed.specs.FaultNumber.{meant_of};
ghost use Rattle.source_feed.specs.Planned.{same_columns};
ghost use Rattle.log_feed.specs.declared.table.Stage.TheVariants.{Filled};
ghost use Rattle.log_feed.specs.Table.{table_value, table_of, field_of};
ghost use Rattle.log_tables.specs.Column.{wanted_value};
ghost use Rattle.log_transcribe.specs.Transcript.{source_value};
ghost use Rattle.log_transcribe.specs.Said.{said_there, event_said, reading_said, feed_said, reached_in, feed_end};
ghost use Rattle.log_transcribe.specs.Private.Sees.{message_said, SeesEvent, SeesMessage};

use crate::transcript::{FeedSource, copy_of};
use feed_bytes::Source;
use gtid_set::GtidSet;
use log_feed::{FeedTable, Stage};
use log_tables::Wanted;
use proto_wire::Frames;
use source_feed::{FeedFault, Groups, read_groups};
use std::alloc::{AllocError, Global};
use vevent::{ColumnFields, Event, FieldEvent, Response};

/// Whether a table has a name.
fn is_named(table: &FeedTable<'_>, name: &[u8]) -> bool
    ensures { result ≡ bytes_eq (table_value table.now).name name.now }
{
    table.name.as_bytes() == name
}

/// The table of a name, and its place.
pub(crate) fn table_of<'t, 'w>(
    tables: &'t [FeedTable<'w>],
    name: &[u8],
) -> Option<(usize, &'t FeedTable<'w>)>
    ensures { option_map (λ x. (x.0, table_value x.1.now)) result ≡ table_of name.now (map table_value tables.entry.now) }
{
    for place in 0..tables.len() {
        let table = &tables[place];
        if is_named(table, name) {
            return Some((place, table));
        }
    }
    None
}

/// The columns of a FIELD are those of a table.
fn are_same_columns(columns: &[Wanted<'_>], fields: ColumnFields<'_>) -> bool
    ensures { result ≡ same_columns (map field_of (map wanted_value columns.now)) fields.entry }
{
    let mut fields = fields;
    for column in columns {
        match fields.next() {
            Some(field) => {
                if column.name != field.name.as_bytes()
                    || u64::from(column.type_number) != field.type_number
                {
                    return false;
                }
            }
            None => return false,
        }
    }
    fields.next().is_none()
}

/// Sets that the table at a place had rows.
fn fill(stages: &mut Vec<Stage>, place: usize)
    ensures { stages.new.items ≡ slice_set stages.old.items place Filled }
{
    if place < stages.len() {
        stages[place] = Stage::Filled;
    }
}

/// Sees the columns of a table, which has to have them, if it is one of the source's.
fn see_there(
    stages: &mut Vec<Stage>,
    found: Option<(usize, &FeedTable<'_>)>,
    fields: ColumnFields<'_>,
) -> Result<(), FeedFault>
    ensures { GivesUnless meant_of (λ x. stages.new.items) result (said_there fields.entry stages.old.items (option_map (λ x. (x.0, table_value x.1.now)) found.entry)) }
{
    match found {
        None => Ok(()),
        Some((place, table)) => {
            if !are_same_columns(&table.columns, fields) {
                return Err(FeedFault::FieldsDiffer);
            }
            fill(stages, place);
            Ok(())
        }
    }
}

/// Sees the columns of a FIELD.
fn see_field(
    source: FeedSource<'_, '_>,
    stages: &mut Vec<Stage>,
    field: &FieldEvent<'_>,
) -> Result<(), FeedFault>
    ensures { GivesUnless meant_of (λ x. stages.new.items) result (event_said (source_value source.entry) (value.Field field.now.table_name field.now.fields) stages.old.items) }
{
    let own = Source::new(source.keyspace, source.shard);
    let found = table_of(source.tables, own.table(field.table_name()).as_bytes());
    see_there(stages, found, field.fields())
}

/// Sees an event.
fn see_event(
    source: FeedSource<'_, '_>,
    stages: &mut Vec<Stage>,
    event: &Event<'_>,
) -> Result<(), FeedFault>
    ensures { GivesUnless meant_of (λ x. stages.new.items) result (event_said (source_value source.entry) (event_value event.now) stages.old.items) }
{
    match event {
        Event::Field(field) => see_field(source, stages, field),
        Event::Gtid(_) => Ok(()),
        Event::Begin => Ok(()),
        Event::Commit => Ok(()),
        Event::Rollback => Ok(()),
        Event::Row(_) => Ok(()),
        Event::Vgtid(_) => Ok(()),
        Event::Ignored(_) => Ok(()),
    }
}

/// Sees the next event of a message, if there is one, and answers that.
fn see_next_event(
    source: FeedSource<'_, '_>,
    stages: &mut Vec<Stage>,
    events: &mut Response<'_>,
) -> Result<bool, FeedFault>
    ensures { SeesEvent (source_value source.entry) events.old result events.new stages.old.items stages.new.items }
{
    match events.next_event() {
        Ok(Some(event)) => match see_event(source, stages, &event) {
            Ok(()) => Ok(true),
            Err(fault) => Err(fault),
        },
        Ok(None) => Ok(false),
        Err(fault) => Err(FeedFault::Event(fault)),
    }
}

/// Sees the events of a message.
fn see_message(
    source: FeedSource<'_, '_>,
    stages: &mut Vec<Stage>,
    message: &[u8],
) -> Result<(), FeedFault>
    ensures { GivesUnless meant_of (λ x. stages.new.items) result (message_said (source_value source.entry) (response_of message.now) stages.old.items) }
{
    let mut events = Response::new(message);
    loop {
        match see_next_event(source, stages, &mut events) {
            Ok(more) => {
                if !more {
                    return Ok(());
                }
            }
            Err(fault) => return Err(fault),
        }
    }
}

/// Sees the next message of a feed, if there is one, and answers that.
fn see_next_message(
    source: FeedSource<'_, '_>,
    stages: &mut Vec<Stage>,
    frames: &mut Frames<'_>,
) -> Result<bool, FeedFault>
    ensures { SeesMessage (source_value source.entry) frames.old result frames.new stages.old.items stages.new.items }
{
    match frames.next_frame() {
        Ok(Some(message)) => match see_message(source, stages, message) {
            Ok(()) => Ok(true),
            Err(fault) => Err(fault),
        },
        Ok(None) => Ok(false),
        Err(_) => Err(FeedFault::Frame),
    }
}

/// Sees the messages of a feed.
fn see_feed(
    source: FeedSource<'_, '_>,
    stages: &mut Vec<Stage>,
    feed: &[u8],
) -> Result<(), FeedFault>
    ensures { GivesUnless meant_of (λ x. stages.new.items) result (reading_said (source_value source.entry) (events_of_feed feed.now) stages.old.items) }
{
    let mut frames = Frames::new(feed);
    loop {
        match see_next_message(source, stages, &mut frames) {
            Ok(more) => {
                if !more {
                    return Ok(());
                }
            }
            Err(fault) => return Err(fault),
        }
    }
}

/// Tables of all of which this is said.
fn all_of(alloc: Global, count: usize, stage: Stage) -> Result<Vec<Stage>, AllocError>
    ensures { IfOk result (λ stages. stages.items ≡ replicate count stage) }
{
    let mut stages = Vec::new(alloc);
    stages.resize(count, stage)?;
    Ok(stages)
}

/// What a feed says of each table of the source, where this is said of one that it doesn't have.
pub(crate) fn stages_of(
    alloc: Global,
    source: FeedSource<'_, '_>,
    unsaid: Stage,
    feed: &[u8],
) -> Result<Vec<Stage>, FeedFault>
    ensures { GivesUnless meant_of (λ stages. stages.items) result (feed_said (source_value source.entry) unsaid feed.now) }
{
    let mut stages = all_of(alloc, source.tables.len(), unsaid)?;
    see_feed(source, &mut stages, feed)?;
    Ok(stages)
}

/// The position of a feed's last group.
fn reached_in(alloc: Global, feed: &[u8], groups: &Groups<'_>) -> Result<GtidSet, FeedFault>
    ensures { GivesUnless meant_of (λ set. set) result (reached_in feed.now groups.now.items) }
{
    match groups.get(groups.len().saturating_sub(1)) {
        Some(group) => {
            let reached = copy_of(alloc, group.position())?;
            Ok(reached)
        }
        None => {
            if feed.is_empty() {
                return Ok(GtidSet::new());
            }
            Err(FeedFault::NoGroup { groups: 0 })
        }
    }
}

/// The position that a feed reaches. An error is its first fault, or want of memory.
#[tactic(auto, unfolding(crate::specs::Said::feed_end))]
pub(crate) fn end_of(
    alloc: Global,
    source: FeedSource<'_, '_>,
    feed: &[u8],
) -> Result<GtidSet, FeedFault>
    ensures { GivesUnless meant_of (λ set. set) result (feed_end (source_value source.entry) feed.now) }
{
    let groups = read_groups(alloc, feed, source.keyspace, source.shard)?;
    let reached = reached_in(alloc, feed, &groups)?;
    Ok(reached)
}
