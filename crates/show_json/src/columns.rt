//! The names of the columns of a feed's tables.

ghost use Rattle.std.specs.Prelude.{◌≡◌, ℕ, List, [], None, Some, IfOk, OnOk, map, if◌then◌else◌};
ghost use Rattle.std.specs.List.{list_any};
ghost use Rattle.std.specs.Str.{bytes_eq};
ghost use Rattle.show_json.specs.Private.Kept.{IsJudged, told_by};
ghost use Rattle.vevent.specs.EventView.{event_value};
ghost use Rattle.vevent.specs.Response.{response_of};
ghost use Rattle.show_json.specs.Columns.{are_apart, columns_of, is_front, told_at, told_behind, told_with};

use feed_bytes::Source;
use indexmap::IndexMap;
use proto_wire::Frames;
use std::alloc::{AllocError, Global};
use std::collections::hash_map::DefaultHasher;
use std::hash::BuildHasherDefault;
use vevent::{ColumnFields, Event, FieldEvent, Response};

/// Whether the one's names are the first ones of the other.
fn is_front(columns: ColumnFields<'_>, others: ColumnFields<'_>) -> bool
    ensures { result ≡ is_front columns.entry others.entry }
{
    let mut others = others;
    for column in columns {
        match others.next() {
            Some(other) => {
                if column.name != other.name {
                    return false;
                }
            }
            None => return false,
        }
    }
    true
}

/// Whether a name is one of these.
fn is_among(names: &[&str], name: &str) -> bool
    ensures { result ≡ list_any (bytes_eq name.now) (map (λ one. one.now) names.now) }
{
    for one in names {
        if name == *one {
            return true;
        }
    }
    false
}

/// Whether no name is empty or stands twice, and there are at most 256.
fn are_apart(alloc: Global, columns: ColumnFields<'_>) -> Result<bool, AllocError>
    ensures { IfOk result (λ apart. apart ≡ are_apart [] columns.entry) }
{
    let mut names = Vec::new(alloc);
    for column in columns {
        if names.len() >= 256 || column.name.is_empty() || is_among(&names, column.name) {
            return Ok(false);
        }
        names.push(column.name)?;
    }
    Ok(true)
}

/// What FIELD events say of a table: one that has the most columns of them, and whether that names each column as all the
/// others do.
#[derive(Drop)]
pub(crate) struct KeptColumns<'h> {
    columns: FieldEvent<'h>,
    agreed: bool,
}

/// The same behind what is kept of its table.
fn judged_behind(
    alloc: Global,
    kept: &KeptColumns<'_>,
    columns: &FieldEvent<'_>,
) -> Result<Option<bool>, AllocError>
    ensures { IfOk result (λ judged. IsJudged (Some (told_by kept.now)) columns.now.fields judged) }
{
    if is_front(columns.fields(), kept.columns.fields()) {
        return Ok(None);
    }
    if !kept.agreed {
        return Ok(Some(false));
    }
    if !is_front(kept.columns.fields(), columns.fields()) {
        return Ok(Some(false));
    }
    let agreed = are_apart(alloc, columns.fields())?;
    Ok(Some(agreed))
}

/// What the FIELD events of a feed say of each table.
#[derive(Drop)]
pub struct FeedColumns<'h> {
    tables: IndexMap<&'h str, KeptColumns<'h>, BuildHasherDefault<DefaultHasher>>,
}

impl<'h> FeedColumns<'h> {
    ghost use Rattle.show_json.specs.Private.Kept.{IsJudged, columns_in, told_in};
    ghost use Rattle.show_json.specs.Private.Listed.{listed};

    /// Nothing is said. Takes no memory.
    fn new(alloc: Global) -> FeedColumns<'h>
        ensures { (name : List ℕ) → told_in result name ≡ None }
    {
        FeedColumns {
            tables: IndexMap::with_hasher(alloc, BuildHasherDefault::new()),
        }
    }

    /// What a FIELD of this table says that isn't said yet: whether all name its columns alike then.
    fn judged(
        &self,
        alloc: Global,
        table: &str,
        columns: &FieldEvent<'h>,
    ) -> Result<Option<bool>, AllocError>
        ensures { IfOk result (λ judged. IsJudged (told_in self.now table.now) columns.now.fields judged) }
    {
        match self.tables.get(table) {
            None => {
                let agreed = are_apart(alloc, columns.fields())?;
                Ok(Some(agreed))
            }
            Some(kept) => judged_behind(alloc, kept, columns),
        }
    }

    /// Takes one more FIELD, of this table.
    fn put(
        &mut self,
        alloc: Global,
        table: &'h str,
        columns: FieldEvent<'h>,
    ) -> Result<(), AllocError>
        ensures { OnOk result ((name : List ℕ) → told_in self.new name ≡ (if bytes_eq table.now name then Some (told_with (told_in self.old name) columns.entry.fields) else told_in self.old name)) }
    {
        match self.judged(alloc, table, &columns)? {
            None => Ok(()),
            Some(agreed) => {
                self.tables.insert(table, KeptColumns { columns, agreed })?;
                Ok(())
            }
        }
    }

    /// Takes what an event says.
    fn see(
        &mut self,
        alloc: Global,
        source: &Source<'_>,
        event: Event<'h>,
    ) -> Result<(), AllocError>
        ensures { OnOk result ((name : List ℕ) → told_in self.new name ≡ told_at source.now name (told_in self.old name) (event_value event.entry)) }
    {
        match event {
            Event::Field(columns) => {
                let table = source.table(columns.table_name());
                self.put(alloc, table, columns)
            }
            Event::Gtid(_) => Ok(()),
            Event::Begin => Ok(()),
            Event::Commit => Ok(()),
            Event::Rollback => Ok(()),
            Event::Row(_) => Ok(()),
            Event::Vgtid(_) => Ok(()),
            Event::Ignored(_) => Ok(()),
        }
    }

    /// Takes what the events of a message say.
    fn see_message(
        &mut self,
        alloc: Global,
        source: &Source<'_>,
        message: &'h [u8],
    ) -> Result<(), AllocError>
        ensures { OnOk result ((name : List ℕ) → told_in self.new name ≡ told_behind source.now name (told_in self.old name) (response_of message.now).items) }
    {
        let mut events = Response::new(message);
        while let Ok(Some(event)) = events.next_event() {
            self.see(alloc, source, event)?;
        }
        Ok(())
    }

    /// What the FIELD events of a feed that was recorded from a shard say of its tables. Reads each event once, and takes
    /// memory for each table that they name; an error is want of it.
    pub fn of_feed(
        alloc: Global,
        feed: &'h [u8],
        keyspace: &str,
        shard: &str,
    ) -> Result<FeedColumns<'h>, AllocError>
        ensures { IfOk result (λ tables. (name : List ℕ) → columns_in tables name ≡ columns_of feed.entry.now (record { keyspace = keyspace.now; shard = shard.now }) name) }
    {
        let source = Source::new(keyspace, shard);
        let mut tables = FeedColumns::new(alloc);
        let mut frames = Frames::new(feed);
        while let Ok(Some(message)) = frames.next_frame() {
            tables.see_message(alloc, &source, message)?;
        }
        Ok(tables)
    }

    /// The columns by whose names the rows of a table are told. `None` where the feed has no FIELD of the table, or they
    /// don't name its columns alike.
    pub(crate) fn columns(&self, table: &str) -> Option<ColumnFields<'h>>
        ensures { listed result ≡ columns_in self.now table.now }
    {
        match self.tables.get(table) {
            None => None,
            Some(kept) => {
                if kept.agreed {
                    Some(kept.columns.fields())
                } else {
                    None
                }
            }
        }
    }
}
