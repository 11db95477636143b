//! A feed, written line by line of the text that says it.

ghost use Rattle.std.specs.Prelude.{◌<◌, length, IfSome};

use crate::cells::RowCells;
use crate::events::{
    FeedName, put_begin, put_change, put_columns, put_commit, put_field, put_position,
    put_unknown_columns,
};
use crate::fault::{LineError, TextCause};
use crate::lines::up_to_tab;
use crate::saying::{shared, text_of};
use filter_rule::Plan;
use gtid_set::{GtidFault, GtidSet};
use indexmap::IndexMap;
use proto_wire::put_varint;
use std::alloc::{AllocError, Global};
use std::collections::hash_map::DefaultHasher;
use std::hash::BuildHasherDefault;

/// Whose feed it is: its keyspace and shard, and the plan of its stream, if there is one.
#[derive(Clone, Copy)]
pub(crate) struct TextSource<'k, 's, 'p> {
    pub(crate) keyspace: &'k str,
    pub(crate) shard: &'s str,
    pub(crate) plan: Option<&'p Plan>,
}

/// A row that a line has taken off its table: the first half of an update, if the next line puts one of as many cells there.
#[derive(Clone, Copy)]
struct Taken<'t> {
    table: &'t str,
    width: usize,
}

/// A feed so far: whole messages, and the events of the group whose lines are being read.
#[derive(Drop)]
pub(crate) struct FeedWriter<'t, 'k, 's, 'p> {
    source: TextSource<'k, 's, 'p>,
    /// the messages of the groups before
    feed: Vec<u8>,
    /// the events of the open group, up to its changes so far; none, if it has none
    events: Vec<u8>,
    /// the open group's position
    position: Option<&'t str>,
    /// how many groups have begun
    number: u64,
    /// the position of the last of them
    reached: GtidSet,
    /// how many columns the last FIELD of each table has
    widths: IndexMap<&'t str, usize, BuildHasherDefault<DefaultHasher>>,
    /// the row before a change that waits for the line of the row after it
    taken: Option<Taken<'t>>,
    before: Vec<u8>,
    after: Vec<u8>,
    cells: RowCells,
    columns: Vec<u8>,
}

impl<'t, 'k, 's, 'p> FeedWriter<'t, 'k, 's, 'p> {
    /// A feed without a message.
    pub(crate) fn new(alloc: Global, source: TextSource<'k, 's, 'p>) -> FeedWriter<'t, 'k, 's, 'p> {
        FeedWriter {
            source,
            feed: Vec::new(alloc),
            events: Vec::new(alloc),
            position: None,
            number: 0,
            reached: GtidSet::new(),
            widths: IndexMap::with_hasher(alloc, BuildHasherDefault::new()),
            taken: None,
            before: Vec::new(alloc),
            after: Vec::new(alloc),
            cells: RowCells::new(alloc),
            columns: Vec::new(alloc),
        }
    }

    /// Goes on by a line. A fault's place is counted from its first byte.
    pub(crate) fn take_line(&mut self, alloc: Global, line: &'t [u8]) -> Result<(), LineError> {
        if let Some(rest) = line.strip_prefix(b"group ".as_slice()) {
            return self.take_group(alloc, rest);
        }
        if let Some(rest) = line.strip_prefix(b"- ".as_slice()) {
            return self.take_before(alloc, rest);
        }
        if let Some(rest) = line.strip_prefix(b"+ ".as_slice()) {
            return self.take_after(alloc, rest);
        }
        Err(LineError::At(0, TextCause::NoLine))
    }

    /// Goes on by the first line of a group, behind its first word.
    fn take_group(&mut self, alloc: Global, rest: &'t [u8]) -> Result<(), LineError> {
        self.end_group(alloc)?;
        self.number = self.number.saturating_add(1);
        let text = match behind_number(rest, self.number) {
            Ok(text) => text,
            Err(same) => return Err(LineError::At(same.saturating_add(6), TextCause::Number)),
        };
        let place = rest.len().saturating_sub(text.len()).saturating_add(6);
        let Ok(position) = str::from_utf8(text) else {
            return Err(LineError::At(place, TextCause::Position(GtidFault::BadUuid)));
        };
        let reached = match GtidSet::parse(alloc, position) {
            Ok(reached) => reached,
            Err(GtidFault::Memory) => return Err(LineError::Memory),
            Err(fault) => return Err(LineError::At(place, TextCause::Position(fault))),
        };
        let printed = text_of(alloc, &reached)?;
        if printed.as_bytes() != text {
            let same = shared(text, printed.as_bytes());
            return Err(LineError::At(place.saturating_add(same), TextCause::Spelling));
        }
        if !self.reached.is_within(&reached) || reached.is_within(&self.reached) {
            return Err(LineError::At(place, TextCause::NotMore));
        }
        self.reached = reached;
        self.position = Some(position);
        Ok(())
    }

    /// Goes on by the line of a row before a change, behind its mark.
    fn take_before(&mut self, alloc: Global, rest: &'t [u8]) -> Result<(), LineError> {
        self.put_taken(alloc)?;
        let row = self.read_row(rest)?;
        if let Err(error) = self.cells.write_over(alloc, &mut self.before) {
            return Err(error.behind(2));
        }
        self.taken = Some(row);
        Ok(())
    }

    /// Goes on by the line of a row after a change, behind its mark: that of an update, if the line before it is that of
    /// the row before, of the same table and as many cells.
    fn take_after(&mut self, alloc: Global, rest: &'t [u8]) -> Result<(), LineError> {
        let row = self.read_row(rest)?;
        if let Err(error) = self.cells.write_over(alloc, &mut self.after) {
            return Err(error.behind(2));
        }
        let updates = match &self.taken {
            Some(taken) => *taken.table == *row.table && taken.width == row.width,
            None => false,
        };
        if updates {
            self.taken = None;
        } else {
            self.put_taken(alloc)?;
        }
        self.put_row(alloc, row, updates, true)?;
        Ok(())
    }

    /// Reads the line of a row behind its mark: the table's name, and the cells.
    fn read_row(&mut self, rest: &'t [u8]) -> Result<Taken<'t>, LineError> {
        if self.position.is_none() {
            return Err(LineError::At(0, TextCause::NoGroup));
        }
        let (name, cells) = up_to_tab(rest);
        let Ok(table) = str::from_utf8(name) else {
            return Err(LineError::At(2, TextCause::Name));
        };
        if let Err(error) = self.cells.read(cells) {
            return Err(error.behind(name.len().saturating_add(2)));
        }
        let width = self.cells.len();
        if !fits(self.source.plan, table, width) {
            return Err(LineError::At(2, TextCause::Columns));
        }
        Ok(Taken { table, width })
    }

    /// Puts the row that was taken off its table as a change of its own, if one waits.
    fn put_taken(&mut self, alloc: Global) -> Result<(), AllocError> {
        if let Some(row) = self.taken.take() {
            self.put_row(alloc, row, true, false)?;
        }
        Ok(())
    }

    /// Puts a change with the row before, the row after, or both.
    fn put_row(
        &mut self,
        alloc: Global,
        row: Taken<'t>,
        has_before: bool,
        has_after: bool,
    ) -> Result<(), AllocError> {
        if self.events.is_empty() {
            put_begin(&mut self.events)?;
        }
        self.say_columns(alloc, row)?;
        let name = FeedName::new(self.source.keyspace, row.table);
        let before = row_if(has_before, &self.before);
        let after = row_if(has_after, &self.after);
        put_change(&mut self.events, name, before, after)
    }

    /// Puts the FIELD of a row's table, unless its last one has as many columns.
    fn say_columns(&mut self, alloc: Global, row: Taken<'t>) -> Result<(), AllocError> {
        if let Some(width) = self.widths.get(row.table) {
            if *width == row.width {
                return Ok(());
            }
        }
        self.columns.clear();
        match planned(self.source.plan, row.table) {
            Some((plan, t)) => put_columns(&mut self.columns, plan.columns(t))?,
            None => put_unknown_columns(&mut self.columns, row.width)?,
        }
        let name = FeedName::new(self.source.keyspace, row.table);
        put_field(&mut self.events, name, &self.columns)?;
        self.widths.insert(row.table, row.width)?;
        Ok(())
    }

    /// Ends the open group, if one is open: its changes are a transaction; without any its position stands alone.
    fn end_group(&mut self, alloc: Global) -> Result<(), AllocError> {
        self.put_taken(alloc)?;
        let Some(position) = self.position.take() else {
            return Ok(());
        };
        let is_alone = self.events.is_empty();
        put_position(
            &mut self.events,
            self.source.keyspace,
            self.source.shard,
            position,
        )?;
        if !is_alone {
            put_commit(&mut self.events)?;
        }
        put_varint(&mut self.feed, self.events.len() as u64)?;
        self.feed.extend_from_slice(&self.events)?;
        self.events.clear();
        Ok(())
    }

    /// The feed, behind the last line.
    pub(crate) fn finish(mut self, alloc: Global) -> Result<Vec<u8>, AllocError> {
        self.end_group(alloc)?;
        Ok(self.feed)
    }
}

/// A row's message, if it is there.
fn row_if(is_there: bool, row: &[u8]) -> Option<&[u8]> {
    if is_there { Some(row) } else { None }
}

/// What stands behind a number and a blank, or how many bytes of these are there.
fn behind_number(text: &[u8], number: u64) -> Result<&[u8], usize> {
    let mut digits = itoa::Buffer::new();
    let word = digits.format(number).as_bytes();
    let Some(rest) = text.strip_prefix(word) else {
        return Err(shared(text, word));
    };
    match rest.strip_prefix(b" ".as_slice()) {
        Some(rest) => Ok(rest),
        None => Err(word.len()),
    }
}

/// The plan, and the number in it of a table, if it has the table.
fn planned<'p>(plan: Option<&'p Plan>, table: &str) -> Option<(&'p Plan, u8)>
    ensures { IfSome result (λ found. found.1 < length found.0.now.tables) }
{
    let plan = plan?;
    let t = plan.table(table)?;
    Some((plan, t))
}

/// Whether a table can have rows of so many cells: one of the plan has as many columns, and where there is a plan any other
/// has some.
fn fits(plan: Option<&Plan>, table: &str, width: usize) -> bool {
    match planned(plan, table) {
        Some((plan, t)) => plan.columns(t).len() == width,
        None => plan.is_none() || width > 0,
    }
}
