//! A checkpoint's bytes, read without a workflow.

ghost use Rattle.std.specs.Prelude.{◌≡◌, length, option_map};
ghost use Rattle.checkpoint_places.specs.Reading.{Gives};
ghost use Rattle.checkpoint_places.specs.Stands.{counted, opened_at, table_at, tables_at, first_position, stream_of, stream_at, streams_at, stands_at};

use crate::fault::StandFault;
use crate::position::{is_at, position_in};
use crate::stand::{CheckpointStand, StreamStand, TableStand};
use gtid_set::GtidSet;
use proto_wire::Frames;
use std::alloc::Global;
use vevent::{AnswerRows, StreamPart, TablePart, TableParts};

/// How many rows there are; more than 2^64 - 1 count as these.
fn row_count(rows: AnswerRows<'_>) -> u64
    ensures { result ≡ counted (length rows.entry) }
{
    let mut count: u64 = 0;
    for _row in rows {
        count = count.saturating_add(1);
    }
    count
}

/// How far a table of a stream at a position is copied.
fn table_at<'b>(
    alloc: Global,
    part: &TablePart<'b>,
    position: &GtidSet,
) -> Result<TableStand<'b>, StandFault>
    ensures { Gives (λ table. table) result (table_at position.now part.now) }
{
    let answer = part.answer();
    if !is_at(alloc, answer.gtid(), position)? {
        return Err(StandFault::Broken);
    }
    match part.mark() {
        None => Err(StandFault::Broken),
        Some(mark) => Ok(TableStand {
            name: part.name(),
            mark,
            rows: row_count(answer.rows()),
        }),
    }
}

/// The same of each table.
fn tables_at<'b>(
    alloc: Global,
    parts: TableParts<'b>,
    position: &GtidSet,
) -> Result<Vec<TableStand<'b>>, StandFault>
    ensures { Gives (λ tables. tables.items) result (tables_at position.now parts.entry) }
{
    let mut tables = Vec::new(alloc);
    for part in parts {
        let table = table_at(alloc, &part, position)?;
        tables.push(table)?;
    }
    Ok(tables)
}

/// The position of the first table.
fn first_position(alloc: Global, parts: TableParts<'_>) -> Result<GtidSet, StandFault>
    ensures { Gives (λ position. position) result (first_position parts.entry) }
{
    let mut parts = parts;
    let Some(part) = parts.next() else {
        return Err(StandFault::Broken);
    };
    match position_in(alloc, part.answer().gtid())? {
        None => Err(StandFault::Broken),
        Some(position) => Ok(position),
    }
}

/// Where a stream stands, by its part.
fn stream_of<'b>(alloc: Global, part: &StreamPart<'b>) -> Result<StreamStand<'b>, StandFault>
    ensures { Gives (λ stream. stream) result (stream_of part.now) }
{
    let position = first_position(alloc, part.tables())?;
    let tables = tables_at(alloc, part.tables(), &position)?;
    Ok(StreamStand {
        shard: part.shard(),
        position,
        tables,
    })
}

/// Where a stream stands, by the message of its part.
fn stream_at(alloc: Global, message: &[u8]) -> Result<StreamStand<'_>, StandFault>
    ensures { Gives (λ stream. stream) result (stream_at message.entry.now) }
{
    match StreamPart::read(message) {
        Err(_) => Err(StandFault::Broken),
        Ok(part) => stream_of(alloc, &part),
    }
}

/// Where streams stand, by their parts, each behind its length.
fn streams_at(alloc: Global, bytes: &[u8]) -> Result<Vec<StreamStand<'_>>, StandFault>
    ensures { Gives (λ streams. streams.items) result (streams_at bytes.entry.now) }
{
    let mut frames = Frames::new(bytes);
    let mut streams = Vec::new(alloc);
    loop {
        match frames.next_frame() {
            Err(_) => return Err(StandFault::Broken),
            Ok(None) => return Ok(streams),
            Ok(Some(message)) => {
                let stream = stream_at(alloc, message)?;
                streams.push(stream)?;
            }
        }
    }
}

/// The version of a checkpoint by its first eight bytes, and what stands behind them.
fn opened_at(bytes: &[u8]) -> Option<(u8, &[u8])>
    ensures { option_map (λ opened. (opened.0, opened.1.now)) result ≡ opened_at bytes.entry.now }
{
    if bytes.len() < 8 {
        return None;
    }
    let (head, rest) = bytes.split_at(8);
    if head == b"VREPLCP2".as_slice() {
        Some((2, rest))
    } else if head == b"VREPLCP1".as_slice() {
        Some((1, rest))
    } else {
        None
    }
}

/// Where the streams of a checkpoint stand, by its bytes alone: the position of each, which all of its tables have, and
/// how far each table is copied, with how many rows. A broken message, a stream without a table, a position that can't be
/// read or that another table of the stream hasn't, and a number that is no mark are `Broken`. Columns, keys and rows
/// aren't compared with anything, since only a workflow and its feeds can say what they have to be.
pub fn stands_of(alloc: Global, bytes: &[u8]) -> Result<CheckpointStand<'_>, StandFault>
    ensures { Gives (λ stands. stands) result (stands_at bytes.entry.now) }
{
    let Some((version, rest)) = opened_at(bytes) else {
        return Err(StandFault::Broken);
    };
    let streams = streams_at(alloc, rest)?;
    Ok(CheckpointStand { version, streams })
}
