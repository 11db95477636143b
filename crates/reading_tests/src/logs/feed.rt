//! What a feed tells of a server's log. The bytes are those that record/recorder/wire.py writes of the same rows.

use crate::logs::samples::LOG;
use gtid_set::GtidSet;
use log_course::{CourseError, LogGroups};
use log_events::CrcTable;
use log_feed::{
    ChangeError, FeedTable, GroupWriter, Stage, Trouble, begin_event, commit_event, field_event,
    is_plain_name, position_event,
};
use log_tables::{TableFault, Wanted};
use std::alloc::{AllocError, Global};

/// FIELD of `t` with INT32 `id` and VARCHAR `v`.
const FIELD: [u8; 24] = [
    0x08, 0x0d, 0x32, 0x14, 0x0a, 0x01, 0x74, 0x12, 0x07, 0x0a, 0x02, 0x69, 0x64, 0x10, 0x87, 0x02,
    0x12, 0x06, 0x0a, 0x01, 0x76, 0x10, 0x95, 0x30,
];

/// ROW of `t` that inserts 1, hello and -2, NULL.
const ROW: [u8; 35] = [
    0x08, 0x0c, 0x2a, 0x1f, 0x0a, 0x01, 0x74, 0x12, 0x0e, 0x12, 0x0c, 0x0a, 0x02, 0x02, 0x0a, 0x12,
    0x06, 0x31, 0x68, 0x65, 0x6c, 0x6c, 0x6f, 0x12, 0x0a, 0x12, 0x08, 0x0a, 0x02, 0x04, 0x01, 0x12,
    0x02, 0x2d, 0x32,
];

/// VGTID of the shard `-80` of `ks` at transaction 1 to 3 of one source.
const PLACE: [u8; 57] = [
    0x08, 0x0f, 0x3a, 0x35, 0x0a, 0x33, 0x0a, 0x02, 0x6b, 0x73, 0x12, 0x03, 0x2d, 0x38, 0x30, 0x1a,
    0x28, 0x36, 0x64, 0x36, 0x31, 0x37, 0x32, 0x36, 0x39, 0x2d, 0x36, 0x31, 0x36, 0x34, 0x2d, 0x36,
    0x32, 0x30, 0x30, 0x2d, 0x38, 0x30, 0x30, 0x30, 0x2d, 0x30, 0x30, 0x30, 0x30, 0x30, 0x30, 0x30,
    0x30, 0x30, 0x30, 0x30, 0x30, 0x3a, 0x31, 0x2d, 0x33,
];

/// A table of two columns, the second one of this type.
fn table_of(
    alloc: Global,
    name: &'static str,
    number: u32,
) -> Result<FeedTable<'static>, AllocError> {
    let mut columns = Vec::new(alloc);
    columns.push(Wanted {
        name: b"id",
        type_number: 263,
    })?;
    columns.push(Wanted {
        name: b"v",
        type_number: number,
    })?;
    Ok(FeedTable { name, columns })
}

/// The events of the log, one behind another, or the trouble of its table.
fn told<'x>(
    alloc: Global,
    crc: &'x CrcTable,
    bytes: &'x [u8],
    schema: &'x [u8],
    tables: &'x [FeedTable<'static>],
    stage: Stage,
) -> Result<(Vec<Vec<u8>>, Option<Trouble>), AllocError> {
    let mut events = Vec::new(alloc);
    let mut stages = Vec::new(alloc);
    stages.push(stage)?;
    let mut writer = GroupWriter::new(schema, tables, stages);
    let Ok(mut log) = LogGroups::open(alloc, crc, GtidSet::new(), Vec::new(alloc), bytes) else {
        return Err(AllocError);
    };
    for _ in 0..10 {
        match log.next_group(alloc) {
            Ok(Some(group)) => match writer.events_of(alloc, &group.changes) {
                Ok(more) => {
                    for event in more {
                        events.push(event)?;
                    }
                }
                Err(ChangeError::Memory) => return Err(AllocError),
                Err(ChangeError::Fault(fault)) => return Ok((events, Some(fault.trouble))),
            },
            Ok(None) => break,
            Err(CourseError::Memory) => return Err(AllocError),
            Err(CourseError::Fault(_)) => break,
        }
    }
    Ok((events, None))
}

/// The same of the log of a server with a table of this name, whose second column is of this type.
fn told_of(
    alloc: Global,
    schema: &'static [u8],
    name: &'static str,
    number: u32,
    stage: Stage,
) -> Result<(Vec<Vec<u8>>, Option<Trouble>), AllocError> {
    let crc = CrcTable::new(alloc)?;
    let mut tables = Vec::new(alloc);
    tables.push(table_of(alloc, name, number)?)?;
    told(alloc, &crc, &LOG, schema, &tables, stage)
}

#[test]
fn rows_of_a_server(rt: HostRuntime) -> Result<(), AllocError> {
    let (events, trouble) = told_of(rt.alloc(), b"s", "t", 6165, Stage::Absent)?;
    assert!(rt; trouble == None && events.len() == 2);
    assert!(rt; events[0].as_slice() == FIELD.as_slice() && events[1].as_slice() == ROW.as_slice());
    Ok(())
}

#[test]
fn rows_behind_others_of_the_table(rt: HostRuntime) -> Result<(), AllocError> {
    let alloc = rt.alloc();
    let crc = CrcTable::new(alloc)?;
    let mut tables = Vec::new(alloc);
    tables.push(table_of(alloc, "u", 6165)?)?;
    tables.push(table_of(alloc, "t", 6165)?)?;
    let mut stages = Vec::new(alloc);
    stages.push(Stage::Absent)?;
    stages.push(Stage::Absent)?;
    let mut writer = GroupWriter::new(b"s", &tables, stages);
    let Ok(mut log) = LogGroups::open(alloc, &crc, GtidSet::new(), Vec::new(alloc), &LOG) else {
        return Err(AllocError);
    };
    // a database is made, the table is made, and it has rows
    let mut events = Vec::new(alloc);
    let mut changes = Vec::new(alloc);
    for _ in 0..3 {
        let Ok(Some(group)) = log.next_group(alloc) else {
            return Err(AllocError);
        };
        changes = group.changes;
        let Ok(told) = writer.events_of(alloc, &changes) else {
            return Err(AllocError);
        };
        events = told;
    }
    assert!(rt; events.len() == 2 && events[1].as_slice() == ROW.as_slice());
    // the same rows once more, by the writer that told them
    let Ok(again) = writer.events_of(alloc, &changes) else {
        return Err(AllocError);
    };
    assert!(rt; again.len() == 1 && again[0].as_slice() == ROW.as_slice());
    Ok(())
}

#[test]
fn tables_that_arent_told(rt: HostRuntime) -> Result<(), AllocError> {
    let (events, trouble) = told_of(rt.alloc(), b"s", "u", 6165, Stage::Absent)?;
    assert!(rt; trouble == None && events.is_empty());
    // a name that ends as the table's does
    let (events, trouble) = told_of(rt.alloc(), b"s", "at", 6165, Stage::Absent)?;
    assert!(rt; trouble == None && events.is_empty());
    let (events, trouble) = told_of(rt.alloc(), b"other", "t", 6165, Stage::Absent)?;
    assert!(rt; trouble == None && events.is_empty());
    let (_, trouble) = told_of(rt.alloc(), b"s", "t", 263, Stage::Absent)?;
    assert!(rt; trouble == Some(Trouble::Columns(TableFault::OtherType)));
    let (_, trouble) = told_of(rt.alloc(), b"s", "t", 6165, Stage::Filled)?;
    assert!(rt; trouble == Some(Trouble::Altered));
    Ok(())
}

#[test]
fn events_by_themselves(rt: HostRuntime) -> Result<(), AllocError> {
    let text = "6d617269-6164-6200-8000-000000000000:1-3";
    assert!(rt; begin_event(rt.alloc())?.as_slice() == b"\x08\x02".as_slice());
    assert!(rt; commit_event(rt.alloc())?.as_slice() == b"\x08\x03".as_slice());
    assert!(rt; position_event(rt.alloc(), "ks", "-80", text)?.as_slice() == PLACE.as_slice());
    let table = table_of(rt.alloc(), "t", 6165)?;
    assert!(rt; field_event(rt.alloc(), &table)?.as_slice() == FIELD.as_slice());
    assert!(rt; is_plain_name(b"a_1$") && !is_plain_name(b"a.b") && !is_plain_name(b""));
    Ok(())
}
