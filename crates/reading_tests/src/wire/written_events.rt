//! Events, answers and parts of a checkpoint as they are written. The events are those of a feed with
//! one inserted row.

use crate::wire::events::{BROKEN_ROW, GROUP, are_columns};
use crate::wire::rows::has_columns;
use crate::wire::samples::{READ_RESPONSE, RESPONSE, SAMPLE_ANSWER, SAMPLE_PART};
use proto_wire::Parts;
use row_view::*;
use std::alloc::{AllocError, Global};
use vevent::*;

/// The event of these bytes is written so, in as many bytes as were reckoned.
fn is_rewritten(alloc: Global, event: &[u8], wanted: &[u8]) -> Result<bool, AllocError> {
    let Ok(event) = Event::read(event) else {
        return Ok(false);
    };
    let size = event_size(&event)?;
    let mut out = Vec::new(alloc);
    write_event(&mut out, &event)?;
    Ok(size == wanted.len() && out.as_slice() == wanted)
}

/// Events that are written as they stand.
const KEPT: &[&[u8]] = &[
    // events_of_one_insert: all five, of 2, 24, 20, 50 and 2 bytes
    b"\x08\x02",
    b"\x08\x0d\x32\x14\x0a\x01t\x12\x07\x0a\x02id\x10\x89\x02\x12\x06\x0a\x01v\x10\x95\x30",
    b"\x08\x0c\x2a\x10\x0a\x01t\x12\x0b\x12\x09\x0a\x02\x02\x04\x12\x031ab",
    b"\x08\x01\x1a\x2eMySQL56/3e11fa47-71ca-11e1-9e33-c80aa9429562:1",
    b"\x08\x03",
    // position_of_another_name
    b"\x08\x01\x1a\x0bMySQL56/U:1",
    // every_kind_of_change: an insert, an update, a delete and no change; NULL, the empty value and a row
    // of no columns
    b"\x08\x0c\x2a\x24\x12\x06\x12\x04\x0a\x02\x01\x00\x12\x10\x0a\x06\x0a\x01\x02\x12\x01a\x12\x06\x0a\x01\x02\x12\x01b\x12\x02\x0a\x00\x12\x00\x12\x02\x12\x00",
];

/// Whether each event is written as it stands.
fn are_kept(alloc: Global, events: &[&[u8]]) -> Result<bool, AllocError> {
    for event in events {
        if !is_rewritten(alloc, event, event)? {
            return Ok(false);
        }
    }
    Ok(true)
}

#[test]
fn events_of_a_feed(rt: HostRuntime) {
    assert!(rt; matches!(are_kept(rt.alloc(), KEPT), Ok(true)));
}

/// Events, and the bytes that are written of them.
const CHANGED: &[(&[u8], &[u8])] = &[
    // entries_of_two_shards: an empty position is left out
    (
        b"\x08\x0f\x3a\x12\x0a\x08\x0a\x02ks\x12\x02-8\x0a\x06\x12\x028-\x1a\x00",
        b"\x08\x0f\x3a\x10\x0a\x08\x0a\x02ks\x12\x02-8\x0a\x04\x12\x028-",
    ),
    // a timestamp, a type and a text that come twice, unknown fields of a column
    (
        b"\x10\x07\x08\x03\x1a\x01x\x08\x01\x1a\x01y",
        b"\x08\x01\x1a\x01y",
    ),
    (
        b"\x08\x0d\x32\x08\x12\x06\x0a\x01v\x1a\x01t",
        b"\x08\x0d\x32\x05\x12\x03\x0a\x01v",
    ),
];

/// Whether each event is written as the bytes beside it.
fn are_rewritten(alloc: Global, rows: &[(&[u8], &[u8])]) -> Result<bool, AllocError> {
    for (event, wanted) in rows {
        if !is_rewritten(alloc, event, wanted)? {
            return Ok(false);
        }
    }
    Ok(true)
}

#[test]
fn fields_that_are_not_read_are_left_out(rt: HostRuntime) {
    assert!(rt; matches!(are_rewritten(rt.alloc(), CHANGED), Ok(true)));
}

/// Whether each event of a response is written as the part of another beside it.
fn is_response(alloc: Global, bytes: &[u8], wanted: &[u8]) -> Result<bool, AllocError> {
    let mut others = Parts::new(wanted, 1);
    for event in Parts::new(bytes, 1) {
        match others.next() {
            Some(other) if is_rewritten(alloc, event, other)? => {}
            _ => return Ok(false),
        }
    }
    Ok(others.next().is_none())
}

/// What is written of a response by Google's library is what that library writes where it leaves out
/// the fields that aren't read.
#[test]
fn events_of_another_library(rt: HostRuntime) {
    assert!(rt; matches!(is_response(rt.alloc(), &RESPONSE, &READ_RESPONSE), Ok(true)));
}

const COLUMNS: [ColumnField<'static>; 2] = [
    ColumnField {
        name: "id",
        type_number: 265,
    },
    ColumnField {
        name: "v",
        type_number: 6165,
    },
];

const ROW: &[u8] = b"\x0a\x02\x02\x04\x12\x031ab";

const KEY: &[u8] = b"\x0a\x01\x02\x12\x011";

/// Writes an answer of one row, the part of its table, which is copied up to a key, and that of its
/// stream, one behind the other.
fn write_each(out: &mut Vec<u8>, row: RowBytes<'_>, key: RowBytes<'_>) -> Result<(), AllocError> {
    let rows = [row];
    let answer = AnswerContent {
        fields: &COLUMNS,
        pkfields: &COLUMNS[..1],
        gtid: "U:1",
        rows: &rows,
        lastpk: Some(key),
    };
    write_answer(out, &answer)?;
    let table = TableContent {
        mark: TableMark::Upto,
        answer,
        name: &[],
    };
    write_table_part(out, &table)?;
    let tables = [table];
    let part = StreamContent {
        shard: "-80",
        tables: &tables,
    };
    write_stream_part(out, &part)
}

/// The bytes are the parts as Google's library writes them, the table's behind the stream's own fields.
fn are_sample_parts(bytes: &[u8]) -> bool {
    bytes.get(..50) == Some(SAMPLE_ANSWER.as_slice())
        && bytes.get(50..104) == SAMPLE_PART.get(7..)
        && bytes.get(104..) == Some(SAMPLE_PART.as_slice())
}

/// Whether the row above, up to its key, is written as the sample parts.
fn are_written(alloc: Global) -> Result<bool, AllocError> {
    let (Ok(row), Ok(key)) = (RowBytes::read(ROW), RowBytes::read(KEY)) else {
        return Ok(false);
    };
    let mut out = Vec::new(alloc);
    write_each(&mut out, row, key)?;
    Ok(are_sample_parts(&out))
}

#[test]
fn an_answer_and_parts_alone(rt: HostRuntime) {
    assert!(rt; matches!(are_written(rt.alloc()), Ok(true)));
}

/// The row is there, of these columns.
fn is_row_of(row: Option<RowBytes<'_>>, columns: &[Column<'_>]) -> bool {
    match row {
        Some(row) => has_columns(&row.view(), columns),
        None => false,
    }
}

/// The answer says what was written.
fn is_sample_answer(answer: &RowsAnswer<'_>) -> bool {
    let mut rows = answer.rows();
    answer.gtid() == "U:1"
        && are_columns(answer.fields(), &[("id", 265), ("v", 6165)])
        && are_columns(answer.pkfields(), &[("id", 265)])
        && is_row_of(rows.next(), &[Column::Bytes(b"1"), Column::Bytes(b"ab")])
        && rows.next().is_none()
        && is_row_of(answer.lastpk(), &[Column::Bytes(b"1")])
}

fn is_sample_table(table: &TablePart<'_>) -> bool {
    table.mark() == Some(TableMark::Upto)
        && table.name().is_empty()
        && is_sample_answer(&table.answer())
}

fn reads_answer(bytes: &[u8]) -> bool {
    match RowsAnswer::read(bytes) {
        Ok(answer) => is_sample_answer(&answer),
        Err(_) => false,
    }
}

fn reads_table(bytes: &[u8]) -> bool {
    match TablePart::read(bytes) {
        Ok(table) => is_sample_table(&table),
        Err(_) => false,
    }
}

fn reads_stream(bytes: &[u8]) -> bool {
    let Ok(part) = StreamPart::read(bytes) else {
        return false;
    };
    let mut tables = part.tables();
    match tables.next() {
        None => false,
        Some(table) => {
            part.shard() == "-80" && is_sample_table(&table) && tables.next().is_none()
        }
    }
}

/// What was written is read as that again.
#[test]
fn an_answer_and_parts_read_again(rt: HostRuntime) {
    assert!(rt;
        reads_answer(&SAMPLE_ANSWER) && reads_table(&SAMPLE_PART[7..]) && reads_stream(&SAMPLE_PART)
    );
}

/// Bytes, and why they are no answer, in the order of the faults.
const FAULTS: &[(&[u8], Option<EventFault>)] = &[
    (b"\x0a\x01\x0b\x2a\x00\x2a\x00", Some(GROUP)),
    (
        b"\x2a\x00\x2a\x00\x1a\x01\xff",
        Some(EventFault::RepeatedMessage),
    ),
    (
        b"\x22\x01\x0b\x12\x03\x0a\x01\xff",
        Some(EventFault::NotUtf8),
    ),
    (b"\x22\x00\x2a\x01\x0b", Some(BROKEN_ROW)),
    (b"", None),
];

/// Whether each of the bytes are no answer for the fault beside them.
fn have_faults(rows: &[(&[u8], Option<EventFault>)]) -> bool {
    for (bytes, fault) in rows {
        if RowsAnswer::read(bytes).err() != *fault {
            return false;
        }
    }
    true
}

#[test]
fn faults_of_an_answer_in_order(rt: HostRuntime) {
    assert!(rt; have_faults(FAULTS));
}

/// Parts of tables, and the bytes of the names in them.
const NAMED: &[(&[u8], &[u8])] = &[
    // no_name
    (b"\x08\x02\x12\x00", b""),
    // name_behind_the_answer
    (b"\x08\x02\x12\x00\x1a\x01t", b"t"),
    // name_first_and_again: the last one counts
    (b"\x1a\x01t\x12\x00\x1a\x02uv\x08\x02", b"uv"),
    // last_name_is_empty
    (b"\x1a\x01t\x1a\x00", b""),
    // name_that_is_no_text
    (b"\x1a\x02\xff\xfe", b"\xff\xfe"),
    // number_in_place_of_a_name
    (b"\x1a\x01t\x18\x07", b"t"),
];

/// Whether each part has the name beside it.
fn have_names(rows: &[(&[u8], &[u8])]) -> bool {
    for (bytes, name) in rows {
        let Ok(table) = TablePart::read(bytes) else {
            return false;
        };
        if table.name() != *name {
            return false;
        }
    }
    true
}

#[test]
fn names_of_tables(rt: HostRuntime) {
    assert!(rt; have_names(NAMED));
}

/// Whether a part of a table with a name is written as these bytes, in as many as were reckoned.
fn is_named(alloc: Global, name: &[u8], wanted: &[u8]) -> Result<bool, AllocError> {
    let table = TableContent {
        mark: TableMark::Done,
        answer: AnswerContent {
            fields: &[],
            pkfields: &[],
            gtid: "",
            rows: &[],
            lastpk: None,
        },
        name,
    };
    let size = table_part_size(&table)?;
    let mut out = Vec::new(alloc);
    write_table_part(&mut out, &table)?;
    Ok(size == wanted.len() && out.as_slice() == wanted)
}

#[test]
fn a_name_is_written_where_there_is_one(rt: HostRuntime) {
    assert!(rt; matches!(is_named(rt.alloc(), b"", b"\x08\x02\x12\x00"), Ok(true)));
    assert!(rt;
        matches!(
            is_named(rt.alloc(), b"t\xff", b"\x08\x02\x12\x00\x1a\x02t\xff"),
            Ok(true)
        )
    );
}
