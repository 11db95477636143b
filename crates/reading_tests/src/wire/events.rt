//! Events as bytes, by hand from `binlogdata.proto`, `query.proto` and the protobuf encoding guide.

use proto_wire::WireFault;
use row_view::{RowFault, RowView};
use vevent::*;

pub(crate) const GROUP: EventFault = EventFault::Wire(WireFault::GroupWireType);

pub(crate) const BROKEN_ROW: EventFault = EventFault::Row(RowFault::Wire(WireFault::GroupWireType));

const PAST: EventFault = EventFault::Row(RowFault::LengthsPastValues);

/// Bytes, and why they are no event.
const REFUSED: &[(&[u8], EventFault)] = &[
    // event_is_no_list: the event, and under any type a broken row event, row change, field event, column,
    // VGTID and entry. The one further left counts, inside a message or behind it, and in a second message too.
    (b"\x0b", GROUP),
    (b"\x08\x0c\x2a\x01\x0b", GROUP),
    (b"\x08\x0c\x2a\x03\x12\x01\x0b", GROUP),
    (b"\x08\x0d\x32\x01\x0b", GROUP),
    (b"\x08\x0d\x32\x03\x12\x01\x0b", GROUP),
    (b"\x08\x0f\x3a\x01\x0b", GROUP),
    (b"\x08\x02\x3a\x03\x0a\x01\x0b", GROUP),
    (b"\x2a\x01\x0b\x08", GROUP),
    (b"\x32\x01\x0b\x2a\x01\x08", GROUP),
    (b"\x3a\x00\x3a\x01\x0b", GROUP),
    (b"\x08\x80", EventFault::Wire(WireFault::Truncated)),
    // single_message_twice
    (b"\x08\x04\x3a\x00\x3a\x00", EventFault::RepeatedMessage),
    (b"\x08\x04\x2a\x00\x2a\x00", EventFault::RepeatedMessage),
    (b"\x08\x04\x32\x00\x32\x00", EventFault::RepeatedMessage),
    (
        b"\x08\x0c\x2a\x06\x12\x04\x0a\x00\x0a\x00",
        EventFault::RepeatedMessage,
    ),
    (
        b"\x08\x0c\x2a\x06\x12\x04\x12\x00\x12\x00",
        EventFault::RepeatedMessage,
    ),
    // event_type_refused
    (b"\x08\x06", EventFault::BadType(6)),
    (b"", EventFault::BadType(0)),
    // type_is_whole_varint
    (
        b"\x08\x82\x80\x80\x80\x10",
        EventFault::BadType(4_294_967_298),
    ),
    // used_text_not_utf8
    (b"\x08\x01\x1a\x01\xff", EventFault::NotUtf8),
    (b"\x08\x0c\x2a\x03\x0a\x01\xff", EventFault::NotUtf8),
    (b"\x08\x0d\x32\x03\x0a\x01\xff", EventFault::NotUtf8),
    (b"\x08\x0d\x32\x05\x12\x03\x0a\x01\xff", EventFault::NotUtf8),
    (b"\x08\x0f\x3a\x05\x0a\x03\x0a\x01\xff", EventFault::NotUtf8),
    (b"\x08\x0f\x3a\x05\x0a\x03\x12\x01\xff", EventFault::NotUtf8),
    (
        b"\x08\x0f\x3a\x07\x0a\x00\x0a\x03\x1a\x01\xff",
        EventFault::NotUtf8,
    ),
    // partial_row_image
    (
        b"\x08\x0c\x2a\x07\x0a\x01t\x12\x02\x18\x01",
        EventFault::PartialRow,
    ),
    (b"\x08\x02\x2a\x04\x12\x02\x18\x01", EventFault::PartialRow),
    // other_wire_type_in_change: beside one that counts
    (
        b"\x08\x0c\x2a\x06\x12\x04\x08\x05\x18\x05",
        EventFault::PartialRow,
    ),
    // fields_any_order_last_counts: a type of another wire type is skipped, and an absent one is 0
    (b"\x0d\x02\x00\x00\x00", EventFault::BadType(0)),
    // empty_position_text: the last text must be UTF-8
    (b"\x08\x01\x1a\x00\x1a\x01\xff", EventFault::NotUtf8),
    // event_faults_in_order: an event with a fault of each number, from which one after another is taken
    (
        b"\x2a\x0c\x0a\x01\xff\x12\x03\x0a\x01\x0b\x12\x02\x18\x01\x08\x06\x3a\x00\x3a\x00\x0b",
        GROUP,
    ),
    (
        b"\x2a\x0c\x0a\x01\xff\x12\x03\x0a\x01\x0b\x12\x02\x18\x01\x08\x06\x3a\x00\x3a\x00",
        EventFault::RepeatedMessage,
    ),
    (
        b"\x2a\x0c\x0a\x01\xff\x12\x03\x0a\x01\x0b\x12\x02\x18\x01\x08\x06\x3a\x00",
        EventFault::BadType(6),
    ),
    (
        b"\x2a\x0c\x0a\x01\xff\x12\x03\x0a\x01\x0b\x12\x02\x18\x01\x08\x0c",
        EventFault::NotUtf8,
    ),
    (
        b"\x2a\x0c\x0a\x01t\x12\x03\x0a\x01\x0b\x12\x02\x18\x01\x08\x0c",
        EventFault::PartialRow,
    ),
    (b"\x2a\x08\x0a\x01t\x12\x03\x0a\x01\x0b\x08\x0c", BROKEN_ROW),
    // first_row_fault_in_order: rows are read whatever the type, and the first from the left counts, also
    // where it is the row after the change
    (
        b"\x08\x02\x2a\x0a\x12\x08\x12\x01\x0b\x0a\x03\x0a\x01\x0a",
        BROKEN_ROW,
    ),
    (
        b"\x08\x02\x2a\x0a\x12\x08\x12\x03\x0a\x01\x0a\x0a\x01\x0b",
        PAST,
    ),
];

/// Whether each of the bytes are refused by the fault beside them.
fn are_refused(rows: &[(&[u8], EventFault)]) -> bool {
    for (bytes, fault) in rows {
        if Event::read(bytes).err() != Some(*fault) {
            return false;
        }
    }
    true
}

#[test]
fn refused_events(rt: HostRuntime) {
    assert!(rt; are_refused(REFUSED));
}

/// Bytes that are an event.
const READ: &[&[u8]] = &[
    // single_message_twice: one of another wire type doesn't count
    b"\x08\x04\x3a\x00\x38\x00",
    // used_text_not_utf8: a text that the type doesn't use may be any bytes
    b"\x08\x02\x1a\x01\xff",
    b"\x08\x02\x2a\x03\x0a\x01\xff",
    b"\x08\x01\x3a\x05\x0a\x03\x0a\x01\xff",
    // absent_row_is_none: a row event that is absent
    b"\x08\x0c",
];

/// Whether each of the bytes are an event.
fn are_read(rows: &[&[u8]]) -> bool {
    for bytes in rows {
        if Event::read(bytes).is_err() {
            return false;
        }
    }
    true
}

#[test]
fn events_of_what_is_not_used(rt: HostRuntime) {
    assert!(rt; are_read(READ));
}

/// Faults with their own number and that of the innermost fault.
const NUMBERS: &[(EventFault, u8, u8)] = &[
    (GROUP, 21, 3),
    (EventFault::RepeatedMessage, 22, 22),
    (EventFault::BadType(6), 23, 23),
    (EventFault::NotUtf8, 24, 24),
    (EventFault::PartialRow, 25, 25),
    (BROKEN_ROW, 11, 3),
    (PAST, 12, 12),
];

/// Whether each fault has the numbers beside it.
fn have_numbers(rows: &[(EventFault, u8, u8)]) -> bool {
    for (fault, number, cause) in rows {
        if fault.number() != *number || fault.cause() != *cause {
            return false;
        }
    }
    true
}

#[test]
fn numbers_of_event_faults(rt: HostRuntime) {
    assert!(rt; have_numbers(NUMBERS));
}

/// Whether an event of each type alone is refused by its type, or read.
fn are_types(numbers: &[u8], are_refused: bool) -> bool {
    for number in numbers {
        let wanted = EventFault::BadType(u64::from(*number));
        let fault = Event::read(&[8, *number]).err();
        if fault.is_some() != are_refused || are_refused && fault != Some(wanted) {
            return false;
        }
    }
    true
}

#[test]
fn refused_event_types(rt: HostRuntime) {
    assert!(rt;
        are_types(&[0, 6, 7, 8, 9, 10, 16, 18, 20, 21, 127], true)
            && are_types(&[1, 2, 3, 4, 5, 11, 12, 13, 14, 15, 17, 19], false)
    );
}

/// GTID events and their positions.
const POSITIONS: &[(&[u8], &str)] = &[
    // fields_any_order_last_counts
    (b"\x1a\x01a\x10\x05\x1a\x01b\x08\x01", "b"),
    (b"\x18\x05\x08\x01", ""),
    // empty_position_text: only the last text must be UTF-8
    (b"\x08\x01", ""),
    (b"\x08\x01\x1a\x01\xff\x1a\x00", ""),
];

/// The bytes are a GTID event of this position.
fn has_position(bytes: &[u8], wanted: &str) -> bool {
    match Event::read(bytes) {
        Ok(Event::Gtid(position)) => position == wanted,
        _ => false,
    }
}

/// Whether each of the bytes are a GTID event of the position beside them.
fn have_positions(rows: &[(&[u8], &str)]) -> bool {
    for (bytes, wanted) in rows {
        if !has_position(bytes, wanted) {
            return false;
        }
    }
    true
}

/// Known fields of another wire type are skipped, here a type.
fn last_type_counts() -> bool {
    matches!(Event::read(b"\x08\x02\x08\x03"), Ok(Event::Commit))
        && matches!(
            Event::read(b"\x08\x02\x0d\x00\x00\x00\x00"),
            Ok(Event::Begin)
        )
}

#[test]
fn fields_any_order_last_counts(rt: HostRuntime) {
    assert!(rt; last_type_counts() && have_positions(POSITIONS));
}

/// How many columns a row has, if there is one.
fn width_of(row: Option<RowView<'_>>) -> Option<usize> {
    match row {
        Some(row) => Some(row.len()),
        None => None,
    }
}

/// The rows before and after the first change of a row event have so many columns, if they are there.
fn has_widths(bytes: &[u8], before: Option<usize>, after: Option<usize>) -> bool {
    let Ok(Event::Row(event)) = Event::read(bytes) else {
        return false;
    };
    match event.changes().next() {
        Some(change) => width_of(change.before()) == before && width_of(change.after()) == after,
        None => false,
    }
}

/// A row event that is absent has no changes.
fn has_no_change(bytes: &[u8]) -> bool {
    match Event::read(bytes) {
        Ok(Event::Row(event)) => event.table_name() == "" && event.changes().next().is_none(),
        _ => false,
    }
}

/// Row events, and how many columns the rows before and after their first change have.
const WIDTHS: &[(&[u8], Option<usize>, Option<usize>)] = &[
    // other_wire_type_in_change
    (b"\x08\x0c\x2a\x06\x12\x04\x08\x05\x10\x05", None, None),
    // absent_row_is_none
    (b"\x08\x0c\x2a\x04\x12\x02\x12\x00", None, Some(0)),
    (b"\x08\x0c\x2a\x06\x12\x04\x0a\x02\x08\x01", Some(1), None),
    (b"\x08\x0c\x2a\x02\x12\x00", None, None),
];

/// Whether the first change of each row event has rows of so many columns.
fn have_widths(rows: &[(&[u8], Option<usize>, Option<usize>)]) -> bool {
    for (bytes, before, after) in rows {
        if !has_widths(bytes, *before, *after) {
            return false;
        }
    }
    true
}

#[test]
fn absent_row_is_none(rt: HostRuntime) {
    assert!(rt; have_widths(WIDTHS) && has_no_change(b"\x08\x0c"));
}

/// Row events, and whether all of their rows have so many columns.
const COLUMNS_OF_ALL: &[(&[u8], usize, bool)] = &[
    // rows of one NULL
    (
        b"\x08\x0c\x2a\x0c\x12\x0a\x0a\x03\x0a\x01\x01\x12\x03\x0a\x01\x01",
        1,
        true,
    ),
    (
        b"\x08\x0c\x2a\x0c\x12\x0a\x0a\x03\x0a\x01\x01\x12\x03\x0a\x01\x01",
        2,
        false,
    ),
    (
        b"\x08\x0c\x2a\x0e\x12\x05\x12\x03\x0a\x01\x01\x12\x05\x12\x03\x0a\x01\x01",
        1,
        true,
    ),
    // and at last one of two
    (
        b"\x08\x0c\x2a\x0f\x12\x05\x12\x03\x0a\x01\x01\x12\x06\x0a\x04\x0a\x02\x01\x01",
        1,
        false,
    ),
    (
        b"\x08\x0c\x2a\x0f\x12\x05\x12\x03\x0a\x01\x01\x12\x06\x0a\x04\x0a\x02\x01\x01",
        2,
        false,
    ),
    // without a row any count is that of all
    (b"\x08\x0c\x2a\x02\x12\x00", 7, true),
];

/// Whether it is so of each row event that all of its rows have so many columns.
fn are_columns_of_all(rows: &[(&[u8], usize, bool)]) -> bool {
    for (bytes, columns, wanted) in rows {
        match Event::read(bytes) {
            Ok(Event::Row(event)) if event.all_have(*columns) == *wanted => {}
            _ => return false,
        }
    }
    true
}

#[test]
fn columns_of_all_rows(rt: HostRuntime) {
    assert!(rt; are_columns_of_all(COLUMNS_OF_ALL));
}

/// The column is there, with this name and this type.
fn is_column(column: Option<ColumnField<'_>>, name: &str, type_number: u64) -> bool {
    match column {
        None => false,
        Some(column) => column.name == name && column.type_number == type_number,
    }
}

/// The columns have these names and types, and there is no other.
pub(crate) fn are_columns(mut columns: ColumnFields<'_>, wanted: &[(&str, u64)]) -> bool {
    for (name, type_number) in wanted {
        if !is_column(columns.next(), name, *type_number) {
            return false;
        }
    }
    columns.next().is_none()
}

/// The bytes are a field event whose first column has this name and this type.
fn has_column(bytes: &[u8], name: &str, type_number: u64) -> bool {
    match Event::read(bytes) {
        Ok(Event::Field(event)) => is_column(event.fields().next(), name, type_number),
        _ => false,
    }
}

/// The entry is there, of this source and with this position.
pub(crate) fn is_entry(
    entry: Option<ShardGtid<'_>>,
    keyspace: &str,
    shard: &str,
    gtid: &str,
) -> bool {
    match entry {
        None => false,
        Some(entry) => entry.keyspace == keyspace && entry.shard == shard && entry.gtid == gtid,
    }
}

/// The bytes are a VGTID event whose first entry is of `b` in `a` at `c`.
fn has_entry(bytes: &[u8]) -> bool {
    match Event::read(bytes) {
        Ok(Event::Vgtid(event)) => is_entry(event.entries().next(), "a", "b", "c"),
        _ => false,
    }
}

#[test]
fn last_text_and_number_of_a_column(rt: HostRuntime) {
    let column = b"\x08\x0d\x32\x0c\x12\x0a\x0a\x01a\x10\x05\x0a\x01b\x10\x07";
    // type_is_whole_varint
    let whole = b"\x08\x0d\x32\x08\x12\x06\x10\x82\x80\x80\x80\x10";
    let entry = b"\x08\x0f\x3a\x0b\x0a\x09\x1a\x01c\x12\x01b\x0a\x01a";
    assert!(rt;
        has_column(column, "b", 7) && has_column(whole, "", 4_294_967_298) && has_entry(entry)
    );
}
