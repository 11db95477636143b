//! Responses: where their events end, and those that Google's library writes.

use crate::wire::events::{GROUP, are_columns, is_entry};
use crate::wire::rows::has_columns;
use crate::wire::samples::RESPONSE;
use row_view::{Column, RowView};
use vevent::*;

/// The response is BEGIN and then this fault, again and again.
fn begins_and_fails(bytes: &[u8], fault: EventFault) -> bool {
    let mut response = Response::new(bytes);
    matches!(response.next_event(), Ok(Some(Event::Begin)))
        && response.next_event().err() == Some(fault)
        && response.next_event().err() == Some(fault)
}

#[test]
fn response_ends_at_its_fault(rt: HostRuntime) {
    // BEGIN, a field that isn't known, a bad event, COMMIT.
    let bad_event = b"\x0a\x02\x08\x02\x10\x05\x0a\x02\x08\x06\x0a\x02\x08\x03";
    // The response's own bad field.
    let bad_field = b"\x0a\x02\x08\x02\x0b";
    assert!(rt;
        begins_and_fails(bad_event, EventFault::BadType(6)) && begins_and_fails(bad_field, GROUP)
    );
}

const POSITION: &str = "MySQL56/3e11fa47-71ca-11e1-9e33-c80aa9429562:1-5";

/// The second column of a row that the library wrote.
type Second = Option<Column<'static>>;

/// These second columns of the rows before and after each change: an insert, an update and a delete.
const CHANGES: &[(Second, Second)] = &[
    (None, Some(Column::Null)),
    (Some(Column::Null), Some(Column::Bytes(b"ab"))),
    (Some(Column::Bytes(b"ab")), None),
];

/// A row of 1 and this second column, or none.
fn is_row(row: Option<RowView<'_>>, second: Second) -> bool {
    match (row, second) {
        (Some(row), Some(second)) => has_columns(&row, &[Column::Bytes(b"1"), second]),
        (row, second) => row.is_none() && second.is_none(),
    }
}

/// The change has rows of 1 and these second columns.
fn is_change(change: Option<RowChange<'_>>, before: Second, after: Second) -> bool {
    let Some(change) = change else {
        return false;
    };
    change.has_before() == before.is_some()
        && change.has_after() == after.is_some()
        && is_row(change.before(), before)
        && is_row(change.after(), after)
}

/// The changes that the library wrote.
fn are_changes(event: &RowEvent<'_>) -> bool {
    let mut changes = event.changes();
    for (before, after) in CHANGES {
        if !is_change(changes.next(), *before, *after) {
            return false;
        }
    }
    event.table_name() == "ks.t" && changes.next().is_none()
}

/// The columns that the library wrote.
fn are_its_columns(event: &FieldEvent<'_>) -> bool {
    event.table_name() == "ks.t" && are_columns(event.fields(), &[("id", 265), ("v", 6165)])
}

/// The positions that the library wrote.
fn are_entries(event: &VGtid<'_>) -> bool {
    let mut entries = event.entries();
    is_entry(entries.next(), "ks", "-80", POSITION)
        && is_entry(entries.next(), "ks", "80-", "")
        && entries.next().is_none()
}

/// The type of an event that is as the library wrote it; 0 where it isn't.
fn type_of(event: &Event<'_>) -> u8 {
    match event {
        Event::Gtid(position) if *position == POSITION => 1,
        Event::Begin => 2,
        Event::Commit => 3,
        Event::Rollback => 4,
        Event::Row(event) if are_changes(event) => 12,
        Event::Field(event) if are_its_columns(event) => 13,
        Event::Vgtid(event) if are_entries(event) => 15,
        Event::Ignored(IgnoredEvent::Ddl) => 5,
        Event::Ignored(IgnoredEvent::Other) => 11,
        Event::Ignored(IgnoredEvent::Heartbeat) => 14,
        Event::Ignored(IgnoredEvent::Version) => 17,
        Event::Ignored(IgnoredEvent::Savepoint) => 19,
        _ => 0,
    }
}

/// Whether the response has events of these types, as the library wrote them, and no other.
fn has_types(bytes: &[u8], wanted: &[u8]) -> bool {
    let mut response = Response::new(bytes);
    for number in wanted {
        match response.next_event() {
            Ok(Some(event)) if type_of(&event) == *number => {}
            _ => return false,
        }
    }
    matches!(response.next_event(), Ok(None)) && matches!(response.next_event(), Ok(None))
}

#[test]
fn response_of_googles_library(rt: HostRuntime) {
    assert!(rt; has_types(&RESPONSE, &[2, 13, 12, 15, 1, 5, 3, 4, 11, 14, 17, 19]));
}
