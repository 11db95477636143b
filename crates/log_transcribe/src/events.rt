//! The events of a file one after another, by what their heads say alone.

use log_events::{Size, number_at};
use log_groups::{EventClass, class_of};

/// How many bytes an event's head has.
const HEAD: usize = 19;

/// How many bytes the event at a place has, by its head.
fn size_at(bytes: &[u8], place: usize) -> usize {
    number_at(bytes, place.saturating_add(9), Size::Four) as usize
}

/// The place behind the event at a place.
fn behind_event(bytes: &[u8], place: usize) -> usize {
    place.saturating_add(size_at(bytes, place))
}

/// The place behind the event at a place, if that is before the end.
fn next_within(bytes: &[u8], place: usize, end: usize) -> Option<usize> {
    let size = size_at(bytes, place);
    if size < HEAD || end.saturating_sub(place) <= size {
        None
    } else {
        Some(behind_event(bytes, place))
    }
}

/// Whether the event at a place is none of a transaction.
fn is_skipped(bytes: &[u8], place: usize) -> bool {
    let kind = number_at(bytes, place.saturating_add(4), Size::One) as u8;
    let flags = number_at(bytes, place.saturating_add(17), Size::Two) as u16;
    matches!(
        class_of(kind, flags),
        EventClass::Skipped
            | EventClass::Description
            | EventClass::MariaList
            | EventClass::MysqlList
    )
}

/// The place of the last event that begins before the end, from the one at a place on.
pub(crate) fn last_before(bytes: &[u8], place: usize, end: usize) -> usize {
    let mut place = place;
    for _ in 0..bytes.len() {
        match next_within(bytes, place, end) {
            Some(next) => place = next,
            None => return place,
        }
    }
    place
}

/// The place of the first event that may begin a transaction, from the one at a place on.
pub(crate) fn first_of_transaction(bytes: &[u8], place: usize) -> usize {
    let mut place = place;
    for _ in 0..bytes.len() {
        if !is_skipped(bytes, place) {
            return place;
        }
        match next_within(bytes, place, bytes.len()) {
            Some(next) => place = next,
            None => return place,
        }
    }
    place
}

/// The place behind a file's format description.
pub(crate) fn behind_description(bytes: &[u8]) -> usize {
    behind_event(bytes, 4)
}
