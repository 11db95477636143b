//! The texts that faults print.

use gtid_set::GtidFault;
use proto_wire::{FrameFault, WireFault};
use row_view::RowFault;
use std::alloc::{AllocError, Global};
use std::fmt::Display;
use vevent::EventFault;

/// The value prints this text.
pub(crate) fn prints<T: Display>(
    alloc: Global,
    value: &T,
    wanted: &str,
) -> Result<bool, AllocError> {
    let text = format!(in alloc; "{value}")?;
    Ok(text.as_str() == wanted)
}

/// Whether each value prints the text beside it.
fn print<T: Display>(alloc: Global, rows: &[(T, &str)]) -> Result<bool, AllocError> {
    for (value, wanted) in rows {
        if !prints(alloc, value, wanted)? {
            return Ok(false);
        }
    }
    Ok(true)
}

const WIRE: &[(WireFault, &str)] = &[
    (WireFault::Truncated, "the bytes end inside a field"),
    (WireFault::VarintTooLong, "a varint has more than 64 bits"),
    (
        WireFault::GroupWireType,
        "a field has the wire type of a group",
    ),
    (
        WireFault::BadWireType,
        "a field has a wire type that is not known",
    ),
    (
        WireFault::BadFieldNumber,
        "a field has a number out of range",
    ),
];

#[test]
fn texts_of_wire_faults(rt: HostRuntime) {
    assert!(rt; matches!(print(rt.alloc(), WIRE), Ok(true)));
}

const FRAME: &[(FrameFault, &str)] = &[(
    FrameFault {
        place: 17,
        cause: WireFault::Truncated,
    },
    "a message is broken at byte 17: the bytes end inside a field",
)];

#[test]
fn text_of_a_frame_fault(rt: HostRuntime) {
    assert!(rt; matches!(print(rt.alloc(), FRAME), Ok(true)));
}

const ROW: &[(RowFault, &str)] = &[
    (
        RowFault::RowTooLong,
        "a row message has more than 16777216 bytes",
    ),
    (
        RowFault::Wire(WireFault::Truncated),
        "a row message is broken: the bytes end inside a field",
    ),
    (RowFault::TooManyColumns, "a row has more than 256 columns"),
    (
        RowFault::LengthsPastValues,
        "the lengths of a row are more than its values",
    ),
];

#[test]
fn texts_of_row_faults(rt: HostRuntime) {
    assert!(rt; matches!(print(rt.alloc(), ROW), Ok(true)));
}

const POSITION: &[(GtidFault, &str)] = &[
    (
        GtidFault::TooLarge,
        "the position text has more than 1,048,576 bytes",
    ),
    (
        GtidFault::Flavor,
        "the position is of another flavor than MySQL56",
    ),
    (
        GtidFault::BadUuid,
        "a part of the position doesn't begin with a uuid",
    ),
    (GtidFault::Syntax, "no colon follows a uuid of the position"),
    (
        GtidFault::BadNumber,
        "a number of the position is malformed or out of range",
    ),
    (GtidFault::Memory, "out of memory"),
];

const NUMBERS: &[(GtidFault, u8)] = &[
    (GtidFault::TooLarge, 36),
    (GtidFault::Flavor, 31),
    (GtidFault::BadUuid, 32),
    (GtidFault::Syntax, 35),
    (GtidFault::BadNumber, 33),
    (GtidFault::Memory, 72),
];

/// Whether each fault has the number beside it.
fn have_numbers(rows: &[(GtidFault, u8)]) -> bool {
    for (fault, number) in rows {
        if fault.number() != *number {
            return false;
        }
    }
    true
}

#[test]
fn texts_of_position_faults(rt: HostRuntime) {
    assert!(rt; have_numbers(NUMBERS) && matches!(print(rt.alloc(), POSITION), Ok(true)));
}

const EVENT: &[(EventFault, &str)] = &[
    (
        EventFault::Wire(WireFault::GroupWireType),
        "an event isn't a list of fields: a field has the wire type of a group",
    ),
    (
        EventFault::RepeatedMessage,
        "an embedded message occurs twice",
    ),
    (
        EventFault::BadType(6),
        "an event has the type 6, which is not read",
    ),
    (EventFault::NotUtf8, "a text isn't UTF-8"),
    (EventFault::PartialRow, "a row image is partial"),
    (
        EventFault::Row(RowFault::TooManyColumns),
        "a row is at fault: a row has more than 256 columns",
    ),
];

#[test]
fn texts_of_event_faults(rt: HostRuntime) {
    assert!(rt; matches!(print(rt.alloc(), EVENT), Ok(true)));
}
