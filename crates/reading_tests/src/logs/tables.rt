//! Table maps, as a server wrote them.

use log_events::Size;
use log_tables::*;
use log_values::{Comma, Fraction, Kind};
use std::alloc::{AllocError, Global};

/// A table of all types, with what `binlog_row_metadata=FULL` tells.
pub(crate) const ALL_TYPES: &[u8] =
    b"\x12\0\0\0\0\0\x01\0\x01s\0\x09all_types\0\x13\x03\x01\x08\x0f\xfe\xfe\xf6\xfe\xfe\x13\x12\x11\x0a\x0d\x10\xfc\xfc\x02\x09\x13\xb0\x04\xfe\x0a\xfe\x06\x0a\x02\xf7\x01\xf8\x01\x03\x06\x02\x03\x01\x02\x03\xfe\xff\x07\x01\x01\xaa\x03\x05-\x08??-\x042\x02id\x01a\x01b\x01v\x01c\x01n\x01d\x01e\x01f\x01t\x02dt\x02ts\x03day\x01y\x04bits\x02bl\x02tx\x02sm\x02me\x0a\x01-\x05\x07\x03\x01x\x01y\x01z\x06\x07\x03\x01a\x01b\x01c\x08\x01\0";

/// The columns of that table in a workflow, and how their values are written.
pub(crate) const ALL_COLUMNS: &[(&[u8], u32, Kind)] = &[
    (b"id", 776, Kind::Unsigned(Size::Four)),
    (b"a", 257, Kind::Signed(Size::One)),
    (b"b", 778, Kind::Unsigned(Size::Eight)),
    (b"v", 6165, Kind::Counted(Size::Two)),
    (b"c", 6167, Kind::Counted(Size::One)),
    (b"n", 10264, Kind::Padded(Size::One, 6)),
    (b"d", 18, Kind::Decimal(10, 2)),
    (b"e", 2074, Kind::Label(Size::One)),
    (b"f", 2075, Kind::Labels(Size::One, Comma::Byte)),
    (b"t", 2063, Kind::Time(Fraction::Three)),
    (b"dt", 2064, Kind::DateTime(Fraction::Six)),
    (b"ts", 2061, Kind::Timestamp(Fraction::Two)),
    (b"day", 2062, Kind::Date),
    (b"y", 785, Kind::Year),
    (b"bits", 2073, Kind::Bits(2)),
    (b"bl", 10260, Kind::Counted(Size::Two)),
    (b"tx", 6163, Kind::Counted(Size::Three)),
    (b"sm", 259, Kind::Signed(Size::Two)),
    (b"me", 774, Kind::Unsigned(Size::Three)),
];

/// A table without a YEAR and with two of ENUM, with what `FULL` tells, and with what `MINIMAL` does.
pub(crate) const NO_YEAR: &[u8] =
    b"\x16\0\0\0\0\0\x01\0\x01s\0\x07no_year\0\x05\x03\x01\xfe\xfe\xfe\x06\xf7\x01\xf8\x01\xf7\x01\x1e\x01\x01\x80\x04\x0b\x02id\x01a\x01e\x01f\x01g\x0a\x01-\x05\x07\x03\x01x\x01y\x01z\x06\x0c\x03\x01a\x01b\x01c\x02\x01p\x01q\x08\x01\0";

const MINIMAL: &[u8] =
    b"\x16\0\0\0\0\0\x01\0\x01s\0\x07no_year\0\x05\x03\x01\xfe\xfe\xfe\x06\xf7\x01\xf8\x01\xf7\x01\x1e\x01\x01\x80";

/// Its columns in a workflow.
pub(crate) const NO_YEAR_COLUMNS: &[(&[u8], u32)] = &[
    (b"id", 776),
    (b"a", 257),
    (b"e", 2074),
    (b"f", 2075),
    (b"g", 2074),
];

/// The same without the last.
const FEWER_COLUMNS: &[(&[u8], u32)] = &[(b"id", 776), (b"a", 257), (b"e", 2074), (b"f", 2075)];

/// The labels of ENUM and SET in these tables.
const ENUM: &[&[u8]] = &[b"a", b"b", b"c"];

const SET: &[&[u8]] = &[b"x", b"y", b"z"];

const NONE: &[&[u8]] = &[];

const OTHER_ENUM: &[&[u8]] = &[b"p", b"q"];

/// The columns of a map's body under these names and types.
pub(crate) fn columns<'b>(
    alloc: Global,
    body: &'b [u8],
    wanted: &[(&[u8], u32)],
) -> Result<Result<Vec<LogColumn<'b>>, TableFault>, AllocError> {
    let mut all = Vec::new(alloc);
    for (name, type_number) in wanted {
        let one = Wanted {
            name,
            type_number: *type_number,
        };
        all.push(one)?;
    }
    let map = match map_of(body) {
        Ok(map) => map,
        Err(fault) => return Ok(Err(fault)),
    };
    match columns_of(alloc, &all, &map) {
        Ok(columns) => Ok(Ok(columns)),
        Err(TableError::Fault(fault)) => Ok(Err(fault)),
        Err(TableError::Memory) => Err(AllocError),
    }
}

/// The names and types of the table of all types.
pub(crate) fn all_columns(alloc: Global) -> Result<Vec<(&'static [u8], u32)>, AllocError> {
    let mut wanted = Vec::new(alloc);
    for (name, type_number, _) in ALL_COLUMNS {
        wanted.push((*name, *type_number))?;
    }
    Ok(wanted)
}

/// Whether columns are read in these ways.
fn are_kinds(found: &[LogColumn<'_>], wanted: &[(&[u8], u32, Kind)]) -> bool {
    for (column, (_, _, kind)) in found.iter().zip(wanted.iter()) {
        if column.kind != *kind {
            return false;
        }
    }
    found.len() == wanted.len()
}

/// Whether the column at a place has these labels.
fn has_labels(found: &[LogColumn<'_>], place: usize, labels: &[&[u8]]) -> bool {
    match found.get(place) {
        Some(column) => column.labels.as_slice() == labels,
        None => false,
    }
}

/// Whether a body is the map of the table of all types.
fn is_all_types(body: &[u8]) -> bool {
    match map_of(body) {
        Ok(map) => {
            map.table == 18
                && map.schema == b"s".as_slice()
                && map.name == b"all_types".as_slice()
                && map.types.len() == 19
        }
        Err(_) => false,
    }
}

#[test]
fn maps_of_a_server(rt: HostRuntime) -> Result<(), AllocError> {
    assert!(rt; is_all_types(ALL_TYPES) && !is_all_types(NO_YEAR));
    let found = columns(rt.alloc(), ALL_TYPES, &all_columns(rt.alloc())?)?;
    assert!(rt; matches!(&found, Ok(found) if are_kinds(found, ALL_COLUMNS)));
    assert!(rt; matches!(&found, Ok(found) if has_labels(found, 7, ENUM)));
    assert!(rt; matches!(&found, Ok(found) if has_labels(found, 8, SET)));
    assert!(rt; matches!(&found, Ok(found) if has_labels(found, 9, NONE)));
    let two = columns(rt.alloc(), NO_YEAR, NO_YEAR_COLUMNS)?;
    assert!(rt; matches!(&two, Ok(two) if has_labels(two, 2, ENUM)));
    assert!(rt; matches!(&two, Ok(two) if has_labels(two, 4, OTHER_ENUM)));
    Ok(())
}

/// The fault of a map's columns, or none.
fn fault_of(
    alloc: Global,
    body: &[u8],
    wanted: &[(&[u8], u32)],
) -> Result<Option<TableFault>, AllocError> {
    match columns(alloc, body, wanted)? {
        Ok(_) => Ok(None),
        Err(fault) => Ok(Some(fault)),
    }
}

/// The fault where one column of the second table is another in the workflow.
fn fault_with(
    alloc: Global,
    place: usize,
    name: &'static [u8],
    type_number: u32,
) -> Result<Option<TableFault>, AllocError> {
    let mut all: Vec<(&[u8], u32)> = Vec::new(alloc);
    for (at, column) in NO_YEAR_COLUMNS.iter().enumerate() {
        let one = if at == place {
            (name, type_number)
        } else {
            *column
        };
        all.push(one)?;
    }
    fault_of(alloc, NO_YEAR, &all)
}

#[test]
fn what_a_map_refuses(rt: HostRuntime) -> Result<(), AllocError> {
    let alloc = rt.alloc();
    let (columns, types) = (Some(TableFault::OtherColumns), Some(TableFault::OtherType));
    assert_eq!(rt; fault_of(alloc, NO_YEAR, NO_YEAR_COLUMNS)?, None);
    assert_eq!(rt; fault_of(alloc, MINIMAL, NO_YEAR_COLUMNS)?, types);
    assert_eq!(rt; fault_of(alloc, NO_YEAR, FEWER_COLUMNS)?, columns);
    assert_eq!(rt; fault_with(alloc, 1, b"b", 257)?, columns);
    assert_eq!(rt; fault_with(alloc, 0, b"id", 263)?, types);
    assert_eq!(rt; fault_with(alloc, 1, b"a", 770)?, types);
    assert_eq!(rt; fault_with(alloc, 1, b"a", 259)?, types);
    assert_eq!(rt; fault_with(alloc, 2, b"e", 2075)?, types);
    assert_eq!(rt; fault_with(alloc, 3, b"f", 6165)?, types);
    assert_eq!(rt; fault_with(alloc, 4, b"g", 18)?, types);
    assert_eq!(rt; TableFault::OtherColumns.number(), 148);
    Ok(())
}

/// Where a part of the map ends, before the labels of all columns are told.
const ENDS: &[usize] = &[65, 68, 75, 127, 130, 139];

/// Where all is told that the columns need.
const TOLD: usize = 148;

/// The first bytes, so many of them.
pub(crate) fn front(bytes: &'static [u8], size: usize) -> &'static [u8] {
    bytes.get(..size).unwrap_or(bytes)
}

#[test]
fn a_map_cut_at_every_byte(rt: HostRuntime) -> Result<(), AllocError> {
    let wanted = all_columns(rt.alloc())?;
    for size in 0..ALL_TYPES.len() {
        let fault = fault_of(rt.alloc(), front(ALL_TYPES, size), &wanted)?;
        let expected = if size == TOLD {
            None
        } else if ENDS.contains(&size) {
            Some(TableFault::OtherType)
        } else {
            Some(TableFault::CutBody)
        };
        assert_eq!(rt; fault, expected);
    }
    Ok(())
}
