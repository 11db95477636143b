//! Writing: the bytes that the encoding guide shows, and what is read of them again.

use crate::wire::fields::are_fields;
use proto_wire::*;
use row_view::*;
use std::alloc::{AllocError, Global};

/// Numbers, and how many bytes they take.
const VARINTS: &[(u64, usize)] = &[(0, 1), (127, 1), (128, 2), (150, 2), (u64::MAX, 10)];

/// These numbers one after another.
const WRITTEN: &[u8] = b"\x00\x7f\x80\x01\x96\x01\xff\xff\xff\xff\xff\xff\xff\xff\xff\x01";

/// Whether each number has the size beside it.
fn have_sizes(rows: &[(u64, usize)]) -> bool {
    for (value, size) in rows {
        if varint_size(*value) != *size {
            return false;
        }
    }
    true
}

/// Whether the numbers, one after another, are written so.
fn are_written(alloc: Global, rows: &[(u64, usize)], wanted: &[u8]) -> Result<bool, AllocError> {
    let mut out = Vec::new(alloc);
    for (value, _) in rows {
        put_varint(&mut out, *value)?;
    }
    Ok(out.as_slice() == wanted)
}

#[test]
fn varints_are_shortest(rt: HostRuntime) {
    assert!(rt;
        have_sizes(VARINTS) && matches!(are_written(rt.alloc(), VARINTS, WRITTEN), Ok(true))
    );
}

const NUMBER: Field<'static> = Field {
    number: 1,
    payload: Payload::Varint(150),
};

const TEXT: Field<'static> = Field {
    number: 2,
    payload: Payload::Bytes(b"testing"),
};

/// Both fields, behind a byte.
fn two_fields(alloc: Global) -> Result<Vec<u8>, AllocError> {
    let mut out = Vec::from_slice(alloc, b"x")?;
    put_field(&mut out, &NUMBER)?;
    put_field(&mut out, &TEXT)?;
    Ok(out)
}

/// Whether both fields are written so behind a byte.
fn are_written_behind(alloc: Global, wanted: &[u8]) -> Result<bool, AllocError> {
    Ok(two_fields(alloc)?.as_slice() == wanted)
}

#[test]
fn fields_behind_what_is_there(rt: HostRuntime) {
    let wanted = b"\x08\x96\x01\x12\x07testing";
    assert!(rt;
        are_fields(wanted, &[NUMBER, TEXT], None)
            && matches!(
                are_written_behind(rt.alloc(), b"x\x08\x96\x01\x12\x07testing"),
                Ok(true)
            )
    );
}

/// Rows, and the bytes that are written of them.
const ROWS: &[(&[u8], &[u8])] = &[
    // rows_are_packed: single lengths behind the values, and a byte past the last column
    (
        b"\x12\x041ab!\x08\x02\x08\x01\x08\x04",
        b"\x0a\x03\x02\x01\x04\x12\x031ab",
    ),
    // rows_of_no_bytes: no columns; NULL and the empty value, with values of no column
    (b"\x12\x01!", b""),
    (b"\x0a\x02\x01\x00\x12\x01!", b"\x0a\x02\x01\x00"),
    // rows_as_written: values, NULL alone, values of 150 bytes
    (
        b"\x0a\x04\x02\x01\x00\x04\x12\x031ab",
        b"\x0a\x04\x02\x01\x00\x04\x12\x031ab",
    ),
    (b"\x0a\x01\x01", b"\x0a\x01\x01"),
    (
        b"\x0a\x03ddd\x12\x96\x01012345678901234567890123456789012345678901234567890123456789012345678901234567890123456789012345678901234567890123456789012345678901234567890123456789",
        b"\x0a\x03ddd\x12\x96\x01012345678901234567890123456789012345678901234567890123456789012345678901234567890123456789012345678901234567890123456789012345678901234567890123456789",
    ),
    // rows_spelled_otherwise: a byte past the last column, -2 for NULL, no values that are there, sizes and a
    // length with a byte more than they need, the values first, another field
    (b"\x0a\x01\x02\x12\x021!", b"\x0a\x01\x02\x12\x011"),
    (b"\x0a\x02\x02\x03\x12\x011", b"\x0a\x02\x02\x01\x12\x011"),
    (b"\x0a\x01\x01\x12\x00", b"\x0a\x01\x01"),
    (b"\x0a\x81\x00\x02\x12\x011", b"\x0a\x01\x02\x12\x011"),
    (b"\x0a\x01\x02\x12\x81\x001", b"\x0a\x01\x02\x12\x011"),
    (b"\x0a\x02\x82\x00\x12\x011", b"\x0a\x01\x02\x12\x011"),
    (b"\x12\x011\x0a\x01\x02", b"\x0a\x01\x02\x12\x011"),
    (b"\x0a\x01\x02\x12\x011\x18\x01", b"\x0a\x01\x02\x12\x011"),
    // a_value_of_64_bytes: its length has two bytes
    (
        b"\x0a\x02\x80\x01\x12\x400123456789012345678901234567890123456789012345678901234567890123",
        b"\x0a\x02\x80\x01\x12\x400123456789012345678901234567890123456789012345678901234567890123",
    ),
];

/// Whether a row is written so.
fn is_rewritten(alloc: Global, row: &[u8], wanted: &[u8]) -> Result<bool, AllocError> {
    let Ok(row) = RowView::read(row) else {
        return Ok(false);
    };
    let mut out = Vec::new(alloc);
    write_row(&mut out, &row)?;
    Ok(out.as_slice() == wanted)
}

/// Whether each row is written so.
fn are_rewritten(alloc: Global, rows: &[(&[u8], &[u8])]) -> Result<bool, AllocError> {
    for (row, wanted) in rows {
        if !is_rewritten(alloc, row, wanted)? {
            return Ok(false);
        }
    }
    Ok(true)
}

#[test]
fn rows_are_packed(rt: HostRuntime) {
    assert!(rt; matches!(are_rewritten(rt.alloc(), ROWS), Ok(true)));
}

/// Columns, and the bytes that are written of a row of them.
const COLUMNS: &[(&[Column<'static>], &[u8])] = &[
    // two_values
    (
        &[Column::Bytes(b"1"), Column::Bytes(b"ab")],
        b"\x0a\x02\x02\x04\x12\x031ab",
    ),
    // null_and_the_empty_value: no values are left to write
    (&[Column::Null, Column::Bytes(b"")], b"\x0a\x02\x01\x00"),
    // no_columns
    (&[], b""),
];

/// Whether a row of these columns is written so behind a byte.
fn is_written_of(alloc: Global, columns: &[Column<'_>], wanted: &[u8]) -> Result<bool, AllocError> {
    let mut out = Vec::from_slice(alloc, b"x")?;
    write_columns(&mut out, columns)?;
    Ok(out.as_slice().strip_prefix(b"x") == Some(wanted))
}

/// Whether a row that is made of these columns is the one that is read of the bytes.
fn is_row_of(alloc: Global, columns: &[Column<'_>], bytes: &[u8]) -> Result<bool, AllocError> {
    match (RowBuf::of_columns(alloc, columns)?, RowView::read(bytes)) {
        (Some(row), Ok(read)) => Ok(row.view().same(&read)),
        _ => Ok(false),
    }
}

/// Whether the columns of each row are written as the bytes beside them, and make the row of these.
fn are_written_of(alloc: Global, rows: &[(&[Column<'_>], &[u8])]) -> Result<bool, AllocError> {
    for (columns, wanted) in rows {
        if !is_written_of(alloc, columns, wanted)? || !is_row_of(alloc, columns, wanted)? {
            return Ok(false);
        }
    }
    Ok(true)
}

#[test]
fn rows_of_columns(rt: HostRuntime) {
    assert!(rt; matches!(are_written_of(rt.alloc(), COLUMNS), Ok(true)));
}

/// Whether so many NULLs make a row.
fn is_row_of_nulls(alloc: Global, count: usize) -> Result<bool, AllocError> {
    let mut columns = Vec::new(alloc);
    for _ in 0..count {
        columns.push(Column::Null)?;
    }
    Ok(RowBuf::of_columns(alloc, columns.as_slice())?.is_some())
}

#[test]
fn rows_beyond_the_limits(rt: HostRuntime) {
    assert!(rt; matches!(is_row_of_nulls(rt.alloc(), 256), Ok(true)));
    assert!(rt; matches!(is_row_of_nulls(rt.alloc(), 257), Ok(false)));
}
