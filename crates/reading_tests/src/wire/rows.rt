//! Rows as bytes and the columns that they are, worked by hand from `query.proto` and the protobuf
//! encoding guide.

use row_view::*;
use std::alloc::{AllocError, Global};

/// Bytes, and the columns that they are.
const ROWS: &[(&[u8], &[Column<'static>])] = &[
    // packed_and_single_lengths
    (
        b"\x0a\x03\x02\x01\x04\x12\x031ab",
        &[Column::Bytes(b"1"), Column::Null, Column::Bytes(b"ab")],
    ),
    (
        b"\x12\x031ab\x08\x02\x08\x01\x08\x04",
        &[Column::Bytes(b"1"), Column::Null, Column::Bytes(b"ab")],
    ),
    // several_parts: packed ones and single lengths in turn, values twice, an unknown field 3, and
    // fields 1 and 2 of four bytes, which are skipped
    (
        b"\x12\x01x\x0a\x01\x02\x0d0000\x08\x01\x18\x07\x0a\x02\x00\x04\x12\x051abcd\x150000\x0a\x00",
        &[
            Column::Bytes(b"1"),
            Column::Null,
            Column::Bytes(b""),
            Column::Bytes(b"ab"),
        ],
    ),
    // empty_row
    (b"", &[]),
];

/// The row has just these columns, one after another and by number.
pub(crate) fn has_columns(row: &RowView<'_>, wanted: &[Column<'_>]) -> bool {
    let mut columns = row.columns();
    for place in 0..row.len() {
        let column = row.column(place);
        if columns.next() != Some(column) || wanted.get(place) != Some(&column) {
            return false;
        }
    }
    columns.next().is_none() && row.len() == wanted.len() && row.is_empty() == wanted.is_empty()
}

/// The bytes are a row of just these columns.
fn is_row(bytes: &[u8], wanted: &[Column<'_>]) -> bool {
    match RowView::read(bytes) {
        Ok(row) => has_columns(&row, wanted),
        Err(_) => false,
    }
}

/// Whether each of the bytes are a row of the columns beside them.
fn are_rows(rows: &[(&[u8], &[Column<'_>])]) -> bool {
    for (bytes, wanted) in rows {
        if !is_row(bytes, wanted) {
            return false;
        }
    }
    true
}

#[test]
fn columns_of_rows(rt: HostRuntime) {
    assert!(rt; are_rows(ROWS));
}

/// The first column, of a view that ends here.
fn first_column(bytes: &[u8]) -> Option<Column<'_>> {
    let row = RowView::read(bytes).ok()?;
    row.columns().next()
}

#[test]
fn column_outlives_its_view(rt: HostRuntime) {
    assert!(rt; first_column(b"\x0a\x01\x02\x12\x011") == Some(Column::Bytes(b"1")));
}

/// A feed of a million rows keeps a million of them; a view, with its marks, is made where it is used.
#[test]
fn a_kept_row_is_small(rt: HostRuntime) {
    assert!(rt;
        size_of::<RowBytes<'static>>() <= 16
            && size_of::<RowBuf>() <= 24
            && size_of::<RowView<'static>>() <= 240
    );
}

/// Bytes, and the numbers of their refusal, the row's own and that of the innermost fault.
const REFUSED: &[(&[u8], u8, u8)] = &[
    // length_past_values
    (b"\x0a\x01\x0a\x12\x031ab", 12, 12),
    // lengths_past_values: 2^63 - 1 twice and then 2, a sum of 64 bits would come back to 0
    (
        b"\x0a\x15\xfe\xff\xff\xff\xff\xff\xff\xff\xff\x01\xfe\xff\xff\xff\xff\xff\xff\xff\xff\x01\x04",
        12,
        12,
    ),
    // row_is_no_list: of several faults the one further left counts, that of a packed part at its own place
    (b"\x80", 11, 1),
    (b"\x0a\x01\x80", 11, 1),
    (
        b"\x0a\x0a\x80\x80\x80\x80\x80\x80\x80\x80\x80\x02\x12\x05",
        11,
        2,
    ),
    (b"\x1b\x0a\x01\x80", 11, 3),
    (b"\x0e\x0a\x01\x80", 11, 4),
    (b"\x00\x00\x0a\x01\x80", 11, 5),
];

/// The bytes are refused by these numbers.
fn is_refused(bytes: &[u8], number: u8, cause: u8) -> bool {
    match RowView::read(bytes) {
        Ok(_) => false,
        Err(fault) => fault.number() == number && fault.cause() == cause,
    }
}

/// Whether each of the bytes are refused by the numbers beside them.
fn are_refused(rows: &[(&[u8], u8, u8)]) -> bool {
    for (bytes, number, cause) in rows {
        if !is_refused(bytes, *number, *cause) {
            return false;
        }
    }
    true
}

#[test]
fn refused_rows(rt: HostRuntime) {
    assert!(rt; are_refused(REFUSED));
}

/// Whether 257 lengths of 1 and no values are refused by their count, which comes before the sum,
/// and behind a broken tail by that.
fn count_comes_first() -> bool {
    let mut bytes = [2u8; 261];
    bytes[0] = 0x0a;
    bytes[1] = 0x81;
    bytes[260] = 0x80;
    is_refused(&bytes[..260], 13, 13) && is_refused(&bytes, 11, 1)
}

#[test]
fn too_many_columns(rt: HostRuntime) {
    assert!(rt; count_comes_first());
}

/// Whether 256 NULLs, packed, are a row.
fn is_widest() -> bool {
    let mut bytes = [1u8; 259];
    bytes[0] = 0x0a;
    bytes[1] = 0x80;
    bytes[2] = 0x02;
    is_row(&bytes, &[Column::Null; 256])
}

#[test]
fn row_columns_limit(rt: HostRuntime) {
    assert!(rt; is_widest());
}

/// Whether an unknown field 15 that fills the message, to 2^24 bytes, is a row of no columns.
fn is_longest(alloc: Global) -> Result<bool, AllocError> {
    let mut message = vec![in alloc; 0u8; 16_777_216]?;
    message[0] = 0x7a;
    message[1] = 0xfb;
    message[2] = 0xff;
    message[3] = 0xff;
    message[4] = 0x07;
    Ok(is_row(&message, &[]))
}

#[test]
fn row_bytes_limit(rt: HostRuntime) {
    assert!(rt; matches!(is_longest(rt.alloc()), Ok(true)));
}

/// Whether zeros, which are no fields either, are refused by their size.
fn is_too_long(alloc: Global) -> Result<bool, AllocError> {
    let bytes = vec![in alloc; 0u8; 16_777_217]?;
    Ok(is_refused(&bytes, 14, 14))
}

#[test]
fn row_too_long(rt: HostRuntime) {
    assert!(rt; matches!(is_too_long(rt.alloc()), Ok(true)));
}

/// A kept row is lent as this row, of `1`, NULL and `ab`.
fn is_lent_as(kept: &RowBuf, row: &RowView<'_>) -> bool {
    let view = kept.view();
    view.same(row)
        && has_columns(
            &view,
            &[Column::Bytes(b"1"), Column::Null, Column::Bytes(b"ab")],
        )
}

/// Whether a row in memory of its own is its view, and so is its copy.
fn is_kept(alloc: Global, bytes: &[u8]) -> Result<bool, AllocError> {
    let Ok(row) = RowView::read(bytes) else {
        return Ok(false);
    };
    let kept = RowBuf::from_view(alloc, &row)?;
    let copy = kept.try_clone(alloc)?;
    Ok(is_lent_as(&kept, &row) && copy.same(&kept))
}

#[test]
fn a_row_in_memory_of_its_own(rt: HostRuntime) {
    assert!(rt;
        matches!(
            is_kept(rt.alloc(), b"\x0a\x03\x02\x01\x04\x12\x031ab"),
            Ok(true)
        )
    );
}

/// Whether two rows are told apart in memory.
fn are_told_apart(alloc: Global, one: &[u8], other: &[u8]) -> Result<bool, AllocError> {
    let (Ok(one), Ok(other)) = (RowView::read(one), RowBytes::read(other)) else {
        return Ok(false);
    };
    let one = RowBuf::from_view(alloc, &one)?;
    let other = RowBuf::from_bytes(alloc, &other)?;
    Ok(!other.same(&one))
}

/// NULL and empty bytes are told apart.
#[test]
fn null_and_empty_in_memory(rt: HostRuntime) {
    let null = b"\x0a\x03\x02\x01\x04\x12\x031ab";
    let empty = b"\x0a\x03\x02\x00\x04\x12\x031ab";
    assert!(rt; matches!(are_told_apart(rt.alloc(), null, empty), Ok(true)));
}

/// Whether the third and the first of three columns are picked in this order, and all in theirs as a copy.
fn are_picked(alloc: Global, bytes: &[u8]) -> Result<bool, AllocError> {
    let Ok(row) = RowView::read(bytes) else {
        return Ok(false);
    };
    if row.len() != 3 {
        return Ok(false);
    }
    let two = RowBuf::pick(alloc, &row, &[2, 0])?;
    let all = RowBuf::pick(alloc, &row, &[0, 1, 2])?;
    Ok(
        has_columns(&two.view(), &[Column::Bytes(b"ab"), Column::Bytes(b"1")])
            && all.view().same(&row),
    )
}

#[test]
fn picked_columns(rt: HostRuntime) {
    assert!(rt;
        matches!(
            are_picked(rt.alloc(), b"\x0a\x03\x02\x01\x04\x12\x031ab"),
            Ok(true)
        )
    );
}
