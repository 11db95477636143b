//! Rows of many columns: each column found by its number, against the lengths that were written.

use proto_wire::{put_text, put_varint};
use row_view::{Column, RowView};
use std::alloc::{AllocError, Global};

/// The length of a column, none for NULL; one in eight takes two bytes as it is written.
fn length_of(seed: u32, place: u16) -> Option<u8> {
    let turn = seed
        .wrapping_add(u32::from(place))
        .wrapping_mul(2_654_435_761)
        >> 29;
    match turn {
        0 => None,
        1 => Some(0),
        2 => Some(80),
        3 => Some(2),
        _ => Some(1),
    }
}

/// The byte of which a column's value is made.
fn byte_of(place: u16) -> u8 {
    (place % 251) as u8
}

/// Appends the lengths of the columns of one part, packed or each in a field of its own.
fn push_part(
    alloc: Global,
    row: &mut Vec<u8>,
    seed: u32,
    part: (u16, u16),
    packed: bool,
) -> Result<(), AllocError> {
    let mut numbers = Vec::new(alloc);
    for place in part.0..part.1 {
        let number = match length_of(seed, place) {
            None => 1,
            Some(length) => 2 * u64::from(length),
        };
        if packed {
            put_varint(&mut numbers, number)?;
        } else {
            row.push(8)?;
            put_varint(row, number)?;
        }
    }
    put_text(row, 1, &numbers)
}

/// Appends the values of the columns.
fn push_values(alloc: Global, row: &mut Vec<u8>, seed: u32, count: u16) -> Result<(), AllocError> {
    let mut values = Vec::new(alloc);
    for place in 0..count {
        for _ in 0..length_of(seed, place).unwrap_or(0) {
            values.push(byte_of(place))?;
        }
    }
    put_text(row, 2, &values)
}

/// A row of so many columns, their lengths in parts of so many; every third part isn't packed.
fn random_row(alloc: Global, seed: u32, count: u16, size: u16) -> Result<Vec<u8>, AllocError> {
    let mut row = Vec::new(alloc);
    let mut from: u16 = 0;
    for part in 0..8u32 {
        let to = from.saturating_add(size).min(count);
        push_part(
            alloc,
            &mut row,
            seed,
            (from, to),
            seed.wrapping_add(part) % 3 != 0,
        )?;
        from = to;
    }
    push_part(alloc, &mut row, seed, (from, count), true)?;
    push_values(alloc, &mut row, seed, count)?;
    Ok(row)
}

/// A column is the one that was written at this place.
fn is_column(column: Column<'_>, seed: u32, place: u16) -> bool {
    let (Column::Bytes(value), Some(length)) = (column, length_of(seed, place)) else {
        return column == Column::Null && length_of(seed, place).is_none();
    };
    for byte in value {
        if *byte != byte_of(place) {
            return false;
        }
    }
    value.len() == usize::from(length)
}

/// The bytes are a row of the columns that were written.
fn has_all(bytes: &[u8], seed: u32, count: u16) -> bool {
    let Ok(row) = RowView::read(bytes) else {
        return false;
    };
    if row.len() != usize::from(count) {
        return false;
    }
    for place in 0..count {
        if !is_column(row.column(usize::from(place)), seed, place) {
            return false;
        }
    }
    true
}

/// Whether rows of 1 to 256 columns, of one to eight parts, are read as they were written.
fn are_read(alloc: Global) -> Result<bool, AllocError> {
    for count in 1..257u16 {
        for size in [300, count / 2 + 1, count / 5 + 1, 16] {
            let seed = u32::from(count)
                .wrapping_mul(7919)
                .wrapping_add(u32::from(size));
            let row = random_row(alloc, seed, count, size)?;
            if !has_all(&row, seed, count) {
                return Ok(false);
            }
        }
    }
    Ok(true)
}

#[test]
fn columns_of_random_rows(rt: HostRuntime) {
    assert!(rt; matches!(are_read(rt.alloc()), Ok(true)));
}

/// Rows of 17 columns, `a` to `q`: ten lengths packed before the values and seven alone behind them; and
/// the same with a NULL in the place of `e`.
const SEVENTEEN: [&[u8]; 2] = [
    b"\x0a\x0a\x02\x02\x02\x02\x02\x02\x02\x02\x02\x02\x12\x11abcdefghijklmnopq\x08\x02\x08\x02\x08\x02\x08\x02\x08\x02\x08\x02\x08\x02",
    b"\x0a\x0a\x02\x02\x02\x02\x01\x02\x02\x02\x02\x02\x12\x10abcdfghijklmnopq\x08\x02\x08\x02\x08\x02\x08\x02\x08\x02\x08\x02\x08\x02",
];

/// The row has these columns at 4, 9 and 16.
fn has_three(bytes: &[u8], fourth: Column<'_>) -> bool {
    match RowView::read(bytes) {
        Ok(row) if row.len() == 17 => {
            row.column(4) == fourth
                && row.column(9) == Column::Bytes(b"j")
                && row.column(16) == Column::Bytes(b"q")
        }
        _ => false,
    }
}

#[test]
fn a_seventeenth_column(rt: HostRuntime) {
    assert!(rt;
        has_three(SEVENTEEN[0], Column::Bytes(b"e")) && has_three(SEVENTEEN[1], Column::Null)
    );
}
