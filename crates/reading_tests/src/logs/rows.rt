//! Row events, as a server wrote them.

use crate::logs::tables::{ALL_TYPES, NO_YEAR, NO_YEAR_COLUMNS, all_columns, columns, front};
use log_rows::*;
use log_tables::LogColumn;
use log_values::ValueFault;
use std::alloc::{AllocError, Global};

/// An insert of two rows of the table of all types, the second NULL but for its key.
const INSERT: &[u8] =
    b"\x12\0\0\0\0\0\x01\0\x13\xff\xff\x07\0\0\xf8\x01\0\0\0\x80\xff\xff\xff\xff\xff\xff\xff\xff\x05\0hello\x03 ab\x02\x01\x02\x7f\xed)x\xa6\x02\x05K\x91\x04\xd8\xfa\x99\xb2\xbb~\xfb\x01\xe2@e\xe0q\xc0\x0c]\xd0\x0f|\x05U\x04\0blob\x04\0\0text\0\x80\xff\xff\xff\xfe\xff\xff\x02\0\0\0";

/// The first row as a row message has it.
const LENGTHS: &[u8] = &[
    2, 8, 40, 10, 6, 12, 22, 2, 6, 28, 52, 44, 20, 8, 4, 8, 8, 12, 16,
];

const VALUES: &[u8] =
    b"1-12818446744073709551615hello ab\x01\x02\0\0\0\0-1234567.89bx,z-838:59:59.9992024-02-29 23:59:59.1234562024-02-29 12:00:00.122024-02-292024\x05Ublobtext-3276816777215";

/// The second row.
const NULL_LENGTHS: &[u8] = &[2, 1, 1, 1, 1, 1, 1, 1, 1, 1, 1, 1, 1, 1, 1, 1, 1, 1, 1];

/// An update of one row.
pub(crate) const UPDATE: &[u8] =
    b"\x16\0\0\0\0\0\x01\0\x05\x1f\x1f\xe0\x07\0\0\0\xff\x03\x02\x02\xe2\x07\0\0\0\x03\x02\x02";

/// Whether cells are these lengths and values.
pub(crate) fn are(cells: &WrittenCells, lengths: &[u8], values: &[u8]) -> bool {
    cells.lengths.as_slice() == lengths && cells.values.as_slice() == values
}

/// The columns of a map, which are the wanted ones.
pub(crate) fn columns_there(
    alloc: Global,
    body: &'static [u8],
    wanted: &[(&[u8], u32)],
) -> Result<Vec<LogColumn<'static>>, AllocError> {
    match columns(alloc, body, wanted)? {
        Ok(found) => Ok(found),
        Err(_) => Ok(Vec::new(alloc)),
    }
}

/// The rows behind the head of a body, none where there is no head.
pub(crate) fn rows_behind(kind: RowsKind, body: &'static [u8]) -> &'static [u8] {
    match rows_of(kind, false, body) {
        Ok(head) => head.rows,
        Err(_) => &[],
    }
}

#[test]
fn rows_of_a_server(rt: HostRuntime) -> Result<(), AllocError> {
    let alloc = rt.alloc();
    let found = columns_there(alloc, ALL_TYPES, &all_columns(alloc)?)?;
    assert!(rt; found.len() == 19);
    let head = rows_of(RowsKind::Write, false, INSERT);
    assert!(rt;
        matches!(head, Ok(head) if head.table == 18 && head.has_all(19) && !head.has_all(18))
    );
    let mut rows = Rows::new(
        RowsKind::Write,
        &found,
        rows_behind(RowsKind::Write, INSERT),
    );
    let (mut before, mut after) = (WrittenCells::new(alloc), WrittenCells::new(alloc));
    assert_eq!(rt; rows.next_change(&mut before, &mut after), Ok(true));
    assert!(rt; are(&before, &[], &[]) && are(&after, LENGTHS, VALUES));
    assert_eq!(rt; rows.next_change(&mut before, &mut after), Ok(true));
    assert!(rt; are(&before, &[], &[]) && are(&after, NULL_LENGTHS, b"2"));
    assert_eq!(rt; rows.next_change(&mut before, &mut after), Ok(false));
    assert_eq!(rt; rows.next_change(&mut before, &mut after), Ok(false));
    Ok(())
}

#[test]
fn both_rows_of_an_update(rt: HostRuntime) -> Result<(), AllocError> {
    let alloc = rt.alloc();
    let found = columns_there(alloc, NO_YEAR, NO_YEAR_COLUMNS)?;
    assert!(rt; found.len() == 5);
    let mut rows = Rows::new(
        RowsKind::Update,
        &found,
        rows_behind(RowsKind::Update, UPDATE),
    );
    let (mut before, mut after) = (WrittenCells::new(alloc), WrittenCells::new(alloc));
    assert_eq!(rt; rows.next_change(&mut before, &mut after), Ok(true));
    assert!(rt;
        are(&before, &[2, 4, 2, 2, 2], b"7-1cyq") && are(&after, &[2, 1, 2, 2, 2], b"7cyq")
    );
    assert_eq!(rt; rows.next_change(&mut before, &mut after), Ok(false));
    Ok(())
}

/// Where the first row of the insert begins, and where it ends.
const FIRST: usize = 12;

const SECOND: usize = 91;

#[test]
fn rows_cut_at_every_byte(rt: HostRuntime) -> Result<(), AllocError> {
    let alloc = rt.alloc();
    let found = columns_there(alloc, ALL_TYPES, &all_columns(alloc)?)?;
    assert!(rt; found.len() == 19);
    let (mut before, mut after) = (WrittenCells::new(alloc), WrittenCells::new(alloc));
    for size in 0..INSERT.len() {
        let body = front(INSERT, size);
        let head = rows_of(RowsKind::Write, false, body);
        assert!(rt;
            if size < FIRST {
                head == Err(RowFault::CutHead)
            } else {
                head.is_ok()
            }
        );
        let mut rows = Rows::new(RowsKind::Write, &found, rows_behind(RowsKind::Write, body));
        let mut last = rows.next_change(&mut before, &mut after);
        if size >= SECOND {
            assert_eq!(rt; last, Ok(true));
            last = rows.next_change(&mut before, &mut after);
        }
        if size <= FIRST || size == SECOND {
            assert_eq!(rt; last, Ok(false));
        } else {
            assert_eq!(rt; last, Err(RowError::Fault(ValueFault::CutValue)));
        }
    }
    Ok(())
}

#[test]
fn rows_of_the_second_version(rt: HostRuntime) -> Result<(), AllocError> {
    assert_eq!(rt; kind_of_event(31), Some((RowsKind::Update, true)));
    assert_eq!(rt; kind_of_event(23), Some((RowsKind::Write, false)));
    assert_eq!(rt; kind_of_event(22), None);
    let body = b"\x16\0\0\0\0\0\x01\0\x05\0\x01\x02\x03\x02\x03\x01rows";
    let head = rows_of(RowsKind::Delete, true, body);
    assert!(rt; matches!(head, Ok(head) if head.count == 2 && head.table == 22));
    assert!(rt; matches!(head, Ok(head) if head.has_all(2) && head.rows == b"\x01rows".as_slice()));
    let few = rows_of(
        RowsKind::Delete,
        true,
        b"\x16\0\0\0\0\0\x01\0\x02\0\x02\x01rows",
    );
    assert!(rt; matches!(few, Ok(head) if !head.has_all(2)));
    let cut = rows_of(
        RowsKind::Delete,
        true,
        b"\x16\0\0\0\0\0\x01\0\x01\0\x02\x03",
    );
    assert_eq!(rt; cut, Err(RowFault::CutHead));
    assert_eq!(rt; RowFault::NotAllColumns.number(), 147);
    Ok(())
}
