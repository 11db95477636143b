//! SETs in character sets of several commas, with an empty label first, in the middle and last, as a server wrote them and
//! printed their values.

use crate::logs::rows::{are, columns_there, rows_behind};
use crate::logs::tables::columns;
use log_rows::*;
use log_tables::TableFault;
use log_values::{Comma, comma_of};
use std::alloc::AllocError;

/// A table of SETs of '', 'a' and 'b' in six character sets, of ENUM in utf32, and of SETs of 'a', '' and 'b' in utf16 and of
/// 'a', 'b' and '' in ucs2; the collation of each column is told.
const SETS: &[u8] =
    b"\x12\0\0\0\0\0\x01\0\x01s\0\x04sets\0\x0a\x03\xfe\xfe\xfe\xfe\xfe\xfe\xfe\xfe\xfe\x12\xf8\x01\xf8\x01\xf8\x01\xf8\x01\xf8\x01\xf8\x01\xf7\x01\xf8\x01\xf8\x01\xfe\x03\x01\x01\0\x041\x02id\x07utf8mb4\x06latin1\x04ucs2\x05utf16\x07utf16le\x05utf32\x01e\x01m\x01l\x0b\x09-\x08#68<<6#\x05@\x03\0\x01a\x01b\x03\0\x01a\x01b\x03\0\x02\0a\x02\0b\x03\0\x02\0a\x02\0b\x03\0\x02a\0\x02b\0\x03\0\x04\0\0\0a\x04\0\0\0b\x03\x02\0a\0\x02\0b\x03\x02\0a\x02\0b\0\x06\x0b\x02\x04\0\0\0p\x04\0\0\0q\x08\x01\0";

const SETS_COLUMNS: &[(&[u8], u32)] = &[
    (b"id", 263),
    (b"utf8mb4", 2075),
    (b"latin1", 2075),
    (b"ucs2", 2075),
    (b"utf16", 2075),
    (b"utf16le", 2075),
    (b"utf32", 2075),
    (b"e", 2074),
    (b"m", 2075),
    (b"l", 2075),
];

/// An insert of two rows: of all labels; and of the second and third, of the first two of the SET in the middle, and of the
/// first and third of the last one.
const SETS_ROWS: &[u8] =
    b"\x12\0\0\0\0\0\x01\0\x0a\xff\x03\0\xfc\x01\0\0\0\x07\x07\x07\x07\x07\x07\x02\x07\x07\0\xfc\x02\0\0\0\x06\x06\x06\x06\x06\x06\x01\x03\x05";

/// What SELECT prints of them.
const FIRST_ROW: &[u8] =
    b"1a,ba,b\0a\0,\0b\0a\0,\0ba\0,\0b\0\0\0\0a\0\0\0,\0\0\0b\0\0\0q\0a\0,\0,\0b\0a\0,\0b\0,";

const FIRST_LENGTHS: &[u8] = &[2, 6, 6, 12, 12, 12, 24, 8, 16, 16];

const SECOND_ROW: &[u8] =
    b"2a,ba,b\0a\0,\0b\0a\0,\0ba\0,\0b\0\0\0\0a\0\0\0,\0\0\0b\0\0\0p\0a\0,\0a\0,";

const SECOND_LENGTHS: &[u8] = &[2, 6, 6, 12, 12, 12, 24, 8, 8, 8];

#[test]
fn sets_of_a_server(rt: HostRuntime) -> Result<(), AllocError> {
    let alloc = rt.alloc();
    let found = columns_there(alloc, SETS, SETS_COLUMNS)?;
    assert!(rt; found.len() == 10);
    let mut rows = Rows::new(
        RowsKind::Write,
        &found,
        rows_behind(RowsKind::Write, SETS_ROWS),
    );
    let (mut before, mut after) = (WrittenCells::new(alloc), WrittenCells::new(alloc));
    assert_eq!(rt; rows.next_change(&mut before, &mut after), Ok(true));
    assert!(rt; are(&after, FIRST_LENGTHS, FIRST_ROW));
    assert_eq!(rt; rows.next_change(&mut before, &mut after), Ok(true));
    assert!(rt; are(&after, SECOND_LENGTHS, SECOND_ROW));
    assert_eq!(rt; rows.next_change(&mut before, &mut after), Ok(false));
    Ok(())
}

/// A table of SETs of '', 'a' and 'b' in utf8mb4, but for the sixth in utf16le and the ninth in utf32: the usual collation is
/// told, and those two with their places.
const MORE: &[u8] =
    b"\x19\0\0\0\0\0\x01\0\x01s\0\x04more\0\x0a\x03\xfe\xfe\xfe\xfe\xfe\xfe\xfe\xfe\xfe\x12\xf8\x01\xf8\x01\xf8\x01\xf8\x01\xf8\x01\xf8\x01\xf8\x01\xf8\x01\xf8\x01\xfe\x03\x01\x01\0\x04\x1e\x02id\x02c0\x02c1\x02c2\x02c3\x02c4\x02c5\x02c6\x02c7\x02c8\x0a\x05-\x058\x08<\x05>\x03\0\x01a\x01b\x03\0\x01a\x01b\x03\0\x01a\x01b\x03\0\x01a\x01b\x03\0\x01a\x01b\x03\0\x02a\0\x02b\0\x03\0\x01a\x01b\x03\0\x01a\x01b\x03\0\x04\0\0\0a\x04\0\0\0b\x08\x01\0";

/// Where the part of the collations begins in that map, and where it ends.
const COLLATIONS: usize = 84;

const BEHIND: usize = 91;

const MORE_COLUMNS: &[(&[u8], u32)] = &[
    (b"id", 263),
    (b"c0", 2075),
    (b"c1", 2075),
    (b"c2", 2075),
    (b"c3", 2075),
    (b"c4", 2075),
    (b"c5", 2075),
    (b"c6", 2075),
    (b"c7", 2075),
    (b"c8", 2075),
];

/// An insert of a row of all labels.
const MORE_ROWS: &[u8] =
    b"\x19\0\0\0\0\0\x01\0\x0a\xff\x03\0\xfc\x01\0\0\0\x07\x07\x07\x07\x07\x07\x07\x07\x07";

#[test]
fn sets_of_a_usual_collation(rt: HostRuntime) -> Result<(), AllocError> {
    let alloc = rt.alloc();
    let found = columns_there(alloc, MORE, MORE_COLUMNS)?;
    assert!(rt; found.len() == 10);
    let mut rows = Rows::new(
        RowsKind::Write,
        &found,
        rows_behind(RowsKind::Write, MORE_ROWS),
    );
    let (mut before, mut after) = (WrittenCells::new(alloc), WrittenCells::new(alloc));
    assert_eq!(rt; rows.next_change(&mut before, &mut after), Ok(true));
    assert!(rt;
        are(
            &after,
            &[2, 6, 6, 6, 6, 6, 12, 6, 6, 24],
            b"1a,ba,ba,ba,ba,ba\0,\0b\0a,ba,b\0\0\0a\0\0\0,\0\0\0b"
        )
    );
    Ok(())
}

#[test]
fn sets_whose_comma_is_not_known(rt: HostRuntime) -> Result<(), AllocError> {
    let alloc = rt.alloc();
    let mut untold = Vec::from_slice(alloc, &MORE[..COLLATIONS])?;
    untold.extend_from_slice(&MORE[BEHIND..])?;
    let other_type = Some(TableFault::OtherType);
    assert_eq!(rt; columns(alloc, &untold, MORE_COLUMNS)?.err(), other_type);
    // no server has a collation with the number 100
    let mut other = Vec::from_slice(alloc, MORE)?;
    other[COLLATIONS + 4] = 100;
    assert_eq!(rt; columns(alloc, &other, MORE_COLUMNS)?.err(), other_type);
    // a place that no column has
    let mut placed = Vec::from_slice(alloc, MORE)?;
    placed[COLLATIONS + 5] = 9;
    let cut = Some(TableFault::CutBody);
    assert_eq!(rt; columns(alloc, &placed, MORE_COLUMNS)?.err(), cut);
    Ok(())
}

/// Collations of a server, and others that none has.
const COMMAS: &[(u64, Option<Comma>)] = &[
    (45, Some(Comma::Byte)),
    (63, Some(Comma::Byte)),
    (1107, Some(Comma::Byte)),
    (2303, Some(Comma::Byte)),
    (35, Some(Comma::Utf16)),
    (159, Some(Comma::Utf16)),
    (1114, Some(Comma::Utf16)),
    (2560, Some(Comma::Utf16)),
    (101, Some(Comma::Utf16)),
    (1079, Some(Comma::Utf16)),
    (3015, Some(Comma::Utf16)),
    (62, Some(Comma::Utf16Le)),
    (1080, Some(Comma::Utf16Le)),
    (183, Some(Comma::Utf32)),
    (738, Some(Comma::Utf32)),
    (1206, Some(Comma::Utf32)),
    (3271, Some(Comma::Utf32)),
    (0, None),
    (100, None),
    (1024, None),
    (3328, None),
];

#[test]
fn commas_of_collations(rt: HostRuntime) {
    for (collation, comma) in COMMAS {
        assert_eq!(rt; comma_of(*collation), *comma, "{collation}");
    }
}
