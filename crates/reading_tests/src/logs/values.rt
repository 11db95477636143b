//! Values of a row and their texts, as a server wrote and printed them.

use log_events::Size;
use log_values::*;
use std::alloc::{AllocError, Global};

/// How a column's values are written, the bytes of one in the log, and what SELECT prints.
const VALUES: &[(Kind, &[u8], &[u8])] = &[
    (Kind::Signed(Size::One), b"\x80", b"-128"),
    (Kind::Signed(Size::One), b"\x7f", b"127"),
    (Kind::Signed(Size::Two), b"\xff\xff", b"-1"),
    (Kind::Signed(Size::Three), b"\xff\xff\x7f", b"8388607"),
    (Kind::Signed(Size::Three), b"\x00\x00\x80", b"-8388608"),
    (
        Kind::Signed(Size::Four),
        b"\x00\x00\x00\x80",
        b"-2147483648",
    ),
    (
        Kind::Signed(Size::Eight),
        b"\x00\x00\x00\x00\x00\x00\x00\x80",
        b"-9223372036854775808",
    ),
    (Kind::Unsigned(Size::One), b"\xff", b"255"),
    (
        Kind::Unsigned(Size::Eight),
        b"\xff\xff\xff\xff\xff\xff\xff\xff",
        b"18446744073709551615",
    ),
    (Kind::Counted(Size::Two), b"\x05\x00hello", b"hello"),
    (Kind::Counted(Size::Two), b"\x04\x00blob", b"blob"),
    (Kind::Counted(Size::One), b"\x03 ab", b" ab"),
    (Kind::Counted(Size::One), b"\x00", b""),
    (
        Kind::Padded(Size::One, 6),
        b"\x02\x01\x02",
        b"\x01\x02\0\0\0\0",
    ),
    (
        Kind::Decimal(10, 2),
        b"\x7f\xed\x29\x78\xa6",
        b"-1234567.89",
    ),
    (Kind::Decimal(10, 2), b"\x80\x00\x00\x00\x05", b"0.05"),
    (Kind::Decimal(10, 0), b"\x80\x00\x00\x00\x00", b"0"),
    (
        Kind::DateTime(Fraction::Six),
        b"\x99\xb2\xbb\x7e\xfb\x01\xe2\x40",
        b"2024-02-29 23:59:59.123456",
    ),
    (
        Kind::DateTime(Fraction::Whole),
        b"\x99\xb2\xbb\x7e\xfb",
        b"2024-02-29 23:59:59",
    ),
    (
        Kind::DateTime(Fraction::Whole),
        b"\x80\x00\x00\x00\x00",
        b"0000-00-00 00:00:00",
    ),
    (
        Kind::Time(Fraction::Three),
        b"\x4b\x91\x04\xd8\xfa",
        b"-838:59:59.999",
    ),
    (
        Kind::Time(Fraction::Six),
        b"\x7f\xff\xff\xff\xff\xff",
        b"-00:00:00.000001",
    ),
    (Kind::Time(Fraction::Whole), b"\x80\x10\x83", b"01:02:03"),
    (
        Kind::Timestamp(Fraction::Two),
        b"\x65\xe0\x71\xc0\x0c",
        b"2024-02-29 12:00:00.12",
    ),
    (
        Kind::Timestamp(Fraction::Whole),
        b"\x00\x00\x00\x00",
        b"0000-00-00 00:00:00",
    ),
    (
        Kind::Timestamp(Fraction::Whole),
        b"\x00\x00\x00\x01",
        b"1970-01-01 00:00:01",
    ),
    (
        Kind::Timestamp(Fraction::Whole),
        b"\xff\xff\xff\xff",
        b"2106-02-07 06:28:15",
    ),
    (
        Kind::Timestamp(Fraction::Whole),
        b"\x38\x6d\x43\x7f",
        b"1999-12-31 23:59:59",
    ),
    (Kind::Date, b"\x5d\xd0\x0f", b"2024-02-29"),
    (Kind::Year, b"\x7c", b"2024"),
    (Kind::Year, b"\x00", b"0000"),
    (Kind::Label(Size::One), b"\x02", b"y"),
    (Kind::Label(Size::One), b"\x00", b""),
    (Kind::Labels(Size::One, Comma::Byte), b"\x05", b"x,z"),
    (Kind::Labels(Size::One, Comma::Byte), b"\x00", b""),
    (Kind::Bits(2), b"\x05\x55", b"\x05\x55"),
    (
        Kind::Decimal(65, 30),
        b"\x80\xbc\x61\x4e\x35\xb7\xbf\x87\x35\x0e\x34\xc0\x2f\x07\x5f\x79\x28\x77\x35\xf2\x21\xd9\x50\xcb\x1b\x3a\x0c\x14\x01\x59",
        b"12345678901234567890123456789012345.678901234567890123456789012345",
    ),
    (Kind::Decimal(9, 9), b"\x78\xa4\x32\xea", b"-0.123456789"),
    (
        Kind::Decimal(18, 9),
        b"\x78\xa4\x32\xea\xff\xff\xff\xfe",
        b"-123456789.000000001",
    ),
    (
        Kind::Decimal(20, 3),
        b"\x7f\x43\x9e\xb1\xca\x48\x40\x78\xfc\x84",
        b"-12345678901234567.891",
    ),
    (Kind::Decimal(1, 0), b"\x78", b"-7"),
    (Kind::Time(Fraction::Whole), b"\x81\x7e\xfb", b"23:59:59"),
    (
        Kind::Time(Fraction::One),
        b"\x7f\xff\xff\xf6",
        b"-00:00:00.1",
    ),
    (
        Kind::Time(Fraction::Two),
        b"\x86\x40\x00\x05",
        b"100:00:00.05",
    ),
    (
        Kind::Time(Fraction::Four),
        b"\x4b\x91\x04\xd8\xf1",
        b"-838:59:59.9999",
    ),
    (
        Kind::Time(Fraction::Five),
        b"\x80\x00\x00\x00\x00\x0a",
        b"00:00:00.00001",
    ),
    (
        Kind::Time(Fraction::Six),
        b"\xb4\x6e\xfb\x00\x00\x01",
        b"838:59:59.000001",
    ),
    (
        Kind::DateTime(Fraction::One),
        b"\xfe\xf3\xff\x7e\xfb\x5a",
        b"9999-12-31 23:59:59.9",
    ),
    (
        Kind::DateTime(Fraction::Three),
        b"\x80\x00\x00\x00\x00\x00\x00",
        b"0000-00-00 00:00:00.000",
    ),
    (
        Kind::DateTime(Fraction::Five),
        b"\x99\x64\x42\x00\x00\x00\x00\x0a",
        b"2000-01-01 00:00:00.00001",
    ),
    (
        Kind::Timestamp(Fraction::One),
        b"\x38\xbb\xbc\xf0\x46",
        b"2000-02-29 12:34:56.7",
    ),
    (
        Kind::Timestamp(Fraction::Four),
        b"\x7f\xff\xff\xff\x27\x0f",
        b"2038-01-19 03:14:07.9999",
    ),
    (
        Kind::Timestamp(Fraction::Six),
        b"\x05\xa4\xeb\xff\x00\x00\x01",
        b"1972-12-31 23:59:59.000001",
    ),
    (
        Kind::Timestamp(Fraction::Three),
        b"\x00\x00\x00\x00\x00\x00",
        b"0000-00-00 00:00:00.000",
    ),
    (
        Kind::Timestamp(Fraction::Six),
        b"\x00\x00\x00\x00\x00\x00\x01",
        b"1970-01-01 00:00:00.000001",
    ),
    (Kind::Date, b"\x9f\x1f\x4e", b"9999-12-31"),
    (Kind::Year, b"\xff", b"2155"),
    (
        Kind::Decimal(65, 30),
        b"\x7f\xff\xff\xff\xff\xff\xff\xff\xff\xff\xff\xff\xff\xff\xff\xff\xff\xff\xff\xff\xff\xff\xff\xff\xff\xff\xff\xff\xff\xfe",
        b"-0.000000000000000000000000000001",
    ),
    (Kind::Decimal(9, 9), b"\x9d\xcd\x65\x00", b"0.500000000"),
    (
        Kind::Decimal(18, 9),
        b"\x80\x00\x00\x00\x00\x00\x00\x00",
        b"0.000000000",
    ),
    (
        Kind::Decimal(20, 3),
        b"\x85\xf5\xe0\xff\x3b\x9a\xc9\xff\x03\xe7",
        b"99999999999999999.999",
    ),
    (Kind::Decimal(1, 0), b"\x80", b"0"),
    (Kind::Time(Fraction::Whole), b"\x7f\xef\x7d", b"-01:02:03"),
    (
        Kind::Time(Fraction::One),
        b"\x80\x00\x01\x5a",
        b"00:00:01.9",
    ),
    (
        Kind::Time(Fraction::Two),
        b"\x7f\xff\xff\xff",
        b"-00:00:00.01",
    ),
    (
        Kind::Time(Fraction::Four),
        b"\x80\x00\x00\x00\x01",
        b"00:00:00.0001",
    ),
    (
        Kind::Time(Fraction::Five),
        b"\x7f\x37\x47\xf3\xf5\xee",
        b"-12:34:56.78901",
    ),
    (
        Kind::Time(Fraction::Six),
        b"\x7f\xff\xff\x00\x00\x00",
        b"-00:00:01.000000",
    ),
    (
        Kind::DateTime(Fraction::One),
        b"\x8c\xb2\x00\x00\x00\x00",
        b"1000-00-00 00:00:00.0",
    ),
    (
        Kind::DateTime(Fraction::Three),
        b"\x99\xb2\xba\x00\x00\x04\xce",
        b"2024-02-29 00:00:00.123",
    ),
    (
        Kind::DateTime(Fraction::Five),
        b"\x99\x63\xff\x7e\xfb\x0f\x42\x36",
        b"1999-12-31 23:59:59.99999",
    ),
    (
        Kind::Timestamp(Fraction::One),
        b"\x3a\x9d\x91\x00\x00",
        b"2001-03-01 00:00:00.0",
    ),
    (
        Kind::Timestamp(Fraction::Four),
        b"\x41\xd4\x96\x80\x00\x01",
        b"2004-12-31 00:00:00.0001",
    ),
    (
        Kind::Timestamp(Fraction::Six),
        b"\x41\xd5\xe8\x00\x00\x00\x00",
        b"2005-01-01 00:00:00.000000",
    ),
    (Kind::Date, b"\x00\x00\x00", b"0000-00-00"),
    (Kind::Year, b"\x01", b"1901"),
];

/// The labels of the ENUM and the SET.
const LABELS: &[&[u8]] = &[b"x", b"y", b"z"];

/// Whether a value is read as this text, with what stands behind it; and where it is cut, refused.
fn is_read(alloc: Global, kind: Kind, bytes: &[u8], wanted: &[u8]) -> Result<bool, AllocError> {
    let mut log = Vec::from_slice(alloc, bytes)?;
    log.extend_from_slice(b"!?")?;
    let mut out = Vec::from_slice(alloc, b"before ")?;
    let whole =
        matches!(put_value(&mut out, kind, LABELS, &log), Ok(rest) if rest == b"!?".as_slice());
    if !whole || out.as_slice().get(7..) != Some(wanted) {
        return Ok(false);
    }
    for size in 0..bytes.len() {
        let cut = put_value(&mut out, kind, LABELS, &bytes[..size]);
        if cut != Err(ValueError::Fault(ValueFault::CutValue)) {
            return Ok(false);
        }
    }
    Ok(out.len() == 7 + wanted.len())
}

#[test]
fn values_of_a_server(rt: HostRuntime) -> Result<(), AllocError> {
    for (kind, bytes, wanted) in VALUES {
        assert!(rt; is_read(rt.alloc(), *kind, bytes, wanted)?, "{wanted:?}");
    }
    Ok(())
}

/// Values that their types don't have.
const OUTSIDE: &[(Kind, &[u8])] = &[
    (Kind::Label(Size::One), b"\x04"),
    (Kind::Labels(Size::One, Comma::Byte), b"\x08"),
    (Kind::Date, b"\xbd\xd1\x0f"),
    (Kind::DateTime(Fraction::Whole), b"\x19\xb2\xbb\x7e\xfb"),
    (Kind::DateTime(Fraction::Whole), b"\x99\xb2\xbb\x8e\xfb"),
    (Kind::DateTime(Fraction::Two), b"\x99\xb2\xbb\x7e\xfb\x64"),
    (Kind::Time(Fraction::Whole), b"\xff\xff\xff"),
    (Kind::Timestamp(Fraction::Two), b"\x65\xe0\x71\xc0\x64"),
    (Kind::Decimal(10, 2), b"\x80\x00\x00\x00\x64"),
    (Kind::Decimal(10, 2), b"\xff\x00\x00\x00\x05"),
];

#[test]
fn what_a_type_does_not_have(rt: HostRuntime) -> Result<(), AllocError> {
    for (kind, bytes) in OUTSIDE {
        let mut out = Vec::new(rt.alloc());
        let refused = put_value(&mut out, *kind, LABELS, bytes);
        assert_eq!(rt; refused, Err(ValueError::Fault(ValueFault::OutOfRange)));
        assert!(rt; out.is_empty());
    }
    assert_eq!(rt; ValueFault::OutOfRange.number(), 150);
    Ok(())
}
