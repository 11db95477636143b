//! Key ranges, vindexes and the numbers that are the values of columns.

use row_view::Column;
use std::alloc::{AllocError, Global};
use vindex::*;

/// Values under a vindex, their ids, and whether these lie in the lower half of all ids.
///
/// The digests and bytes stand in RFC 1321 and the Vitess documents on vindexes.
const IDS: &[(Vindex, &[u8], &[u8], bool)] = &[
    (
        Vindex::BinaryMd5,
        b"a",
        b"\x0c\xc1\x75\xb9\xc0\xf1\xb6\xa8\x31\xc3\x99\xe2\x69\x77\x26\x61",
        true,
    ),
    (
        Vindex::BinaryMd5,
        b"abc",
        b"\x90\x01\x50\x98\x3c\xd2\x4f\xb0\xd6\x96\x3f\x7d\x28\xe1\x7f\x72",
        false,
    ),
    (
        Vindex::Numeric,
        b"9223372036854775808",
        b"\x80\0\0\0\0\0\0\0",
        false,
    ),
    (
        Vindex::Numeric,
        b"9223372036854775807",
        b"\x7f\xff\xff\xff\xff\xff\xff\xff",
        true,
    ),
    (Vindex::ReverseBits, b"1", b"\x80\0\0\0\0\0\0\0", false),
    (Vindex::Numeric, b"258", b"\0\0\0\0\0\0\x01\x02", true),
    (Vindex::Binary, b"\x80\0", b"\x80\0", false),
    // vindex_number_limit
    (Vindex::Numeric, b"0", b"\0\0\0\0\0\0\0\0", true),
    (
        Vindex::Numeric,
        b"18446744073709551615",
        b"\xff\xff\xff\xff\xff\xff\xff\xff",
        false,
    ),
    // minus_zero_and_zeros
    (Vindex::Numeric, b"-0", b"\0\0\0\0\0\0\0\0", true),
    (Vindex::Numeric, b"-000", b"\0\0\0\0\0\0\0\0", true),
    (
        Vindex::Numeric,
        b"00000000000000000000000000000000000000",
        b"\0\0\0\0\0\0\0\0",
        true,
    ),
];

/// Whether the id lies in the lower half of all ids and not in the upper one, or the other way round.
fn lies_in(alloc: Global, id: &[u8], in_low: bool) -> Result<bool, VindexFault> {
    let low = KeyRange::parse(alloc, "-80")?;
    let high = KeyRange::parse(alloc, "80-")?;
    Ok(low.holds(id) == in_low && high.holds(id) != in_low)
}

/// Whether each value has the id beside it.
fn are_ids(alloc: Global, rows: &[(Vindex, &[u8], &[u8], bool)]) -> Result<bool, VindexFault> {
    for (vindex, value, wanted, in_low) in rows {
        let id = vindex.id(Column::Bytes(value))?;
        if id.bytes() != *wanted || !lies_in(alloc, wanted, *in_low)? {
            return Ok(false);
        }
    }
    Ok(true)
}

#[test]
fn digests_and_ids(rt: HostRuntime) {
    assert!(rt; matches!(are_ids(rt.alloc(), IDS), Ok(true)));
}

/// Numbers, and their ids under `hash`, beside what another library makes of them (python3-pycryptodome).
const HASHES: &[(&[u8], u64)] = &[
    (b"0", 0x8ca64de9c1b123a7),
    (b"1", 0x166b40b44aba4bd6),
    (b"2", 0x06e7ea22ce92708f),
    (b"3", 0x4eb190c9a2fa169c),
    (b"4", 0xd2fd8867d50d2dfe),
    (b"5", 0x70bb023c810ca87a),
    (b"9", 0x692bb9bf752b0f58),
    (b"79", 0x1b7a3adab05cac7d),
    (b"149", 0x2d580e4bfb37eeb7),
    (b"219", 0xbfc9683d45b307d8),
    (b"289", 0x21663abba71d3826),
    (b"359", 0xc7dfc66ec0dd043d),
    (b"429", 0x86cd8afd0b21a9c2),
    (b"499", 0x6ea3281277d35fa5),
    (b"32", 0x0953e2258e8e90a1),
    (b"2049", 0xc20d7eceb5aca238),
    (b"372452042", 0xe092674632d8e699),
    (b"2292800934902323875", 0x270496a7fdc6e36e),
    (b"11557", 0x79ebef5004c0fe31),
    (b"38", 0x74746d35c277f6f4),
    (b"216", 0xef409139ea8e0858),
    (b"19442", 0xd10d22c403959bd0),
    (b"28401", 0x480f821fb647174a),
    (b"63887", 0x500c3c050b9fb4ab),
    (b"139", 0xacbcf24381c13bcc),
    (b"15134168630603993988", 0xd4debb37f0eac2a7),
    (b"2445107696832735726", 0xd570058a0ccb8fb8),
    (b"2976077553", 0x8e9aea6155c3d3b3),
    (b"12955092895619753483", 0x5023be0c17111bbb),
    (b"26", 0x3ec83c3ec62c49a0),
    (b"53931", 0x7db41f5af6119e6e),
    (b"3738229915030235859", 0xbe311ff2b196ebdb),
    (b"37179", 0x149e5e63f8e56dcf),
    (b"2250915737", 0x93da67f186befe08),
    (b"6303858057050828244", 0x0cd4bfeef97d8939),
    (b"4294967295", 0xe1eceaa84715eb8e),
    (b"9223372036854775807", 0xf77d48aadda1f1bb),
    (b"18446744073709551615", 0x355550b2150e2451),
    (b"4294967296", 0xaeb5f5ede22d1a36),
    (b"9223372036854775808", 0x95f8a5e5dd31d900),
    // minus_zero_and_zeros
    (b"-0", 0x8ca64de9c1b123a7),
    (b"0000000000000000000000000000000000001", 0x166b40b44aba4bd6),
];

/// Whether each number has the id beside it under `hash`.
fn are_hashes(rows: &[(&[u8], u64)]) -> Result<bool, VindexFault> {
    for (number, wanted) in rows {
        let id = Vindex::Hash.id(Column::Bytes(number))?;
        if id.bytes() != wanted.to_be_bytes().as_slice() {
            return Ok(false);
        }
    }
    Ok(true)
}

#[test]
fn ids_under_hash(rt: HostRuntime) {
    assert!(rt; matches!(are_hashes(HASHES), Ok(true)));
}

/// Values under a vindex, and whether the lower half of all ids has their ids.
const HELD: &[(Vindex, Column<'static>, Result<bool, VindexFault>)] = &[
    (
        Vindex::Numeric,
        Column::Bytes(b"9223372036854775807"),
        Ok(true),
    ),
    (
        Vindex::Numeric,
        Column::Bytes(b"9223372036854775808"),
        Ok(false),
    ),
    (Vindex::ReverseBits, Column::Bytes(b"1"), Ok(false)),
    (Vindex::BinaryMd5, Column::Bytes(b"a"), Ok(true)),
    (Vindex::Hash, Column::Bytes(b"1"), Ok(true)),
    (Vindex::Hash, Column::Bytes(b"4"), Ok(false)),
    (
        Vindex::Hash,
        Column::Bytes(b"-1"),
        Err(VindexFault::NotANumber),
    ),
    (
        Vindex::Numeric,
        Column::Bytes(b"1x"),
        Err(VindexFault::NotANumber),
    ),
    (Vindex::Binary, Column::Null, Err(VindexFault::NullValue)),
];

/// Whether the lower half of all ids has each value's id or not, or refuses the value, as it says beside it.
fn are_held(
    alloc: Global,
    rows: &[(Vindex, Column<'_>, Result<bool, VindexFault>)],
) -> Result<bool, VindexFault> {
    let low = KeyRange::parse(alloc, "-80")?;
    for (vindex, value, wanted) in rows {
        if low.holds_value(*vindex, *value) != *wanted {
            return Ok(false);
        }
    }
    Ok(true)
}

#[test]
fn ids_of_values_in_a_range(rt: HostRuntime) {
    assert!(rt; matches!(are_held(rt.alloc(), HELD), Ok(true)));
}

/// Whether a range begins at 40 and ends before 80.
fn is_middle(alloc: Global, text: &str) -> bool {
    match KeyRange::parse(alloc, text) {
        Ok(range) => { range.holds(&[0x40]) && range.holds(&[0x7f, 0xff]) && !range.holds(&[0x80]) }
        Err(_) => false,
    }
}

/// Texts of ranges, and whether these tile all ids.
const TILINGS: &[(&[&str], bool)] = &[
    (&["-40", "4000-80", "80-"], true),
    (&["-80", "40-"], false),
    (&["-40", "80-"], false),
    (&["-", "-"], false),
    (&[], false),
];

fn are_tiles(alloc: Global, texts: &[&str]) -> Result<bool, VindexFault> {
    let mut ranges = Vec::new(alloc);
    for text in texts {
        let range = KeyRange::parse(alloc, text)?;
        match ranges.push(range) {
            Ok(()) => {}
            Err(e) => return Err(AllocError::from(e).into()),
        }
    }
    Ok(tiles(&ranges))
}

/// Whether the ranges of each row tile all ids as it says.
fn are_tilings(alloc: Global, rows: &[(&[&str], bool)]) -> Result<bool, VindexFault> {
    for (texts, wanted) in rows {
        if are_tiles(alloc, texts)? != *wanted {
            return Ok(false);
        }
    }
    Ok(true)
}

#[test]
fn ranges_and_tiles(rt: HostRuntime) {
    assert!(rt;
        is_middle(rt.alloc(), "4000-80") && matches!(are_tilings(rt.alloc(), TILINGS), Ok(true))
    );
}

const BAD: &[&str] = &[
    "40-4000", "8-", "80-40", "", "00", "8", "-8", "80", "-80-", "4g-", "00-00-", "80-80",
];

/// Whether none of the texts is a range.
fn are_bad(alloc: Global, texts: &[&str]) -> bool {
    for text in texts {
        if !matches!(KeyRange::parse(alloc, text), Err(VindexFault::BadRange)) {
            return false;
        }
    }
    true
}

#[test]
fn bad_range(rt: HostRuntime) {
    assert!(rt; are_bad(rt.alloc(), BAD));
}

/// Texts of the same range.
const SAME: &[(&str, &str)] = &[
    ("00-80", "-80"),
    ("80-00", "80-"),
    ("-00", "-"),
    ("0", "-"),
    ("00-", "-"),
    ("aB-Cd00", "AB-cD"),
];

/// Whether the texts of each row are the same range, and a copy of it is.
fn are_same(alloc: Global, rows: &[(&str, &str)]) -> Result<bool, VindexFault> {
    for (one, other) in rows {
        let one = KeyRange::parse(alloc, one)?;
        let other = KeyRange::parse(alloc, other)?;
        if !one.same(&other) || !is_copied(alloc, &one)? {
            return Ok(false);
        }
    }
    Ok(true)
}

/// Whether a copy of a range has its bounds.
fn is_copied(alloc: Global, range: &KeyRange) -> Result<bool, AllocError> {
    let copy = range.try_clone(alloc)?;
    Ok(copy.same(range) && copy.start() == range.start() && copy.end() == range.end())
}

#[test]
fn zero_end_is_open(rt: HostRuntime) {
    assert!(rt; matches!(are_same(rt.alloc(), SAME), Ok(true)));
}

const NAMES: &[(&str, Result<Vindex, VindexFault>)] = &[
    ("numeric", Ok(Vindex::Numeric)),
    ("reverse_bits", Ok(Vindex::ReverseBits)),
    ("binary", Ok(Vindex::Binary)),
    ("binary_md5", Ok(Vindex::BinaryMd5)),
    ("hash", Ok(Vindex::Hash)),
    ("Hash", Err(VindexFault::UnknownVindex)),
    ("", Err(VindexFault::UnknownVindex)),
    ("Numeric", Err(VindexFault::UnknownVindex)),
    ("numeric ", Err(VindexFault::UnknownVindex)),
    ("xxhash", Err(VindexFault::UnknownVindex)),
];

/// Whether each name is that of the vindex beside it.
fn are_names(rows: &[(&str, Result<Vindex, VindexFault>)]) -> bool {
    for (name, wanted) in rows {
        if Vindex::parse(name) != *wanted {
            return false;
        }
    }
    true
}

#[test]
fn unknown_vindex(rt: HostRuntime) {
    assert!(rt; are_names(NAMES));
}

/// Values without an id.
const WITHOUT_ID: &[(Vindex, Column<'static>, VindexFault)] = &[
    // null_under_vindex
    (Vindex::Numeric, Column::Null, VindexFault::NullValue),
    (Vindex::ReverseBits, Column::Null, VindexFault::NullValue),
    (Vindex::Binary, Column::Null, VindexFault::NullValue),
    (Vindex::BinaryMd5, Column::Null, VindexFault::NullValue),
    (Vindex::Hash, Column::Null, VindexFault::NullValue),
];

/// Whether no value has an id, for the fault beside it.
fn are_without_id(rows: &[(Vindex, Column<'_>, VindexFault)]) -> bool {
    for (vindex, value, fault) in rows {
        if vindex.id(*value).err() != Some(*fault) {
            return false;
        }
    }
    true
}

/// Texts that are no number under a vindex of numbers.
const NO_NUMBERS: &[&[u8]] = &[
    // no_number_under_vindex
    b"-1",
    b"",
    b"-",
    b"+1",
    b"1x",
    b" 1",
    b"1.0",
    b"--1",
    // vindex_number_limit
    b"18446744073709551616",
    b"184467440737095516150",
];

/// Whether no text has an id under the vindexes of numbers.
fn are_no_numbers(texts: &[&[u8]]) -> bool {
    let fault = VindexFault::NotANumber;
    for text in texts {
        let value = Column::Bytes(text);
        if !are_without_id(&[
            (Vindex::Numeric, value, fault),
            (Vindex::ReverseBits, value, fault),
            (Vindex::Hash, value, fault),
        ]) {
            return false;
        }
    }
    true
}

/// And null_under_vindex.
#[test]
fn no_number_under_vindex(rt: HostRuntime) {
    assert!(rt; are_without_id(WITHOUT_ID) && are_no_numbers(NO_NUMBERS));
}

/// Texts, and the values of the numbers that they write.
const VALUES: &[(&[u8], Option<i128>)] = &[
    // minus_zero_and_zeros
    (b"0", Some(0)),
    (b"-0", Some(0)),
    (b"-000", Some(0)),
    (b"00000000000000000000000000000000000000", Some(0)),
    (
        b"0000000000000000000000000000000000000000000000000000007",
        Some(7),
    ),
    (b"-0010", Some(-10)),
    // number_limits
    (b"-9223372036854775808", Some(-9223372036854775808)),
    (b"18446744073709551615", Some(18446744073709551615)),
    (b"-9223372036854775809", None),
    (b"18446744073709551616", None),
];

/// The value of the number that a text writes.
fn value_of(text: &[u8]) -> Option<i128> {
    Some(number_of(text)?.value())
}

/// Whether each text writes the value beside it.
fn are_values(rows: &[(&[u8], Option<i128>)]) -> bool {
    for (text, wanted) in rows {
        if value_of(text) != *wanted {
            return false;
        }
    }
    true
}

/// And minus_zero_and_zeros.
#[test]
fn number_limits(rt: HostRuntime) {
    assert!(rt;
        are_values(VALUES)
            && natural_of(b"0018446744073709551615") == Some(u64::MAX)
            && natural_of(b"-1").is_none()
    );
}

/// Whether each number is less than the next.
fn rise(texts: &[&[u8]]) -> bool {
    for i in 1..texts.len() {
        if number_of(texts[i - 1]) >= number_of(texts[i]) {
            return false;
        }
    }
    true
}

/// Numbers are ordered and equal by value, whatever their texts.
#[test]
fn numbers_by_value(rt: HostRuntime) {
    assert!(rt;
        rise(&[b"-10", b"-2", b"-0", b"02", b"10"])
            && number_of(b"-007") == number_of(b"-7")
            && number_of(b"-0") == number_of(b"0")
    );
}

/// Texts, and the shortest ones of the same numbers.
const SHORTEST: &[(&[u8], &str)] = &[
    (b"-0", "0"),
    (b"0010", "10"),
    (b"-0010", "-10"),
    (b"18446744073709551615", "18446744073709551615"),
    (b"-9223372036854775808", "-9223372036854775808"),
];

/// The number's shortest text, as it is written and as it is printed.
fn has_shortest_text(alloc: Global, text: &[u8], wanted: &str) -> Result<bool, AllocError> {
    let Some(number) = number_of(text) else {
        return Ok(false);
    };
    let mut buffer = Buffer::new();
    let printed = format!(in alloc; "{number}")?;
    Ok(number.text(&mut buffer) == wanted && printed.as_str() == wanted)
}

/// Whether each number has the shortest text beside it.
fn are_shortest(alloc: Global, rows: &[(&[u8], &str)]) -> Result<bool, AllocError> {
    for (text, wanted) in rows {
        if !has_shortest_text(alloc, text, wanted)? {
            return Ok(false);
        }
    }
    Ok(true)
}

#[test]
fn shortest_text_of_a_number(rt: HostRuntime) {
    assert!(rt; matches!(are_shortest(rt.alloc(), SHORTEST), Ok(true)));
}
