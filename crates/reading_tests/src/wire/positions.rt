//! Positions as texts, by the MySQL manual on sets of GTIDs and the Vitess documents.

use crate::wire::texts::prints;
use gtid_set::*;
use std::alloc::{AllocError, Global};

const U: &str = "3e11fa47-71ca-11e1-9e33-c80aa9429562";

const V: &str = "3e11fa47-71ca-11e1-9e33-c80aa9429563";

const U_BYTES: [u8; 16] = [
    0x3e, 0x11, 0xfa, 0x47, 0x71, 0xca, 0x11, 0xe1, 0x9e, 0x33, 0xc8, 0x0a, 0xa9, 0x42, 0x95, 0x62,
];

/// Why a text is no position, or nothing.
fn refusal(alloc: Global, text: &str) -> Option<u8> {
    match GtidSet::parse(alloc, text) {
        Ok(_) => None,
        Err(fault) => Some(fault.number()),
    }
}

/// Texts, and why they are no positions.
const REFUSED: &[(&str, u8)] = &[
    // other_flavour
    ("MariaDB/0-1-2", 31),
    ("FilePos/a", 31),
    ("/", 31),
    ("mysql56/", 31),
    ("MySQL56 /", 31),
    ("3e11fa47-71ca-11e1-9e33-c80aa9429562:1/2", 31),
    // bad_uuid
    ("x", 32),
    ("3e11fa47-71ca-11e1-9e33-c80aa942956", 32),
    ("3e11fa47-71ca-11e1-9e33-c80aa942956g:1", 32),
    ("3e11fa47071ca-11e1-9e33-c80aa9429562:1", 32),
    ("3e11fa4771ca11e19e33c80aa9429562:1", 32),
    ("3e11fa47-71ca-11e1-9e33-c80aa9429562:1,x:y", 32),
    // no_colon_after_uuid
    (U, 35),
    ("3e11fa47-71ca-11e1-9e33-c80aa9429562 :1", 35),
];

/// Whether each text is refused by the number beside it.
fn are_refused(alloc: Global, rows: &[(&str, u8)]) -> bool {
    for (text, number) in rows {
        if refusal(alloc, text) != Some(*number) {
            return false;
        }
    }
    true
}

#[test]
fn refused_positions(rt: HostRuntime) {
    assert!(rt; are_refused(rt.alloc(), REFUSED));
}

/// Intervals, and why they are refused behind `U`, or nothing.
const INTERVALS: &[(&str, Option<u8>)] = &[
    // bad_interval_number
    ("", Some(33)),
    ("a", Some(33)),
    ("+1", Some(33)),
    ("1-", Some(33)),
    ("-1", Some(33)),
    ("1-2-3", Some(33)),
    ("1 -2", Some(33)),
    ("1:", Some(33)),
    ("tag:1", Some(33)),
    // interval_limit
    ("1", None),
    ("9223372036854775806", None),
    ("1-0", None),
    ("1-9223372036854775806", None),
    ("00000000000000000000000000000001", None),
    ("0", Some(33)),
    ("9223372036854775807", Some(33)),
    ("18446744073709551617", Some(33)),
    ("1-9223372036854775807", Some(33)),
];

/// Whether each text of intervals behind `U` is refused so.
fn are_intervals(alloc: Global, rows: &[(&str, Option<u8>)]) -> Result<bool, AllocError> {
    for (intervals, wanted) in rows {
        let text = format!(in alloc; "{U}:{intervals}")?;
        if refusal(alloc, text.as_str()) != *wanted {
            return Ok(false);
        }
    }
    Ok(true)
}

#[test]
fn interval_limit(rt: HostRuntime) {
    assert!(rt; matches!(are_intervals(rt.alloc(), INTERVALS), Ok(true)));
}

/// The text is read as a set that prints this one.
fn reads_as(alloc: Global, text: &str, wanted: &str) -> Result<bool, GtidFault> {
    let set = GtidSet::parse(alloc, text)?;
    Ok(prints(alloc, &set, wanted)?)
}

/// Texts, and what the positions that they are print.
const READ: &[(&str, &str)] = &[
    (
        "3E11FA47-71CA-11E1-9E33-C80AA9429562:47-49:1-3:11",
        "3e11fa47-71ca-11e1-9e33-c80aa9429562:1-3:11:47-49",
    ),
    (
        " MySQL56/3e11fa47-71ca-11e1-9e33-c80aa9429563:2 ,, 3e11fa47-71ca-11e1-9e33-c80aa9429562:4:1-3\t,3e11fa47-71ca-11e1-9e33-c80aa9429563:1\n",
        "3e11fa47-71ca-11e1-9e33-c80aa9429562:1-4,3e11fa47-71ca-11e1-9e33-c80aa9429563:1-2",
    ),
    ("", ""),
    (" \t\r\n", ""),
    ("MySQL56/", ""),
    (",,", ""),
];

/// Whether each text is read as a set that prints the one beside it.
fn are_read(alloc: Global, rows: &[(&str, &str)]) -> Result<bool, GtidFault> {
    for (text, wanted) in rows {
        if !reads_as(alloc, text, wanted)? {
            return Ok(false);
        }
    }
    Ok(true)
}

#[test]
fn position_texts(rt: HostRuntime) {
    assert!(rt; matches!(are_read(rt.alloc(), READ), Ok(true)));
}

/// Intervals of two parts, and what they are printed as.
const MERGED: &[(&str, &str)] = &[
    ("7:7:7", "7"),
    ("20:1-2:3:5-9", "1-3:5-9:20"),
    ("10-12:1-30:14:31", "1-31"),
    ("5-3:8:2-1", "8"),
    ("5:3:1", "1:3:5"),
    ("1-4:2-3:4-6:6-5:9", "1-6:9"),
];

/// The intervals of `V` and of `U` are read as these.
fn is_merged(alloc: Global, intervals: &str, wanted: &str) -> Result<bool, GtidFault> {
    let text = format!(in alloc; "{V}:{intervals},{U}:{intervals}")?;
    let wanted = format!(in alloc; "{U}:{wanted},{V}:{wanted}")?;
    reads_as(alloc, text.as_str(), wanted.as_str())
}

/// Whether the intervals of two parts are each printed so.
fn are_merged(alloc: Global, rows: &[(&str, &str)]) -> Result<bool, GtidFault> {
    for (intervals, wanted) in rows {
        if !is_merged(alloc, intervals, wanted)? {
            return Ok(false);
        }
    }
    Ok(true)
}

#[test]
fn intervals_that_overlap_or_touch(rt: HostRuntime) {
    assert!(rt; matches!(are_merged(rt.alloc(), MERGED), Ok(true)));
}

const EMPTY: &[&str] = &[
    "",
    " \t\r\n",
    "MySQL56/",
    ",,",
    "3e11fa47-71ca-11e1-9e33-c80aa9429562:5-3",
    "3e11fa47-71ca-11e1-9e33-c80aa9429562:5-0",
];

/// Whether each text is read as the empty set.
fn are_empty(alloc: Global, texts: &[&str]) -> bool {
    for text in texts {
        match GtidSet::parse(alloc, text) {
            Ok(set) if set.is_empty() && set == GtidSet::new() => {}
            _ => return false,
        }
    }
    true
}

#[test]
fn empty_positions(rt: HostRuntime) {
    assert!(rt; are_empty(rt.alloc(), EMPTY));
}

/// Whether 4 is the last number of `U` in a set, and another that lacks it is another set.
fn are_told_apart(alloc: Global) -> Result<bool, GtidFault> {
    let set = GtidSet::parse(alloc, "3e11fa47-71ca-11e1-9e33-c80aa9429562:4:1-3")?;
    let other = GtidSet::parse(alloc, "3e11fa47-71ca-11e1-9e33-c80aa9429562:1-3")?;
    Ok(set.contains(&U_BYTES, 4) && !set.contains(&U_BYTES, 5) && set != other)
}

#[test]
fn numbers_of_a_position(rt: HostRuntime) {
    assert!(rt; matches!(are_told_apart(rt.alloc()), Ok(true)));
}

/// The union of the positions of two texts.
fn union_of(alloc: Global, one: &str, other: &str) -> Result<GtidSet, GtidFault> {
    let one = GtidSet::parse(alloc, one)?;
    let other = GtidSet::parse(alloc, other)?;
    one.union(alloc, &other)
}

/// The position of a text is within the set.
fn is_within(alloc: Global, text: &str, set: &GtidSet) -> bool {
    match GtidSet::parse(alloc, text) {
        Ok(one) => one.is_within(set),
        Err(_) => false,
    }
}

/// The set is within the position of a text.
fn lies_within(alloc: Global, set: &GtidSet, text: &str) -> bool {
    match GtidSet::parse(alloc, text) {
        Ok(one) => set.is_within(&one),
        Err(_) => true,
    }
}

/// Whether a union prints this text, and has both sets within it but not the other way round.
fn is_union(alloc: Global, one: &str, other: &str, wanted: &str) -> Result<bool, GtidFault> {
    let both = union_of(alloc, one, other)?;
    Ok(
        is_within(alloc, one, &both)
            && is_within(alloc, other, &both)
            && !lies_within(alloc, &both, one)
            && prints(alloc, &both, wanted)?,
    )
}

#[test]
fn union_of_two_positions(rt: HostRuntime) {
    let one = "3e11fa47-71ca-11e1-9e33-c80aa9429562:1-2";
    let other = "3e11fa47-71ca-11e1-9e33-c80aa9429562:3,3e11fa47-71ca-11e1-9e33-c80aa9429563:1";
    let wanted = "3e11fa47-71ca-11e1-9e33-c80aa9429562:1-3,3e11fa47-71ca-11e1-9e33-c80aa9429563:1";
    assert!(rt; matches!(is_union(rt.alloc(), one, other, wanted), Ok(true)));
}

/// Whether the set, with the number behind this one of `U`, and a copy of it print this text.
fn grows_to(alloc: Global, set: &mut GtidSet, number: u8, wanted: &str) -> Result<bool, GtidFault> {
    set.add(alloc, &U_BYTES, u64::from(number) + 1)?;
    let copy = set.try_clone(alloc)?;
    Ok(prints(alloc, set, wanted)? && prints(alloc, &copy, wanted)?)
}

/// Whether a union grows by 5, a number of its own, and by 4, which joins its intervals.
fn union_grows(alloc: Global) -> Result<bool, GtidFault> {
    let one = "3e11fa47-71ca-11e1-9e33-c80aa9429562:1-2";
    let mut set = union_of(alloc, one, "3e11fa47-71ca-11e1-9e33-c80aa9429562:3")?;
    let apart = "3e11fa47-71ca-11e1-9e33-c80aa9429562:1-3:5";
    let joined = "3e11fa47-71ca-11e1-9e33-c80aa9429562:1-5";
    Ok(
        grows_to(alloc, &mut set, 4, apart)?
            && grows_to(alloc, &mut set, 3, joined)?
            && set.intervals().len() == 1,
    )
}

#[test]
fn union_add_and_clone(rt: HostRuntime) {
    assert!(rt; matches!(union_grows(rt.alloc()), Ok(true)));
}

/// Whether 1,048,576 blanks are a position, with one more none, and with another flavour behind them none
/// for their size.
fn is_limit_of_bytes(alloc: Global) -> Result<bool, AllocError> {
    let mut text = String::new(alloc);
    for _ in 0..131_072 {
        text.push_str("        ")?;
    }
    let longest = text.len() == 1_048_576 && refusal(alloc, text.as_str()).is_none();
    text.push_str(" ")?;
    let longer = refusal(alloc, text.as_str());
    text.push_str("MariaDB/x")?;
    Ok(longest && longer == Some(36) && refusal(alloc, text.as_str()) == Some(36))
}

/// And position_text_too_large.
#[test]
fn position_bytes_limit(rt: HostRuntime) {
    assert!(rt; matches!(is_limit_of_bytes(rt.alloc()), Ok(true)));
}

/// Appends an interval of one number to a text.
fn put_number(alloc: Global, text: &mut String, number: u64) -> Result<(), AllocError> {
    let interval = format!(in alloc; ":{number}")?;
    text.push_str(interval.as_str())
}

/// The text of the even numbers from 2 on, each an interval of its own.
fn even_numbers(alloc: Global, count: u32) -> Result<String, AllocError> {
    let mut text = String::from_str(alloc, U)?;
    for number in 0..count {
        put_number(alloc, &mut text, 2 * u64::from(number) + 2)?;
    }
    Ok(text)
}

/// Whether a text is a set of 70,000 intervals that has of the last numbers 140,000 alone, prints the text,
/// and is its copy.
fn stands(alloc: Global, text: &str) -> Result<bool, GtidFault> {
    let set = GtidSet::parse(alloc, text)?;
    let copy = set.try_clone(alloc)?;
    let is_whole = set.intervals().len() == 70_000
        && set.contains(&U_BYTES, 140_000)
        && !set.contains(&U_BYTES, 139_999);
    Ok(is_whole && copy == set && prints(alloc, &set, text)?)
}

/// Whether 70,000 intervals are a set, and a union with the numbers behind the last has no interval more.
fn are_many_intervals(alloc: Global) -> Result<bool, GtidFault> {
    let text = even_numbers(alloc, 70_000)?;
    let behind = "3e11fa47-71ca-11e1-9e33-c80aa9429562:140001-140002";
    let wanted = format!(in alloc; "{text}-140002")?;
    Ok(stands(alloc, text.as_str())? && is_union(alloc, text.as_str(), behind, wanted.as_str())?)
}

/// And union_of_many_intervals.
#[test]
fn more_intervals_than_sixteen_bits_count(rt: HostRuntime) {
    assert!(rt; matches!(are_many_intervals(rt.alloc()), Ok(true)));
}
