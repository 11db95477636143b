//! Keys of rows: their order, their parts, and rows without one.

use crate::tables::rows::{WORKFLOW, key};
use filter_rule::Plan;
use pk_copy::*;
use std::alloc::{AllocError, Global};
use std::cmp::Ordering;
use std::mem::size_of;
use std::sync::Arc;
use std::test::Fail;

/// Whether the keys of two rows, lent and kept, are in this order.
fn compare(
    alloc: Global,
    plans: &[Arc<Plan>],
    bytes: &[u8],
    others: &[u8],
    wanted: Ordering,
) -> Result<bool, AllocError> {
    let (Some(Ok(view)), Some(Ok(other))) = (key(plans, 0, bytes), key(plans, 0, others)) else {
        return Ok(false);
    };
    let kept = Key::from_view(alloc, &view)?;
    let other_kept = Key::from_view(alloc, &other)?;
    let equal = (view == other) == wanted.is_eq() && (kept == other_kept) == wanted.is_eq();
    Ok(equal && view.cmp(&other) == wanted && kept.cmp(&other_kept) == wanted)
}

/// Whether the kept key, and a copy of it, is that of a row with a key of so many parts.
fn is_kept(
    alloc: Global,
    plans: &[Arc<Plan>],
    bytes: &[u8],
    parts: usize,
) -> Result<bool, AllocError> {
    let Some(Ok(view)) = key(plans, 0, bytes) else {
        return Ok(false);
    };
    let kept = Key::from_view(alloc, &view)?;
    let copy = kept.try_clone(alloc)?;
    let same = kept.view() == view && copy == kept && is_lent(alloc, &view)?;
    Ok(same && kept.table() == 0 && view.table() == 0 && view.parts().len() == parts)
}

/// Whether a key, kept as lent, and a copy of it, is this one, and not before the least of its table.
fn is_lent(alloc: Global, view: &KeyView<'_>) -> Result<bool, AllocError> {
    let lent = LentKey::from_view(alloc, view)?;
    let copy = lent.try_clone(alloc)?;
    let least = LentKey::first_of(alloc, view.table());
    Ok(lent.view() == *view && copy == lent && least.view().cmp(view).is_le())
}

const RISING: &[&[u8]] = &[
    b"\x0a\x02\x02\x28\x12\x15a-9223372036854775808",
    b"\x0a\x02\x02\x04\x12\x03a-1",
    b"\x0a\x02\x02\x02\x12\x02a0",
    b"\x0a\x02\x02\x02\x12\x02a2",
    b"\x0a\x02\x04\x02\x12\x03ab2",
    b"\x0a\x02\x02\x02\x12\x02b2",
    b"\x0a\x02\x02\x04\x12\x03a10",
    b"\x0a\x02\x02\x28\x12\x15a18446744073709551615",
];

/// Whether each row has a key of so many parts that can be kept, and is less than the next row.
fn rise(
    alloc: Global,
    plans: &[Arc<Plan>],
    rows: &[&[u8]],
    parts: usize,
) -> Result<bool, AllocError> {
    let mut earlier: Option<&[u8]> = None;
    for bytes in rows {
        let first = is_kept(alloc, plans, bytes, parts)?;
        let second = match earlier {
            None => true,
            Some(lesser) => compare(alloc, plans, lesser, bytes, Ordering::Less)?,
        };
        if !first || !second {
            return Ok(false);
        }
        earlier = Some(bytes);
    }
    Ok(true)
}

#[test]
fn key_order_and_parts(rt: HostRuntime) -> Result<(), Fail> {
    let plans = Plan::read_all(rt.alloc(), WORKFLOW)?;
    assert!(rt; rise(rt.alloc(), &plans, RISING, 2)?);
    Ok(())
}

/// A table whose key has eight parts.
const EIGHT: &[u8] =
    br#"{"keyspace":"ks","tables":[{"name":"t","columns":[["a","INT64"],["b","VARBINARY"],["c","INT64"],["d","VARBINARY"],["e","INT64"],["f","VARBINARY"],["g","INT64"],["h","VARBINARY"]],"key":["a","b","c","d","e","f","g","h"]}],"streams":[{"shard":"-80","filter":{"rules":[{"match":"/.*","filter":""}]}}]}"#;

/// The last part decides, then the last but one, then the third.
const RISING_EIGHT: &[&[u8]] = &[
    b"\x0a\x08\x02\x02\x04\x00\x02\x04\x02 \x12\x181x-23yz4long as it is, w",
    b"\x0a\x08\x02\x02\x04\x00\x02\x04\x02&\x12\x1b1x-23yz4long as it is, wide",
    b"\x0a\x08\x02\x02\x04\x00\x02\x04\x04\x00\x12\x091x-23yz10",
    b"\x0a\x08\x02\x02\x04\x00\x02\x02\x02\x00\x12\x071x-13y4",
];

#[test]
fn keys_of_eight_parts(rt: HostRuntime) -> Result<(), Fail> {
    let plans = Plan::read_all(rt.alloc(), EIGHT)?;
    assert!(rt; rise(rt.alloc(), &plans, RISING_EIGHT, 8)?);
    Ok(())
}

/// `007` and `7` are one part, `-0` and `0` too.
const SAME: &[(&[u8], &[u8])] = &[
    (
        b"\x0a\x02\x02\x06\x12\x04a007",
        b"\x0a\x02\x02\x02\x12\x02a7",
    ),
    (
        b"\x0a\x02\x02\x04\x12\x03a-0",
        b"\x0a\x02\x02\x02\x12\x02a0",
    ),
];

/// Whether the rows of each pair have the same key.
fn are_same(alloc: Global, plans: &[Arc<Plan>]) -> Result<bool, AllocError> {
    for (bytes, others) in SAME {
        if !compare(alloc, plans, bytes, others, Ordering::Equal)? {
            return Ok(false);
        }
    }
    Ok(true)
}

#[test]
fn minus_zero_and_zeros(rt: HostRuntime) -> Result<(), Fail> {
    let plans = Plan::read_all(rt.alloc(), WORKFLOW)?;
    assert!(rt; are_same(rt.alloc(), &plans)?);
    Ok(())
}

/// NULL is 61, also before a text that is no number, and behind it; a text that is none is 62.
const WITHOUT_KEY: &[(&[u8], u8)] = &[
    (b"\x0a\x02\x02\x04\x12\x03a1x", 62),
    (b"\x0a\x02\x02\x28\x12\x15a18446744073709551616", 62),
    (b"\x0a\x02\x02\x28\x12\x15a-9223372036854775809", 62),
    (b"\x0a\x02\x00\x00\x12\x00", 62),
    (b"\x0a\x02\x02\x01\x12\x01a", 61),
    (b"\x0a\x02\x01\x02\x12\x011", 61),
    (b"\x0a\x02\x01\x04\x12\x021x", 61),
];

/// Whether each row is refused with its number.
fn are_refused(plans: &[Arc<Plan>]) -> bool {
    for (bytes, number) in WITHOUT_KEY {
        match key(plans, 0, bytes) {
            Some(Err(fault)) if fault.number() == *number => {}
            _ => return false,
        }
    }
    true
}

#[test]
fn rows_without_key(rt: HostRuntime) -> Result<(), Fail> {
    let plans = Plan::read_all(rt.alloc(), WORKFLOW)?;
    assert!(rt; are_refused(&plans));
    Ok(())
}

/// Whether the fault is told in these words.
fn is_told(alloc: Global, fault: KeyFault, wanted: &str) -> Result<bool, AllocError> {
    let text = format!(in alloc; "{fault}")?;
    Ok(text.as_str() == wanted)
}

#[test]
fn texts_of_faults(rt: HostRuntime) -> Result<(), Fail> {
    let bad = "a key column of whole numbers holds no number";
    assert!(rt; is_told(rt.alloc(), KeyFault::BadKey, bad)?);
    assert!(rt; is_told(rt.alloc(), KeyFault::NullKey, "a key column is NULL")?);
    Ok(())
}

#[test]
fn sizes(rt: HostRuntime) {
    assert!(rt; size_of::<KeyView<'static>>() <= 288 && size_of::<Key>() <= 32);
}
