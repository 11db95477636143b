//! Keys of rows of kept columns: those of the whole rows.

use crate::tables::rows::key;
use filter_rule::Plan;
use pk_copy::*;
use row_view::RowView;
use std::sync::Arc;
use std::test::Fail;

/// The columns `v`, `w` and `id` with the key (`id`, `v`), of which `id` and `v` are kept, in this order.
const LISTED: &[u8] =
    br#"{"keyspace":"ks","tables":[{"name":"t","columns":[["v","VARCHAR"],["w","BLOB"],["id","INT64"]],"key":["id","v"]}],"streams":[{"shard":"-80","filter":{"rules":[{"match":"t","filter":"select id, v from t"}]}}]}"#;

/// The key of a row of kept columns of table `t`, or its fault; nothing where this is no such row.
fn kept_key<'b>(
    plans: &[Arc<Plan>],
    t: u8,
    bytes: &'b [u8],
) -> Option<Result<KeyView<'b>, KeyFault>> {
    let plan = plans.first()?;
    match RowView::read(bytes) {
        Ok(row)
            if usize::from(t) < plan.tables().len() && row.len() == plan.kept_columns(t).len() => {
            Some(key_of_kept(plan, t, &row))
        }
        _ => None,
    }
}

/// Rows, and their kept columns.
const ROWS: &[(&[u8], &[u8])] = &[
    (
        b"\x0a\x03\x02\x04\x02\x12\x04axy7",
        b"\x0a\x02\x02\x02\x12\x027a",
    ),
    // a NULL that isn't kept, and another text of the same number
    (
        b"\x0a\x03\x02\x01\x06\x12\x04a007",
        b"\x0a\x02\x02\x02\x12\x027a",
    ),
];

/// Whether each row has the key of its kept columns.
fn are_same(plans: &[Arc<Plan>]) -> bool {
    for (whole, kept) in ROWS {
        let (Some(Ok(one)), Some(Ok(other))) = (key(plans, 0, whole), kept_key(plans, 0, kept))
        else {
            return false;
        };
        if one != other {
            return false;
        }
    }
    true
}

/// Kept columns without a key: 61 for a NULL, 62 for a text that is no number.
const WITHOUT_KEY: &[(&[u8], u8)] = &[
    (b"\x0a\x02\x04\x02\x12\x031xa", 62),
    (b"\x0a\x02\x02\x01\x12\x017", 61),
    (b"\x0a\x02\x04\x01\x12\x021x", 61),
];

/// Whether each is refused with its number.
fn are_refused(plans: &[Arc<Plan>]) -> bool {
    for (bytes, number) in WITHOUT_KEY {
        match kept_key(plans, 0, bytes) {
            Some(Err(fault)) if fault.number() == *number => {}
            _ => return false,
        }
    }
    true
}

#[test]
fn keys_of_kept_columns(rt: HostRuntime) -> Result<(), Fail> {
    let plans = Plan::read_all(rt.alloc(), LISTED)?;
    assert!(rt; are_same(&plans) && are_refused(&plans));
    Ok(())
}
