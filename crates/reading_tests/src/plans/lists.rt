//! Filters that list columns: the columns that plans keep, and what files are refused for.

use crate::plans::workflows::{number_of, workflow};
use filter_rule::*;
use std::alloc::{AllocError, Global};
use std::sync::Arc;

const COLUMNS: &str = "[[\"id\",\"INT64\"],[\"v\",\"VARCHAR\"],[\"w\",\"BLOB\"]]";

/// Filters of a table of the columns `id`, `v` and `w` with the key `id`, and the places of the columns that
/// its plan keeps.
const KEPT: &[(&str, &[u8])] = &[
    ("", &[0, 1, 2]),
    ("select * from t", &[0, 1, 2]),
    ("select id from t", &[0]),
    ("select v, id from t", &[1, 0]),
    (
        "select w, v, id from t where in_keyrange(v, 'binary', '-80')",
        &[2, 1, 0],
    ),
];

/// The first table of the first plan keeps the columns at these places.
fn has_kept(plans: &[Arc<Plan>], places: &[u8]) -> bool {
    match plans {
        [plan, ..] => match plan.tables() {
            [table, ..] => table.kept() == places,
            [] => false,
        },
        [] => false,
    }
}

/// The plan of a file with this filter keeps the columns at these places.
fn keeps(alloc: Global, filter: &str, places: &[u8]) -> Result<bool, AllocError> {
    let rules = format!(in alloc; "[{{\"match\":\"t\",\"filter\":\"{filter}\"}}]")?;
    let text = workflow(alloc, COLUMNS, "[\"id\"]", "", rules.as_str())?;
    match Plan::read_all(alloc, text.as_bytes()) {
        Ok(plans) => Ok(has_kept(plans.as_slice(), places)),
        Err(_) => Ok(false),
    }
}

/// Whether each filter keeps the columns beside it.
fn all_keep(alloc: Global, rows: &[(&str, &[u8])]) -> Result<bool, AllocError> {
    for (filter, places) in rows {
        if !keeps(alloc, filter, places)? {
            return Ok(false);
        }
    }
    Ok(true)
}

#[test]
fn kept_columns(rt: HostRuntime) {
    assert!(rt; matches!(all_keep(rt.alloc(), KEPT), Ok(true)));
}

/// The filter of the first of two streams, for the table `t`; the `match` and the filter of the second; and
/// the number of the file's refusal, or 0.
const TWO: &[(&str, &str, &str, u8)] = &[
    ("select id, v from t", "t", "select id, v from t", 0),
    ("select id from t", "t", "select id, v from t", 57),
    ("select v, id from t", "t", "select id, v from t", 57),
    // all columns in their order are all columns, in another order they aren't
    ("select id, v, w from t", "t", "select * from t", 0),
    ("select id, w, v from t", "t", "", 57),
    // a stream without a rule for the table isn't asked
    ("select v, id from t", "u", "", 0),
    // 55 for a key column that isn't listed, before 53 for a column that isn't there, and both before 57
    ("select v from t", "t", "", 55),
    ("select v, x from t", "t", "", 55),
    ("select id, x from t", "t", "select id from t", 53),
    (
        "select id, x from t where in_keyrange(y, 'binary', '-')",
        "t",
        "",
        53,
    ),
    (
        "select id, v from t where in_keyrange(v, 'numeric', '-')",
        "t",
        "select id from t",
        54,
    ),
    ("select id, id from t", "t", "", 55),
];

/// A file of two streams with these rules.
fn of_two(alloc: Global, one: &str, matches: &str, other: &str) -> Result<String, AllocError> {
    format!(in alloc;
        "{{\"keyspace\":\"ks\",\"tables\":[{{\"name\":\"t\",\"columns\":{COLUMNS},\"key\":[\"id\"]}}],\"streams\":[{{\"shard\":\"-80\",\"filter\":{{\"rules\":[{{\"match\":\"t\",\"filter\":\"{one}\"}}]}}}},{{\"shard\":\"80-\",\"filter\":{{\"rules\":[{{\"match\":\"{matches}\",\"filter\":\"{other}\"}}]}}}}]}}"
    )
}

/// Whether each file of two streams is refused by the number beside it, or read.
fn are_answered(alloc: Global, rows: &[(&str, &str, &str, u8)]) -> Result<bool, AllocError> {
    for (one, matches, other, number) in rows {
        let text = of_two(alloc, one, matches, other)?;
        if number_of(alloc, text.as_bytes()) != *number {
            return Ok(false);
        }
    }
    Ok(true)
}

#[test]
fn streams_that_list_columns(rt: HostRuntime) {
    assert!(rt; matches!(are_answered(rt.alloc(), TWO), Ok(true)));
}
