//! Workflow files to which tables were added.

use filter_rule::*;
use std::alloc::{AllocError, Global};
use std::sync::Arc;

const T: &str =
    "{\"name\":\"t\",\"columns\":[[\"id\",\"INT64\"],[\"v\",\"VARCHAR\"]],\"key\":[\"id\"],\"vindex\":[\"id\",\"numeric\"]}";

const U: &str = "{\"name\":\"u\",\"columns\":[[\"id\",\"INT64\"]],\"key\":[\"id\"]}";

const T_THEN_U: &str =
    "{\"name\":\"t\",\"columns\":[[\"id\",\"INT64\"],[\"v\",\"VARCHAR\"]],\"key\":[\"id\"],\"vindex\":[\"id\",\"numeric\"]},{\"name\":\"u\",\"columns\":[[\"id\",\"INT64\"]],\"key\":[\"id\"]}";

const U_THEN_T: &str =
    "{\"name\":\"u\",\"columns\":[[\"id\",\"INT64\"]],\"key\":[\"id\"]},{\"name\":\"t\",\"columns\":[[\"id\",\"INT64\"],[\"v\",\"VARCHAR\"]],\"key\":[\"id\"],\"vindex\":[\"id\",\"numeric\"]}";

/// `t` has another key, and `u` comes behind it.
const OTHER_T_THEN_U: &str =
    "{\"name\":\"t\",\"columns\":[[\"id\",\"INT64\"],[\"v\",\"VARCHAR\"]],\"key\":[\"v\"],\"vindex\":[\"id\",\"numeric\"]},{\"name\":\"u\",\"columns\":[[\"id\",\"INT64\"]],\"key\":[\"id\"]}";

const EVERY: &str = "{\"match\":\"/.*\"}";

/// What a file says: its keyspace, its tables, and its stream's shard and rules.
type File = (&'static str, &'static str, &'static str, &'static str);

/// The new file, the old one, and whether the new one's plan is the old one's with tables appended.
type Row = (File, File, bool);

const ROWS: &[Row] = &[
    // a table behind the last
    (("k", T_THEN_U, "-", EVERY), ("k", T, "-", EVERY), true),
    // the old table's rule by its meaning, whatever the new table's is
    (
        ("k", T_THEN_U, "-", "{\"match\":\"t\",\"filter\":\"00-80\"}"),
        ("k", T, "-", "{\"match\":\"/.*\",\"filter\":\"-80\"}"),
        true,
    ),
    // no table more, one less, one in front
    (("k", T, "-", EVERY), ("k", T, "-", EVERY), false),
    (("k", T, "-", EVERY), ("k", T_THEN_U, "-", EVERY), false),
    (("k", U_THEN_T, "-", EVERY), ("k", T, "-", EVERY), false),
    (("k", U_THEN_T, "-", EVERY), ("k", U, "-", EVERY), true),
    // another key, keyspace, shard or rule
    (
        ("k", OTHER_T_THEN_U, "-", EVERY),
        ("k", T, "-", EVERY),
        false,
    ),
    (("l", T_THEN_U, "-", EVERY), ("k", T, "-", EVERY), false),
    (("k", T_THEN_U, "-80", EVERY), ("k", T, "-", EVERY), false),
    (
        ("k", T_THEN_U, "-", "{\"match\":\"t\",\"filter\":\"-40\"}"),
        ("k", T, "-", "{\"match\":\"t\",\"filter\":\"-80\"}"),
        false,
    ),
    (
        ("k", T_THEN_U, "-", EVERY),
        ("k", T, "-", "{\"match\":\"u\"}"),
        false,
    ),
];

/// The plans of a file.
fn plans_of(alloc: Global, file: &File) -> Result<Option<Vec<Arc<Plan>>>, AllocError> {
    let (keyspace, tables, shard, rules) = file;
    let text = format!(in alloc;
        "{{\"keyspace\":\"{keyspace}\",\"tables\":[{tables}],\"streams\":[{{\"shard\":\"{shard}\",\"filter\":{{\"rules\":[{rules}]}}}}]}}"
    )?;
    Ok(Plan::read_all(alloc, text.as_bytes()).ok())
}

/// Both are one plan, and whether the one extends the other is as wanted.
fn is_as_wanted(new: &[Arc<Plan>], old: &[Arc<Plan>], wanted: bool) -> bool {
    match (new, old) {
        ([new], [old]) => new.extends(old) == wanted,
        _ => false,
    }
}

fn is_row(alloc: Global, row: &Row) -> Result<bool, AllocError> {
    let (new, old, wanted) = row;
    let (Some(new), Some(old)) = (plans_of(alloc, new)?, plans_of(alloc, old)?) else {
        return Ok(false);
    };
    Ok(is_as_wanted(&new, &old, *wanted))
}

/// Whether each row's plan extends the other as wanted.
fn are_rows(alloc: Global, rows: &[Row]) -> Result<bool, AllocError> {
    for row in rows {
        if !is_row(alloc, row)? {
            return Ok(false);
        }
    }
    Ok(true)
}

#[test]
fn tables_appended_last(rt: HostRuntime) {
    assert!(rt; matches!(are_rows(rt.alloc(), ROWS), Ok(true)));
}
