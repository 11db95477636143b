//! Where a workflow file is at fault, and what would be right there.

use filter_rule::Plan;
use std::alloc::{AllocError, Global};
use workflow_places::place_of;

/// A file of one table and one stream, with the rule's members behind its `match`.
fn file_of(alloc: Global, rule: &str) -> Result<String, AllocError> {
    let columns = "[[\"id\",\"INT64\"],[\"name\",\"VARCHAR\"]]";
    let head = format!(in alloc;
        "{{\"keyspace\":\"k\",\"tables\":[{{\"name\":\"t\",\"columns\":{columns},\"key\":[\"id\"]}}],"
    )?;
    format!(in alloc;
        "{head}\"streams\":[{{\"shard\":\"-\",\"filter\":{{\"rules\":[{{{rule}}}]}}}}]}}"
    )
}

/// The place of a file's fault; nothing where it has none.
fn place(alloc: Global, file: &str) -> Result<String, AllocError> {
    match Plan::read_all(alloc, file.as_bytes()) {
        Ok(_) => Ok(String::new(alloc)),
        Err(fault) => match place_of(alloc, file.as_bytes(), &fault)? {
            None => String::from_str(alloc, "none"),
            Some(text) => Ok(text),
        },
    }
}

/// Texts of filters that a Vitess workflow may have, and what is told of each.
const FILTERS: &[(&str, &str)] = &[
    (
        "select * from t where id > 1",
        "id at byte 22: no other condition is supported than `in_keyrange('-80')` or `in_keyrange(column, 'vindex', '-80')`",
    ),
    (
        "select id, upper(name) from t",
        "upper at byte 11: functions aren't supported: wanted is `*` or columns, as they stand in the source",
    ),
    (
        "select count(*) from t",
        "count at byte 7: functions aren't supported: wanted is `*` or columns, as they stand in the source",
    ),
    (
        "select * from t where in_keyrange(id, 'xxhash', '-80')",
        "'xxhash' at byte 38: wanted is 'numeric', 'reverse_bits', 'binary', 'binary_md5' or 'hash'",
    ),
    (
        "exclude",
        "exclude at byte 0: `exclude` isn't supported: a table that no rule matches passes no row",
    ),
    (
        "select * from ks.t",
        "ks at byte 14: wanted is the table's name alone, without a keyspace before it",
    ),
    (
        "select * from \\\"t\\\"",
        "\" at byte 14: double quotes aren't supported: names stand between backquotes, texts between single quotes",
    ),
    (
        "select id as x from t",
        "as at byte 10: other names for columns aren't supported: wanted is `,` and a further column, or `from`",
    ),
    (
        "select id from t limit 1",
        "limit at byte 17: wanted is the end, or `where in_keyrange(..)`",
    ),
    (
        "select id, id from t",
        "the end at byte 20: wanted is a list in which no column stands twice",
    ),
    (
        "80",
        "80 at byte 0: wanted is nothing, a key range as -80, or `select`",
    ),
    (
        "select * from t where in_keyrange('8')",
        "'8' at byte 34: wanted is a key range in quotes, as '-80', '40-80' or '80-'",
    ),
    (
        "select",
        "the end at byte 6: wanted is `*` or a column's name",
    ),
    (
        "select * from u",
        "another table than that of `match`: wanted is the same",
    ),
    (
        "-80",
        "a range without a vindex: wanted is a member `vindex` of each table that the rule is first for",
    ),
    (
        "select name from t",
        "a list without each key column: wanted are all key columns of the table",
    ),
    (
        "select * from t where in_keyrange(id, 'hash', '-80')",
        "vindex 'hash': wanted is the file's member \"vindexes\": [\"hash\"]",
    ),
];

/// Whether each filter is told as it stands beside it.
fn are_told(alloc: Global) -> Result<bool, AllocError> {
    for (filter, told) in FILTERS {
        let rule = format!(in alloc; "\"match\":\"t\",\"filter\":\"{filter}\"")?;
        let file = file_of(alloc, &rule)?;
        let found = place(alloc, &file)?;
        let wanted = format!(in alloc; "streams[0].filter.rules[0].filter: {told}")?;
        if found.as_str() != wanted.as_str() {
            return Ok(false);
        }
    }
    Ok(true)
}

#[test]
fn filters_of_vitess_are_told(rt: HostRuntime) {
    assert!(rt; matches!(are_told(rt.alloc()), Ok(true)));
}

/// Whole files, and what is told of each.
const FILES: &[(&str, &str)] = &[
    (
        "{\"keyspace\": \"k\",\n  \"tables\": [}",
        "line 2 column 14: no JSON",
    ),
    (
        "{\"keyspace\":\"k\",\"tables\":[{\"name\":\"t\",\"columns\":[[\"id\",\"INT64\"]],\"key\":[\"x\"]}],\"streams\":[{\"shard\":\"-\",\"filter\":{\"rules\":[]}}]}",
        "tables[0].key[0]: no column \"x\" in table \"t\"",
    ),
    (
        "{\"keyspace\":\"k\",\"tables\":[{\"name\":\"t\",\"columns\":[[\"id\",\"TEXT\"]],\"key\":[\"id\"]}],\"streams\":[{\"shard\":\"-\",\"filter\":{\"rules\":[]}}]}",
        "tables[0].columns[0][1]: a type that tables[0].key[0] can't have: wanted is a whole number, of a key also VARCHAR, CHAR, VARBINARY or BINARY, of binary and binary_md5 any type that has a name",
    ),
    (
        "{\"keyspace\":\"k\",\"tables\":[{\"name\":\"t\",\"columns\":[[\"id\",\"INT64\"]],\"key\":[\"id\"]}],\"streams\":[{\"shard\":\"-\",\"filter\":{\"rules\":[{\"match\":\"/t.*\"}]}}]}",
        "streams[0].filter.rules[0].match: no pattern \"/t.*\": wanted is a table's name, or `/.*` for every table",
    ),
    (
        "{\"keyspace\":\"k\",\"tables\":[{\"name\":\"t\",\"columns\":[[\"id\",\"INT64\"],[\"v\",\"INT64\"]],\"key\":[\"id\"]}],\"streams\":[{\"shard\":\"-80\",\"filter\":{\"rules\":[{\"match\":\"t\",\"filter\":\"select id from t\"}]}},{\"shard\":\"80-\",\"filter\":{\"rules\":[{\"match\":\"t\"}]}}]}",
        "tables[0]: the streams keep different columns of it, or in another order: wanted is one list in all first rules that match it",
    ),
    (
        "{\"keyspace\":\"k\",\"tables\":[],\"streams\":[]}",
        "streams: 0 streams, at least 1",
    ),
];

/// Whether each file is told as it stands beside it.
fn files_are_told(alloc: Global) -> Result<bool, AllocError> {
    for (file, told) in FILES {
        let found = place(alloc, file)?;
        if found.as_str() != *told {
            return Ok(false);
        }
    }
    Ok(true)
}

#[test]
fn places_of_files_are_told(rt: HostRuntime) {
    assert!(rt; matches!(files_are_told(rt.alloc()), Ok(true)));
}
