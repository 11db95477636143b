//! Whole workflow files: texts of another shape, texts that are no JSON, bad rules, and empty words.

use crate::plans::workflows::number_of;
use filter_rule::*;
use std::alloc::{AllocError, Global};

/// Texts, and the numbers of their refusals.
const REFUSED: &[(&[u8], u8)] = &[
    // wrong_shape
    // an absent key, at each level
    (b"{\"tables\":[],\"streams\":[]}", 52),
    (b"{\"keyspace\":\"\",\"streams\":[]}", 52),
    (b"{\"keyspace\":\"\",\"tables\":[]}", 52),
    (
        b"{\"keyspace\":\"\",\"tables\":[{\"columns\":[],\"key\":[]}],\"streams\":[]}",
        52,
    ),
    (
        b"{\"keyspace\":\"\",\"tables\":[{\"name\":\"t\",\"key\":[]}],\"streams\":[]}",
        52,
    ),
    (
        b"{\"keyspace\":\"\",\"tables\":[{\"name\":\"t\",\"columns\":[]}],\"streams\":[]}",
        52,
    ),
    (
        b"{\"keyspace\":\"\",\"tables\":[],\"streams\":[{\"filter\":{\"rules\":[]}}]}",
        52,
    ),
    (
        b"{\"keyspace\":\"\",\"tables\":[],\"streams\":[{\"shard\":\"\"}]}",
        52,
    ),
    (
        b"{\"keyspace\":\"\",\"tables\":[],\"streams\":[{\"shard\":\"\",\"filter\":{}}]}",
        52,
    ),
    // another kind
    (b"{\"keyspace\":1,\"tables\":[],\"streams\":[]}", 52),
    (b"{\"keyspace\":\"\",\"tables\":{},\"streams\":[]}", 52),
    (b"{\"keyspace\":\"\",\"tables\":[[]],\"streams\":[]}", 52),
    (b"{\"keyspace\":\"\",\"tables\":[],\"streams\":[\"-\"]}", 52),
    // two tables, or two shards, of one name
    (
        b"{\"keyspace\":\"\",\"tables\":[{\"name\":\"t\",\"columns\":[],\"key\":[]},{\"name\":\"t\",\"columns\":[],\"key\":[]}],\"streams\":[]}",
        52,
    ),
    (
        b"{\"keyspace\":\"\",\"tables\":[],\"streams\":[{\"shard\":\"-\",\"filter\":{\"rules\":[]}},{\"shard\":\"-\",\"filter\":{\"rules\":[]}}]}",
        52,
    ),
    // json_oddities
    (b"{", 51),
    (b"[]", 52),
    // not_json
    (b"", 51),
    (b"{\"keyspace\":\"\",}", 51),
    (b"{\"keyspace\":\"ks\",\"tables\":[{\"name\":\"t\"", 51),
    (b"{\"ignored\":\"\xff\"}", 51),
];

/// Whether each text is refused by the number beside it.
fn are_refused(alloc: Global, rows: &[(&[u8], u8)]) -> bool {
    for (text, number) in rows {
        if number_of(alloc, text) != *number {
            return false;
        }
    }
    true
}

#[test]
fn wrong_shape(rt: HostRuntime) {
    assert!(rt; are_refused(rt.alloc(), REFUSED));
}

/// Files, and the stream and the place there, from 0, of the rule that they are refused for.
const BAD_RULES: &[(&[u8], usize, usize)] = &[
    // workflow_faults_named
    (
        b"{\"keyspace\":\"ks\",\"tables\":[{\"name\":\"t\",\"columns\":[[\"id\",\"INT64\"],[\"v\",\"VARCHAR\"]],\"key\":[\"id\"],\"vindex\":[\"id\",\"numeric\"]}],\"streams\":[{\"shard\":\"-80\",\"filter\":{\"rules\":[{\"match\":\"/.*\",\"filter\":\"8-\"}]}}]}",
        0,
        0,
    ),
    (
        b"{\"keyspace\":\"ks\",\"tables\":[{\"name\":\"t\",\"columns\":[[\"id\",\"INT64\"],[\"v\",\"VARCHAR\"]],\"key\":[\"id\"],\"vindex\":[\"id\",\"numeric\"]}],\"streams\":[{\"shard\":\"-80\",\"filter\":{\"rules\":[{\"match\":\"t\",\"filter\":\"select * from u\"}]}}]}",
        0,
        0,
    ),
    // bad_rule
    (
        b"{\"keyspace\":\"\",\"tables\":[{\"name\":\"t\",\"columns\":[[\"id\",265]],\"key\":[\"id\"]}],\"streams\":[{\"shard\":\"-80\",\"filter\":{\"rules\":[{\"match\":\"t\"}]}},{\"shard\":\"80-\",\"filter\":{\"rules\":[{\"match\":\"u\"},{\"match\":\"v\"},{\"match\":\"t\",\"filter\":\"-80\"}]}}]}",
        1,
        2,
    ),
];

/// The file is refused for this rule.
fn is_bad_rule(alloc: Global, text: &[u8], stream: usize, rule: usize) -> bool {
    match Plan::read_all(alloc, text) {
        Ok(_) => false,
        Err(fault) => fault.number() == 55 && fault == PlanFault::BadRule { stream, rule },
    }
}

/// Whether each file is refused for the rule beside it.
fn are_bad_rules(alloc: Global, rows: &[(&[u8], usize, usize)]) -> bool {
    for (text, stream, rule) in rows {
        if !is_bad_rule(alloc, text, *stream, *rule) {
            return false;
        }
    }
    true
}

/// The refusal of a rule names its stream and its place there.
#[test]
fn bad_rule(rt: HostRuntime) {
    assert!(rt; are_bad_rules(rt.alloc(), BAD_RULES));
}

/// Whether seventy-one rules in a file of empty words are read.
fn are_many_rules(alloc: Global) -> Result<bool, AllocError> {
    let mut text = String::from_str(
        alloc,
        "{\"keyspace\":\"\",\"tables\":[{\"name\":\"t\",\"columns\":[[\"id\",265]],\"key\":[\"id\"]}],\"streams\":[{\"shard\":\"\",\"filter\":{\"rules\":[{\"match\":\"\"}",
    )?;
    for _ in 0..70 {
        text.push_str(",{\"match\":\"\"}")?;
    }
    text.push_str("]}}]}")?;
    Ok(number_of(alloc, text.as_bytes()) == 0)
}

/// Keyspace, shard and match may be empty texts, and rules as many as one likes.
#[test]
fn empty_words_allowed(rt: HostRuntime) {
    assert!(rt; matches!(are_many_rules(rt.alloc()), Ok(true)));
}
