//! Workflow files that say, or don't say, that they use the vindex `hash`.

use crate::plans::workflows::{answers, number_of};
use std::alloc::{AllocError, Global};

/// A file of one stream, with these members, this vindex of its table and this filter.
fn file(alloc: Global, members: &str, vindex: &str, filter: &str) -> Result<String, AllocError> {
    format!(in alloc;
        "{{\"keyspace\":\"ks\",{members}\"tables\":[{{\"name\":\"t\",\"columns\":[[\"id\",\"INT64\"],[\"v\",\"VARCHAR\"]],\"key\":[\"id\"],\"vindex\":[{vindex}]}}],\"streams\":[{{\"shard\":\"-80\",\"filter\":{{\"rules\":[{{\"match\":\"t\",\"filter\":\"{filter}\"}}]}}}}]}}"
    )
}

const HASH: &str = "\"id\",\"hash\"";

const NUMERIC: &str = "\"id\",\"numeric\"";

const SAID: &str = "\"vindexes\":[\"hash\"],";

const BY_HASH: &str = "select * from t where in_keyrange(id, 'hash', '-80')";

/// Members, the table's vindex and the filter of a file, and the number of its refusal, or 0.
const NUMBERS: &[(&str, &str, &str, u8)] = &[
    // hash_in_a_table
    ("", HASH, "", 52),
    ("\"vindexes\":[],", HASH, "", 52),
    ("\"vindexes\":\"hash\",", HASH, "", 52),
    ("\"vindexes\":[[\"hash\"]],", HASH, "", 52),
    ("\"Vindexes\":[\"hash\"],", HASH, "", 52),
    (SAID, HASH, "", 0),
    (SAID, HASH, "-80", 0),
    (SAID, "\"id\",\"Hash\"", "", 52),
    (SAID, "\"id\",\"xxhash\"", "", 52),
    ("\"vindexes\":[\"hash\",\"hash\"],", HASH, "", 0),
    // of a member that stands twice the last counts
    ("\"vindexes\":[],\"vindexes\":[\"hash\"],", HASH, "", 0),
    ("\"vindexes\":[\"hash\"],\"vindexes\":[],", HASH, "", 52),
    // hash_in_a_filter
    ("", NUMERIC, BY_HASH, 55),
    ("\"vindexes\":[],", NUMERIC, BY_HASH, 55),
    (SAID, NUMERIC, BY_HASH, 0),
    (
        SAID,
        NUMERIC,
        "select * from t where in_keyrange(id, 'xxhash', '-80')",
        55,
    ),
    // hash_takes_whole_numbers
    (SAID, "\"v\",\"hash\"", "", 54),
    (
        SAID,
        NUMERIC,
        "select * from t where in_keyrange(v, 'hash', '-80')",
        54,
    ),
    // unknown_further_vindexes
    ("\"vindexes\":[],", NUMERIC, "", 0),
    ("\"vindexes\":[\"xxhash\"],", NUMERIC, "", 56),
    ("\"vindexes\":[\"numeric\"],", NUMERIC, "", 56),
    ("\"vindexes\":[\"hash\",\"Hash\"],", NUMERIC, "", 56),
    ("\"vindexes\":[\"hash\",1],", HASH, "", 56),
    ("\"vindexes\":\"hash\",", NUMERIC, "", 56),
    ("\"vindexes\":{},", NUMERIC, "", 56),
    ("\"vindexes\":null,", NUMERIC, "", 56),
    // the shape comes first, and the rules come behind
    ("\"vindexes\":[\"xxhash\"],", HASH, "", 52),
    ("\"vindexes\":[\"xxhash\"],", NUMERIC, BY_HASH, 56),
];

/// Whether each file is read, or refused by the number beside it.
fn have_numbers(alloc: Global, rows: &[(&str, &str, &str, u8)]) -> Result<bool, AllocError> {
    for (members, vindex, filter, number) in rows {
        let text = file(alloc, members, vindex, filter)?;
        if number_of(alloc, text.as_bytes()) != *number {
            return Ok(false);
        }
    }
    Ok(true)
}

#[test]
fn files_that_use_hash(rt: HostRuntime) {
    assert!(rt; matches!(have_numbers(rt.alloc(), NUMBERS), Ok(true)));
}

/// Rows, and what a rule on the column `id` answers of them: 1 for yes, 0 for no, or the refusal's number.
const ANSWERS: &[(&[u8], u8)] = &[
    (b"\x0a\x02\x02\x02\x12\x021a", 1),
    (b"\x0a\x02\x02\x02\x12\x024a", 0),
    (b"\x0a\x02\x04\x02\x12\x03-1a", 44),
    (b"\x0a\x02\x01\x02\x12\x01a", 43),
];

/// Whether a file's rule answers of each row what stands beside it.
fn are_answers(
    alloc: Global,
    vindex: &str,
    filter: &str,
    rows: &[(&[u8], u8)],
) -> Result<bool, AllocError> {
    let text = file(alloc, SAID, vindex, filter)?;
    for (row, wanted) in rows {
        if !answers(alloc, text.as_bytes(), row, *wanted) {
            return Ok(false);
        }
    }
    Ok(true)
}

#[test]
fn rows_in_a_range_of_hash(rt: HostRuntime) {
    assert!(rt; matches!(are_answers(rt.alloc(), HASH, "-80", ANSWERS), Ok(true)));
    assert!(rt; matches!(are_answers(rt.alloc(), NUMERIC, BY_HASH, ANSWERS), Ok(true)));
}
