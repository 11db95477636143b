//! The limits of a workflow file: counts, and the lengths of names.

use crate::plans::workflows::{EVERY_ROW, number_of, workflow};
use std::alloc::{AllocError, Global};

/// Appends a numbered name between `open` and `close`, behind a comma if it isn't the first.
fn put_item(
    alloc: Global,
    text: &mut String,
    number: usize,
    open: &str,
    close: &str,
) -> Result<(), AllocError> {
    let comma = if number == 0 { "" } else { "," };
    let item = format!(in alloc; "{comma}{open}c{number}{close}")?;
    text.push_str(item.as_str())
}

/// Numbered names, each between `open` and `close`, parted by commas.
fn listed(alloc: Global, count: usize, open: &str, close: &str) -> Result<String, AllocError> {
    let mut text = String::new(alloc);
    for number in 0..count {
        put_item(alloc, &mut text, number, open, close)?;
    }
    Ok(text)
}

/// So many tables, each with so many columns and key columns.
fn listed_tables(
    alloc: Global,
    tables: usize,
    columns: usize,
    keys: usize,
) -> Result<String, AllocError> {
    let columns = listed(alloc, columns, "[\"", "\",265]")?;
    let keys = listed(alloc, keys, "\"", "\"")?;
    let close = format!(in alloc; "\",\"columns\":[{columns}],\"key\":[{keys}]}}")?;
    listed(alloc, tables, "{\"name\":\"", close.as_str())
}

/// So many streams, without rules.
fn listed_streams(alloc: Global, streams: usize) -> Result<String, AllocError> {
    listed(
        alloc,
        streams,
        "{\"shard\":\"",
        "\",\"filter\":{\"rules\":[]}}",
    )
}

/// The refusal's number of a file with so many streams, tables, columns and key columns.
fn number_of_counts(alloc: Global, counts: [usize; 4]) -> Result<u8, AllocError> {
    let [streams, tables, columns, keys] = counts;
    let tables = listed_tables(alloc, tables, columns, keys)?;
    let streams = listed_streams(alloc, streams)?;
    let text = format!(in alloc;
        "{{\"keyspace\":\"\",\"tables\":[{tables}],\"streams\":[{streams}]}}"
    )?;
    Ok(number_of(alloc, text.as_bytes()))
}

/// Counts of streams, tables, columns and key columns, and the refusal's number, or 0.
const COUNTS: &[([usize; 4], u8)] = &[
    // count_out_of_limits: each count above its limit, and none of them, whatever the others are
    ([64, 64, 8, 8], 0),
    ([65, 65, 1, 1], 56),
    ([0, 0, 0, 0], 56),
    ([65, 1, 1, 9], 56),
    // streams_limit
    ([1, 1, 1, 1], 0),
    ([64, 1, 1, 1], 0),
    ([0, 1, 1, 1], 56),
    ([65, 1, 1, 1], 56),
    // tables_limit
    ([1, 64, 1, 1], 0),
    ([1, 0, 1, 1], 56),
    ([1, 65, 1, 1], 56),
    // columns_limit
    ([1, 1, 256, 1], 0),
    ([1, 1, 0, 1], 56),
    ([1, 1, 257, 1], 56),
    // key_columns_limit
    ([1, 1, 9, 8], 0),
    ([1, 1, 9, 0], 56),
    ([1, 1, 9, 9], 56),
];

/// Whether a file of each of the counts is read, or refused by the number beside them.
fn are_counts(alloc: Global, rows: &[([usize; 4], u8)]) -> Result<bool, AllocError> {
    for (counts, number) in rows {
        if number_of_counts(alloc, *counts)? != *number {
            return Ok(false);
        }
    }
    Ok(true)
}

#[test]
fn count_out_of_limits(rt: HostRuntime) {
    assert!(rt; matches!(are_counts(rt.alloc(), COUNTS), Ok(true)));
}

/// The refusal's number of a file whose one column has this name.
fn number_of_name(alloc: Global, name: &str) -> Result<u8, AllocError> {
    let columns = format!(in alloc; "[[\"{name}\",265]]")?;
    let key = format!(in alloc; "[\"{name}\"]")?;
    let text = workflow(alloc, columns.as_str(), key.as_str(), "", EVERY_ROW)?;
    Ok(number_of(alloc, text.as_bytes()))
}

/// Whether a name of 256 letters is read, and one of a letter more isn't.
fn is_longest_name(alloc: Global) -> Result<bool, AllocError> {
    let mut name = String::new(alloc);
    for _ in 0..64 {
        name.push_str("name")?;
    }
    let longest = number_of_name(alloc, name.as_str())?;
    name.push_str("n")?;
    Ok(longest == 0 && number_of_name(alloc, name.as_str())? == 52)
}

#[test]
fn name_length_limit(rt: HostRuntime) {
    assert!(rt; matches!(is_longest_name(rt.alloc()), Ok(true)));
}
