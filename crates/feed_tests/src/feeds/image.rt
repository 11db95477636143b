//! The rows of a source that pass its filter, group by group.

use crate::feeds::feeds::{Step, push_group};
use crate::feeds::opening::opened;
use crate::feeds::prepared::{THREE_GROUPS, VALUES_OF_ONE_KEY};
use pk_copy::{KeyPart, LentKey};
use row_view::RowBytes;
use source_feed::{Feed, FeedFault, Image};
use std::alloc::{AllocError, Global};
use std::test::Fail;

/// The tables `s` and `t` with the key `id`, all of whose rows pass.
const TWO_TABLES: &[u8] =
    br#"{"keyspace":"ks","tables":[{"name":"s","columns":[["id","INT64"],["v","VARCHAR"]],"key":["id"]},{"name":"t","columns":[["id","INT64"],["v","VARCHAR"]],"key":["id"]}],"streams":[{"shard":"-80","filter":{"rules":[{"match":"/.*","filter":""}]}}]}"#;

/// The same, of which a row of `t` passes by the MD5 of `v`: the values `a` and `c` do, `b` and `d` don't.
pub(crate) const BY_VALUE: &[u8] =
    br#"{"keyspace":"ks","tables":[{"name":"s","columns":[["id","INT64"],["v","VARCHAR"]],"key":["id"]},{"name":"t","columns":[["id","INT64"],["v","VARCHAR"]],"key":["id"]}],"streams":[{"shard":"-80","filter":{"rules":[{"match":"t","filter":"select * from t where in_keyrange(v, 'binary_md5', '-80')"}]}}]}"#;

/// A table's rows after so many groups: how many the image has, and the numbers of the table's keys, chunk after chunk
/// of at most so many.
struct Rows {
    groups: u32,
    len: usize,
    table: u8,
    most: usize,
    chunks: &'static [&'static [i128]],
}

/// The number that a key of one part is; 0 for any other key.
pub(crate) fn number_of(key: &LentKey<'_>) -> i128 {
    match key.view().parts() {
        [KeyPart::Number(number)] => *number,
        _ => 0,
    }
}

/// The image goes on by a group of the feed.
fn go_on<'h>(
    alloc: Global,
    feed: &Feed<'h>,
    number: u32,
    image: &mut Image<'h>,
) -> Result<(), FeedFault> {
    let group = feed.prepare(alloc, number)?;
    image.advance(alloc, &group)?;
    Ok(())
}

/// The image after so many groups.
fn image_at<'h>(alloc: Global, feed: &Feed<'h>, groups: u32) -> Result<Image<'h>, FeedFault> {
    let mut image = Image::new(alloc);
    for number in 1..=groups {
        go_on(alloc, feed, number, &mut image)?;
    }
    Ok(image)
}

/// These are the numbers of the keys of a chunk.
fn are_numbers(chunk: &[(&LentKey<'_>, &RowBytes<'_>)], numbers: &[i128]) -> bool {
    let mut left = numbers.iter();
    for (key, _) in chunk {
        match left.next() {
            Some(number) if *number == number_of(key) => {}
            _ => return false,
        }
    }
    left.next().is_none()
}

/// The chunk past a key, or the table's first.
fn chunk_past<'i, 'h>(
    alloc: Global,
    image: &'i Image<'h>,
    rows: &Rows,
    past: Option<&LentKey<'h>>,
) -> Result<Vec<(&'i LentKey<'h>, &'i RowBytes<'h>)>, AllocError> {
    match past {
        None => image.chunk(alloc, rows.table, None, rows.most),
        Some(key) => image.chunk(alloc, rows.table, Some(&key.view()), rows.most),
    }
}

/// The last key of the chunk past a key, if the chunk has these numbers.
fn last_key<'i, 'h>(
    alloc: Global,
    image: &'i Image<'h>,
    rows: &Rows,
    past: Option<&LentKey<'h>>,
    numbers: &[i128],
) -> Result<Option<&'i LentKey<'h>>, AllocError> {
    let chunk = chunk_past(alloc, image, rows, past)?;
    match chunk.last() {
        Some((key, _)) if are_numbers(&chunk, numbers) => Ok(Some(*key)),
        _ => Ok(None),
    }
}

/// The table's rows come chunk after chunk, and then there is none.
fn are_chunks(alloc: Global, image: &Image<'_>, rows: &Rows) -> Result<bool, AllocError> {
    let mut past = None;
    for numbers in rows.chunks {
        past = last_key(alloc, image, rows, past, numbers)?;
        if past.is_none() {
            return Ok(false);
        }
    }
    Ok(chunk_past(alloc, image, rows, past)?.is_empty())
}

/// These are rows of the feed's image, which has none once it is cleared.
fn are_rows(alloc: Global, feed: &Feed<'_>, rows: &Rows) -> Result<bool, FeedFault> {
    let mut image = image_at(alloc, feed, rows.groups)?;
    let same = image.len() == rows.len && are_chunks(alloc, &image, rows)?;
    image.clear();
    Ok(same && image.len() == 0)
}

/// All these are rows of the image of a feed under a workflow's plan.
fn are_images(
    alloc: Global,
    workflow: &[u8],
    bytes: &[u8],
    images: &[Rows],
) -> Result<bool, FeedFault> {
    let feed = opened(alloc, workflow, bytes)?;
    for rows in images {
        if !are_rows(alloc, &feed, rows)? {
            return Ok(false);
        }
    }
    Ok(true)
}

/// Rows 3, 5 and 7 are put in; 7 becomes 4; 3 becomes 8.
const OF_THREE_GROUPS: &[Rows] = &[
    Rows {
        groups: 0,
        len: 0,
        table: 1,
        most: 2,
        chunks: &[],
    },
    Rows {
        groups: 1,
        len: 3,
        table: 1,
        most: 2,
        chunks: &[&[3, 5], &[7]],
    },
    Rows {
        groups: 2,
        len: 3,
        table: 1,
        most: 9,
        chunks: &[&[3, 4, 5]],
    },
    Rows {
        groups: 3,
        len: 3,
        table: 1,
        most: 1,
        chunks: &[&[4], &[5], &[8]],
    },
];

#[test]
fn image_at_each_group(rt: HostRuntime) -> Result<(), Fail> {
    assert!(rt; are_images(rt.alloc(), TWO_TABLES, THREE_GROUPS, OF_THREE_GROUPS)?);
    Ok(())
}

/// A group that puts two rows into each table.
fn rows_of_two_tables(alloc: Global) -> Result<Vec<u8>, AllocError> {
    let mut feed = Vec::new(alloc);
    push_group(&mut feed, b'1', TWO_ROWS_EACH)?;
    Ok(feed)
}

const TWO_ROWS_EACH: &[Step] = &[
    Step {
        table: b't',
        before: None,
        after: Some((b'2', b'a')),
    },
    Step {
        table: b's',
        before: None,
        after: Some((b'9', b'a')),
    },
    Step {
        table: b't',
        before: None,
        after: Some((b'1', b'a')),
    },
    Step {
        table: b's',
        before: None,
        after: Some((b'3', b'a')),
    },
];

/// Row by row, the first table has 3 and 9 and the second 1 and 2.
const OF_TWO_TABLES: &[Rows] = &[
    Rows {
        groups: 1,
        len: 4,
        table: 0,
        most: 1,
        chunks: &[&[3], &[9]],
    },
    Rows {
        groups: 1,
        len: 4,
        table: 1,
        most: 1,
        chunks: &[&[1], &[2]],
    },
];

/// A chunk is of one table: what stands before and behind it in the image isn't given.
#[test]
fn chunks_of_two_tables(rt: HostRuntime) -> Result<(), Fail> {
    let bytes = rows_of_two_tables(rt.alloc())?;
    assert!(rt; are_images(rt.alloc(), TWO_TABLES, &bytes, OF_TWO_TABLES)?);
    Ok(())
}

/// The value is at first `a`, then `abc`, which doesn't pass, then `a`.
const OF_ONE_KEY: &[Rows] = &[
    Rows {
        groups: 1,
        len: 1,
        table: 1,
        most: 9,
        chunks: &[&[1]],
    },
    Rows {
        groups: 2,
        len: 0,
        table: 1,
        most: 9,
        chunks: &[],
    },
    Rows {
        groups: 3,
        len: 1,
        table: 1,
        most: 9,
        chunks: &[&[1]],
    },
];

/// A row whose new value doesn't pass leaves the image, and returns with one that does.
#[test]
fn row_leaves_and_returns(rt: HostRuntime) -> Result<(), Fail> {
    assert!(rt; are_images(rt.alloc(), BY_VALUE, VALUES_OF_ONE_KEY, OF_ONE_KEY)?);
    Ok(())
}

/// Three rows, until they are cleared.
const OF_THE_FIRST_GROUP: &[Rows] = &[Rows {
    groups: 1,
    len: 3,
    table: 1,
    most: 3,
    chunks: &[&[3, 5, 7]],
}];

#[test]
fn cleared_image_is_empty(rt: HostRuntime) -> Result<(), Fail> {
    assert!(rt; are_images(rt.alloc(), TWO_TABLES, THREE_GROUPS, OF_THE_FIRST_GROUP)?);
    Ok(())
}

/// A row of an image: its key, its stream's number and its bytes.
#[test]
fn image_rows_are_small(rt: HostRuntime) {
    assert!(rt; size_of::<(LentKey<'static>, (u8, RowBytes<'static>))>() <= 64);
}
