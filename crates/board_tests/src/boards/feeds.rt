//! Feeds of short groups over the table `t`, with the columns `id` and `v`, each of a source with a uuid of its
//! own.

use std::alloc::{AllocError, Global};

/// A row: its number, below 100, or `NO_NUMBER`, and its value, a byte.
pub(crate) type Row = (u8, u8);

/// Stands for the text `x` in place of a row's number.
pub(crate) const NO_NUMBER: u8 = 100;

/// A change: the row before, and the row after.
pub(crate) type Change = (Option<Row>, Option<Row>);

/// A source: the digit that its uuid ends in, and the changes of each of its groups, at most nine.
pub(crate) type Source<'c> = (u8, &'c [&'c [Change]]);

/// A FIELD event: the column `id` is INT64 and `v` VARCHAR.
const FIELDS: [u8; 24] = [
    8, 13, 50, 20, 10, 1, 116, 18, 7, 10, 2, 105, 100, 16, 137, 2, 18, 6, 10, 1, 118, 16, 149, 48,
];

/// A message of one event of fewer than 120 bytes.
fn push_event(feed: &mut Vec<u8>, event: &[u8]) -> Result<(), AllocError> {
    let length = (event.len() % 120) as u8;
    feed.extend_from_slice(&[length + 2, 10, length])?;
    feed.extend_from_slice(event)
}

/// A row under a field number: its lengths, and then its values.
fn push_row(event: &mut Vec<u8>, tag: u8, row: Option<Row>) -> Result<(), AllocError> {
    let Some((number, value)) = row else {
        return Ok(());
    };
    if number < 10 {
        return event.extend_from_slice(&[tag, 8, 10, 2, 2, 2, 18, 2, b'0' + number, value]);
    }
    if number >= NO_NUMBER {
        return event.extend_from_slice(&[tag, 8, 10, 2, 2, 2, 18, 2, b'x', value]);
    }
    let (tens, ones) = (b'0' + number / 10, b'0' + number % 10);
    event.extend_from_slice(&[tag, 9, 10, 2, 4, 2, 18, 3, tens, ones, value])
}

/// The number of bytes that a row takes with its tag.
fn length_of(row: Option<Row>) -> u8 {
    match row {
        None => 0,
        Some((number, _)) if (10..NO_NUMBER).contains(&number) => 11,
        Some(_) => 10,
    }
}

/// A ROW event of one change.
fn push_change(alloc: Global, feed: &mut Vec<u8>, change: Change) -> Result<(), AllocError> {
    let length = length_of(change.0) % 20 + length_of(change.1) % 20;
    let mut event = Vec::new(alloc);
    event.extend_from_slice(&[8, 12, 42, length + 5, 10, 1, 116, 18, length])?;
    push_row(&mut event, 10, change.0)?;
    push_row(&mut event, 18, change.1)?;
    push_event(feed, &event)
}

/// A GTID event whose set is the numbers from 1 to a digit, under the uuid that ends in a digit.
fn push_position(alloc: Global, feed: &mut Vec<u8>, uuid: u8, digit: u8) -> Result<(), AllocError> {
    let mut event = Vec::new(alloc);
    event.extend_from_slice(&[8, 1, 26, 40])?;
    event.extend_from_slice(b"3e11fa47-71ca-11e1-9e33-c80aa942956")?;
    event.extend_from_slice(&[uuid, b':', b'1', b'-', digit])?;
    push_event(feed, &event)
}

/// A group: BEGIN, the columns, its changes, its position and COMMIT.
pub(crate) fn push_group(
    alloc: Global,
    feed: &mut Vec<u8>,
    uuid: u8,
    digit: u8,
    changes: &[Change],
) -> Result<(), AllocError> {
    push_event(feed, &[8, 2])?;
    push_event(feed, &FIELDS)?;
    for change in changes {
        push_change(alloc, feed, *change)?;
    }
    push_position(alloc, feed, uuid, digit)?;
    push_event(feed, &[8, 3])
}

/// The bytes of a source's feed.
fn feed_of(alloc: Global, source: Source<'_>) -> Result<Vec<u8>, AllocError> {
    let mut feed = Vec::new(alloc);
    let mut digit = b'1';
    for changes in source.1 {
        push_group(alloc, &mut feed, source.0, digit, changes)?;
        digit = digit.wrapping_add(1);
    }
    Ok(feed)
}

/// The bytes of each source's feed.
pub(crate) fn bytes_of(alloc: Global, sources: &[Source<'_>]) -> Result<Vec<Vec<u8>>, AllocError> {
    let mut all = Vec::new(alloc);
    for source in sources {
        all.push(feed_of(alloc, *source)?)?;
    }
    Ok(all)
}
