//! Feeds of short groups over the tables `s` and `t`, each with the columns `id` and `v` of one byte.

use std::alloc::AllocError;

/// A row: its number and its value, a byte each.
pub(crate) type Cells = (u8, u8);

/// A change of one row of a table.
#[derive(Clone, Copy)]
pub(crate) struct Step {
    pub(crate) table: u8,
    pub(crate) before: Option<Cells>,
    pub(crate) after: Option<Cells>,
}

/// BEGIN and the FIELD events of both tables: the column `id` is INT64 and `v` VARCHAR.
const BEGIN: &[u8] =
    b"\x04\x0a\x02\x08\x02\x1a\x0a\x18\x08\x0d\x32\x14\x0a\x01s\x12\x07\x0a\x02id\x10\x89\x02\x12\x06\x0a\x01v\x10\x95\x30\x1a\x0a\x18\x08\x0d\x32\x14\x0a\x01t\x12\x07\x0a\x02id\x10\x89\x02\x12\x06\x0a\x01v\x10\x95\x30";

/// A GTID event whose set ends in a digit that is still to come.
const POSITION: &[u8] = b"\x2e\x0a\x2c\x08\x01\x1a\x283e11fa47-71ca-11e1-9e33-c80aa9429562:1-";

/// A row under a field number: its lengths, and then its values.
fn push_row(feed: &mut Vec<u8>, tag: u8, row: Option<Cells>) -> Result<(), AllocError> {
    match row {
        None => Ok(()),
        Some((number, value)) => {
            feed.extend_from_slice(&[tag, 8, 10, 2, 2, 2, 18, 2, number, value])
        }
    }
}

/// The number of bytes that a row takes with its tag.
fn length_of(row: Option<Cells>) -> u8 {
    if row.is_some() { 10 } else { 0 }
}

/// A message of one ROW event of one change.
fn push_step(feed: &mut Vec<u8>, step: Step) -> Result<(), AllocError> {
    let rows = length_of(step.before) % 20 + length_of(step.after) % 20;
    let event = [8, 12, 42, rows + 5, 10, 1, step.table, 18, rows];
    feed.extend_from_slice(&[rows + 11, 10, rows + 9])?;
    feed.extend_from_slice(&event)?;
    push_row(feed, 10, step.before)?;
    push_row(feed, 18, step.after)
}

/// A group: BEGIN, the columns of both tables, its changes, a position of the numbers from 1 to a digit, and COMMIT.
pub(crate) fn push_group(feed: &mut Vec<u8>, digit: u8, steps: &[Step]) -> Result<(), AllocError> {
    feed.extend_from_slice(BEGIN)?;
    for step in steps {
        push_step(feed, *step)?;
    }
    feed.extend_from_slice(POSITION)?;
    feed.extend_from_slice(&[digit, 4, 10, 2, 8, 3])
}
