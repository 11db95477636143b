//! The feed of a text.

ghost use Rattle.std.specs.Prelude.{◌≡◌, IfOk, OnOk};
ghost use Rattle.std.specs.Arc.{arc_value};
ghost use Rattle.feed_text.specs.Says.{Says, SaysUnder};

use crate::fault::{FeedTextError, LineError, TextCause};
use crate::lines::next_line;
use crate::saying::{Unlike, are_shown_as};
use crate::writer::{FeedWriter, TextSource};
use filter_rule::Plan;
use source_feed::{FEED_BYTES, Feed, FeedFault, read_groups};
use std::alloc::Global;
use std::sync::Arc;

/// The bytes of a feed that the lines of a text say. What they are as a whole is looked at behind it.
fn written_of(
    alloc: Global,
    source: TextSource<'_, '_, '_>,
    text: &[u8],
) -> Result<Vec<u8>, LineError> {
    let mut writer = FeedWriter::new(alloc, source);
    let mut rest = text;
    while let Some((line, behind)) = next_line(rest) {
        if let Err(error) = writer.take_line(alloc, line) {
            return Err(error.behind(text.len().saturating_sub(rest.len())));
        }
        rest = behind;
    }
    if !rest.is_empty() {
        return Err(LineError::At(text.len(), TextCause::NoEnd));
    }
    let feed = writer.finish(alloc)?;
    if feed.len() > FEED_BYTES {
        return Err(LineError::At(text.len(), TextCause::FeedTooLong));
    }
    Ok(feed)
}

/// That bytes are a feed of a shard whose groups are shown as a text.
fn says(
    alloc: Global,
    feed: &[u8],
    keyspace: &str,
    shard: &str,
    text: &[u8],
) -> Result<(), LineError>
    ensures { OnOk result (Says (record { keyspace = keyspace.now; shard = shard.now }) feed.now text.now) }
{
    let groups = match read_groups(alloc, feed, keyspace, shard) {
        Ok(groups) => groups,
        Err(FeedFault::Memory) => return Err(LineError::Memory),
        Err(_) => return Err(LineError::At(text.len(), TextCause::Unlike)),
    };
    match are_shown_as(alloc, &groups, text) {
        Ok(()) => Ok(()),
        Err(Unlike::Memory) => Err(LineError::Memory),
        Err(Unlike::Left(bytes)) => Err(LineError::At(
            text.len().saturating_sub(bytes),
            TextCause::Unlike,
        )),
    }
}

/// The same under a plan.
fn says_under(alloc: Global, feed: &[u8], plan: &Arc<Plan>, text: &[u8]) -> Result<(), LineError>
    ensures { OnOk result (SaysUnder (arc_value plan.now) feed.now text.now) }
{
    says(alloc, feed, plan.keyspace(), plan.shard(), text)?;
    match Feed::open(alloc, feed, plan) {
        Ok(_) => Ok(()),
        Err(FeedFault::Memory) => Err(LineError::Memory),
        Err(_) => Err(LineError::At(text.len(), TextCause::Unlike)),
    }
}

/// The feed of a shard of a keyspace (both may be empty) that a text says, as `show` prints it: a message for each group, a
/// FIELD before a table's first row and wherever the number of its columns changes. A column's name is its place, and its
/// type VARBINARY. Two lines `-` and `+` of one table, one behind the other, are an update, if they have as many cells.
///
/// Refused with the place of what isn't as `show` prints it. What was written is read again before it is given: an error
/// `Unlike` is at the first byte that `show` would print otherwise. Any other error is want of memory. Linear in the text.
pub fn feed_of_text(
    alloc: Global,
    text: &[u8],
    keyspace: &str,
    shard: &str,
) -> Result<Vec<u8>, FeedTextError>
    ensures { IfOk result (λ feed. Says (record { keyspace = keyspace.now; shard = shard.now }) feed.items text.now) }
{
    let source = TextSource {
        keyspace,
        shard,
        plan: None,
    };
    let feed = match written_of(alloc, source, text) {
        Ok(feed) => feed,
        Err(error) => return Err(error.in_text(text)),
    };
    match says(alloc, &feed, keyspace, shard, text) {
        Ok(()) => Ok(feed),
        Err(error) => Err(error.in_text(text)),
    }
}

/// The same of the stream of a plan: a table of the plan has its columns, and a row of another number of cells is refused.
pub fn feed_of_text_under(
    alloc: Global,
    text: &[u8],
    plan: &Arc<Plan>,
) -> Result<Vec<u8>, FeedTextError>
    ensures { IfOk result (λ feed. SaysUnder (arc_value plan.now) feed.items text.now) }
{
    let source = TextSource {
        keyspace: plan.keyspace(),
        shard: plan.shard(),
        plan: Some(plan),
    };
    let feed = match written_of(alloc, source, text) {
        Ok(feed) => feed,
        Err(error) => return Err(error.in_text(text)),
    };
    match says_under(alloc, &feed, plan, text) {
        Ok(()) => Ok(feed),
        Err(error) => Err(error.in_text(text)),
    }
}
