//! A feed up to a position.

ghost use Rattle.std.specs.Prelude.{◌≡◌, ◌↔◌, ◌+◌, IsTrue, true, false};
ghost use Rattle.std.specs.Bool.{MatchBool};
ghost use Rattle.feed_ends.specs.AtPosition.{IsLastWithin, feed_until, number_within, reaches};
ghost use Rattle.feed_ends.specs.Private.Within.{HasGroupWithin};

use gtid_set::{GtidSet, within_is_subset};
use source_feed::Feed;

/// Whether the group of a number lies within a position.
fn is_within(feed: &Feed<'_>, number: u32, position: &GtidSet) -> bool
    ensures { IsTrue result ↔ HasGroupWithin feed.now position.now number }
{
    match feed.position(number) {
        None => false,
        Some(found) => found.is_within(position),
    }
}

/// The number of the last group of a feed that lies within a position; 0 where none does. Looks at the groups'
/// positions in order, up to the first that doesn't, and takes no memory.
pub fn last_within(feed: &Feed<'_>, position: &GtidSet) -> u32
    ensures last { IsLastWithin position.now feed.now result }
    ensures number { result ≡ number_within position.now feed.now }
{
    within_is_subset();
    feed.plan();
    position.intervals();
    for i in 0..feed.len() {
        let number = i as u32 + 1;
        if !is_within(feed, number, position) {
            return i as u32;
        }
    }
    feed.len() as u32
}

/// Whether a feed reaches a position. Takes no memory.
fn reaches(feed: &Feed<'_>, position: &GtidSet) -> bool
    ensures { result ≡ reaches position.now feed.now }
{
    feed.plan();
    match feed.position(feed.len() as u32) {
        None => position.is_empty(),
        Some(end) => position.is_within(end),
    }
}

/// Takes the groups behind a position away from a feed that reaches it, so that the last one which lies within it is the
/// feed's last. Answers whether the feed reaches it; where it doesn't it stays whole. Takes no memory.
pub fn end_at_position(feed: &mut Feed<'_>, position: &GtidSet) -> bool
    ensures reached { result ≡ reaches position.now feed.old }
    ensures feed { MatchBool result (feed.new ≡ feed_until position.now feed.old) (feed.new ≡ feed.old) }
{
    if reaches(feed, position) {
        let number = last_within(feed, position);
        feed.end_at(number);
        true
    } else {
        false
    }
}
