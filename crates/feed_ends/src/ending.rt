//! Feeds up to positions.

ghost use Rattle.std.specs.Prelude.{◌≡◌, OnOk, map};
ghost use Rattle.list_laws.specs.Outcome.{GivesUnless};
ghost use Rattle.vrepl_choices.specs.UntilValue.{until_value};
ghost use Rattle.feed_ends.specs.EndedFeeds.{AreEnded, ended_feed, ended_feeds, ended_from};
ghost use Rattle.feed_ends.specs.Faults.{meant_of};
ghost use Rattle.feed_ends.specs.Positions.{position_for};

use crate::at_position::end_at_position;
use crate::end::{End, name_some_of, position_for, read_ends};
use crate::fault::EndFault;
use source_feed::Feed;
use std::alloc::Global;
use vrepl_choices::Until;

/// Takes from each feed the groups behind the position that is given for its stream, the last one for it or for each; a feed
/// for which none is given stays whole. The feeds stand in the order of the streams, from 0.
///
/// The faults are found in this order: `NoStream` where a stream is named that has no feed, `BadPosition` by the first text
/// that is none of a position, `NotReached` by the first feed that doesn't reach its position. Any other error is want of
/// memory.
pub fn end_feeds(
    alloc: Global,
    feeds: &mut [Feed<'_>],
    untils: &[Until<'_>],
) -> Result<(), EndFault>
    ensures exact { GivesUnless meant_of (λ _. feeds.new) result (ended_feeds (map until_value untils.now) feeds.old) }
    ensures ended { OnOk result (AreEnded (map until_value untils.now) feeds.old feeds.new) }
{
    if !name_some_of(untils, feeds.len()) {
        return Err(EndFault::NoStream);
    }
    let ends = read_ends(alloc, untils)?;
    end_each(feeds, &ends)
}

/// The same by the positions.
fn end_each(feeds: &mut [Feed<'_>], ends: &[End]) -> Result<(), EndFault>
    ensures { GivesUnless meant_of (λ _. feeds.new) result (ended_from 0 ends.now feeds.old) }
{
    let mut s = 0;
    while s < feeds.len() {
        end_one(&mut feeds[s], ends, s)?;
        s += 1;
    }
    Ok(())
}

/// The feed of a stream, up to the position for it.
fn end_one(feed: &mut Feed<'_>, ends: &[End], s: usize) -> Result<(), EndFault>
    ensures { GivesUnless meant_of (λ _. feed.new) result (ended_feed s (position_for s ends.now) feed.old) }
{
    match position_for(ends, s) {
        None => Ok(()),
        Some(position) => {
            if end_at_position(feed, position) {
                Ok(())
            } else {
                Err(EndFault::NotReached { stream: s })
            }
        }
    }
}
