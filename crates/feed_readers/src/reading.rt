//! The thread that prepares a feed's groups.

ghost use Rattle.std.specs.Prelude.{◌≡◌};
ghost use Rattle.crossbeam_channel.specs.Claims.{view};
ghost use Rattle.feed_readers.specs.ReaderRule.{last_sent};
ghost use Rattle.feed_readers.specs.Stops.{IsStop};

use crate::channel::OfFeed;
use crate::ends::ReaderEnd;
use source_feed::{Feed, FeedFault};
use std::alloc::Global;
use std::marker::PhantomData;
use std::sync::Wait;

/// A feed, of which it is known in proofs that it is the one of `F`.
#[derive(Drop)]
pub struct Named<'a, 'h, F: OfFeed> {
    feed: &'a Feed<'h>,
    name: PhantomData<F>,
    pub ghost is: { feed.now ≡ F.feed },
}

impl<'a, 'h, F: OfFeed> Named<'a, 'h, F> {
    /// The feed under this name.
    fn new(feed: &'a Feed<'h>) -> Named<'a, 'h, F>
        requires { feed.now ≡ F.feed }
    {
        Named {
            feed,
            name: PhantomData,
        }
    }

    /// The feed under this name, for the thread that prepares its groups and for the one that needs them.
    pub fn for_both(feed: &'a Feed<'h>) -> (Named<'a, 'h, F>, Named<'a, 'h, F>)
        requires { feed.now ≡ F.feed }
    {
        (Named::new(feed), Named::new(feed))
    }

    /// The feed.
    pub fn feed(&self) -> &'a Feed<'h>
        ensures { result.now ≡ F.feed }
    {
        self.feed
    }
}

/// What the thread works with that prepares a feed's groups.
#[derive(Drop)]
pub struct Reading<'a, 'h, F: OfFeed, R> {
    /// what lets it wait
    pub rt: &'a R,
    /// where its groups lie
    pub alloc: Global,
    /// the feed
    pub feed: Named<'a, 'h, F>,
    /// how many groups are read before it begins
    pub read: u32,
    /// where its groups go, the first behind those
    pub end: ReaderEnd<'h, F>,
    pub ghost before: { last_sent (view end.pass) ≡ read },
}

/// Where a reader stops.
#[derive(Debug, Drop)]
pub enum Stop {
    /// At the feed's end.
    AtEnd,
    /// Before a group that can't be prepared, for this fault.
    Unprepared(FeedFault),
    /// Before a group that nobody is there to receive.
    Nobody,
}

/// Prepares the feed's groups in order, behind those that are read, and sends each, up to the feed's end, the first
/// group that can't be prepared, or the first that nobody is there to receive. What can't be prepared isn't told:
/// whoever needs that group meets the same refusal. The answer is where it stopped, and its end of the channel, which
/// knows the last group that was sent.
pub fn read_to<'a, 'h, F: OfFeed + 'h, R: Wait>(
    reading: Reading<'a, 'h, F, R>,
) -> (Stop, ReaderEnd<'h, F>)
    ensures { IsStop F.feed (last_sent (view result.1.pass)) result.0 }
{
    let Reading {
        rt,
        alloc,
        feed,
        read,
        mut end,
    } = reading;
    let feed = feed.feed();
    let _plan = feed.plan();
    let groups = feed.len() as u32;
    let mut sent = read;
    while sent < groups {
        match feed.prepare(alloc, sent + 1) {
            Ok(group) => {
                if !end.send(rt, group) {
                    return (Stop::Nobody, end);
                }
            }
            Err(fault) => return (Stop::Unprepared(fault), end),
        }
        sent += 1;
    }
    (Stop::AtEnd, end)
}

/// The same, and then its end of the channel is given up: whoever receives from the other one meets the end there.
pub fn read_ahead<'a, 'h, F: OfFeed + 'h, R: Wait>(reading: Reading<'a, 'h, F, R>) {
    let (_, end) = read_to(reading);
    drop(end);
}
