//! Groups that stand ready before they are asked for.

ghost use Rattle.std.specs.Prelude.{◌≡◌, List, Err, IfOk, IsOk};
ghost use Rattle.std.specs.Arc.{arc_value};
ghost use Rattle.list_laws.specs.Outcome.{GivesUnless};
ghost use Rattle.source_feed.specs.FaultNumber.{meant_of};
ghost use Rattle.source_feed.specs.Touches.{PreparedValue, prepared_at};
ghost use Rattle.feed_readers.specs.Ahead.{StandsReady};

use source_feed::{Feed, FeedFault, Prepared};
use std::alloc::Global;
use std::sync::{Arc, Wait};

/// Where prepared groups of one feed come from, one after another.
pub trait Ahead<'h> {
    ghost use Rattle.std.specs.Prelude.{◌≡◌, List, IfSome};
    ghost use Rattle.std.specs.Arc.{arc_value};
    ghost use Rattle.std.specs.Option.{option_map};
    ghost use Rattle.source_feed.specs.Planned.{FeedValue};
    ghost use Rattle.source_feed.specs.Touches.{PreparedValue};
    ghost use Rattle.feed_readers.specs.Ahead.{IsGroupOf, IsFirst};

    ghost feed: { Self → FeedValue };

    /// those that are known to stand ready, in order: none where they come by a channel
    ghost ready: { Self → List PreparedValue };

    /// The next group that stands ready, or `None` where none comes any more. It is the feed's group of the number
    /// that it names; the numbers may come in any order.
    fn next<R: Wait>(&mut self, rt: &R) -> Option<Arc<Prepared<'h>>>
        ensures same { feed self.new ≡ feed self.old }
        ensures item { IfSome result (λ group. IsGroupOf (feed self.old) (arc_value group)) }
        ensures first { IsFirst (ready self.old) (option_map arc_value result) (ready self.new) };
}

/// Nothing that stands ready, of a feed: each group is prepared where it is needed.
#[derive(Drop)]
pub struct NothingReady<'a, 'h> {
    feed: &'a Feed<'h>,
}

impl<'a, 'h> NothingReady<'a, 'h> {
    /// Nothing of this feed. Takes no memory.
    pub fn of(feed: &'a Feed<'h>) -> NothingReady<'a, 'h>
        ensures { result.feed.now ≡ feed.now }
    {
        NothingReady { feed }
    }
}

impl<'a, 'h> Ahead<'h> for NothingReady<'a, 'h> {
    ghost use Rattle.std.specs.Prelude.{[]};

    ghost feed = { λ nothing. nothing.feed.now };

    ghost ready = { λ _. [] };

    fn next<R: Wait>(&mut self, _rt: &R) -> Option<Arc<Prepared<'h>>> {
        None
    }
}

/// Group `number` of the feed. It is the first that stands ready and is that one; lower numbers are passed over. Where a
/// higher number comes, or nothing any more, the group is prepared here. No plans are compared: what stands ready is of
/// this feed.
///
/// Refused as `Feed::prepare`; an error may also be want of memory.
pub fn group_of<'h, R: Wait, A: Ahead<'h>>(
    rt: &R,
    alloc: Global,
    feed: &Feed<'h>,
    number: u32,
    ahead: &mut A,
) -> Result<Arc<Prepared<'h>>, FeedFault>
    requires { A.feed ahead.old ≡ feed.now }
    ensures same { A.feed ahead.new ≡ feed.now }
    ensures exact { GivesUnless meant_of (λ prepared. arc_value prepared) result (prepared_at feed.now number) }
    ensures number { IfOk result (λ prepared. (arc_value prepared).number ≡ number) }
    // Memory is wanted for a sound group alone.
    ensures memory { result ≡ Err FeedFault.Memory → IsOk (prepared_at feed.now number) }
    // Where it is known to stand ready behind lower numbers alone, it is taken, and nothing behind it.
    ensures taken { (behind : List PreparedValue) → StandsReady number (A.ready ahead.old) behind → IsOk result × (A.ready ahead.new ≡ behind) }
{
    for _ in rt.forever() {
        match ahead.next(rt) {
            Some(group) => {
                if group.number() == number {
                    return Ok(group);
                }
                if group.number() > number {
                    break;
                }
            }
            None => break,
        }
    }
    feed.prepare(alloc, number)
}
