//! The rule of the channel in which groups go from the thread that prepares them to the one that needs them.

use crossbeam_channel::protocol::{Lesson, Outcome, Protocol, Split};
use source_feed::Prepared;
use std::marker::{Brand, Model, PhantomData};
use std::sync::Arc;

/// A feed that is known in proofs alone: the one whose groups are sent; and how many of them are read before.
pub trait OfFeed {
    ghost use Rattle.std.specs.Prelude.{ℕ};
    ghost use Rattle.source_feed.specs.Planned.{FeedValue};

    ghost feed: { FeedValue };

    ghost read: { ℕ };
}

impl OfFeed for Brand {
    ghost use Rattle.std.specs.Prelude.{[]};

    ghost feed = { record { plan = record { keyspace = []; shard = []; tables = []; decisions = [] }; groups = [] } };

    ghost read = { 0 };
}

/// What a pass of the channel is for, and what was sent by it last. It exists in proofs alone: no value of it is made.
#[derive(Drop)]
pub struct Side {
    nothing: (),
}

impl Model for Side {
    ghost use Rattle.feed_readers.specs.ReaderRule.{SideOf, Reads};

    ghost Value = { SideOf };

    ghost view = { λ s. Reads 0 };
}

/// The rule: each message is the prepared group, of the number that it names, of this feed under its plan. Two kinds
/// of step keep it: the reader sends at the back, each group behind the one that it sent last, the first behind those
/// that are read before, and the worker receives at the front.
pub struct ReaderRule<F: OfFeed> {
    feed: PhantomData<F>,
}

impl<'h, F: OfFeed> Protocol<Arc<Prepared<'h>>, Side> for ReaderRule<F> {
    ghost use Rattle.std.specs.Prelude.{map};
    ghost use Rattle.std.specs.Arc.{arc_value};
    ghost use Rattle.feed_readers.specs.ReaderRule.{AreGroupsOf, Reads};

    ghost holds = { λ items views. AreGroupsOf F.feed (map arc_value items) };

    ghost first = { Reads F.read };
}

/// A group is sent by the reader, the one behind the last.
pub struct Sent<F: OfFeed> {
    feed: PhantomData<F>,
}

impl<'h, F: OfFeed> Outcome<Arc<Prepared<'h>>, Side> for Sent<F> {
    ghost use Rattle.std.specs.Arc.{arc_value};
    ghost use Rattle.feed_readers.specs.ReaderRule.{IsSent};

    ghost then = { λ v x w. IsSent F.feed v (arc_value x) w };
}

impl<'h, F: OfFeed> Lesson<Arc<Prepared<'h>>, Side> for Sent<F> {
    ghost use Rattle.std.specs.Prelude.{⊤};

    ghost fact = { λ v items. ⊤ };
}

/// A group is received by the worker.
pub struct Received<F: OfFeed> {
    feed: PhantomData<F>,
}

impl<'h, F: OfFeed> Outcome<Arc<Prepared<'h>>, Side> for Received<F> {
    ghost use Rattle.std.specs.Arc.{arc_value};
    ghost use Rattle.feed_readers.specs.ReaderRule.{IsReceived};

    ghost then = { λ v x w. IsReceived F.feed v (arc_value x) w };
}

impl<'h, F: OfFeed> Lesson<Arc<Prepared<'h>>, Side> for Received<F> {
    ghost use Rattle.std.specs.Prelude.{⊤};

    ghost fact = { λ v items. ⊤ };
}

/// The worker's pass is made of the reader's.
pub struct Sides;

impl Split<Side> for Sides {
    ghost use Rattle.feed_readers.specs.ReaderRule.{Works};

    ghost left = { λ v. v };

    ghost right = { λ v. Works };
}
