//! Where a feed that grows ends so far.

ghost use Rattle.std.specs.Prelude.{◌≡◌, [], IfOk, IfErr};
ghost use Rattle.std.specs.Arc.{arc_value};

use crate::fault::FeedFault;
use crate::feed::Feed;
use crate::feed_tables::FeedTables;
use filter_rule::Plan;
use std::alloc::Global;
use std::sync::Arc;

/// What a feed's bytes so far say to what follows: the tables with the columns that are in force, and how many
/// bytes there are. A feed that may grow has one.
#[derive(Drop)]
pub struct FeedEnd<'h> {
    pub(crate) tables: FeedTables<'h>,
    pub(crate) length: usize,
}

impl<'h> FeedEnd<'h> {
    ghost use Rattle.source_feed.specs.Growing.{IsEndOf};

    /// A feed of no bytes under a plan, with its end. Any error is want of memory.
    pub fn begin(alloc: Global, plan: &Arc<Plan>) -> Result<(Feed<'h>, FeedEnd<'h>), FeedFault>
        ensures groups { IfOk result (λ begun. IsEndOf [] begun.0 begun.1) }
        ensures plan { IfOk result (λ begun. begun.0.plan ≡ arc_value plan.now) }
        ensures err { IfErr result (λ fault. fault ≡ FeedFault.Memory) }
    {
        let feed = Feed::of_nothing(alloc, plan)?;
        let end = FeedEnd {
            tables: FeedTables::new(alloc),
            length: 0,
        };
        Ok((feed, end))
    }
}
