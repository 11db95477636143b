//! Feeds as far as they have come.

ghost use Rattle.std.specs.Prelude.{◌≡◌, ◌≤◌, Some, IfOk, IfErr, length, map, slice_get};
ghost use Rattle.std.specs.Arc.{arc_value};
ghost use Rattle.live_core.specs.Live.{AreOfSources};
ghost use Rattle.live_core.specs.Source.{bytes_of};
ghost use Rattle.live_opening.specs.Opened.{AreBegun, IsUnbegun};

use filter_rule::Plan;
use live_core::Source;
use source_feed::{Feed, FeedFault};
use std::alloc::Global;
use std::sync::Arc;

/// Feeds of what has come, with the sources of which they are.
#[derive(Drop)]
pub(crate) struct Begun<'h> {
    /// The plan of the first, which has the tables of all.
    pub(crate) first: Arc<Plan>,
    pub(crate) feeds: Vec<Feed<'h>>,
    pub(crate) sources: Vec<Source<'h>>,
}

/// Each feed under its plan, of the bytes that have come, up to the first fault.
pub(crate) fn begin_all<'h>(
    alloc: Global,
    plans: &[Arc<Plan>],
    come: &'h [Vec<u8>],
) -> Result<Begun<'h>, FeedFault>
    requires some { 1 ≤ length plans.now }
    requires count { length plans.now ≡ length come.now }
    ensures begun { IfOk result (λ begun. AreBegun (map arc_value plans.now) (map (λ bytes. bytes.items) come.entry.now) begun.feeds.items (map bytes_of begun.sources.items)) }
    ensures first { IfOk result (λ begun. slice_get (map arc_value plans.now) 0 ≡ Some (arc_value begun.first)) }
    ensures sources { IfOk result (λ begun. AreOfSources begun.feeds.items begun.sources.items) }
    ensures refused { IfErr result (IsUnbegun (map arc_value plans.now) (map (λ bytes. bytes.items) come.entry.now)) }
{
    let first = Arc::clone(&plans[0])?;
    let mut feeds = Vec::new(alloc);
    let mut sources = Vec::new(alloc);
    for s in 0..plans.len() {
        let (feed, source) = Source::begin(alloc, &come[s], &plans[s])?;
        feeds.push(feed)?;
        sources.push(source)?;
    }
    Ok(Begun {
        first,
        feeds,
        sources,
    })
}
