//! A workflow with its feeds.

ghost use Rattle.std.specs.Prelude.{◌≡◌, IfOk, length, map};
ghost use Rattle.std.specs.Arc.{arc_value};
ghost use Rattle.filter_rule.specs.WellFormed.{ArePlans};
ghost use Rattle.vrepl_main.specs.Given.{given_value};
ghost use Rattle.vrepl_main.specs.Opening.{opened_bytes, opened_feed, opened_feeds};
ghost use Rattle.vrepl_main.specs.OpenedFeeds.{opened_value};
ghost use Rattle.vrepl_main.specs.Reasons.{GivesOfInputs};

use crate::given::GivenFeed;
use crate::refusal::CommandRefusal;
use filter_rule::Plan;
use source_feed::Feed;
use std::alloc::Global;
use std::sync::Arc;

/// The plans of a workflow file, one a stream, and each stream's feed, opened under its plan.
#[derive(Drop)]
pub struct Opened<'h> {
    pub plans: Vec<Arc<Plan>>,
    pub feeds: Vec<Feed<'h>>,
}

/// Opens a workflow with its feeds, which stand in the order of the streams. The faults are found in
/// this order: those of the workflow file; 119 where there aren't as many feeds as streams; then for
/// each feed 93 where it should have been hexadecimal text, and its own.
pub fn open_workflow<'h>(
    alloc: Global,
    workflow: &[u8],
    given: &'h [GivenFeed<'_>],
) -> Result<Opened<'h>, CommandRefusal<'static>>
    ensures opened { GivesOfInputs opened_value result (opened_bytes workflow.now (map given_value given.entry.now)) }
    // There are 1 to 64 plans over the same tables.
    ensures plans { IfOk result (λ opened. ArePlans (map arc_value opened.plans.items)) }
{
    let plans = Plan::read_all(alloc, workflow)?;
    if plans.len() != given.len() {
        return Err(CommandRefusal::FeedCount);
    }
    let feeds = open_feeds(alloc, &plans, given)?;
    Ok(Opened { plans, feeds })
}

/// Opens each feed under its plan, up to the first fault.
pub(crate) fn open_feeds<'h>(
    alloc: Global,
    plans: &[Arc<Plan>],
    given: &'h [GivenFeed<'_>],
) -> Result<Vec<Feed<'h>>, CommandRefusal<'static>>
    requires { length plans.now ≡ length given.now }
    ensures { GivesOfInputs (λ feeds. feeds.items) result (opened_feeds (map arc_value plans.now) (map given_value given.entry.now)) }
{
    let mut feeds = Vec::with_capacity(alloc, plans.len())?;
    for i in 0..plans.len() {
        let feed = open_feed(alloc, &plans[i], &given[i])?;
        if feeds.push(feed).is_err() {
            return Err(CommandRefusal::Memory);
        }
    }
    Ok(feeds)
}

/// Opens a feed under its plan.
fn open_feed<'h>(
    alloc: Global,
    plan: &Arc<Plan>,
    given: &'h GivenFeed<'_>,
) -> Result<Feed<'h>, CommandRefusal<'static>>
    ensures { GivesOfInputs (λ feed. feed) result (opened_feed (arc_value plan.now) (given_value given.entry.now)) }
{
    match given.bytes() {
        None => Err(CommandRefusal::BadHex),
        Some(bytes) => {
            let feed = Feed::open(alloc, bytes, plan)?;
            Ok(feed)
        }
    }
}
