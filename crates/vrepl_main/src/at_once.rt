//! Feeds opened at once, each in a thread of its own where one can be made.

ghost use Rattle.std.specs.Prelude.{◌≡◌, ◌<◌, IfOk, length, map};
ghost use Rattle.std.specs.Arc.{arc_value};
ghost use Rattle.filter_rule.specs.WellFormed.{ArePlans};
ghost use Rattle.vrepl_main.specs.Given.{given_value};
ghost use Rattle.vrepl_main.specs.Opening.{opened_bytes, opened_feed, opened_feeds};
ghost use Rattle.vrepl_main.specs.OpenedFeeds.{AreTried, as_opened, opened_value, IsTriedAt};
ghost use Rattle.vrepl_main.specs.Reasons.{GivesOfInputs};

use crate::given::GivenFeed;
use crate::opened::Opened;
use crate::refusal::CommandRefusal;
use filter_rule::Plan;
use source_feed::{Feed, FeedFault};
use std::alloc::{AllocError, Global};
use std::sync::Arc;
use std::thread;
use std::thread::Threads;

/// Opens a workflow with its feeds as `open_workflow` does, all feeds at once. The faults are found in the same order.
pub(crate) fn open_at_once<'h, R: Threads + Sync>(
    rt: &R,
    alloc: Global,
    workflow: &[u8],
    given: &'h [GivenFeed<'_>],
) -> Result<Opened<'h>, CommandRefusal<'static>>
    ensures opened { GivesOfInputs opened_value result (opened_bytes workflow.now (map given_value given.entry.now)) }
    // There are 1 to 64 plans over the same tables.
    ensures plans { IfOk result (λ opened. ArePlans (map arc_value opened.plans.items)) }
{
    let plans = Plan::read_all(alloc, workflow)?;
    if plans.len() != given.len() {
        return Err(CommandRefusal::FeedCount);
    }
    let feeds = open_feeds_at_once(rt, alloc, &plans, given)?;
    Ok(Opened { plans, feeds })
}

/// Opens each feed under its plan; the first fault in order is the answer.
pub(crate) fn open_feeds_at_once<'h, R: Threads + Sync>(
    rt: &R,
    alloc: Global,
    plans: &[Arc<Plan>],
    given: &'h [GivenFeed<'_>],
) -> Result<Vec<Feed<'h>>, CommandRefusal<'static>>
    requires { length plans.now ≡ length given.now }
    ensures { GivesOfInputs (λ feeds. feeds.items) result (opened_feeds (map arc_value plans.now) (map given_value given.entry.now)) }
{
    let tried = try_feeds(rt, alloc, plans, given)?;
    feeds_of(alloc, plans, given, tried)
}

/// What came of opening a feed: none where it should have been hexadecimal text.
type Tried<'h> = Result<Option<Feed<'h>>, FeedFault>;

/// Each feed by itself under its plan. An error is want of memory.
fn try_feeds<'h, R: Threads + Sync>(
    rt: &R,
    alloc: Global,
    plans: &[Arc<Plan>],
    given: &'h [GivenFeed<'_>],
) -> Result<Vec<Tried<'h>>, AllocError>
    requires { length plans.now ≡ length given.now }
    ensures { IfOk result (λ tried. AreTried (map arc_value plans.now) (map given_value given.entry.now) tried.items) }
{
    thread::map_indices(
        rt,
        alloc,
        plans.len(),
        &|i|
            requires { (i < length plans.now) × (i < length given.now) }
            ensures { IsTriedAt plans.entry.now given.entry.now i result }
        { try_feed(alloc, &plans[i], &given[i]) },
    )
}

/// A feed under its plan.
fn try_feed<'h>(alloc: Global, plan: &Arc<Plan>, given: &'h GivenFeed<'_>) -> Tried<'h>
    ensures { GivesOfInputs (λ feed. feed) (as_opened result) (opened_feed (arc_value plan.now) (given_value given.entry.now)) }
{
    match given.bytes() {
        None => Ok(None),
        Some(bytes) => {
            let feed = Feed::open(alloc, bytes, plan)?;
            Ok(Some(feed))
        }
    }
}

/// The feed, or why it isn't opened.
fn opened(tried: Tried<'_>) -> Result<Feed<'_>, CommandRefusal<'static>>
    ensures { result ≡ as_opened tried.entry }
{
    match tried? {
        Some(feed) => Ok(feed),
        None => Err(CommandRefusal::BadHex),
    }
}

/// Feeds that were tried, up to the first fault.
fn feeds_of<'h>(
    alloc: Global,
    plans: &[Arc<Plan>],
    given: &'h [GivenFeed<'_>],
    tried: Vec<Tried<'h>>,
) -> Result<Vec<Feed<'h>>, CommandRefusal<'static>>
    requires same { length plans.now ≡ length given.now }
    requires tried { AreTried (map arc_value plans.now) (map given_value given.now) tried.items }
    ensures { GivesOfInputs (λ feeds. feeds.items) result (opened_feeds (map arc_value plans.now) (map given_value given.entry.now)) }
{
    let _ = plans;
    let _ = given;
    let mut feeds = Vec::with_capacity(alloc, tried.len())?;
    for one in tried {
        let feed = opened(one)?;
        if feeds.push(feed).is_err() {
            return Err(CommandRefusal::Memory);
        }
    }
    Ok(feeds)
}
