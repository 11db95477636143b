//! The subcommand `follow` where streams are named that are to run alone.

ghost use Rattle.std.specs.Prelude.{◌≡◌, ◌<◌, ◌≤◌, ℕ, nat_lt, IfOk, IfErr, length, map};
ghost use Rattle.std.specs.Arc.{arc_value};
ghost use Rattle.std.specs.List.{list_all};
ghost use Rattle.filter_rule.specs.WellFormed.{ArePlans};
ghost use Rattle.apply_core.specs.Ended.{IsNamedStream};
ghost use Rattle.vrepl_main.specs.CheckpointIsRight.{FollowsOnlyRight};
ghost use Rattle.vrepl_main.specs.Followed.{RefusesFollow, saved_asked, HasNotFollowed, IsEndedRun};
ghost use Rattle.vrepl_main.specs.Given.{given_value};
ghost use Rattle.vrepl_main.specs.OnlyFollowed.{IsMovedOn, IsOnlyFollowed, have_streams, named_plans, opened_for, only_asked, AreThere, HasMovedOn};
ghost use Rattle.vrepl_choices.specs.UntilValue.{until_value};
ghost use Rattle.vrepl_main.specs.Ending.{opened_until};
ghost use Rattle.vrepl_main.specs.OpenedFeeds.{opened_value};
ghost use Rattle.vrepl_main.specs.Reasons.{GivesOfInputs};

use crate::at_once::open_feeds_at_once;
use crate::ending::end_opened;
use crate::following::{Followed, Unfollowed};
use crate::given::GivenFeed;
use crate::named_inputs::FollowInputs;
use crate::opened::{Opened, open_feeds};
use crate::progress::Progress;
use crate::refusal::CommandRefusal;
use crate::stepping::{first_plan, fresh_board};
use crate::told_run::run_named;
use apply_core::{FedBoard, Policy, save as checkpoint_of};
use filter_rule::Plan;
use source_feed::Feed;
use std::alloc::Global;
use std::sync::Arc;
use std::thread::Threads;
use vrepl_choices::{Threading, Until};

/// Moves these streams of a checkpoint on, over a workflow and its feeds, one in the order of the streams each: from the
/// board that it makes with them, or from the beginning where there is none, these streams run to their feeds' ends, one
/// after another, and the others stay as they stand. The answer is as `follow`'s; the gate is told of each group on its way,
/// and of the end. A stream of which nothing is read may
/// have any feed, so that an empty one serves for each that isn't named.
///
/// Refused 115 behind the workflow and before the feeds where a stream isn't there, and else as `follow` refuses.
pub fn follow_only<'h, R: Threads + Sync, G: Progress>(
    rt: &R,
    alloc: Global,
    inputs: &FollowInputs<'h, '_, '_>,
    only: &[u8],
    gate: &G,
) -> Result<Followed<'h>, Unfollowed>
    ensures followed { IfOk result (IsOnlyFollowed (only_asked only.now inputs.now) only.now (saved_asked inputs.now)) }
    ensures refused { IfErr result (λ refusal. RefusesFollow refusal (only_asked only.now inputs.now) (saved_asked inputs.now)) }
    // In bytes alone: the checkpoint and the board are those that the workflow and the feeds make.
    ensures right { IfOk result (FollowsOnlyRight inputs.now only.now) }
{
    let course = inputs.course;
    let opened = open_for(
        rt,
        alloc,
        course.threading,
        only,
        inputs.workflow,
        inputs.feeds,
        inputs.until,
    )?;
    let Opened { plans, feeds } = opened;
    let plan = first_plan(&plans)?;
    let fed = board_moved_on(alloc, inputs, only, gate, plans, feeds)?;
    let checkpoint = checkpoint_of(alloc, fed.board())?;
    Ok(Followed {
        plan,
        checkpoint,
        fed,
    })
}

/// The workflow, which has these streams, with its feeds, each up to the position that is given for it.
fn open_for<'h, R: Threads + Sync>(
    rt: &R,
    alloc: Global,
    threading: Threading,
    only: &[u8],
    workflow: &[u8],
    given: &'h [GivenFeed<'_>],
    until: &[Until<'_>],
) -> Result<Opened<'h>, CommandRefusal<'static>>
    ensures opened { GivesOfInputs opened_value result (opened_until (map until_value until.now) (opened_for only.now workflow.now (map given_value given.entry.now))) }
    ensures plans { IfOk result (λ opened. ArePlans (map arc_value opened.plans.items)) }
    ensures there { IfOk result (λ opened. AreThere only.now opened.plans.items) }
{
    let whole = open_whole_for(rt, alloc, threading, only, workflow, given)?;
    let opened = end_opened(alloc, whole, until)?;
    Ok(opened)
}

/// The same with whole feeds.
fn open_whole_for<'h, R: Threads + Sync>(
    rt: &R,
    alloc: Global,
    threading: Threading,
    only: &[u8],
    workflow: &[u8],
    given: &'h [GivenFeed<'_>],
) -> Result<Opened<'h>, CommandRefusal<'static>>
    ensures opened { GivesOfInputs opened_value result (opened_for only.now workflow.now (map given_value given.entry.now)) }
    ensures plans { IfOk result (λ opened. ArePlans (map arc_value opened.plans.items)) }
    ensures there { IfOk result (λ opened. AreThere only.now opened.plans.items) }
{
    let plans = named_plans(alloc, only, workflow)?;
    if plans.len() != given.len() {
        return Err(CommandRefusal::FeedCount);
    }
    let feeds = match threading {
        Threading::Alone => open_feeds(alloc, &plans, given)?,
        Threading::Parallel => open_feeds_at_once(rt, alloc, &plans, given)?,
    };
    Ok(Opened { plans, feeds })
}

/// The plans of a workflow, which has these streams.
fn named_plans(
    alloc: Global,
    only: &[u8],
    workflow: &[u8],
) -> Result<Vec<Arc<Plan>>, CommandRefusal<'static>>
    ensures named { GivesOfInputs (λ plans. map arc_value plans.items) result (named_plans only.now workflow.now) }
    ensures plans { IfOk result (λ plans. ArePlans (map arc_value plans.items)) }
    ensures there { IfOk result (λ plans. AreThere only.now plans.items) }
{
    let plans = Plan::read_all(alloc, workflow)?;
    if have_streams(only, &plans) {
        Ok(plans)
    } else {
        Err(CommandRefusal::NoStream)
    }
}

/// Whether each of these streams has a plan.
fn have_streams(only: &[u8], plans: &[Arc<Plan>]) -> bool
    ensures { result ≡ have_streams only.now (map arc_value plans.now) }
{
    are_below(plans.len(), only)
}

/// Whether each of these numbers is below a count.
fn are_below(count: usize, numbers: &[u8]) -> bool
    ensures { result ≡ list_all (λ s. nat_lt s count) numbers.now }
{
    numbers.iter().all(|s| is_below(count, *s))
}

fn is_below(count: usize, number: u8) -> bool
    ensures { result ≡ nat_lt number count }
{
    usize::from(number) < count
}

/// The board on which these streams have moved on, from that of the checkpoint or from the beginning, with its feeds.
fn board_moved_on<'h, G: Progress>(
    alloc: Global,
    inputs: &FollowInputs<'_, '_, '_>,
    only: &[u8],
    gate: &G,
    plans: Vec<Arc<Plan>>,
    feeds: Vec<Feed<'h>>,
) -> Result<FedBoard<'h>, Unfollowed>
    requires some { 1 ≤ length plans.items }
    requires few { length plans.items ≤ 64 }
    requires there { AreThere only.now plans.items }
    ensures moved { IfOk result (λ fed. HasMovedOn plans.items feeds.entry.items inputs.now only.now fed.board) }
    ensures refused { IfErr result (HasNotFollowed plans.items feeds.entry.items inputs.now) }
{
    let plan = first_plan(&plans)?;
    let policy = &inputs.course.policy;
    let Some(bytes) = inputs.checkpoint else {
        let fed = fresh_board(alloc, plans, feeds)?;
        return move_on(alloc, policy, only, gate, fed, plan);
    };
    let fed = match FedBoard::resume(alloc, &plans, feeds, bytes) {
        Ok(fed) => fed,
        Err(fault) => return Err(Unfollowed::Checkpoint { plan, fault }),
    };
    move_on(alloc, policy, only, gate, fed, plan)
}

/// The board on which these streams have moved on from where it stood.
fn move_on<'h, G: Progress>(
    alloc: Global,
    policy: &Policy,
    only: &[u8],
    gate: &G,
    mut fed: FedBoard<'h>,
    plan: Arc<Plan>,
) -> Result<FedBoard<'h>, Unfollowed>
    requires { (s : ℕ) → IsNamedStream only.now s → s < length fed.feeds }
    ensures moved { IfOk result (λ moved. IsMovedOn fed.entry.feeds only.now fed.entry.board moved.board) }
    ensures refused { IfErr result (IsEndedRun plan fed.entry.feeds) }
{
    match run_named(alloc, &mut fed, only, policy, gate) {
        Ok(()) => {
            fed.is_fed();
            Ok(fed)
        }
        Err(refusal) => Err(Unfollowed::Stream { plan, refusal }),
    }
}
