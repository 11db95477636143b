//! The board over feeds, run to their ends.

ghost use Rattle.std.specs.Prelude.{◌≡◌, ◌≤◌, IfOk, IfErr, length, map, option_map};
ghost use Rattle.std.specs.Arc.{arc_value};
ghost use Rattle.apply_core.specs.Feeds.{AreFed};
ghost use Rattle.live_core.specs.Live.{AreOfSources};
ghost use Rattle.live_core.specs.Source.{bytes_of};
ghost use Rattle.live_opening.specs.Opened.{IsTakenUp};
ghost use Rattle.live_opening.specs.Private.Starting.{HasStarted, IsUnstarted};

use apply_core::{FedBoard, Policy, ResumeFault, RunRefusal};
use filter_rule::Plan;
use live_core::{Live, Source, boards_at_their_ends_run};
use source_feed::Feed;
use std::alloc::Global;
use std::sync::Arc;

/// Why a board over feeds doesn't come to their ends.
#[derive(Drop)]
pub(crate) enum Unstarted {
    /// The checkpoint isn't resumed.
    Checkpoint(ResumeFault),
    /// The streams' run is refused.
    Stream(RunRefusal),
}

/// The board that a checkpoint makes over these feeds, or where there is none one of which nothing is read.
fn board_over<'h>(
    alloc: Global,
    plans: Vec<Arc<Plan>>,
    feeds: Vec<Feed<'h>>,
    checkpoint: Option<&[u8]>,
) -> Result<FedBoard<'h>, Unstarted>
    requires some { 1 ≤ length plans.items }
    requires few { length plans.items ≤ 64 }
    ensures feeds { IfOk result (λ fed. fed.feeds ≡ feeds.entry.items) }
    ensures fed { IfOk result (λ _. AreFed (map arc_value plans.items) feeds.entry.items) }
    ensures taken_up { IfOk result (λ _. IsTakenUp feeds.entry.items (option_map (λ bytes. bytes.now) checkpoint.entry)) }
    ensures refused { IfErr result (IsUnstarted (map arc_value plans.items) feeds.entry.items (option_map (λ bytes. bytes.now) checkpoint.entry)) }
{
    match checkpoint {
        None => match FedBoard::to_be_run(alloc, plans, feeds) {
            Ok(fed) => Ok(fed),
            Err(refusal) => Err(Unstarted::Stream(refusal)),
        },
        Some(bytes) => match FedBoard::resume(alloc, &plans, feeds, bytes) {
            Ok(fed) => Ok(fed),
            Err(fault) => Err(Unstarted::Checkpoint(fault)),
        },
    }
}

/// The board over these feeds at their ends, from that of the checkpoint or from the beginning.
pub(crate) fn start<'h>(
    alloc: Global,
    policy: &Policy,
    plans: Vec<Arc<Plan>>,
    feeds: Vec<Feed<'h>>,
    sources: Vec<Source<'h>>,
    checkpoint: Option<&[u8]>,
) -> Result<Live<'h>, Unstarted>
    requires some { 1 ≤ length plans.items }
    requires few { length plans.items ≤ 64 }
    requires count { length sources.items ≡ length feeds.items }
    requires sources { AreOfSources feeds.items sources.items }
    ensures started { IfOk result (HasStarted feeds.entry.items (map bytes_of sources.entry.items) (option_map (λ bytes. bytes.now) checkpoint.entry)) }
    ensures refused { IfErr result (IsUnstarted (map arc_value plans.items) feeds.entry.items (option_map (λ bytes. bytes.now) checkpoint.entry)) }
{
    let mut fed = board_over(alloc, plans, feeds, checkpoint)?;
    match fed.run(alloc, policy) {
        Err(refusal) => {
            fed.is_fed();
            Err(Unstarted::Stream(refusal))
        }
        Ok(()) => {
            boards_at_their_ends_run();
            fed.is_fed();
            Ok(Live::new(fed, sources))
        }
    }
}
