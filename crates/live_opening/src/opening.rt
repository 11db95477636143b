//! A board from which a live session starts.

ghost use Rattle.std.specs.Prelude.{◌≡◌, IfOk, IfErr, map, option_map};
ghost use Rattle.live_core.specs.Live.{IsLive};
ghost use Rattle.live_opening.specs.Opened.{IsOpened, IsUnopened};

use crate::begun::{Begun, begin_all};
use crate::starting::{Unstarted, start};
use crate::unopened::Unopened;
use apply_core::Policy;
use filter_rule::Plan;
use live_core::Live;
use std::alloc::Global;

/// Opens a workflow with what has come of its feeds, which stand in the order of the streams; takes up the board that a
/// checkpoint makes with them, or begins where there is none; and runs all streams, in the portions of the policy, to the ends
/// of what has come. What stands behind a feed's last message behind which no transaction is open may still come.
///
/// Refused in this order: by the workflow file; 119 where there aren't as many feeds as streams; by what has come of the first
/// feed that is at fault; as `resume` refuses the checkpoint; as `run` refuses the streams. Want of memory is a fault of what
/// was looked at then.
pub fn open<'h>(
    alloc: Global,
    policy: &Policy,
    workflow: &[u8],
    checkpoint: Option<&[u8]>,
    come: &'h [Vec<u8>],
) -> Result<Live<'h>, Unopened>
    // The board is at the ends of the feeds, which are those of the workflow's plans and of what has come.
    ensures opened { IfOk result (IsOpened workflow.now (map (λ bytes. bytes.items) come.entry.now) (option_map (λ bytes. bytes.now) checkpoint.entry)) }
    ensures live { IfOk result IsLive }
    ensures refused { IfErr result (IsUnopened workflow.now (map (λ bytes. bytes.items) come.entry.now) (option_map (λ bytes. bytes.now) checkpoint.entry)) }
{
    let plans = Plan::read_all(alloc, workflow)?;
    if plans.len() != come.len() {
        return Err(Unopened::FeedCount);
    }
    let begun = begin_all(alloc, &plans, come)?;
    let Begun {
        first,
        feeds,
        sources,
    } = begun;
    match start(alloc, policy, plans, feeds, sources, checkpoint) {
        Err(Unstarted::Checkpoint(fault)) => Err(Unopened::Checkpoint { plan: first, fault }),
        Err(Unstarted::Stream(refusal)) => Err(Unopened::Stream {
            plan: first,
            refusal,
        }),
        Ok(live) => {
            live.is_live();
            Ok(live)
        }
    }
}
