//! Up to which group the feed of a stream is compacted.

ghost use Rattle.std.specs.Prelude.{ℕ, List, IfOk, IfErr, map};
ghost use Rattle.std.specs.Arc.{arc_value};
ghost use Rattle.compact_limit.specs.Limit.{IsLimit};
ghost use Rattle.vrepl_compact.specs.Compacted.{IsUnlimited, position_named};
ghost use Rattle.vrepl_compact.specs.Private.Faults.{IsOfLimit};
ghost use Rattle.vrepl_main.specs.InputList.{bytes_of};

use crate::inputs::CompactInputs;
use crate::refusal::Uncompacted;
use compact_limit::{LimitFault, limit_of};
use filter_rule::Plan;
use source_feed::Feed;
use std::alloc::Global;
use std::sync::Arc;

/// The refusal by what stands in the way of saying how far.
pub(crate) fn unlimited(plan: Arc<Plan>, stream: u8, fault: LimitFault) -> Uncompacted
    ensures { IsOfLimit (arc_value plan) stream fault result }
{
    Uncompacted::Limit {
        plan,
        stream,
        fault,
    }
}

/// The group up to which the feed is compacted, by what is named and by the checkpoints.
pub(crate) fn last_replaced(
    alloc: Global,
    inputs: &CompactInputs<'_>,
    plans: &[Arc<Plan>],
    feed: &Feed<'_>,
) -> Result<u32, LimitFault>
    ensures limit { IfOk result (IsLimit (map arc_value plans.now) feed.now inputs.now.stream (position_named inputs.now) (bytes_of inputs.now.checkpoints.items)) }
    ensures refused { IfErr result (λ fault. (bytes : List ℕ) → IsUnlimited inputs.now (record { plans = map arc_value plans.now; bytes = bytes; feed = feed.now }) fault) }
{
    limit_of(
        alloc,
        plans,
        feed,
        inputs.stream,
        inputs.at,
        &inputs.checkpoints,
    )
}
