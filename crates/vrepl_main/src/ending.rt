//! A workflow's feeds up to positions.

ghost use Rattle.std.specs.Prelude.{◌≡◌, IfOk, map};
ghost use Rattle.vrepl_choices.specs.UntilValue.{until_value};
ghost use Rattle.vrepl_main.specs.Ending.{ended};
ghost use Rattle.vrepl_main.specs.OpenedFeeds.{opened_value};
ghost use Rattle.vrepl_main.specs.Reasons.{GivesOfInputs};

use crate::opened::Opened;
use crate::refusal::CommandRefusal;
use feed_ends::end_feeds;
use std::alloc::Global;
use vrepl_choices::Until;

/// Each feed up to the position that is given for its stream. Refused 115 where a stream is named that isn't there, then 94
/// where a text is none of a position, then 128 by the first feed that doesn't reach its position. Any other error is want
/// of memory.
pub(crate) fn end_opened<'h>(
    alloc: Global,
    mut opened: Opened<'h>,
    until: &[Until<'_>],
) -> Result<Opened<'h>, CommandRefusal<'static>>
    ensures ended { GivesOfInputs opened_value result (ended (map until_value until.now) (opened_value opened.entry)) }
    ensures same { IfOk result (λ ended. ended.plans ≡ opened.entry.plans) }
{
    end_feeds(alloc, &mut opened.feeds, until)?;
    Ok(opened)
}
