//! The lines of a script on a board, one after another.

ghost use Rattle.std.specs.Prelude.{◌≡◌};
ghost use Rattle.vrepl_main.specs.Adding.{at};
ghost use Rattle.vrepl_main.specs.ScriptPrinting.{RepliesTo};

use crate::line::take_line;
use apply_core::FedBoard;
use filter_rule::Plan;
use pace::Meter;
use printing::{Gathered, Out, OutFailed};
use std::alloc::Global;
use step_script::ScriptStep;

/// Takes the steps of a script on a board with its feeds, one after another, and adds their replies. Each is a part that is
/// done.
pub(crate) fn take_lines<M: Meter, W: Out>(
    alloc: Global,
    plan: &Plan,
    fed: &mut FedBoard<'_>,
    steps: &[ScriptStep],
    meter: &M,
    out: &mut W,
    text: &mut Gathered,
) -> Result<(), OutFailed>
    ensures replies { RepliesTo result fed.old.feeds plan.now fed.old.board steps.now (at (W.written out.old) text.old) (at (W.written out.new) text.new) }
    ensures feeds { fed.new.feeds ≡ fed.old.feeds }
{
    for step in steps {
        take_line(alloc, plan, fed, *step, out, text)?;
        meter.has_done(1);
    }
    Ok(())
}
