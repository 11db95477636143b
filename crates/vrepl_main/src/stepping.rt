//! The subcommand `step`: the steps of a script on a board.

ghost use Rattle.std.specs.Prelude.{◌≡◌, ◌≤◌, Ok, Some, IfOk, length, map, slice_get};
ghost use Rattle.std.specs.Arc.{arc_value};
ghost use Rattle.apply_core.specs.Feeds.{AreFed};
ghost use Rattle.apply_core.specs.Fresh.{fresh_board};
ghost use Rattle.filter_rule.specs.WellFormed.{ArePlans};
ghost use Rattle.vrepl_main.specs.OpenedFeeds.{scripted_value};
ghost use Rattle.vrepl_main.specs.ScriptRun.{script_asked};
ghost use Rattle.vrepl_main.specs.ScriptPrinting.{PrintsRun};
ghost use Rattle.vrepl_main.specs.Replied.{LeavesReplies, StepEnds};

use crate::given::given_feeds;
use crate::lines::take_lines;
use crate::named_inputs::Inputs;
use crate::opened::Opened;
use crate::refusal::{CommandRefusal, refuse};
use crate::scripted::{Scripted, open_scripted};
use apply_core::FedBoard;
use filter_rule::Plan;
use pace::{Meter, Unmetered};
use printing::{Gathered, Out, OutFailed};
use source_feed::Feed;
use std::alloc::{AllocError, Global};
use std::mem::forget;
use std::sync::Arc;
use step_script::ScriptStep;

/// Takes the steps of a script on a board over a workflow and its feeds, one in the order of the streams
/// each, and prints their replies on `out` in pieces of up to 4 KiB; or prints the line of a refusal on
/// `err` and then nothing on `out`, unless it is `out` that can't be written. The whole script is read
/// first. A refused step's line is its reply, and the script goes on. Answers the status: 0, or 1 after a
/// refusal, also of memory. Behind the replies what the board and the feeds hold is forgotten: it goes back
/// with the memory of the process.
pub fn step<W: Out, E: Out>(alloc: Global, inputs: &Inputs, out: &mut W, err: &mut E) -> u8
    ensures ends { StepEnds (script_asked inputs.now) result (W.written out.old) (W.written out.new) (E.written err.old) (E.written err.new) }
    ensures quiet { result ≡ 0 → err.new ≡ err.old }
{
    match print_replies(alloc, inputs, out) {
        Ok(()) => 0,
        Err(refusal) => refuse(err, &refusal),
    }
}

/// Prints the replies to a script, or nothing where there is nothing to reply to.
fn print_replies<W: Out>(
    alloc: Global,
    inputs: &Inputs,
    out: &mut W,
) -> Result<(), CommandRefusal<'static>>
    ensures { LeavesReplies result (script_asked inputs.now) (W.written out.old) (W.written out.new) }
{
    let given = given_feeds(alloc, inputs.feed_form, &inputs.feeds)?;
    let scripted = open_scripted(alloc, inputs, &given)?;
    print_run(alloc, scripted, out)
}

/// The first plan, shared. A workflow has one, so that an error is want of memory.
pub(crate) fn first_plan(plans: &[Arc<Plan>]) -> Result<Arc<Plan>, AllocError>
    ensures { IfOk result (λ plan. slice_get (map arc_value plans.now) 0 ≡ Some (arc_value plan)) }
{
    let Some(first) = plans.first() else {
        return Err(AllocError);
    };
    let plan = Arc::clone(first)?;
    Ok(plan)
}

/// A board with these feeds, of which nothing is read. The plans of a workflow have the same tables, and its feeds are
/// opened under them, so that an error is want of memory.
pub(crate) fn fresh_board<'h>(
    alloc: Global,
    plans: Vec<Arc<Plan>>,
    feeds: Vec<Feed<'h>>,
) -> Result<FedBoard<'h>, AllocError>
    requires some { 1 ≤ length plans.items }
    requires few { length plans.items ≤ 64 }
    ensures fresh { IfOk result (λ fed. fed ≡ record { board = fresh_board (map arc_value plans.items); feeds = feeds.entry.items }) }
    ensures fed { IfOk result (λ _. AreFed (map arc_value plans.items) feeds.entry.items) }
{
    match FedBoard::new(alloc, plans, feeds) {
        Ok(fed) => Ok(fed),
        Err(_) => Err(AllocError),
    }
}

/// Takes the steps on a fresh board over the plans, and prints their replies.
fn print_run<W: Out>(
    alloc: Global,
    scripted: Scripted<'_>,
    out: &mut W,
) -> Result<(), CommandRefusal<'static>>
    requires { ArePlans (map arc_value scripted.opened.plans.items) }
    ensures { LeavesReplies result (Ok (scripted_value scripted.entry)) (W.written out.old) (W.written out.new) }
{
    let Scripted { opened, steps } = scripted;
    let Opened { plans, feeds } = opened;
    let plan = first_plan(&plans)?;
    let mut fed = fresh_board(alloc, plans, feeds)?;
    print_taken(alloc, &plan, &mut fed, &steps, &Unmetered, out)?;
    forget(fed);
    Ok(())
}

/// Takes the steps on a board with its feeds, and prints their replies. Each is a part that is done.
pub(crate) fn print_taken<M: Meter, W: Out>(
    alloc: Global,
    plan: &Plan,
    fed: &mut FedBoard<'_>,
    steps: &[ScriptStep],
    meter: &M,
    out: &mut W,
) -> Result<(), OutFailed>
    ensures { PrintsRun result fed.old.feeds plan.now fed.old.board steps.now (W.written out.old) (W.written out.new) }
{
    let mut text = Gathered::new();
    take_lines(alloc, plan, fed, steps, meter, out, &mut text)?;
    text.finish(out)
}
