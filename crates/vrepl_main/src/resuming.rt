//! The subcommand `resume`: the steps of a script on the board of a checkpoint.

ghost use Rattle.std.specs.Prelude.{◌≡◌, Ok, map};
ghost use Rattle.std.specs.Arc.{arc_value};
ghost use Rattle.filter_rule.specs.WellFormed.{ArePlans};
ghost use Rattle.vrepl_main.specs.OpenedFeeds.{scripted_value};
ghost use Rattle.vrepl_main.specs.ScriptRun.{script_asked};
ghost use Rattle.vrepl_main.specs.ResumedRun.{LeavesResumed, ResumeEnds};

use crate::given::given_feeds;
use crate::named_inputs::ResumeInputs;
use crate::opened::Opened;
use crate::refusal::{CommandRefusal, refuse};
use crate::refusal_line::refuse_over;
use crate::scripted::{Scripted, open_scripted};
use crate::stepping::{first_plan, print_taken};
use apply_core::{FedBoard, ResumeFault};
use filter_rule::Plan;
use pace::Meter;
use printing::Out;
use std::alloc::Global;
use std::mem::forget;
use std::sync::Arc;

/// Why nothing is resumed.
#[derive(Drop)]
enum ResumeRefusal {
    /// What stands in the other inputs, want of memory, or that the replies can't be written.
    Given(CommandRefusal<'static>),
    /// The checkpoint; its line names tables of the plan.
    Checkpoint {
        /// the first plan
        plan: Arc<Plan>,
        /// why it isn't resumed
        fault: ResumeFault,
    },
}

impl From<CommandRefusal<'static>> for ResumeRefusal {
    ghost use Rattle.std.specs.Prelude.{◌≡◌};
    ghost use Rattle.vrepl_main.specs.declared.resuming.ResumeRefusal.TheVariants.{Given};

    ghost from_gives = { λ refusal made. made ≡ Given refusal };

    fn from(refusal: CommandRefusal<'static>) -> ResumeRefusal {
        ResumeRefusal::Given(refusal)
    }
}

/// Takes the steps of a script on the board that a checkpoint makes with a workflow's feeds, one in the order
/// of the streams each, and prints their replies on `out`, as `step` does; or prints the line of a refusal on
/// `err` and then nothing on `out`, unless it is `out` that can't be written. The checkpoint is judged behind
/// the workflow, the feeds and the whole script. Answers the status: 0, or 1 after a refusal, also of memory. Behind the
/// replies what the board and the feeds hold is forgotten: it goes back with the memory of the process. A feed is a part of the
/// work where it is opened, and one where the board is made; so is each step of the script.
pub fn resume<M: Meter, W: Out, E: Out>(
    alloc: Global,
    inputs: &ResumeInputs,
    meter: &M,
    out: &mut W,
    err: &mut E,
) -> u8
    ensures ends { ResumeEnds (script_asked inputs.now.step) inputs.now.checkpoint.items result (W.written out.old) (W.written out.new) (E.written err.old) (E.written err.new) }
    ensures quiet { result ≡ 0 → err.new ≡ err.old }
{
    match print_replies(alloc, inputs, meter, out) {
        Ok(()) => 0,
        Err(ResumeRefusal::Given(refusal)) => refuse(err, &refusal),
        Err(ResumeRefusal::Checkpoint { plan, fault }) => refuse_over(err, &plan, &fault),
    }
}

/// Prints the replies to a script on a resumed board, or nothing where there is nothing to reply to.
fn print_replies<M: Meter, W: Out>(
    alloc: Global,
    inputs: &ResumeInputs,
    meter: &M,
    out: &mut W,
) -> Result<(), ResumeRefusal>
    ensures { LeavesResumed result (script_asked inputs.now.step) inputs.now.checkpoint.items (W.written out.old) (W.written out.new) }
{
    let step = &inputs.step;
    meter.begins(step.feeds.len().saturating_mul(2));
    let Ok(given) = given_feeds(alloc, step.feed_form, &step.feeds) else {
        return Err(ResumeRefusal::Given(CommandRefusal::Memory));
    };
    let scripted = open_scripted(alloc, step, &given)?;
    meter.begins(scripted.steps.len());
    meter.has_done(step.feeds.len());
    print_resumed(alloc, &inputs.checkpoint, scripted, meter, out)
}

/// The same over what is opened.
fn print_resumed<M: Meter, W: Out>(
    alloc: Global,
    checkpoint: &[u8],
    scripted: Scripted<'_>,
    meter: &M,
    out: &mut W,
) -> Result<(), ResumeRefusal>
    requires { ArePlans (map arc_value scripted.opened.plans.items) }
    ensures { LeavesResumed result (Ok (scripted_value scripted.entry)) checkpoint.now (W.written out.old) (W.written out.new) }
{
    let Scripted { opened, steps } = scripted;
    let Opened { plans, feeds } = opened;
    let Ok(plan) = first_plan(&plans) else {
        return Err(ResumeRefusal::Given(CommandRefusal::Memory));
    };
    let mut fed = match FedBoard::resume(alloc, &plans, feeds, checkpoint) {
        Ok(fed) => fed,
        Err(fault) => return Err(ResumeRefusal::Checkpoint { plan, fault }),
    };
    meter.has_done(fed.feeds().len());
    match print_taken(alloc, &plan, &mut fed, &steps, meter, out) {
        Ok(()) => {
            forget(fed);
            Ok(())
        }
        Err(_) => Err(ResumeRefusal::Given(CommandRefusal::CannotWrite { file: "-" })),
    }
}
