//! The command `feed`.

ghost use Rattle.std.specs.Prelude.{◌≡◌, IfOk, Some, map, slice_get};
ghost use Rattle.std.specs.Arc.{arc_value};
ghost use Rattle.vrepl_feed.specs.Fed.{FeedEnds, IsFed, IsFedUnder, IsPrinted};

use crate::inputs::FeedInputs;
use crate::refusal::{Unfed, refuse_unfed};
use feed_text::{feed_of_text, feed_of_text_under};
use filter_rule::Plan;
use printing::{Out, put_all};
use std::alloc::Global;
use std::sync::Arc;
use vrepl_main::{CommandRefusal, refuse};

/// Prints on `out` the feed of which `show` prints a text, under the plan of a stream of a workflow where one is given; or
/// prints the line of a refusal on `err` and then nothing on `out`, unless it is `out` that can't be written. Answers the
/// status: 0, or 1 after a refusal, also of memory.
pub fn feed<W: Out, E: Out>(alloc: Global, inputs: &FeedInputs, out: &mut W, err: &mut E) -> u8
    ensures ends { FeedEnds inputs.now result (W.written out.old) (W.written out.new) (E.written err.old) (E.written err.new) }
    ensures quiet { result ≡ 0 → err.new ≡ err.old }
{
    match fed(alloc, inputs) {
        Ok(feed) => print_feed(&feed, out, err),
        Err(unfed) => refuse_unfed(err, unfed),
    }
}

/// Prints a feed, or the line of a refusal where that fails.
fn print_feed<W: Out, E: Out>(feed: &[u8], out: &mut W, err: &mut E) -> u8
    ensures ends { IsPrinted feed.now result (W.written out.old) (W.written out.new) (E.written err.old) (E.written err.new) }
    ensures quiet { result ≡ 0 → err.new ≡ err.old }
{
    match put_all(out, feed) {
        Ok(()) => 0,
        Err(_) => refuse(err, &CommandRefusal::CannotWrite { file: "-" }),
    }
}

/// The plan of a stream. Refused 115 where the workflow has no such stream.
fn plan_of(plans: &[Arc<Plan>], stream: u8) -> Result<&Arc<Plan>, Unfed>
    ensures { IfOk result (λ plan. slice_get (map arc_value plans.entry.now) stream ≡ Some (arc_value plan.now)) }
{
    match plans.get(usize::from(stream)) {
        Some(plan) => Ok(plan),
        None => Err(Unfed::Given(CommandRefusal::NoStream)),
    }
}

/// The same under a workflow.
#[tactic(auto, using(crate::proofs::ShowLaws::says_shows))]
fn fed_under(alloc: Global, workflow: &[u8], stream: u8, text: &[u8]) -> Result<Vec<u8>, Unfed>
    ensures { IfOk result (λ feed. IsFedUnder workflow.now stream text.now feed.items) }
{
    let plans = Plan::read_all(alloc, workflow)?;
    let plan = plan_of(&plans, stream)?;
    let feed = feed_of_text_under(alloc, text, plan)?;
    Ok(feed)
}

/// The feed of which `show` prints the text. The faults are found in this order: those of the workflow; 115 where it has no
/// such stream; 133 for the text. Any other error is want of memory.
#[tactic(auto, using(crate::proofs::ShowLaws::says_shows))]
pub fn fed(alloc: Global, inputs: &FeedInputs) -> Result<Vec<u8>, Unfed>
    ensures { IfOk result (λ feed. IsFed inputs.now feed.items) }
{
    match &inputs.workflow {
        Some(workflow) => fed_under(alloc, workflow, inputs.stream, &inputs.text),
        None => {
            let feed = feed_of_text(alloc, &inputs.text, "", "")?;
            Ok(feed)
        }
    }
}
