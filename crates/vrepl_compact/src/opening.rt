//! The workflow and the feed of a stream, as they are given.

ghost use Rattle.std.specs.Prelude.{◌≡◌, Some, Err, IfErr, IfOk, IsErr, IsSome, Ok, map, slice_get};
ghost use Rattle.std.specs.Option.{option_copied};
ghost use Rattle.std.specs.Arc.{arc_value};
ghost use Rattle.filter_rule.specs.Reading.{IsSomeText, plans_of};
ghost use Rattle.source_feed.specs.Planned.{groups_under};
ghost use Rattle.vrepl_compact.specs.Asked.{asked_in, compact_asked, plan_or_none};
ghost use Rattle.vrepl_compact.specs.Compacted.{RefusesCompact};
ghost use Rattle.vrepl_compact.specs.Wanting.{MayWantMemory};
ghost use Rattle.vrepl_compact.specs.declared.refusal.Uncompacted.TheVariants.{Given};
ghost use Rattle.vrepl_main.specs.Given.{given_value};
ghost use Rattle.vrepl_main.specs.HexText.{feed_bytes, hex_bytes};
ghost use Rattle.vrepl_main.specs.Opening.{feed_under, said_plans};
ghost use Rattle.vrepl_main.specs.Reasons.{GivesOfInputs, RefusesInputs};
ghost use Rattle.vrepl_main.specs.declared.refusal.CommandRefusal.TheVariants.{Memory, NoStream};

use crate::inputs::CompactInputs;
use crate::refusal::Uncompacted;
use filter_rule::Plan;
use source_feed::Feed;
use std::alloc::{AllocError, Global};
use std::sync::Arc;
use vrepl_choices::FeedForm;
use vrepl_main::{CommandRefusal, GivenFeed, HexFault, bytes_of_hex};

/// The plans of the workflow that `compact` is given, and the feed as it is given.
#[derive(Drop)]
pub struct PlannedInputs<'f> {
    /// The plans of the workflow's streams.
    pub plans: Vec<Arc<Plan>>,
    /// The feed.
    pub given: GivenFeed<'f>,
}

/// The plans of the workflow, and the feed as it is given. Refused as the workflow is. Any other error is want of memory.
pub fn planned<'f>(
    alloc: Global,
    inputs: &'f CompactInputs<'_>,
) -> Result<PlannedInputs<'f>, Uncompacted>
    // What the inputs ask for is the feed of these plans and bytes.
    ensures planned { IfOk result (λ p. compact_asked inputs.entry.now ≡ asked_in inputs.entry.now (map arc_value p.plans.items) (given_value p.given)) }
    ensures refused { IfErr result (λ uncompacted. RefusesCompact inputs.entry.now uncompacted (compact_asked inputs.entry.now)) }
    // Memory is wanted of a workflow alone that is a text in UTF-8 and not empty: of any other 51 is told.
    ensures memory { result ≡ Err (Given Memory) → IsSomeText inputs.entry.now.workflow.items }
{
    let plans = read_plans(alloc, &inputs.workflow)?;
    let given = given_feed(alloc, inputs.feed_form, &inputs.feed)?;
    Ok(PlannedInputs { plans, given })
}

/// The plans of a workflow file.
fn read_plans(alloc: Global, workflow: &[u8]) -> Result<Vec<Arc<Plan>>, CommandRefusal<'static>>
    ensures given { GivesOfInputs (λ plans. map arc_value plans.items) result (said_plans (plans_of workflow.now)) }
    ensures memory { result ≡ Err Memory → IsSomeText workflow.now }
{
    let plans = Plan::read_all(alloc, workflow)?;
    Ok(plans)
}

/// The plan at a place, from 0.
fn plan_at<'p>(plans: &'p [Arc<Plan>], stream: u8) -> Option<&'p Arc<Plan>>
    ensures { option_copied result ≡ slice_get plans.entry.now stream }
{
    plans.get(usize::from(stream))
}

/// The plan of a stream. Refused 115 where the workflow has no such stream.
pub(crate) fn plan_of<'p>(
    plans: &'p [Arc<Plan>],
    stream: u8,
) -> Result<&'p Arc<Plan>, CommandRefusal<'static>>
    ensures plan { IfOk result (λ plan. plan_or_none (slice_get (map arc_value plans.entry.now) stream) ≡ Ok (arc_value plan.now)) }
    ensures refused { IfErr result (λ refusal. RefusesInputs refusal (plan_or_none (slice_get (map arc_value plans.entry.now) stream))) }
    // It is told whatever memory there is.
    ensures memory { IfErr result (λ refusal. refusal ≡ NoStream) }
{
    match plan_at(plans, stream) {
        Some(plan) => Ok(plan),
        None => Err(CommandRefusal::NoStream),
    }
}

/// A feed that is given in some form. An error is want of memory, which is taken for hexadecimal text alone.
fn given_feed<'f>(
    alloc: Global,
    form: FeedForm,
    feed: &'f [u8],
) -> Result<GivenFeed<'f>, AllocError>
    ensures given { IfOk result (λ given. given_value given ≡ feed_bytes form feed.entry.now) }
    ensures memory { IsErr result → (form ≡ FeedForm.Hex) × IsSome (hex_bytes feed.entry.now) }
{
    match form {
        FeedForm::Bytes => Ok(GivenFeed::Bytes(feed)),
        FeedForm::Hex => decoded(alloc, feed),
    }
}

/// The bytes of a feed that is given as hexadecimal text. An error is want of memory, told of hexadecimal text alone.
fn decoded<'f>(alloc: Global, feed: &[u8]) -> Result<GivenFeed<'f>, AllocError>
    ensures given { IfOk result (λ given. given_value given ≡ hex_bytes feed.now) }
    ensures memory { IsErr result → IsSome (hex_bytes feed.now) }
{
    match bytes_of_hex(alloc, feed) {
        Ok(bytes) => Ok(GivenFeed::Decoded(bytes)),
        Err(HexFault::BadHex) => Ok(GivenFeed::BadHex),
        Err(HexFault::Memory) => Err(AllocError),
    }
}

/// The feed of these bytes under its plan.
pub(crate) fn open_feed<'h>(
    alloc: Global,
    bytes: &'h [u8],
    plan: &Arc<Plan>,
) -> Result<Feed<'h>, CommandRefusal<'static>>
    ensures given { GivesOfInputs (λ feed. feed) result (feed_under (arc_value plan.now) (groups_under bytes.entry.now (arc_value plan.now))) }
    ensures memory { result ≡ Err Memory → MayWantMemory (Some (arc_value plan.now)) (Some bytes.entry.now) }
{
    let feed = Feed::open(alloc, bytes, plan)?;
    Ok(feed)
}
