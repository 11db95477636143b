//! The command `compact`.

ghost use Rattle.std.specs.Prelude.{◌≡◌, ℕ, List, Some, Err, IfErr, IfOk, IfSome, Ok, length, map, slice_get};
ghost use Rattle.std.specs.String.{string_bytes};
ghost use Rattle.std.specs.Arc.{arc_value};
ghost use Rattle.source_feed.specs.Planned.{groups_under};
ghost use Rattle.source_feed.specs.Touches.{group_at};
ghost use Rattle.vrepl_compact.specs.Asked.{asked_as, asked_in, asked_of, compact_asked};
ghost use Rattle.vrepl_compact.specs.Compacted.{CompactEnds, IsCompacted, IsPrinted, IsTold, RefusesCompact};
ghost use Rattle.vrepl_compact.specs.Private.Faults.{IsGivenWhere, IsOfFeed};
ghost use Rattle.vrepl_compact.specs.Told.{groups_text, sizes_text, told_line};
ghost use Rattle.vrepl_compact.specs.Wanting.{MayWantMemory};
ghost use Rattle.vrepl_compact.specs.declared.refusal.Uncompacted.TheVariants.{Given};
ghost use Rattle.vrepl_main.specs.Given.{given_value};
ghost use Rattle.vrepl_main.specs.declared.refusal.CommandRefusal.TheVariants.{Memory};

use crate::inputs::CompactInputs;
use crate::limit::{last_replaced, unlimited};
use crate::opening::{PlannedInputs, open_feed, plan_of, planned};
use crate::refusal::{Uncompacted, refuse_uncompacted};
use compaction::{CompactFault, CompactedFeed, Compaction, compact as compact_feed};
use filter_rule::Plan;
use gtid_set::GtidSet;
use pace::Meter;
use printing::Out;
use source_feed::Feed;
use std::alloc::{AllocError, Global};
use std::sync::Arc;
use vrepl_main::{CommandRefusal, GivenFeed, refuse};

/// A compacted feed, and what is told of it.
#[derive(Drop)]
pub struct NewFeed<'h> {
    /// The new feed.
    pub made: Compaction<'h>,
    /// The line that tells what was done, with its LF.
    pub line: String,
}

/// Compacts the feed of a stream of a workflow, and prints the new feed on `out`; or prints the line of a refusal on `err`
/// and then nothing on `out`, unless it is `out` that can't be written. Answers the status: 0, or 1 after a refusal, also of
/// memory. The meter is told how far the compaction is.
pub fn compact<M: Meter, W: Out, E: Out>(
    alloc: Global,
    inputs: &CompactInputs<'_>,
    meter: &M,
    out: &mut W,
    err: &mut E,
) -> u8
    ensures ends { CompactEnds inputs.now result (W.written out.old) (W.written out.new) (E.written err.old) (E.written err.new) }
    ensures quiet { result ≡ 0 → err.new ≡ err.old }
{
    match planned(alloc, inputs) {
        Ok(planned) => compact_planned(alloc, inputs, &planned, meter, out, err),
        Err(uncompacted) => refuse_uncompacted(err, uncompacted),
    }
}

/// The same of inputs whose plans and feed were looked at.
fn compact_planned<M: Meter, W: Out, E: Out>(
    alloc: Global,
    inputs: &CompactInputs<'_>,
    planned: &PlannedInputs<'_>,
    meter: &M,
    out: &mut W,
    err: &mut E,
) -> u8
    requires { compact_asked inputs.now ≡ asked_in inputs.now (map arc_value planned.now.plans.items) (given_value planned.now.given) }
    ensures ends { CompactEnds inputs.now result (W.written out.old) (W.written out.new) (E.written err.old) (E.written err.new) }
    ensures quiet { result ≡ 0 → err.new ≡ err.old }
{
    match compacted(alloc, inputs, planned, meter) {
        Ok(compacted) => print_feed(&compacted.made.feed, out, err),
        Err(uncompacted) => refuse_uncompacted(err, uncompacted),
    }
}

/// Prints a feed, or the line of a refusal where that fails.
fn print_feed<W: Out, E: Out>(feed: &CompactedFeed<'_>, out: &mut W, err: &mut E) -> u8
    ensures ends { IsPrinted feed.now result (W.written out.old) (W.written out.new) (E.written err.old) (E.written err.new) }
    ensures quiet { result ≡ 0 → err.new ≡ err.old }
{
    match feed.write(out) {
        Ok(()) => 0,
        Err(_) => refuse(err, &CommandRefusal::CannotWrite { file: "-" }),
    }
}

/// The new feed of a stream, up to just the group that the inputs say, and what is told of it: of the plans and the feed that
/// `planned` gives for these inputs. The faults are found in this order, behind those of the workflow: 115 where it has no
/// such stream; 93 and the feed's own; of a position that is named 94 and 118; of each checkpoint 116 and 118; 91 where the
/// feed has no group to be replaced; 123; 90; 95 where the new feed would be too long. Any other error is want of memory.
pub fn compacted<'f, M: Meter>(
    alloc: Global,
    inputs: &CompactInputs<'_>,
    planned: &'f PlannedInputs<'_>,
    meter: &M,
) -> Result<NewFeed<'f>, Uncompacted>
    ensures compacted { IfOk result (λ c. IsCompacted inputs.now (asked_in inputs.now (map arc_value planned.now.plans.items) (given_value planned.now.given)) c.made.groups c.made.rows c.made.feed) }
    ensures told { IfOk result (λ c. IsTold (asked_in inputs.now (map arc_value planned.now.plans.items) (given_value planned.now.given)) c.made.groups c.made.rows (length c.made.feed) (string_bytes c.line)) }
    ensures refused { IfErr result (λ uncompacted. RefusesCompact inputs.now uncompacted (asked_in inputs.now (map arc_value planned.now.plans.items) (given_value planned.now.given))) }
    // Want of memory hides neither 115 nor 93, nor the feed's own fault beyond what its opening wants.
    ensures memory { result ≡ Err (Given Memory) → MayWantMemory (slice_get (map arc_value planned.now.plans.items) inputs.now.stream) (given_value planned.now.given) }
{
    let plan = plan_of(&planned.plans, inputs.stream)?;
    let new = compacted_as(alloc, inputs, &planned.plans, plan, &planned.given, meter)?;
    Ok(new)
}

/// The same of the feed as it is given, under the plan of its stream, which is one of these.
fn compacted_as<'f, M: Meter>(
    alloc: Global,
    inputs: &CompactInputs<'_>,
    plans: &[Arc<Plan>],
    plan: &Arc<Plan>,
    given: &'f GivenFeed<'_>,
    meter: &M,
) -> Result<NewFeed<'f>, Uncompacted>
    ensures compacted { IfOk result (λ c. IsCompacted inputs.now (asked_as (map arc_value plans.now) (given_value given.now) (arc_value plan.now)) c.made.groups c.made.rows c.made.feed) }
    ensures told { IfOk result (λ c. IsTold (asked_as (map arc_value plans.now) (given_value given.now) (arc_value plan.now)) c.made.groups c.made.rows (length c.made.feed) (string_bytes c.line)) }
    ensures refused { IfErr result (λ uncompacted. RefusesCompact inputs.now uncompacted (asked_as (map arc_value plans.now) (given_value given.now) (arc_value plan.now))) }
    ensures memory { result ≡ Err (Given Memory) → MayWantMemory (Some (arc_value plan.now)) (given_value given.now) }
{
    match given.bytes() {
        None => Err(Uncompacted::Given(CommandRefusal::BadHex)),
        Some(bytes) => compacted_of(alloc, inputs, plans, plan, bytes, meter),
    }
}

/// The same of the feed of these bytes.
fn compacted_of<'h, M: Meter>(
    alloc: Global,
    inputs: &CompactInputs<'_>,
    plans: &[Arc<Plan>],
    plan: &Arc<Plan>,
    bytes: &'h [u8],
    meter: &M,
) -> Result<NewFeed<'h>, Uncompacted>
    ensures compacted { IfOk result (λ c. IsCompacted inputs.now (asked_of (map arc_value plans.now) (arc_value plan.now) bytes.now) c.made.groups c.made.rows c.made.feed) }
    ensures told { IfOk result (λ c. IsTold (asked_of (map arc_value plans.now) (arc_value plan.now) bytes.now) c.made.groups c.made.rows (length c.made.feed) (string_bytes c.line)) }
    ensures refused { IfErr result (λ uncompacted. RefusesCompact inputs.now uncompacted (asked_of (map arc_value plans.now) (arc_value plan.now) bytes.now)) }
    ensures memory { result ≡ Err (Given Memory) → MayWantMemory (Some (arc_value plan.now)) (Some bytes.now) }
{
    let feed = open_feed(alloc, bytes, plan)?;
    let plan = Arc::clone(plan)?;
    let new = compacted_feed(alloc, inputs, plans, plan, bytes, &feed, meter)?;
    Ok(new)
}

/// The same of a feed that is open, of which these are the bytes.
fn compacted_feed<'h, M: Meter>(
    alloc: Global,
    inputs: &CompactInputs<'_>,
    plans: &[Arc<Plan>],
    plan: Arc<Plan>,
    bytes: &'h [u8],
    feed: &Feed<'h>,
    meter: &M,
) -> Result<NewFeed<'h>, Uncompacted>
    requires bytes { groups_under bytes.now feed.now.plan ≡ Ok feed.now.groups }
    requires plan { arc_value plan ≡ feed.now.plan }
    ensures compacted { IfOk result (λ c. IsCompacted inputs.now (Ok (record { plans = map arc_value plans.now; bytes = bytes.now; feed = feed.now })) c.made.groups c.made.rows c.made.feed) }
    ensures told { IfOk result (λ c. IsTold (Ok (record { plans = map arc_value plans.now; bytes = bytes.now; feed = feed.now })) c.made.groups c.made.rows (length c.made.feed) (string_bytes c.line)) }
    ensures refused { IfErr result (λ uncompacted. RefusesCompact inputs.now uncompacted (Ok (record { plans = map arc_value plans.now; bytes = bytes.now; feed = feed.now }))) }
    // Memory is wanted for the line alone, behind a feed that was compacted: it hides no refusal.
    ensures memory { IfErr result (IsGivenWhere ((groups : ℕ) × (rows : ℕ) × (written : List ℕ) × IsCompacted inputs.now (Ok (record { plans = map arc_value plans.now; bytes = bytes.now; feed = feed.now })) groups rows written)) }
{
    let number = match last_replaced(alloc, inputs, plans, feed) {
        Ok(number) => number,
        Err(fault) => return Err(unlimited(plan, inputs.stream, fault)),
    };
    let made = match compact_feed(alloc, bytes, feed, number, inputs.unknown, meter) {
        Ok(made) => made,
        Err(fault) => return Err(uncompacted_by(plan, fault)),
    };
    let line = line_of(alloc, bytes, feed, &made)?;
    Ok(NewFeed { made, line })
}

/// The refusal by a fault of the feed.
fn uncompacted_by(plan: Arc<Plan>, fault: CompactFault) -> Uncompacted
    ensures { IsOfFeed (arc_value plan) fault result }
{
    Uncompacted::Feed { plan, fault }
}

/// How many groups, and up to which position.
fn groups_text(alloc: Global, groups: u32, position: &GtidSet) -> Result<String, AllocError>
    ensures { IfOk result (λ text. string_bytes text ≡ groups_text groups position.now) }
{
    let text = format!(in alloc; "compacted {groups} groups up to {position}")?;
    Ok(text)
}

/// How many rows, and the bytes before and after.
fn sizes_text(alloc: Global, rows: usize, old: usize, new: usize) -> Result<String, AllocError>
    ensures { IfOk result (λ text. string_bytes text ≡ sizes_text rows old new) }
{
    let text = format!(in alloc; " into {rows} rows: {old} bytes to {new}\n")?;
    Ok(text)
}

/// The line that tells of so many groups up to a position, rows, and bytes before and after.
fn told(
    alloc: Global,
    groups: u32,
    position: &GtidSet,
    rows: usize,
    old: usize,
    new: usize,
) -> Result<String, AllocError>
    ensures { IfOk result (λ line. string_bytes line ≡ told_line groups position.now rows old new) }
{
    let groups = groups_text(alloc, groups, position)?;
    let sizes = sizes_text(alloc, rows, old, new)?;
    let line = format!(in alloc; "{groups}{sizes}")?;
    Ok(line)
}

/// The line that tells what was done.
fn line_of(
    alloc: Global,
    bytes: &[u8],
    feed: &Feed<'_>,
    made: &Compaction<'_>,
) -> Result<String, AllocError>
    ensures { IfOk result (λ line. IfSome (group_at feed.now made.now.groups) (λ group. string_bytes line ≡ told_line made.now.groups group.position made.now.rows (length bytes.now) (length made.now.feed))) }
{
    match feed.position(made.groups) {
        None => Ok(String::new(alloc)),
        Some(position) => told(
            alloc,
            made.groups,
            position,
            made.rows,
            bytes.len(),
            made.feed.size(),
        ),
    }
}
