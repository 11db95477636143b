//! The subcommand `join`: the checkpoint of the join of two checkpoints' boards.

ghost use Rattle.std.specs.Prelude.{◌≡◌, OnOk, IfErr, IfOk};
ghost use Rattle.vrepl_main.specs.CheckpointIsRight.{MakesCheckpoint, WritesCheckpoint};
ghost use Rattle.vrepl_main.specs.InputList.{bytes_of};
ghost use Rattle.vrepl_main.specs.JoinedRun.{IsJoinOver, IsSavedJoin, IsUnjoined, PrintsJoin, RefusesJoin, join_refusal_line, join_asked, JoinEnds, IsUnjoinedOver};
ghost use Rattle.vrepl_main.specs.OpenedFeeds.{opened_value, HasPlans, IsFirstOf};
ghost use Rattle.vrepl_main.specs.Printing.{PrintsOrBreaks};

use crate::given::given_feeds;
use crate::named_inputs::JoinInputs;
use crate::opened::{Opened, open_workflow};
use crate::refusal::{CommandRefusal, refuse};
use crate::refusal_line::refuse_over;
use crate::saving::print_bytes;
use crate::stepping::first_plan;
use apply_core::{
    Board, JoinFault, ResumeFault, join as joined_board, resume as resumed_board,
    save as checkpoint,
};
use board_laws::fed_boards_show_all;
use filter_rule::Plan;
use pace::Meter;
use printing::Out;
use std::alloc::Global;
use std::sync::Arc;

/// Why nothing is joined.
#[derive(Drop)]
pub enum Unjoined {
    /// What stands in the workflow or the feeds, want of memory, or that the checkpoint can't be written.
    Given(CommandRefusal<'static>),
    /// The one checkpoint; its line names tables of the plan.
    One {
        /// the first plan
        plan: Arc<Plan>,
        /// why it isn't resumed
        fault: ResumeFault,
    },
    /// One of the other checkpoints; its line names tables of the plan.
    Other {
        /// the first plan
        plan: Arc<Plan>,
        /// why it isn't resumed
        fault: ResumeFault,
    },
    /// The boards; their line names tables of the plan.
    Boards {
        /// the first plan
        plan: Arc<Plan>,
        /// why they aren't joined
        fault: JoinFault,
    },
}

impl From<CommandRefusal<'static>> for Unjoined {
    ghost use Rattle.std.specs.Prelude.{◌≡◌};
    ghost use Rattle.vrepl_main.specs.declared.joining.Unjoined.TheVariants.{Given};

    ghost from_gives = { λ refusal made. made ≡ Given refusal };

    fn from(refusal: CommandRefusal<'static>) -> Unjoined {
        Unjoined::Given(refusal)
    }
}

/// Resumes checkpoints over a workflow and its feeds, one in the order of the streams each, and prints on `out` the
/// checkpoint of the join of their boards: each stream stands as on the board that is furthest on in it, and the rows are
/// those of these streams, in whatever order the checkpoints come. Or prints the line of a refusal on `err` and then
/// nothing on `out`, unless it is `out` that can't be written. The checkpoints are judged behind the workflow and the
/// feeds, `one` first, and each of the others before its board is joined to those before it: two boards are held at a
/// time. Answers the status: 0, or 1 after a refusal, also of memory. A feed is a part of the work where it is opened, one
/// where the board of each checkpoint is made, and one where the join is saved.
pub fn join<M: Meter, W: Out, E: Out>(
    alloc: Global,
    inputs: &JoinInputs,
    meter: &M,
    out: &mut W,
    err: &mut E,
) -> u8
    ensures ends { JoinEnds inputs.now result (W.written out.old) (W.written out.new) (E.written err.old) (E.written err.new) }
    ensures quiet { result ≡ 0 → err.new ≡ err.old }
    // In bytes alone: with status 0 just a checkpoint was written that the workflow and the feeds make.
    ensures right { result ≡ 0 → WritesCheckpoint inputs.now.feed_form inputs.now.workflow.items (bytes_of inputs.now.feeds.items) (W.written out.old) (W.written out.new) }
{
    match print_joined(alloc, inputs, meter, out) {
        Ok(()) => 0,
        Err(unjoined) => refuse_unjoined(err, &unjoined),
    }
}

/// Prints the line of a refusal, whole unless `err` fails, and answers the status 1.
pub fn refuse_unjoined<E: Out>(err: &mut E, unjoined: &Unjoined) -> u8
    ensures status { result ≡ 1 }
    ensures line { PrintsOrBreaks (E.written err.old) (E.written err.new) (join_refusal_line unjoined.now) }
{
    match unjoined {
        Unjoined::Given(refusal) => refuse(err, refusal),
        Unjoined::One { plan, fault } => refuse_over(err, plan, fault),
        Unjoined::Other { plan, fault } => refuse_over(err, plan, fault),
        Unjoined::Boards { plan, fault } => refuse_over(err, plan, fault),
    }
}

/// Prints the checkpoint of the join, or nothing where there is none.
fn print_joined<M: Meter, W: Out>(
    alloc: Global,
    inputs: &JoinInputs,
    meter: &M,
    out: &mut W,
) -> Result<(), Unjoined>
    ensures printed { OnOk result (PrintsJoin inputs.now (W.written out.old) (W.written out.new)) }
    ensures refused { IfErr result (λ refusal. RefusesJoin refusal inputs.now (W.written out.old) (W.written out.new)) }
{
    let bytes = joined_checkpoint(alloc, inputs, meter)?;
    match print_bytes(out, &bytes) {
        Ok(()) => Ok(()),
        Err(_) => Err(Unjoined::Given(CommandRefusal::CannotWrite { file: "-" })),
    }
}

/// The checkpoint that `join` prints.
pub fn joined_checkpoint<M: Meter>(
    alloc: Global,
    inputs: &JoinInputs,
    meter: &M,
) -> Result<Vec<u8>, Unjoined>
    ensures saved { IfOk result (λ bytes. IsSavedJoin (join_asked inputs.now) inputs.now.one.items (bytes_of inputs.now.others.items) bytes.items) }
    ensures refused { IfErr result (λ refusal. IsUnjoined refusal (join_asked inputs.now) inputs.now.one.items (bytes_of inputs.now.others.items)) }
    // In bytes alone: it is one that the workflow and the feeds make.
    ensures right { IfOk result (λ bytes. MakesCheckpoint inputs.now.feed_form inputs.now.workflow.items (bytes_of inputs.now.feeds.items) bytes.items) }
{
    let feeds = inputs.feeds.len();
    meter.begins(inputs.others.len().saturating_add(3).saturating_mul(feeds));
    let Ok(given) = given_feeds(alloc, inputs.feed_form, &inputs.feeds) else {
        return Err(Unjoined::Given(CommandRefusal::Memory));
    };
    let opened = open_workflow(alloc, &inputs.workflow, &given)?;
    meter.has_done(feeds);
    let Ok(plan) = first_plan(&opened.plans) else {
        return Err(Unjoined::Given(CommandRefusal::Memory));
    };
    let board = join_over(alloc, &opened, plan, &inputs.one, &inputs.others, meter)?;
    match checkpoint(alloc, &board) {
        Ok(bytes) => Ok(bytes),
        Err(_) => Err(Unjoined::Given(CommandRefusal::Memory)),
    }
}

/// The join of the boards that checkpoints make over the plans, the first of which is `plan`, and their feeds.
fn join_over<'h, M: Meter>(
    alloc: Global,
    opened: &Opened<'h>,
    plan: Arc<Plan>,
    one: &[u8],
    others: &[Vec<u8>],
    meter: &M,
) -> Result<Board<'h>, Unjoined>
    requires plans { HasPlans opened.now }
    requires first { IsFirstOf opened.now plan }
    ensures joined { IfOk result (IsJoinOver (opened_value opened.now) one.now (bytes_of others.now)) }
    ensures refused { IfErr result (IsUnjoinedOver (opened_value opened.now) one.now (bytes_of others.now)) }
{
    fed_boards_show_all();
    let plans = opened.plans.as_slice();
    let feeds = opened.feeds.as_slice();
    let mut board = match resumed_board(alloc, plans, feeds, one) {
        Ok(board) => board,
        Err(fault) => return Err(Unjoined::One { plan, fault }),
    };
    meter.has_done(feeds.len());
    for i in 0..others.len() {
        let next = match resumed_board(alloc, plans, feeds, &others[i]) {
            Ok(next) => next,
            Err(fault) => return Err(Unjoined::Other { plan, fault }),
        };
        board = match joined_board(alloc, board, next) {
            Ok(board) => board,
            Err(refusal) => {
                return Err(Unjoined::Boards {
                    plan,
                    fault: refusal.why,
                });
            }
        };
        meter.has_done(feeds.len());
    }
    Ok(board)
}
