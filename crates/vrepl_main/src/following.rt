//! The subcommand `follow`: a checkpoint moved on to the feeds' ends.

ghost use Rattle.std.specs.Prelude.{◌≡◌, ◌≤◌, IfOk, IfErr, length};
ghost use Rattle.std.specs.Arc.{arc_value};
ghost use Rattle.dump.specs.Dump.{dump_of};
ghost use Rattle.printing.specs.Printing.{Prints};
ghost use Rattle.apply_core.specs.Shown.{all_rows};
ghost use Rattle.vrepl_main.specs.Running.{IsAtFeedsEnds};
ghost use Rattle.vrepl_main.specs.CheckpointIsRight.{FollowsRight};
ghost use Rattle.vrepl_main.specs.Followed.{IsFollowed, RefusesFollow, follow_refusal_line, follow_asked, saved_asked, HasTakenUp, HasNotFollowed};
ghost use Rattle.vrepl_main.specs.Printing.{PrintsOrBreaks};

use crate::dumping::write_rows;
use crate::named_inputs::FollowInputs;
use crate::opened::Opened;
use crate::progress::Progress;
use crate::refusal::{CommandRefusal, refuse};
use crate::refusal_line::refuse_over;
use crate::running::{open_streams, refuse_run, run_on_from, run_streams};
use crate::stepping::first_plan;
use apply_core::{Board, FedBoard, ResumeFault, RunRefusal, save as checkpoint_of};
use filter_rule::Plan;
use printing::{Out, OutFailed};
use source_feed::Feed;
use std::alloc::{AllocError, Global};
use std::marker::Model;
use std::sync::{Arc, Wait};
use std::thread::Threads;

/// A checkpoint that was moved on to the feeds' ends.
#[derive(Drop)]
pub struct Followed<'h> {
    /// The plan of the first stream, which has the tables of all.
    pub(crate) plan: Arc<Plan>,
    /// The new checkpoint.
    pub checkpoint: Vec<u8>,
    /// The board that it is of, with its feeds.
    pub(crate) fed: FedBoard<'h>,
}

impl<'h> Model for Followed<'h> {
    ghost use Rattle.std.specs.Arc.{arc_value};
    ghost use Rattle.vrepl_main.specs.Followed.{FollowedValue};

    ghost Value = { FollowedValue };

    ghost view = { λ f. record { plan = arc_value f.plan; checkpoint = f.checkpoint.items; board = f.fed.board } };
}

impl<'h> Followed<'h> {
    /// Writes the dump of the target's rows, as they lie in the board: none is copied. After a fault, which comes only
    /// of a write that failed in this call, what was written is a beginning of the dump. Takes no memory.
    pub fn write_dump<W: Out>(&self, out: &mut W) -> Result<(), OutFailed>
        ensures { Prints result (W.written out.old) (W.written out.new) (dump_of self.now.plan (all_rows self.now.board.rows)) }
    {
        write_rows(out, &self.plan, self.fed.board())
    }

    /// The board. Takes no memory.
    pub fn board(&self) -> &Board<'h>
        ensures { result.now ≡ self.now.board }
    {
        self.fed.board()
    }
}

/// Why no checkpoint is moved on.
#[derive(Drop)]
pub enum Unfollowed {
    /// What stands in the workflow or the feeds, or want of memory.
    Given(CommandRefusal<'static>),
    /// The checkpoint; its line names tables of the plan.
    Checkpoint {
        /// the first plan
        plan: Arc<Plan>,
        /// why it isn't resumed
        fault: ResumeFault,
    },
    /// The streams' run; its line names tables of the plan.
    Stream {
        /// the first plan
        plan: Arc<Plan>,
        /// the refusal
        refusal: RunRefusal,
    },
}

impl From<CommandRefusal<'static>> for Unfollowed {
    ghost use Rattle.std.specs.Prelude.{◌≡◌};
    ghost use Rattle.vrepl_main.specs.declared.following.Unfollowed.TheVariants.{Given};

    ghost from_gives = { λ refusal made. made ≡ Given refusal };

    fn from(refusal: CommandRefusal<'static>) -> Unfollowed {
        Unfollowed::Given(refusal)
    }
}

impl From<AllocError> for Unfollowed {
    ghost use Rattle.std.specs.Prelude.{◌≡◌};
    ghost use Rattle.vrepl_main.specs.declared.following.Unfollowed.TheVariants.{Given};
    ghost use Rattle.vrepl_main.specs.declared.refusal.CommandRefusal.TheVariants.{Memory};

    ghost from_gives = { λ _ made. made ≡ Given Memory };

    fn from(_: AllocError) -> Unfollowed {
        Unfollowed::Given(CommandRefusal::Memory)
    }
}

/// Moves a checkpoint on, over a workflow and its feeds, one in the order of the streams each: from the board that it
/// makes with them, or from the beginning where there is none, all streams run to their feeds' ends, or up to the positions
/// that are given. The answer is the board there and its checkpoint. The gate is told of each group on its way, and of the
/// end.
///
/// Refused as `resume` refuses the workflow, the feeds and the checkpoint, in this order, and then as `run` refuses the
/// streams. Any other error is want of memory.
pub fn follow<'h, R: Threads + Wait + Sync, G: Progress + Sync>(
    rt: &R,
    alloc: Global,
    inputs: &FollowInputs<'h, '_, '_>,
    gate: &G,
) -> Result<Followed<'h>, Unfollowed>
    ensures followed { IfOk result (IsFollowed (follow_asked inputs.now) (saved_asked inputs.now)) }
    ensures refused { IfErr result (λ refusal. RefusesFollow refusal (follow_asked inputs.now) (saved_asked inputs.now)) }
    // In bytes alone: the checkpoint and the board are those that the workflow and the feeds make.
    ensures right { IfOk result (FollowsRight inputs.now) }
{
    let opened = open_streams(
        rt,
        alloc,
        inputs.course.threading,
        inputs.workflow,
        inputs.feeds,
        inputs.until,
    )?;
    let Opened { plans, feeds } = opened;
    let plan = first_plan(&plans)?;
    let fed = board_at_ends(rt, alloc, inputs, gate, plans, feeds)?;
    let checkpoint = checkpoint_of(alloc, fed.board())?;
    Ok(Followed {
        plan,
        checkpoint,
        fed,
    })
}

/// The board at the feeds' ends, from that of the checkpoint or from the beginning, with its feeds.
fn board_at_ends<'h, R: Threads + Wait + Sync, G: Progress + Sync>(
    rt: &R,
    alloc: Global,
    inputs: &FollowInputs<'_, '_, '_>,
    gate: &G,
    plans: Vec<Arc<Plan>>,
    feeds: Vec<Feed<'h>>,
) -> Result<FedBoard<'h>, Unfollowed>
    requires some { 1 ≤ length plans.items }
    requires few { length plans.items ≤ 64 }
    ensures taken_up { IfOk result (λ _. HasTakenUp plans.items feeds.entry.items inputs.now) }
    ensures ends { IfOk result (λ fed. IsAtFeedsEnds feeds.entry.items fed.board) }
    ensures refused { IfErr result (HasNotFollowed plans.items feeds.entry.items inputs.now) }
{
    let plan = first_plan(&plans)?;
    let Some(bytes) = inputs.checkpoint else {
        return match run_streams(rt, alloc, inputs.course, gate, plans, feeds) {
            Ok(fed) => Ok(fed),
            Err(refusal) => Err(Unfollowed::Stream { plan, refusal }),
        };
    };
    let fed = match FedBoard::resume(alloc, &plans, feeds, bytes) {
        Ok(fed) => fed,
        Err(fault) => return Err(Unfollowed::Checkpoint { plan, fault }),
    };
    match run_on_from(rt, alloc, inputs.course, gate, fed) {
        Ok(fed) => Ok(fed),
        Err(refusal) => Err(Unfollowed::Stream { plan, refusal }),
    }
}

/// Prints the line of a refusal, whole unless `err` fails, and answers the status 1.
pub fn refuse_unfollowed<E: Out>(err: &mut E, unfollowed: Unfollowed) -> u8
    ensures status { result ≡ 1 }
    ensures line { PrintsOrBreaks (E.written err.old) (E.written err.new) (follow_refusal_line unfollowed) }
{
    match unfollowed {
        Unfollowed::Given(refusal) => refuse(err, &refusal),
        Unfollowed::Checkpoint { plan, fault } => refuse_over(err, &plan, &fault),
        Unfollowed::Stream { plan, refusal } => refuse_run(err, &plan, refusal),
    }
}
