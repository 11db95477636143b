//! The subcommand `save`: the checkpoint of the board behind a script.

ghost use Rattle.std.specs.Prelude.{◌≡◌, ◌≤◌, [], ◌∷◌, true, IfErr, IfOk, OnOk, length, map};
ghost use Rattle.std.specs.Arc.{arc_value};
ghost use Rattle.apply_core.specs.Fresh.{fresh_board};
ghost use Rattle.filter_rule.specs.WellFormed.{ArePlans};
ghost use Rattle.vrepl_main.specs.OpenedFeeds.{scripted_value};
ghost use Rattle.board_laws.specs.FedBoards.{IsFedBoard};
ghost use Rattle.board_laws.specs.Sources.{ShowAll};
ghost use Rattle.vrepl_main.specs.CheckpointIsRight.{MakesCheckpoint, WritesCheckpoint};
ghost use Rattle.vrepl_main.specs.InputList.{bytes_of};
ghost use Rattle.vrepl_main.specs.ScriptRun.{ScriptReply, answers, IsScriptStep, IsTold, refused_count, script_asked, standing_in, standing_reply};
ghost use Rattle.printing.specs.Printing.{IsWritten, Prints};
ghost use Rattle.vrepl_main.specs.Adding.{AddsText, at};
ghost use Rattle.vrepl_main.specs.Printing.{PrintsOrBreaks};
ghost use Rattle.vrepl_main.specs.Reasons.{RefusesInputs};
ghost use Rattle.vrepl_main.specs.SavedBoard.{IsSavedBehind, IsSavedBoard, IsSavedText, SaveEnds, IsBehind, TellsRefused, refused_note, saved_status};
ghost use Rattle.vrepl_main.specs.Command.{RefusesCommand};

use crate::given::given_feeds;
use crate::line::{answer_to, place_of};
use crate::named_inputs::Inputs;
use crate::opened::Opened;
use crate::output::{put_between, put_number};
use crate::refusal::{CommandRefusal, refuse};
use crate::scripted::{Scripted, open_scripted};
use crate::stepping::fresh_board;
use apply_core::{Answer, FedBoard, StepRefusal, save as checkpoint};
use filter_rule::Plan;
use printing::{Gathered, Out, OutFailed, put_all};
use source_feed::Feed;
use std::alloc::{AllocError, Global};
use std::mem::forget;
use std::sync::Arc;
use step_script::ScriptStep;

/// The number of a refusal for want of memory.
const MEMORY: u8 = 72;

/// The checkpoint of the board behind a script, and how many of its steps were refused.
#[derive(Drop)]
pub struct Saved {
    /// The checkpoint's bytes.
    pub checkpoint: Vec<u8>,
    /// How many of the steps were refused.
    pub refused: usize,
    /// How many steps the script has.
    pub steps: usize,
}

/// Takes the steps of a script on a board over a workflow and its feeds, one in the order of the streams
/// each, and prints on `out` the checkpoint of the board that they leave; their replies aren't printed, but where some
/// were refused a line on `err` says behind the checkpoint how many. Or prints the line of a refusal on `err` and then
/// nothing on `out`, unless it is `out` that can't be written. A refused step doesn't end the script, unless it is refused
/// for want of memory: the checkpoint would be of another board then. Answers the status: 0, or 1 after a refusal, also of
/// memory, or where it is to be strict and a step was refused. Once the checkpoint is made, written or not, what the board
/// and the feeds hold is forgotten: it goes back with the memory of the process.
pub fn save<W: Out, E: Out>(
    alloc: Global,
    inputs: &Inputs,
    strict: bool,
    out: &mut W,
    err: &mut E,
) -> u8
    ensures status { result ≤ 1 }
    ensures ends { SaveEnds strict (script_asked inputs.now) result (W.written out.old) (W.written out.new) (E.written err.old) (E.written err.new) }
    ensures quiet { strict ≡ true → result ≡ 0 → err.new ≡ err.old }
    // In bytes alone: with status 0 just a checkpoint was written that the workflow and the feeds make.
    ensures right { result ≡ 0 → WritesCheckpoint inputs.now.feed_form inputs.now.workflow.items (bytes_of inputs.now.feeds.items) (W.written out.old) (W.written out.new) }
{
    match print_checkpoint(alloc, inputs, out) {
        Ok(saved) => tell_refused(err, &saved, strict),
        Err(refusal) => refuse(err, &refusal),
    }
}

/// Prints the checkpoint of the board behind a script, or nothing where there is none.
fn print_checkpoint<W: Out>(
    alloc: Global,
    inputs: &Inputs,
    out: &mut W,
) -> Result<Saved, CommandRefusal<'static>>
    ensures saved { IfOk result (λ saved. IsSavedBoard (script_asked inputs.now) saved) }
    ensures printed { IfOk result (λ saved. IsWritten (W.written out.old) (W.written out.new) saved.checkpoint.items) }
    ensures refused { IfErr result (λ refusal. RefusesCommand IsSavedText refusal (script_asked inputs.now) (W.written out.old) (W.written out.new)) }
{
    let saved = saved_checkpoint(alloc, inputs)?;
    print_bytes(out, &saved.checkpoint)?;
    Ok(saved)
}

/// The checkpoint that `save` prints.
pub fn saved_checkpoint(alloc: Global, inputs: &Inputs) -> Result<Saved, CommandRefusal<'static>>
    ensures saved { IfOk result (IsSavedBoard (script_asked inputs.now)) }
    ensures refused { IfErr result (λ refusal. RefusesInputs refusal (script_asked inputs.now)) }
    // In bytes alone: it is one that the workflow and the feeds make.
    ensures right { IfOk result (λ saved. MakesCheckpoint inputs.now.feed_form inputs.now.workflow.items (bytes_of inputs.now.feeds.items) saved.checkpoint.items) }
{
    let given = given_feeds(alloc, inputs.feed_form, &inputs.feeds)?;
    let scripted = open_scripted(alloc, inputs, &given)?;
    let saved = saved_behind(alloc, scripted)?;
    Ok(saved)
}

/// Prints bytes.
pub(crate) fn print_bytes<W: Out>(out: &mut W, bytes: &[u8]) -> Result<(), OutFailed>
    ensures { Prints result (W.written out.old) (W.written out.new) bytes.now }
{
    put_all(out, bytes)
}

/// Prints how many steps of the script were refused, as a line that is whole unless `err` fails, where some were. Answers the
/// status: 1 where it is to be strict and some were, else 0.
pub fn tell_refused<E: Out>(err: &mut E, saved: &Saved, strict: bool) -> u8
    ensures status { result ≡ saved_status strict saved.now.refused }
    ensures within { result ≤ 1 }
    ensures told { TellsRefused saved.now.refused saved.now.steps (E.written err.old) (E.written err.new) }
    ensures quiet { saved.now.refused ≡ 0 → err.new ≡ err.old }
{
    tell_some(err, saved.refused, saved.steps);
    saved_status(strict, saved.refused)
}

/// The status behind the checkpoint.
fn saved_status(strict: bool, refused: usize) -> u8
    ensures status { result ≡ saved_status strict refused }
    ensures within { result ≤ 1 }
{
    if strict && refused > 0 { 1 } else { 0 }
}

/// Prints how many of the steps were refused, where some were.
fn tell_some<E: Out>(err: &mut E, refused: usize, steps: usize)
    ensures told { TellsRefused refused steps (E.written err.old) (E.written err.new) }
    ensures quiet { refused ≡ 0 → err.new ≡ err.old }
{
    if refused == 0 {
        return;
    }
    let _told = print_note(err, refused, steps);
}

/// Prints that so many of these steps were refused.
fn print_note<E: Out>(err: &mut E, refused: usize, steps: usize) -> Result<(), OutFailed>
    ensures { PrintsOrBreaks (E.written err.old) (E.written err.new) (refused_note refused steps) }
{
    let mut text = Gathered::new();
    add_note(err, &mut text, refused, steps)?;
    text.finish(err)
}

/// Adds the line.
fn add_note<E: Out>(
    err: &mut E,
    text: &mut Gathered,
    refused: usize,
    steps: usize,
) -> Result<(), OutFailed>
    ensures { AddsText result (at (E.written err.old) text.old) (at (E.written err.new) text.new) (refused_note refused steps) }
{
    put_number(err, text, refused as u64)?;
    put_between(err, text, " of ", steps as u64, " steps were refused\n")
}

/// The checkpoint of the board behind a script. An error is want of memory.
fn saved_behind(alloc: Global, scripted: Scripted<'_>) -> Result<Saved, AllocError>
    requires { ArePlans (map arc_value scripted.opened.plans.items) }
    ensures behind { IfOk result (λ saved. IsSavedBehind (scripted_value scripted.entry) saved.refused saved.checkpoint.items) }
    ensures steps { IfOk result (λ saved. saved.steps ≡ length scripted.entry.steps.items) }
{
    let Scripted { opened, steps } = scripted;
    let Opened { plans, feeds } = opened;
    let (fed, refused) = board_behind(alloc, plans, feeds, &steps)?;
    let bytes = checkpoint(alloc, fed.board())?;
    forget(fed);
    Ok(Saved {
        checkpoint: bytes,
        refused,
        steps: steps.len(),
    })
}

/// The board behind the steps of a script, from one over the plans of which nothing is read, with its feeds, and how many
/// steps were refused. An error is want of memory.
fn board_behind<'h>(
    alloc: Global,
    plans: Vec<Arc<Plan>>,
    feeds: Vec<Feed<'h>>,
    steps: &[ScriptStep],
) -> Result<(FedBoard<'h>, usize), AllocError>
    requires some { 1 ≤ length plans.items }
    requires few { length plans.items ≤ 64 }
    ensures taken { IfOk result (λ behind. IsBehind feeds.entry.items (fresh_board (map arc_value plans.items)) steps.now behind.1 behind.0.board) }
    ensures fed { IfOk result (λ behind. IsFedBoard feeds.entry.items behind.0.board) }
    ensures sources { IfOk result (λ behind. ShowAll feeds.entry.items behind.0.board) }
{
    let mut fed = fresh_board(alloc, plans, feeds)?;
    let refused = take_quietly(alloc, &mut fed, steps)?;
    fed.is_fed();
    fed.shows();
    Ok((fed, refused))
}

/// Takes the steps of a script on a board with its feeds, one after another, whatever they reply, up to one that is refused
/// for want of memory. The answer is how many were refused.
fn take_quietly(
    alloc: Global,
    fed: &mut FedBoard<'_>,
    steps: &[ScriptStep],
) -> Result<usize, AllocError>
    ensures behind { IfOk result (λ refused. IsBehind fed.old.feeds fed.old.board steps.now refused fed.new.board) }
    ensures feeds { fed.new.feeds ≡ fed.old.feeds }
{
    let mut refused = 0;
    for step in steps {
        refused += take_one(alloc, fed, *step)?;
    }
    Ok(refused)
}

/// Takes what a line of a script says on a board with its feeds, whatever it replies. The answer is 1 where it was refused,
/// else 0. An error is that of a step that is refused for want of memory.
fn take_one(alloc: Global, fed: &mut FedBoard<'_>, step: ScriptStep) -> Result<usize, AllocError>
    ensures taken { IfOk result (λ refused. (reply : ScriptReply) × IsScriptStep fed.old.feeds fed.old.board step reply fed.new.board × IsTold reply × (refused ≡ refused_count (reply ∷ []))) }
    ensures feeds { fed.new.feeds ≡ fed.old.feeds }
{
    match step {
        ScriptStep::Take { stream, step } => {
            let answer = answer_to(alloc, fed, stream, step);
            refused_of(&answer)
        }
        ScriptStep::State { stream } => Ok(refused_if_none(fed, stream)),
        ScriptStep::Dump => {
            fed.shows();
            Ok(0)
        }
    }
}

/// 1 where a step was refused, else 0. An error is want of memory for it.
fn refused_of(answer: &Result<Answer, StepRefusal>) -> Result<usize, AllocError>
    ensures told { OnOk result (IsTold (answers answer.now)) }
    ensures refused { IfOk result (λ refused. refused ≡ refused_count (answers answer.now ∷ [])) }
{
    match answer {
        Ok(_) => Ok(0),
        Err(refusal) if refusal.number() == MEMORY => Err(AllocError),
        Err(_) => Ok(1),
    }
}

/// 1 where there is no stream of a number, else 0.
fn refused_if_none(fed: &FedBoard<'_>, stream: u32) -> usize
    ensures { result ≡ refused_count (standing_reply stream (standing_in fed.now.board stream) ∷ []) }
{
    match place_of(fed, stream) {
        Some(_) => 0,
        None => 1,
    }
}
