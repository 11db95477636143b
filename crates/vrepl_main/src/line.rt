//! One line of a script on a board.

ghost use Rattle.std.specs.Prelude.{◌≡◌, [], option_map};
ghost use Rattle.std.specs.Option.{option_map_or};
ghost use Rattle.dump.specs.Dump.{dump_of};
ghost use Rattle.apply_core.specs.Shown.{all_rows};
ghost use Rattle.vrepl_main.specs.Adding.{AddsText, at};
ghost use Rattle.vrepl_main.specs.ScriptRun.{AnswersStep, answers, byte_of, reply_text, standing_in, standing_reply, where_of};
ghost use Rattle.vrepl_main.specs.ScriptPrinting.{Replies};

use crate::answer_text::print_answer;
use crate::dumping::write_rows;
use crate::refusal_line::print_refused;
use crate::state_text::print_state;
use apply_core::{Answer, FedBoard, Refusal, StepRefusal};
use filter_rule::Plan;
use gtid_set::GtidSet;
use printing::{Gathered, Out, OutFailed};
use std::alloc::Global;
use step_script::ScriptStep;
use stream_core::{Cursor, Step};

/// Takes what a line of a script says on a board with its feeds, and adds its reply. Replies name tables of the plan, and
/// rows are printed by it.
pub(crate) fn take_line<W: Out>(
    alloc: Global,
    plan: &Plan,
    fed: &mut FedBoard<'_>,
    step: ScriptStep,
    out: &mut W,
    text: &mut Gathered,
) -> Result<(), OutFailed>
    ensures replies { Replies result fed.old.feeds plan.now fed.old.board step fed.new.board (at (W.written out.old) text.old) (at (W.written out.new) text.new) }
    ensures feeds { fed.new.feeds ≡ fed.old.feeds }
{
    match step {
        ScriptStep::Take { stream, step } => {
            let answer = answer_to(alloc, fed, stream, step);
            print_answer_or_refusal(out, text, plan, &answer)
        }
        ScriptStep::State { stream } => print_standing(out, text, plan, fed, stream),
        ScriptStep::Dump => {
            fed.shows();
            print_rows(out, text, plan, fed)
        }
    }
}

/// The number of a stream, if it is at most 255.
fn byte_of(stream: u32) -> Option<u8>
    ensures { result ≡ byte_of stream }
{
    if stream > 255 {
        None
    } else {
        Some(stream as u8)
    }
}

/// Takes a step on a stream.
pub(crate) fn answer_to(
    alloc: Global,
    fed: &mut FedBoard<'_>,
    stream: u32,
    step: Step,
) -> Result<Answer, StepRefusal>
    ensures reply { AnswersStep fed.old.feeds fed.old.board (byte_of stream) step result fed.new.board }
    ensures feeds { fed.new.feeds ≡ fed.old.feeds }
{
    match byte_of(stream) {
        None => Err(StepRefusal::Refused(Refusal::NoStream)),
        Some(s) => fed.take_step(alloc, s, step),
    }
}

/// Adds what a step answers, or the line of its refusal.
fn print_answer_or_refusal<W: Out>(
    out: &mut W,
    text: &mut Gathered,
    plan: &Plan,
    answer: &Result<Answer, StepRefusal>,
) -> Result<(), OutFailed>
    ensures { AddsText result (at (W.written out.old) text.old) (at (W.written out.new) text.new) (reply_text plan.now (answers answer.now)) }
{
    match answer {
        Ok(answer) => print_answer(out, text, *answer),
        Err(refusal) => print_refused(out, text, plan.tables(), refusal),
    }
}

/// Where a stream stands, by its numbers and its position, if there is one.
pub(crate) fn place_of<'b>(
    fed: &'b FedBoard<'_>,
    stream: u32,
) -> Option<(Cursor, Option<&'b GtidSet>)>
    ensures { option_map (λ place. (place.0, option_map_or (λ set. set.now) place.1 [])) result ≡ option_map where_of (standing_in fed.entry.now.board stream) }
{
    let s = byte_of(stream)?;
    let Ok(now) = fed.state(s) else {
        return None;
    };
    let Ok(position) = fed.position(s) else {
        return None;
    };
    Some((now, position))
}

/// Adds where a stream stands, or that there is none.
fn print_standing<W: Out>(
    out: &mut W,
    text: &mut Gathered,
    plan: &Plan,
    fed: &FedBoard<'_>,
    stream: u32,
) -> Result<(), OutFailed>
    ensures { AddsText result (at (W.written out.old) text.old) (at (W.written out.new) text.new) (reply_text plan.now (standing_reply stream (standing_in fed.now.board stream))) }
{
    match place_of(fed, stream) {
        Some((now, position)) => print_state(out, text, stream, &now, position),
        None => print_refused(
            out,
            text,
            plan.tables(),
            &StepRefusal::Refused(Refusal::NoStream),
        ),
    }
}

/// Adds all rows of the target, as they lie in the board: none is copied.
fn print_rows<W: Out>(
    out: &mut W,
    text: &mut Gathered,
    plan: &Plan,
    fed: &FedBoard<'_>,
) -> Result<(), OutFailed>
    ensures { AddsText result (at (W.written out.old) text.old) (at (W.written out.new) text.new) (dump_of plan.now (all_rows fed.now.board.rows)) }
{
    text.finish(out)?;
    write_rows(out, plan, fed.board())
}
