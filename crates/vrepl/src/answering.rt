//! The commands that print what their inputs make, and do no more.

ghost use Rattle.std.specs.Prelude.{◌≡◌, ◌≤◌, ◌⊎◌, IfErr, IfOk};
ghost use Rattle.vrepl.specs.Answered.{AnswerEnds, IsAnswering, IsAskedBy, IsUnreadFor};

use crate::checking::{read_check, report};
use crate::compacting::read_compact;
use crate::comparing::{compare, read_vdiff};
use crate::feeding::read_feed;
use crate::files::{FileInputs, read_files};
use crate::reporting::Reporter;
use crate::stating::{StatusInputs, read_status, state};
use crate::telling::{Hushing, Teller};
use crate::tiling::tile;
use crate::{course_of, show_feed};
use pace::Meter;
use printing::{Out, Writer};
use std::alloc::{AllocError, Global};
use std::sync::Wait;
use std::thread::Threads;
use vrepl_check::CheckInputs;
use vrepl_compact::{CompactInputs, compact};
use vrepl_feed::{FeedInputs, feed};
use vrepl_main::{
    CommandRefusal, InputName, Inputs, JoinFiles, JoinInputs, Progress, ResumeInputs, RunInputs,
    Untold, join, read_input, read_join, read_resume, read_run, read_step, resume, run, save, step,
};
use vrepl_vdiff::VdiffInputs;
use vrepl_words::commands::Words;
use vrepl_words::commands::join::Join;
use vrepl_words::commands::show::Show;

/// What such a command is asked for, with what was read of its inputs.
#[derive(Drop)]
pub(crate) enum Asked<'a, 'w> {
    /// `show` of a feed.
    Show(&'a Show<'w>, Vec<u8>),
    /// `step`.
    Step(Inputs),
    /// `run`.
    Run(RunInputs<'a, 'w>),
    /// `save`, strict or not.
    Save(bool, Inputs),
    /// `resume`.
    Resume(ResumeInputs),
    /// `join`.
    Join(JoinInputs),
    /// `vdiff`.
    Vdiff(VdiffInputs<'w>),
    /// `check`.
    Check(CheckInputs<'a, 'w>),
    /// `tiles`.
    Tiles(FileInputs<'a, 'w>),
    /// `status`.
    Status(StatusInputs<'a, 'w>),
    /// `compact`.
    Compact(CompactInputs<'w>),
    /// `feed`.
    Feed(FeedInputs),
}

/// Reads the inputs of such a command, and prints what it makes of them.
pub(crate) fn run_answering<'w, T: Threads + Wait + Sync>(
    rt: &HostRuntime,
    threads: &T,
    teller: &Teller<'_>,
    words: &Words<'w>,
) -> Result<u8, CommandRefusal<'w>>
    requires answering { IsAnswering words.now }
    ensures status { IfOk result (λ status. (status ≤ 1) ⊎ (status ≡ 3)) }
    ensures unread { IfErr result (IsUnreadFor words.now) }
{
    let asked = read_asked(rt, teller, words)?;
    teller.has_all();
    if let Asked::Vdiff(inputs) = &asked {
        teller.begins_lines(&inputs.source.text, &inputs.target.text);
    }
    match reporter_of(rt, words)? {
        Some(reporter) => Ok(print_answer(rt, threads, teller, &reporter, &asked)),
        None => Ok(print_answer(rt, threads, teller, &Untold, &asked)),
    }
}

/// What tells how far streams are, where that is asked for.
fn reporter_of<'r>(
    rt: &'r HostRuntime,
    words: &Words<'_>,
) -> Result<Option<Reporter<'r>>, AllocError> {
    match words {
        Words::Run(run) => Reporter::asked(rt, run),
        _ => Ok(None),
    }
}

/// Reads the inputs that the words name, each by its name, in the order of their command.
fn read_asked<'a, 'w>(
    rt: &HostRuntime,
    teller: &Teller<'_>,
    words: &'a Words<'w>,
) -> Result<Asked<'a, 'w>, CommandRefusal<'w>>
    requires answering { IsAnswering words.now }
    ensures asked { IfOk result (IsAskedBy words.entry.now) }
    ensures unread { IfErr result (IsUnreadFor words.entry.now) }
{
    match words {
        Words::Show(words) => {
            let feed = read_input(rt, &Untold, InputName::of_word(words.feed))?;
            Ok(Asked::Show(words, feed))
        }
        Words::Step(words) => {
            let inputs = read_step(rt, &Untold, words.feed_form, words.workflow, &words.feeds)?;
            Ok(Asked::Step(inputs))
        }
        Words::Run(words) => {
            let course = course_of(words);
            let form = words.feed_form;
            let until = &words.until;
            let inputs = read_run(rt, course, form, words.workflow, &words.feeds, until)?;
            Ok(Asked::Run(inputs))
        }
        Words::Save(words) => {
            let step = &words.step;
            let inputs = read_step(rt, &Untold, step.feed_form, step.workflow, &step.feeds)?;
            Ok(Asked::Save(words.strict, inputs))
        }
        Words::Resume(words) => {
            let step = &words.step;
            let inputs = read_resume(
                rt,
                teller,
                step.feed_form,
                words.checkpoint,
                step.workflow,
                &step.feeds,
            )?;
            Ok(Asked::Resume(inputs))
        }
        Words::Join(words) => {
            let inputs = read_join(rt, teller, words.feed_form, &files_of(words))?;
            Ok(Asked::Join(inputs))
        }
        Words::Vdiff(words) => Ok(Asked::Vdiff(read_vdiff(rt, teller, words)?)),
        Words::Check(words) => Ok(Asked::Check(read_check(rt, teller, words)?)),
        Words::Tiles(words) => Ok(Asked::Tiles(read_files(rt, &words.workflows)?)),
        Words::Status(words) => Ok(Asked::Status(read_status(rt, words)?)),
        Words::Compact(words) => Ok(Asked::Compact(read_compact(rt, teller, words)?)),
        Words::Feed(words) => Ok(Asked::Feed(read_feed(rt, words)?)),
        _ => unreachable!(),
    }
}

/// The files that the words of `join` name.
pub(crate) fn files_of<'n, 'w>(words: &'n Join<'w>) -> JoinFiles<'n, 'w>
    ensures workflow { result.workflow ≡ words.entry.now.workflow }
    ensures checkpoints { (result.one ≡ words.entry.now.one) × (result.other ≡ words.entry.now.other) × (result.more.now ≡ words.entry.now.more.items) }
    ensures feeds { result.feeds.now ≡ words.entry.now.feeds.items }
{
    JoinFiles {
        workflow: words.workflow,
        one: words.one,
        other: words.other,
        more: &words.more,
        feeds: &words.feeds,
    }
}

/// Prints on the standard streams what the command makes of its inputs; nothing more is told then of how far it is.
fn print_answer<T: Threads + Wait + Sync, G: Progress + Sync>(
    rt: &HostRuntime,
    threads: &T,
    teller: &Teller<'_>,
    gate: &G,
    asked: &Asked<'_, '_>,
) -> u8
    ensures status { (result ≤ 1) ⊎ (result ≡ 3) }
{
    let (out, err) = (Writer::new(rt.stdout()), Writer::new(rt.stderr()));
    answer(
        threads,
        rt.alloc(),
        gate,
        asked,
        teller,
        &mut Hushing { teller, out },
        &mut Hushing { teller, out: err },
    )
}

/// Prints on `out` what the command makes of its inputs, or a refusal's line on `err`.
fn answer<T: Threads + Wait + Sync, G: Progress + Sync, M: Meter, W: Out, E: Out>(
    threads: &T,
    alloc: Global,
    gate: &G,
    asked: &Asked<'_, '_>,
    meter: &M,
    out: &mut W,
    err: &mut E,
) -> u8
    ensures status { (result ≤ 1) ⊎ (result ≡ 3) }
    ensures ends { AnswerEnds asked.now result (W.written out.old) (W.written out.new) (E.written err.old) (E.written err.new) }
{
    match asked {
        Asked::Show(words, feed) => show_feed(alloc, words, feed, out, err),
        Asked::Step(inputs) => step(alloc, inputs, out, err),
        Asked::Run(inputs) => run(threads, alloc, inputs, gate, out, err),
        Asked::Save(strict, inputs) => save(alloc, inputs, *strict, out, err),
        Asked::Resume(inputs) => resume(alloc, inputs, meter, out, err),
        Asked::Join(inputs) => join(alloc, inputs, meter, out, err),
        Asked::Vdiff(inputs) => compare(alloc, inputs, meter, out, err),
        Asked::Check(inputs) => report(alloc, inputs, meter, out, err),
        Asked::Tiles(inputs) => tile(alloc, inputs, out, err),
        Asked::Status(inputs) => state(alloc, inputs, out, err),
        Asked::Compact(inputs) => compact(alloc, inputs, meter, out, err),
        Asked::Feed(inputs) => feed(alloc, inputs, out, err),
    }
}
