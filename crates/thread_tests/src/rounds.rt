//! Rounds in threads and without: boards of two and of four streams, streams that are refused, feeds that go on, and want of
//! memory.

ghost use Rattle.std.specs.Prelude.{◌≤◌, IfOk, length};

use crate::feeds::{
    FOUR, FOURTH_KEY, LOWER, OF_FOUR, SAME_KEY, TENS, TWENTIES, UPPER, WORKFLOW, XS, open_feeds,
};
use apply_core::{FedBoard, Policy, StepRefusal, save};
use filter_rule::Plan;
use std::alloc::{AllocError, Global};
use std::sync::{Arc, Wait};
use std::test::*;
use std::thread::Threads;
use stream_core::Step;
use vrepl_choices::Threading;
use worker_rounds::run_round;

/// Both ways in which streams go on.
const WAYS: [Threading; 2] = [Threading::Alone, Threading::Parallel];

/// The plans of a workflow. Any error is want of memory.
fn plans_of(alloc: Global, workflow: &[u8]) -> Result<Vec<Arc<Plan>>, AllocError>
    ensures some { IfOk result (λ plans. 1 ≤ length plans.items) }
    ensures few { IfOk result (λ plans. length plans.items ≤ 64) }
{
    let Ok(plans) = Plan::read_all(alloc, workflow) else {
        return Err(AllocError);
    };
    if plans.is_empty() || plans.len() > 64 {
        return Err(AllocError);
    }
    Ok(plans)
}

/// The board of a workflow's streams over their feeds, of which nothing is read.
fn fresh<'h>(
    alloc: Global,
    workflow: &[u8],
    bytes: &[&'h [u8]],
) -> Result<FedBoard<'h>, AllocError> {
    let plans = plans_of(alloc, workflow)?;
    let Some(feeds) = open_feeds(alloc, &plans, bytes) else {
        return Err(AllocError);
    };
    match FedBoard::new(alloc, plans, feeds) {
        Ok(fed) => Ok(fed),
        Err(_) => Err(AllocError),
    }
}

/// The same, whose streams have copied all: no row.
fn copied<'h>(
    alloc: Global,
    workflow: &[u8],
    bytes: &[&'h [u8]],
) -> Result<FedBoard<'h>, AllocError> {
    let mut fed = fresh(alloc, workflow, bytes)?;
    let mut s: u8 = 0;
    for _feed in bytes {
        for step in [Step::OpenAt(0), Step::CopyRows(1)] {
            if fed.take_step(alloc, s, step).is_err() {
                return Err(AllocError);
            }
        }
        s = s.saturating_add(1);
    }
    Ok(fed)
}

/// What a round answered of a stream: that it has come to its feed's end, that it hasn't, or the number that it is
/// refused with.
fn number_of(answer: &Result<bool, StepRefusal>) -> u8 {
    match answer {
        Ok(true) => 1,
        Ok(false) => 0,
        Err(refusal) => refusal.number(),
    }
}

/// Whether a round answers so.
fn answers<R: Threads + Wait + Sync>(
    rt: &R,
    alloc: Global,
    threading: Threading,
    fed: &mut FedBoard<'_>,
    most: u32,
    wanted: &[u8],
) -> Result<bool, AllocError> {
    let answers = run_round(rt, alloc, threading, fed, most)?;
    for (answer, number) in answers.iter().zip(wanted) {
        if number_of(answer) != *number {
            return Ok(false);
        }
    }
    Ok(answers.len() == wanted.len())
}

/// Whether each stream has applied so many groups.
fn have_applied(fed: &FedBoard<'_>, wanted: &[u32]) -> bool {
    let mut s: u8 = 0;
    for count in wanted {
        match fed.state(s) {
            Ok(at) if at.applied() == *count => {}
            _ => return false,
        }
        s = s.saturating_add(1);
    }
    true
}

/// The checkpoint of a run of one stream after another to their feeds' ends.
fn ran(alloc: Global, workflow: &[u8], bytes: &[&[u8]]) -> Result<Vec<u8>, AllocError> {
    let mut fed = copied(alloc, workflow, bytes)?;
    let Some(policy) = Policy::new(1, 1, 1) else {
        return Err(AllocError);
    };
    match fed.run(alloc, &policy) {
        Ok(()) => save(alloc, fed.board()),
        Err(_) => Err(AllocError),
    }
}

/// Whether rounds of so many groups end in the board of such a run, and the last one answers that all have ended.
fn ends_as_a_run<R: Threads + Wait + Sync>(
    rt: &R,
    alloc: Global,
    threading: Threading,
    workflow: &[u8],
    bytes: &[&[u8]],
    most: u32,
) -> Result<bool, AllocError> {
    let mut fed = copied(alloc, workflow, bytes)?;
    for _ in 0..4 {
        run_round(rt, alloc, threading, &mut fed, most)?;
    }
    let ended = [1; 4];
    if !answers(
        rt,
        alloc,
        threading,
        &mut fed,
        most,
        &ended[..bytes.len().min(4)],
    )? {
        return Ok(false);
    }
    let saved = save(alloc, fed.board())?;
    Ok(saved == ran(alloc, workflow, bytes)?)
}

#[test]
fn two_streams_have_the_rows_of_a_run(rt: HostRuntime) -> Result<(), Fail> {
    for threading in WAYS {
        for most in [1, 2, 1_000] {
            assert!(rt; ends_as_a_run(&rt, rt.alloc(), threading, WORKFLOW, &[FOUR, UPPER], most)?);
        }
    }
    Ok(())
}

#[test]
fn four_streams_have_the_rows_of_a_run(rt: HostRuntime) -> Result<(), Fail> {
    let bytes = [LOWER, TENS, TWENTIES, FOURTH_KEY];
    for threading in WAYS {
        for most in [1, 2, u32::MAX] {
            assert!(rt; ends_as_a_run(&rt, rt.alloc(), threading, OF_FOUR, &bytes, most)?);
        }
    }
    Ok(())
}

/// Whether streams of four and two groups go on by one and by two groups, and not by none.
fn goes_on_by_most<R: Threads + Wait + Sync>(
    rt: &R,
    alloc: Global,
    threading: Threading,
) -> Result<bool, AllocError> {
    let mut fed = copied(alloc, WORKFLOW, &[FOUR, UPPER])?;
    Ok(
        answers(rt, alloc, threading, &mut fed, 0, &[0, 0])?
            && have_applied(&fed, &[0, 0])
            && answers(rt, alloc, threading, &mut fed, 1, &[0, 0])?
            && have_applied(&fed, &[1, 1])
            && answers(rt, alloc, threading, &mut fed, 2, &[0, 1])?
            && have_applied(&fed, &[3, 2]),
    )
}

#[test]
fn streams_go_on_by_so_many_groups(rt: HostRuntime) -> Result<(), Fail> {
    for threading in WAYS {
        assert!(rt; goes_on_by_most(&rt, rt.alloc(), threading)?);
    }
    Ok(())
}

/// Whether a stream stops alone, by this number, with this many groups applied, and the first one goes on to its end. Its
/// first group was applied before.
fn stops_alone<R: Threads + Wait + Sync>(
    rt: &R,
    alloc: Global,
    threading: Threading,
    second: &[u8],
    number: u8,
) -> Result<bool, AllocError> {
    let mut fed = copied(alloc, WORKFLOW, &[FOUR, second])?;
    for step in [Step::Offer(1), Step::Advance] {
        if fed.take_step(alloc, 0, step).is_err() {
            return Err(AllocError);
        }
    }
    Ok(
        answers(rt, alloc, threading, &mut fed, 2, &[0, number])?
            && have_applied(&fed, &[3, 0])
            && answers(rt, alloc, threading, &mut fed, 2, &[1, number])?
            && have_applied(&fed, &[4, 0]),
    )
}

#[test]
fn a_stream_that_meets_a_row_stops_alone(rt: HostRuntime) -> Result<(), Fail> {
    for threading in WAYS {
        assert!(rt; stops_alone(&rt, rt.alloc(), threading, SAME_KEY, 71)?);
    }
    Ok(())
}

#[test]
fn a_stream_of_an_unsound_feed_stops_alone(rt: HostRuntime) -> Result<(), Fail> {
    for threading in WAYS {
        assert!(rt; stops_alone(&rt, rt.alloc(), threading, XS, 90)?);
    }
    Ok(())
}

/// Whether streams at their feeds' ends go on where the first feed has more groups.
fn goes_on_with_more<R: Threads + Wait + Sync>(
    rt: &R,
    alloc: Global,
    threading: Threading,
) -> Result<bool, AllocError> {
    let mut fed = copied(alloc, WORKFLOW, &[LOWER, UPPER])?;
    if !answers(rt, alloc, threading, &mut fed, 10, &[1, 1])? {
        return Ok(false);
    }
    let saved = save(alloc, fed.board())?;
    let plans = plans_of(alloc, WORKFLOW)?;
    let Some(feeds) = open_feeds(alloc, &plans, &[FOUR, UPPER]) else {
        return Err(AllocError);
    };
    let Ok(mut longer) = FedBoard::resume(alloc, &plans, feeds, &saved) else {
        return Err(AllocError);
    };
    if !answers(rt, alloc, threading, &mut longer, 10, &[1, 1])?
        || !have_applied(&longer, &[4, 2])
    {
        return Ok(false);
    }
    let saved = save(alloc, longer.board())?;
    Ok(saved == ran(alloc, WORKFLOW, &[FOUR, UPPER])?)
}

#[test]
fn a_board_goes_on_with_more_groups(rt: HostRuntime) -> Result<(), Fail> {
    for threading in WAYS {
        assert!(rt; goes_on_with_more(&rt, rt.alloc(), threading)?);
    }
    Ok(())
}

/// Whether a round without memory leaves the board as it stood, or tells of each stream that it went on or wants memory;
/// and further rounds end as a run.
fn keeps_the_board<R: Threads + Wait + Sync>(
    rt: &R,
    alloc: Global,
    threading: Threading,
) -> Result<bool, AllocError> {
    let bytes = [FOUR, UPPER];
    let mut fed = copied(alloc, WORKFLOW, &bytes)?;
    let before = save(alloc, fed.board())?;
    match run_round(rt, alloc, threading, &mut fed, 1) {
        Err(_) => {
            let after = save(alloc, fed.board())?;
            if after != before {
                return Ok(false);
            }
        }
        Ok(answers) => {
            for answer in &answers {
                if number_of(answer) != 0 && number_of(answer) != 72 {
                    return Ok(false);
                }
            }
        }
    }
    for _ in 0..2 {
        run_round(rt, alloc, threading, &mut fed, 10)?;
    }
    let saved = save(alloc, fed.board())?;
    Ok(saved == ran(alloc, WORKFLOW, &bytes)?)
}

/// It stands for one run for each growth that it asks for, in which that growth is refused.
#[test]
fn a_round_without_memory_keeps_the_board(rt: HostRuntime) -> Result<(), Fail> {
    for threading in WAYS {
        assert!(rt; keeps_the_board(&rt, rt.alloc(), threading)?);
    }
    Ok(())
}
