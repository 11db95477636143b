//! Scripts, and workflows opened with their feeds.

use crate::commands::feeds::{LOWER, TWO, UPPER, feeds_of};
use std::alloc::{AllocError, Global};
use std::test::Fail;
use step_script::{ScriptFault, ScriptStep, read_script};
use stream_core::Step;
use vrepl_choices::FeedForm;
use vrepl_main::{CommandRefusal, GivenFeed, given_feeds, open_workflow};

/// A line for each step, with comments, blanks, tabs, zeros in front, both ends of lines, and no last one.
const ALL_STEPS: &[u8] = b"# none\n\r\n \t offer\t007  1 \t\r\n#\nadvance 0\nopen 1 2\n\
    copy 4294967295 4294967295\nclose 0\n\nrestart 0\nstate 3\ndump";

/// The steps of that script, as `numbers_of` has them.
const ITS_STEPS: [[u32; 3]; 8] = [
    [1, 7, 1],
    [2, 0, 0],
    [3, 1, 2],
    [4, u32::MAX, u32::MAX],
    [5, 0, 0],
    [6, 0, 0],
    [7, 3, 0],
    [8, 0, 0],
];

/// A stream's step: which of the six, and its number or 0.
fn kind_of(step: &Step) -> (u32, u32) {
    match step {
        Step::Offer(group) => (1, *group),
        Step::Advance => (2, 0),
        Step::OpenAt(group) => (3, *group),
        Step::CopyRows(rows) => (4, *rows),
        Step::Close => (5, 0),
        Step::Restart => (6, 0),
    }
}

/// Which of the eight steps of scripts it is, its stream or 0, and its other number or 0.
fn numbers_of(step: &ScriptStep) -> [u32; 3] {
    match step {
        ScriptStep::Take { stream, step } => {
            let (kind, number) = kind_of(step);
            [kind, *stream, number]
        }
        ScriptStep::State { stream } => [7, *stream, 0],
        ScriptStep::Dump => [8, 0, 0],
    }
}

/// These are the steps of that script.
fn are_its_steps(steps: &[ScriptStep]) -> bool {
    let mut left = ITS_STEPS.iter();
    for step in steps {
        match left.next() {
            Some(wanted) if *wanted == numbers_of(step) => {}
            _ => return false,
        }
    }
    left.next().is_none()
}

/// All steps are read; an error where memory was wanting.
fn reads_all_steps(alloc: Global) -> Result<bool, AllocError> {
    match read_script(alloc, ALL_STEPS) {
        Ok(steps) => Ok(are_its_steps(&steps)),
        Err(ScriptFault::Memory) => Err(AllocError),
        Err(ScriptFault::BadLine(_)) => Ok(false),
    }
}

#[test]
fn script_words(rt: HostRuntime) -> Result<(), Fail> {
    assert!(rt; reads_all_steps(rt.alloc())?);
    Ok(())
}

/// How many plans and feeds are opened, and how many groups there are in the last feed: none where the number
/// of feeds is wrong; an error where memory was wanting.
fn opened(alloc: Global, given: &[GivenFeed<'_>]) -> Result<[usize; 3], AllocError> {
    match open_workflow(alloc, TWO.as_bytes(), given) {
        Ok(opened) => {
            let groups = opened.feeds.last().map_or(0, |feed| feed.len());
            Ok([opened.plans.len(), opened.feeds.len(), groups])
        }
        Err(CommandRefusal::Memory) => Err(AllocError),
        Err(_) => Ok([0, 0, 0]),
    }
}

/// These feeds are opened as this.
fn opens(alloc: Global, feeds: &[&str], wanted: [usize; 3]) -> Result<bool, AllocError> {
    let feeds = feeds_of(alloc, feeds)?;
    let given = given_feeds(alloc, FeedForm::Hex, &feeds)?;
    Ok(opened(alloc, &given)? == wanted)
}

#[test]
fn workflow_with_its_feeds(rt: HostRuntime) -> Result<(), Fail> {
    assert!(rt; opens(rt.alloc(), &[LOWER, UPPER], [2, 2, 2])?);
    assert!(rt; opens(rt.alloc(), &[LOWER], [0, 0, 0])?);
    Ok(())
}
