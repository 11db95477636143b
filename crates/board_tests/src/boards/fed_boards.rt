//! Boards with their feeds: steps by the numbers of their streams, lists of steps, and runs.

use crate::boards::feeds::{Change, Source};
use crate::boards::setup::{ONE, TWO, feeds_of, made, plans_of};
use crate::boards::shown::{Stand, shows, stands};
use apply_core::{Answer, Copied, FedBoard, Offered, Policy, StepRefusal};
use std::alloc::Global;
use std::test::*;
use stream_core::{Phase, Step};

/// Two groups: a new row; it is changed and another one comes.
const ROWS: &[&[Change]] = &[
    &[(None, Some((1, b'a')))],
    &[(Some((1, b'a')), Some((1, b'b'))), (None, Some((2, b'c')))],
];

/// A group of one new row.
const OTHERS: &[&[Change]] = &[&[(None, Some((11, b'k')))]];

/// A group of a row that the first feed has too.
const FOREIGN: &[&[Change]] = &[&[(None, Some((1, b'z')))]];

/// The board of two streams over the feeds of these bytes, of which nothing is read.
fn fresh<'h>(alloc: Global, bytes: &'h [Vec<u8>]) -> Option<FedBoard<'h>> {
    let plans = plans_of(alloc, TWO)?;
    let feeds = feeds_of(alloc, TWO, bytes)?;
    if plans.is_empty() || plans.len() > 64 {
        return None;
    }
    match FedBoard::new(alloc, plans, feeds) {
        Ok(fed) => Some(fed),
        Err(_) => None,
    }
}

/// The first group is read.
const READ: Result<Answer, u8> = Ok(Answer::Offered(Offered::Read(1)));

/// Steps, and what each answers or is refused with.
const STEPS: [(u8, Step, Result<Answer, u8>); 9] = [
    (2, Step::Restart, Err(115)),
    (2, Step::Offer(9), Err(115)),
    (0, Step::Offer(9), Err(91)),
    (0, Step::Offer(2), Err(101)),
    (0, Step::Offer(1), READ),
    (0, Step::Offer(1), Ok(Answer::Offered(Offered::Repeat(1)))),
    (0, Step::Advance, Ok(Answer::Applied(1))),
    (0, Step::OpenAt(1), Ok(Answer::Opened(1))),
    (
        0,
        Step::CopyRows(5),
        Ok(Answer::Copied(Copied {
            rows: 1,
            done: true,
        })),
    ),
];

/// Whether each step answers so, and the board then shows the first feed's row.
fn take_each(alloc: Global, mut fed: FedBoard<'_>) -> bool {
    for (s, step, wanted) in &STEPS {
        if !is_reply(&fed.take_step(alloc, *s, *step), wanted) {
            return false;
        }
    }
    let Ok(Some(_)) = fed.position(0) else {
        return false;
    };
    let Ok(None) = fed.position(1) else {
        return false;
    };
    stands(fed.board(), 0, (Phase::Running, 1, 1, None, 1)) && shows(alloc, fed.board(), b"1a;")
}

/// The same over two feeds.
fn steps_by_number(alloc: Global) -> bool {
    let Some(bytes) = made(alloc, &[(b'2', ROWS), (b'3', OTHERS)]) else {
        return false;
    };
    match fresh(alloc, &bytes) {
        Some(fed) => take_each(alloc, fed),
        None => false,
    }
}

#[test]
fn steps_are_taken_by_the_number_of_their_stream(rt: HostRuntime) {
    assert!(rt; steps_by_number(rt.alloc()));
}

/// Whether a step replied so: an answer, or the number that it is refused with.
fn is_reply(reply: &Result<Answer, StepRefusal>, wanted: &Result<Answer, u8>) -> bool {
    match (reply, wanted) {
        (Ok(answer), Ok(wanted)) => answer == wanted,
        (Err(refusal), Err(number)) => refusal.number() == *number,
        _ => false,
    }
}

/// The same of each step of a list.
fn are_replies(replies: &[Result<Answer, StepRefusal>], all: &[Result<Answer, u8>]) -> bool {
    for (reply, wanted) in replies.iter().zip(all) {
        if !is_reply(reply, wanted) {
            return false;
        }
    }
    replies.len() == all.len()
}

/// Whether a list goes on behind a refusal, and its board is the same when it is taken apart and put together.
fn take_list(alloc: Global, mut fed: FedBoard<'_>) -> bool {
    let steps = [(1, Step::Offer(1)), (7, Step::Close)];
    match fed.take_steps(alloc, &steps) {
        Ok(replies) if are_replies(&replies, &[READ, Err(115)]) => {}
        _ => return false,
    }
    let (board, feeds) = fed.into_parts();
    let fed = FedBoard::from_parts(board, feeds);
    match fed.state(1) {
        Ok(cursor) => cursor.read() == 1 && cursor.applied() == 0 && fed.feeds().len() == 2,
        Err(_) => false,
    }
}

/// The same over two feeds.
fn list_by_number(alloc: Global) -> bool {
    let Some(bytes) = made(alloc, &[(b'2', ROWS), (b'3', OTHERS)]) else {
        return false;
    };
    match fresh(alloc, &bytes) {
        Some(fed) => take_list(alloc, fed),
        None => false,
    }
}

#[test]
fn lists_of_steps_go_on_behind_a_refusal(rt: HostRuntime) {
    assert!(rt; list_by_number(rt.alloc()));
}

/// How a run over two sources ends, in portions of one: the number that it is refused with, or 0; and what the
/// board then shows of its first stream and of its rows.
type Ended<'c> = (&'c [&'c [Change]], u8, Stand, &'c [u8]);

/// Whether the board's run ends so.
fn is_ended(alloc: Global, mut fed: FedBoard<'_>, wanted: &Ended<'_>) -> bool {
    let Some(policy) = Policy::new(1, 1, 1) else {
        return false;
    };
    let number = match fed.run(alloc, &policy) {
        Ok(()) => 0,
        Err(refusal) => refusal.number(),
    };
    number == wanted.1 && stands(fed.board(), 0, wanted.2) && shows(alloc, fed.board(), wanted.3)
}

/// The same of two sources.
fn ends_so(alloc: Global, wanted: &Ended<'_>) -> bool {
    let sources: [Source<'_>; 2] = [(b'2', ROWS), (b'3', wanted.0)];
    let Some(bytes) = made(alloc, &sources) else {
        return false;
    };
    match fresh(alloc, &bytes) {
        Some(fed) => is_ended(alloc, fed, wanted),
        None => false,
    }
}

/// At the feeds' ends the target has the rows of both; a row in the way ends the run, and what was done stays.
const ENDS: [Ended<'static>; 2] = [
    (OTHERS, 0, (Phase::Running, 2, 2, None, 1), b"1b;2c;11k;"),
    (FOREIGN, 71, (Phase::Running, 2, 2, None, 1), b"1b;2c;"),
];

/// The same of each.
fn all_end_so(alloc: Global) -> bool {
    for wanted in &ENDS {
        if !ends_so(alloc, wanted) {
            return false;
        }
    }
    true
}

#[test]
fn runs_end_at_the_feeds_ends_or_keep_what_is_done(rt: HostRuntime) {
    assert!(rt; all_end_so(rt.alloc()));
}

/// Whether a board of two plans with one feed is refused 119.
fn wants_a_feed_each(alloc: Global) -> bool {
    let Some(bytes) = made(alloc, &[(b'2', ROWS)]) else {
        return false;
    };
    let Some(plans) = plans_of(alloc, TWO) else {
        return false;
    };
    let Some(feeds) = feeds_of(alloc, ONE, &bytes) else {
        return false;
    };
    if plans.is_empty() || plans.len() > 64 {
        return false;
    }
    match FedBoard::new(alloc, plans, feeds) {
        Ok(_) => false,
        Err(refusal) => refusal.number() == 119,
    }
}

#[test]
fn a_board_has_a_feed_for_each_plan(rt: HostRuntime) {
    assert!(rt; wants_a_feed_each(rt.alloc()));
}
