//! Lists of steps on two streams, in either order, and over feeds that aren't theirs.

use crate::boards::feeds::Source;
use crate::boards::own_rows::{all_have_rows, all_prepared, show_alike};
use crate::boards::setup::{THREE, TWO, feeds_of, made, run};
use crate::boards::shown::shows;
use apply_core::{Answer, Board, Copied, Offered, StepRefusal};
use source_feed::Feed;
use std::alloc::Global;
use std::test::*;
use stream_core::Step;

/// A list of steps and what each answers.
type Answered = ([(u8, Step); 10], [Answer; 10]);

const READ: Answer = Answer::Offered(Offered::Read(1));

const READ_NEXT: Answer = Answer::Offered(Offered::Read(2));

const APPLIED: Answer = Answer::Applied(1);

const OPENED: Answer = Answer::Opened(1);

const COPIED: Answer = Answer::Copied(Copied {
    rows: 1,
    done: true,
});

/// The steps of stream 0 and then those of stream 1.
const AFTER: Answered = (
    [
        (0, Step::Offer(1)),
        (0, Step::Advance),
        (0, Step::OpenAt(1)),
        (0, Step::CopyRows(1)),
        (0, Step::Offer(2)),
        (1, Step::Offer(1)),
        (1, Step::Advance),
        (1, Step::OpenAt(1)),
        (1, Step::CopyRows(1)),
        (1, Step::Offer(2)),
    ],
    [
        READ, APPLIED, OPENED, COPIED, READ_NEXT, READ, APPLIED, OPENED, COPIED, READ_NEXT,
    ],
);

/// Each stream's steps in turn.
const IN_TURN: Answered = (
    [
        (0, Step::Offer(1)),
        (1, Step::Offer(1)),
        (0, Step::Advance),
        (1, Step::Advance),
        (0, Step::OpenAt(1)),
        (1, Step::OpenAt(1)),
        (0, Step::CopyRows(1)),
        (1, Step::CopyRows(1)),
        (0, Step::Offer(2)),
        (1, Step::Offer(2)),
    ],
    [
        READ, READ, APPLIED, APPLIED, OPENED, OPENED, COPIED, COPIED, READ_NEXT, READ_NEXT,
    ],
);

/// Whether these are the replies.
fn are_answers(replies: &[Result<Answer, StepRefusal>], wanted: &[Answer]) -> bool {
    for (reply, answer) in replies.iter().zip(wanted) {
        match reply {
            Ok(given) if given == answer => {}
            _ => return false,
        }
    }
    replies.len() == wanted.len()
}

/// The board behind the steps, each of which is answered as it should be.
fn board_of_answers<'h>(
    alloc: Global,
    feeds: &[Feed<'h>],
    answered: &Answered,
) -> Option<Board<'h>> {
    match run(alloc, TWO, feeds, &answered.0) {
        Ok((board, replies)) if are_answers(&replies, &answered.1) => Some(board),
        _ => None,
    }
}

/// Whether each stream of a board has the definition's rows of its feed.
fn feeds_have_rows<'h>(alloc: Global, board: &Board<'h>, feeds: &[Feed<'h>]) -> bool {
    match all_prepared(alloc, feeds) {
        Some(lists) => all_have_rows(alloc, board, &lists),
        None => false,
    }
}

/// Whether the steps lead to one board of two rows in either order, and these are the definition's.
fn agree_in_either_order<'h>(alloc: Global, feeds: &[Feed<'h>]) -> bool {
    let Some(one) = board_of_answers(alloc, feeds, &AFTER) else {
        return false;
    };
    let Some(other) = board_of_answers(alloc, feeds, &IN_TURN) else {
        return false;
    };
    show_alike(alloc, &one, &other)
        && shows(alloc, &one, b"1a;11k;")
        && feeds_have_rows(alloc, &one, feeds)
}

/// Two groups of one new row each.
const FEEDS: [Source<'static>; 2] = [
    (
        b'2',
        &[&[(None, Some((1, b'a')))], &[(None, Some((2, b'b')))]],
    ),
    (
        b'3',
        &[&[(None, Some((11, b'k')))], &[(None, Some((12, b'l')))]],
    ),
];

/// The same of these feeds.
fn two_feeds_agree(alloc: Global) -> bool {
    let Some(bytes) = made(alloc, &FEEDS) else {
        return false;
    };
    match feeds_of(alloc, TWO, &bytes) {
        Some(feeds) => agree_in_either_order(alloc, &feeds),
        None => false,
    }
}

#[test]
fn two_streams_in_either_order(rt: HostRuntime) {
    assert!(rt; two_feeds_agree(rt.alloc()));
}

/// Whether a list of no steps is refused with this number, or, for 0, isn't.
fn is_refused(alloc: Global, workflow: &[u8], feeds: &[Feed<'_>], wanted: u8) -> bool {
    match run(alloc, workflow, feeds, &[]) {
        Ok(_) => wanted == 0,
        Err(number) => wanted != 0 && number == wanted,
    }
}

/// Whether feeds of two plans are taken by these, refused by three, and refused the other way round.
fn are_judged<'h>(alloc: Global, mut feeds: Vec<Feed<'h>>) -> bool {
    let judged = is_refused(alloc, TWO, &feeds, 0) && is_refused(alloc, THREE, &feeds, 119);
    feeds.reverse();
    judged && is_refused(alloc, TWO, &feeds, 111)
}

/// The same of two empty feeds.
fn empty_feeds_are_judged(alloc: Global) -> bool {
    let Some(bytes) = made(alloc, &[(b'2', &[]), (b'3', &[])]) else {
        return false;
    };
    match feeds_of(alloc, TWO, &bytes) {
        Some(feeds) => are_judged(alloc, feeds),
        None => false,
    }
}

#[test]
fn feeds_of_other_plans(rt: HostRuntime) {
    assert!(rt; empty_feeds_are_judged(rt.alloc()));
}
