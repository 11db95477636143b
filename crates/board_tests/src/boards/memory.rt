//! Calls that find no memory: they say so and change nothing, and the same call is then answered as it would have
//! been. What isn't allowed is refused as such whatever memory there is. Each test stands for one run for each growth that it asks for, in which that growth is refused.

use crate::boards::alike::is_same;
use crate::boards::feeds::{Change, Source};
use crate::boards::setup::{ONE, TWO, board_of, feeds_of, made};
use apply_core::{Answer, Board, Copied, JoinRefusal, Offered, join};
use source_feed::Feed;
use std::alloc::{AllocError, Global};
use std::test::*;
use stream_core::Step;

/// Three groups: three new rows; one changed and one new; one that goes.
pub(crate) const THREE_GROUPS: &[&[Change]] = &[
    &[
        (None, Some((1, b'a'))),
        (None, Some((2, b'b'))),
        (None, Some((3, b'c'))),
    ],
    &[(Some((1, b'a')), Some((1, b'x'))), (None, Some((4, b'd')))],
    &[(Some((2, b'b')), None)],
];

/// Two groups of one new row each, at other keys.
pub(crate) const OTHERS: &[&[Change]] = &[&[(None, Some((11, b'k')))], &[(None, Some((12, b'l')))]];

/// A step of the first stream, and what it answers.
type Taken = (Step, Answer);

/// A step that the first stream isn't allowed, and the number by which it is refused.
type Refused = (Step, u8);

/// What isn't allowed before a group is read.
const BEFORE_ALL: [Refused; 3] = [
    (Step::Advance, 102),
    (Step::OpenAt(1), 107),
    (Step::CopyRows(3), 108),
];

/// Steps up to a snapshot.
const TO_A_SNAPSHOT: [Taken; 4] = [
    (Step::Offer(1), Answer::Offered(Offered::Read(1))),
    (Step::Advance, Answer::Applied(1)),
    (Step::Offer(2), Answer::Offered(Offered::Read(2))),
    (Step::OpenAt(2), Answer::Opened(2)),
];

/// What isn't allowed before the snapshot is reached.
const BEFORE_THE_SNAPSHOT: [Refused; 2] = [(Step::OpenAt(2), 105), (Step::CopyRows(3), 109)];

/// Steps that copy the table and follow its feed.
const COURSE: [Taken; 6] = [
    (Step::Advance, Answer::Applied(2)),
    (
        Step::CopyRows(3),
        Answer::Copied(Copied {
            rows: 3,
            done: false,
        }),
    ),
    (
        Step::CopyRows(3),
        Answer::Copied(Copied {
            rows: 1,
            done: true,
        }),
    ),
    (Step::Offer(3), Answer::Offered(Offered::Read(3))),
    (Step::Offer(1), Answer::Offered(Offered::Repeat(1))),
    (Step::Advance, Answer::Applied(3)),
];

/// Whether a step is answered so; an error where it finds no memory.
fn is_answered<'h>(
    alloc: Global,
    board: &mut Board<'h>,
    feeds: &[Feed<'h>],
    taken: &Taken,
) -> Result<bool, AllocError> {
    match board.take_step(alloc, feeds, 0, taken.0) {
        Ok(answer) => Ok(answer == taken.1),
        Err(refusal) if refusal.number() == 72 => Err(AllocError),
        Err(_) => Ok(false),
    }
}

/// A copy of a board, made again where the first call finds no memory.
pub(crate) fn copied<'h>(alloc: Global, board: &Board<'h>) -> Result<Board<'h>, AllocError> {
    match board.try_clone(alloc) {
        Ok(copy) => Ok(copy),
        Err(_) => board.try_clone(alloc),
    }
}

/// Whether a step is answered so, also where it found no memory before and left the board as it was.
fn is_taken<'h>(
    alloc: Global,
    board: &mut Board<'h>,
    feeds: &[Feed<'h>],
    taken: &Taken,
) -> Result<bool, AllocError> {
    let copy = copied(alloc, board)?;
    match is_answered(alloc, board, feeds, taken) {
        Ok(answered) => Ok(answered),
        Err(_) => { Ok(is_same(alloc, board, &copy)? && is_answered(alloc, board, feeds, taken)?) }
    }
}

/// Whether each step is.
fn are_taken<'h>(
    alloc: Global,
    board: &mut Board<'h>,
    feeds: &[Feed<'h>],
    steps: &[Taken],
) -> Result<bool, AllocError> {
    for taken in steps {
        if !is_taken(alloc, board, feeds, taken)? {
            return Ok(false);
        }
    }
    Ok(true)
}

/// Whether each step is refused as it is with ample memory.
fn are_refused<'h>(
    alloc: Global,
    board: &mut Board<'h>,
    feeds: &[Feed<'h>],
    steps: &[Refused],
) -> bool {
    for (step, number) in steps {
        match board.take_step(alloc, feeds, 0, *step) {
            Err(refusal) if refusal.number() == *number => {}
            _ => return false,
        }
    }
    true
}

/// Whether the last group of the first feed is refused 101 on a board of which nothing is read.
fn is_too_late<'h>(
    alloc: Global,
    board: &mut Board<'h>,
    feeds: &[Feed<'h>],
) -> Result<bool, AllocError> {
    let Some(feed) = feeds.first() else {
        return Ok(false);
    };
    let Ok(group) = feed.prepare(alloc, 3) else {
        return Err(AllocError);
    };
    match board.offer(alloc, 0, group) {
        Err(refusal) => Ok(refusal.number() == 101),
        Ok(_) => Ok(false),
    }
}

/// The board of a workflow over feeds of which nothing is read.
pub(crate) fn fresh<'h>(alloc: Global, workflow: &[u8]) -> Result<Board<'h>, AllocError> {
    match board_of(alloc, workflow) {
        Some(board) => Ok(board),
        None => Err(AllocError),
    }
}

/// The feeds of sources' bytes.
pub(crate) fn opened<'h>(
    alloc: Global,
    workflow: &[u8],
    bytes: &'h [Vec<u8>],
) -> Result<Vec<Feed<'h>>, AllocError> {
    match feeds_of(alloc, workflow, bytes) {
        Some(feeds) => Ok(feeds),
        None => Err(AllocError),
    }
}

/// The bytes of sources' feeds.
pub(crate) fn written(alloc: Global, sources: &[Source<'_>]) -> Result<Vec<Vec<u8>>, AllocError> {
    match made(alloc, sources) {
        Some(bytes) => Ok(bytes),
        None => Err(AllocError),
    }
}

/// Whether each step of a course over the three groups is so taken, and what isn't allowed on the way is refused.
fn course_is_taken(alloc: Global) -> Result<bool, AllocError> {
    let bytes = written(alloc, &[(b'2', THREE_GROUPS)])?;
    let feeds = opened(alloc, ONE, &bytes)?;
    let mut board = fresh(alloc, ONE)?;
    Ok(
        is_too_late(alloc, &mut board, &feeds)?
            && are_refused(alloc, &mut board, &feeds, &BEFORE_ALL)
            && are_taken(alloc, &mut board, &feeds, &TO_A_SNAPSHOT)?
            && are_refused(alloc, &mut board, &feeds, &BEFORE_THE_SNAPSHOT)
            && are_taken(alloc, &mut board, &feeds, &COURSE)?,
    )
}

#[test]
fn steps_without_memory(rt: HostRuntime) -> Result<(), Fail> {
    assert!(rt; course_is_taken(rt.alloc())?);
    Ok(())
}

/// Takes steps on a board; an error where one finds no memory.
pub(crate) fn brought<'h>(
    alloc: Global,
    mut board: Board<'h>,
    feeds: &[Feed<'h>],
    steps: &[(u8, Step)],
) -> Result<Board<'h>, AllocError> {
    for (s, step) in steps {
        if board.take_step(alloc, feeds, *s, *step).is_err() {
            return Err(AllocError);
        }
    }
    Ok(board)
}

/// The first stream within its table.
const FIRST_COPIES: &[(u8, Step)] = &[
    (0, Step::Offer(1)),
    (0, Step::Advance),
    (0, Step::OpenAt(1)),
    (0, Step::CopyRows(2)),
];

/// The second one behind its table.
const SECOND_IS_COPIED: &[(u8, Step)] = &[
    (1, Step::Offer(1)),
    (1, Step::Advance),
    (1, Step::OpenAt(1)),
    (1, Step::CopyRows(2)),
];

/// Whether boards that weren't joined for want of memory are as these copies, and are then joined as is wanted.
fn is_joined_again<'h>(
    alloc: Global,
    refusal: JoinRefusal<'h>,
    (one, other): (&Board<'h>, &Board<'h>),
    wanted: &Board<'h>,
) -> Result<bool, AllocError> {
    if refusal.why.number() != 72
        || !is_same(alloc, &refusal.a, one)?
        || !is_same(alloc, &refusal.b, other)?
    {
        return Ok(false);
    }
    match join(alloc, refusal.a, refusal.b) {
        Ok(board) => is_same(alloc, &board, wanted),
        Err(_) => Err(AllocError),
    }
}

/// Whether two boards are joined as is wanted, also where the first call found no memory.
fn is_joined<'h>(
    alloc: Global,
    a: Board<'h>,
    b: Board<'h>,
    wanted: &Board<'h>,
) -> Result<bool, AllocError> {
    let one = copied(alloc, &a)?;
    let other = copied(alloc, &b)?;
    match join(alloc, a, b) {
        Ok(board) => is_same(alloc, &board, wanted),
        Err(refusal) => is_joined_again(alloc, refusal, (&one, &other), wanted),
    }
}

/// Whether the two boards over these feeds, of each of which one stream copies, are.
fn copying_boards_are_joined<'h>(alloc: Global, feeds: &[Feed<'h>]) -> Result<bool, AllocError> {
    let a = brought(alloc, fresh(alloc, TWO)?, feeds, FIRST_COPIES)?;
    let b = brought(alloc, fresh(alloc, TWO)?, feeds, SECOND_IS_COPIED)?;
    let first = brought(alloc, fresh(alloc, TWO)?, feeds, FIRST_COPIES)?;
    let wanted = brought(alloc, first, feeds, SECOND_IS_COPIED)?;
    is_joined(alloc, a, b, &wanted)
}

/// The same over the feeds of two sources.
fn two_boards_are_joined(alloc: Global) -> Result<bool, AllocError> {
    let bytes = written(alloc, &[(b'2', THREE_GROUPS), (b'3', OTHERS)])?;
    let feeds = opened(alloc, TWO, &bytes)?;
    copying_boards_are_joined(alloc, &feeds)
}

#[test]
fn join_without_memory(rt: HostRuntime) -> Result<(), Fail> {
    assert!(rt; two_boards_are_joined(rt.alloc())?);
    Ok(())
}
