//! The step table: what a step of one stream of one table answers, or is refused with.

use std::test::*;
use stream_core::*;

/// The groups of a stream that are read and applied, and its open snapshot.
type Stand = (u32, u32, Option<u32>);

/// What a step answers and where the stream then stands, or the number that it is refused with.
type Wanted = Result<(CoreAnswer, Stand), u8>;

/// A stream of one table, of which nothing is copied.
fn copying((read, applied, snapshot): Stand) -> Option<Cursor> {
    match snapshot {
        Some(group) if group < applied || group > read => None,
        _ if applied > read => None,
        _ => Some(Cursor::new(read, applied, 1, 0, snapshot)),
    }
}

/// Whether a stream stands so.
fn stands(cursor: &Cursor, wanted: Stand) -> bool {
    cursor.read == wanted.0 && cursor.applied == wanted.1 && cursor.snapshot == wanted.2
}

/// Whether a step of a stream ends so.
fn is_decided(cursor: &Cursor, step: Step, wanted: Wanted) -> bool {
    match (decide(cursor, step), wanted) {
        (Ok(made), Ok((answer, then))) => made.answer == answer && stands(&made.cursor, then),
        (Err(refusal), Err(number)) => refusal.number() == number,
        _ => false,
    }
}

/// Whether each step ends as is wanted.
fn are_decided(table: &[(Stand, Step, Wanted)]) -> bool {
    for (stand, step, wanted) in table {
        let Some(cursor) = copying(*stand) else {
            return false;
        };
        if !is_decided(&cursor, *step, *wanted) {
            return false;
        }
    }
    true
}

/// Each step that may be refused of a stream that copies, and beside it one that isn't.
const TABLE: [(Stand, Step, Wanted); 16] = [
    // An offer that leaves a gap.
    ((2, 1, None), Step::Offer(4), Err(101)),
    (
        (2, 1, None),
        Step::Offer(3),
        Ok((CoreAnswer::Read(3), (3, 1, None))),
    ),
    (
        (2, 1, None),
        Step::Offer(2),
        Ok((CoreAnswer::Repeat(2), (2, 1, None))),
    ),
    // Nothing is read, or the snapshot is reached.
    ((2, 2, None), Step::Advance, Err(102)),
    (
        (2, 1, None),
        Step::Advance,
        Ok((CoreAnswer::Applied(2), (2, 2, None))),
    ),
    ((2, 2, Some(2)), Step::Advance, Err(103)),
    // A second snapshot, one behind what is applied, and one past what is read.
    ((2, 1, Some(1)), Step::OpenAt(0), Err(105)),
    ((2, 1, None), Step::OpenAt(0), Err(106)),
    (
        (2, 1, None),
        Step::OpenAt(1),
        Ok((CoreAnswer::Opened(1), (2, 1, Some(1)))),
    ),
    ((2, 1, None), Step::OpenAt(3), Err(107)),
    // No snapshot is open, or it isn't reached.
    ((2, 1, None), Step::CopyRows(5), Err(108)),
    ((2, 1, None), Step::Close, Err(108)),
    ((2, 1, Some(2)), Step::CopyRows(5), Err(109)),
    (
        (2, 2, Some(2)),
        Step::CopyRows(5),
        Ok((CoreAnswer::MayCopy(5), (2, 2, Some(2)))),
    ),
    // What is read ahead and the snapshot are forgotten.
    (
        (4, 1, Some(4)),
        Step::Restart,
        Ok((CoreAnswer::Restarted(1), (1, 1, None))),
    ),
    (
        (2, 1, Some(2)),
        Step::Close,
        Ok((CoreAnswer::Closed, (2, 1, None))),
    ),
];

#[test]
fn steps_of_a_stream_that_copies(rt: HostRuntime) {
    assert!(rt; are_decided(&TABLE));
}

/// Of a stream whose one table is copied.
#[test]
fn open_when_all_copied(rt: HostRuntime) {
    let running = Cursor::new(2, 1, 1, 1, None);
    assert!(rt;
        is_decided(&running, Step::OpenAt(1), Err(104)) && running.phase() == Phase::Running
    );
}

/// A stream whose one table is copied gets a second one: it stands where it stood, and copies again.
#[test]
fn more_tables(rt: HostRuntime) {
    let grown = Cursor::new(2, 1, 1, 1, None).with_tables(2);
    assert!(rt;
        grown.phase() == Phase::CatchUp
            && grown.tables == 2
            && grown.done == 1
            && stands(&grown, (2, 1, None))
    );
}

/// Whether a stream that copies is in this phase.
fn is_in(stand: Stand, phase: Phase) -> bool {
    match copying(stand) {
        Some(cursor) => cursor.phase() == phase,
        None => false,
    }
}

#[test]
fn phases_of_a_stream_that_copies(rt: HostRuntime) {
    assert!(rt;
        is_in((2, 1, None), Phase::CatchUp)
            && is_in((2, 1, Some(2)), Phase::FastForward)
            && is_in((2, 2, Some(2)), Phase::Copy)
    );
}
