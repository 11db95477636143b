//! The step table.

ghost use Rattle.std.specs.Prelude.{◌≡◌, Ok, IfOk, MatchResult};
ghost use Rattle.stream_core.specs.declared.step.Step.TheVariants.{Offer, Advance, OpenAt, CopyRows, Close, Restart};
ghost use Rattle.stream_core.specs.Standing.{IsSound};
ghost use Rattle.stream_core.specs.Rows.{NoneStands, StandsFirst};
ghost use Rattle.stream_core.specs.StepTable.{row_of, decided};

use crate::cursor::Cursor;
use crate::refusal::CoreRefusal;
use crate::step::{CoreAnswer, Move, Step};

/// What the step table says of a step: its answer and where the stream then stands, or the first
/// refusal of the step's row. For `CopyRows` the cursor is as it was. Takes no memory.
pub fn decide(cursor: &Cursor, step: Step) -> Result<Move, CoreRefusal>
    ensures decided { result ≡ decided cursor.now step }
    ensures in_order { let row = row_of cursor.now step in
        MatchResult result (λ made. NoneStands row.refusals × (made ≡ row.otherwise)) (StandsFirst row.refusals) }
    ensures sound { IfOk result (λ made. IsSound made.cursor) }
{
    match step {
        Step::Offer(number) => offer(cursor, number),
        Step::Advance => advance(cursor),
        Step::OpenAt(group) => open_at(cursor, group),
        Step::CopyRows(count) => copy_rows(cursor, count),
        Step::Close => close(cursor),
        Step::Restart => Ok(restart(cursor)),
    }
}

/// The group of this number is read.
fn offer(cursor: &Cursor, number: u32) -> Result<Move, CoreRefusal>
    ensures { result ≡ decided cursor.now (Offer number) }
{
    let read = cursor.read;
    if number > read && number - read > 1 {
        return Err(CoreRefusal::Gap { expected: read + 1 });
    }
    if number <= read {
        return Ok(Move {
            answer: CoreAnswer::Repeat(number),
            cursor: *cursor,
        });
    }
    Ok(Move {
        answer: CoreAnswer::Read(number),
        cursor: Cursor {
            read: number,
            ..*cursor
        },
    })
}

/// The next group is applied.
fn advance(cursor: &Cursor) -> Result<Move, CoreRefusal>
    ensures { result ≡ decided cursor.now Advance }
{
    let applied = cursor.applied;
    if cursor.has_snapshot_at(applied) {
        return Err(CoreRefusal::SnapshotReached);
    }
    if applied == cursor.read {
        return Err(CoreRefusal::NothingRead);
    }
    Ok(Move {
        answer: CoreAnswer::Applied(applied + 1),
        cursor: Cursor {
            applied: applied + 1,
            ..*cursor
        },
    })
}

/// A snapshot is opened at this group.
fn open_at(cursor: &Cursor, group: u32) -> Result<Move, CoreRefusal>
    ensures { result ≡ decided cursor.now (OpenAt group) }
{
    if cursor.done == cursor.tables {
        return Err(CoreRefusal::NotCopying);
    }
    if cursor.snapshot.is_some() {
        return Err(CoreRefusal::SnapshotOpen);
    }
    if group < cursor.applied {
        return Err(CoreRefusal::SnapshotBehind);
    }
    if group > cursor.read {
        return Err(CoreRefusal::SnapshotNotRead);
    }
    Ok(Move {
        answer: CoreAnswer::Opened(group),
        cursor: Cursor {
            snapshot: Some(group),
            ..*cursor
        },
    })
}

/// Rows are copied out of the open snapshot.
fn copy_rows(cursor: &Cursor, count: u32) -> Result<Move, CoreRefusal>
    ensures { result ≡ decided cursor.now (CopyRows count) }
{
    let Some(snapshot) = cursor.snapshot else {
        return Err(CoreRefusal::NoSnapshot);
    };
    if cursor.applied != snapshot {
        return Err(CoreRefusal::NotReached);
    }
    Ok(Move {
        answer: CoreAnswer::MayCopy(count),
        cursor: *cursor,
    })
}

/// The open snapshot is closed.
fn close(cursor: &Cursor) -> Result<Move, CoreRefusal>
    ensures { result ≡ decided cursor.now Close }
{
    if cursor.snapshot.is_none() {
        return Err(CoreRefusal::NoSnapshot);
    }
    Ok(Move {
        answer: CoreAnswer::Closed,
        cursor: cursor.without_snapshot(),
    })
}

/// What is read ahead is forgotten, and the open snapshot is closed.
fn restart(cursor: &Cursor) -> Move
    ensures { Ok result ≡ decided cursor.now Restart }
{
    Move {
        answer: CoreAnswer::Restarted(cursor.applied),
        cursor: Cursor {
            read: cursor.applied,
            ..cursor.without_snapshot()
        },
    }
}
