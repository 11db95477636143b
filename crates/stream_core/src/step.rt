//! The steps of a stream, and what they answer.

use crate::cursor::Cursor;

/// A step of one stream.
#[derive(Clone, Copy)]
pub enum Step {
    /// The group of this number is read.
    Offer(u32),
    /// The next group is applied.
    Advance,
    /// A snapshot is opened at the group of this number.
    OpenAt(u32),
    /// Up to this many rows are copied out of the open snapshot.
    CopyRows(u32),
    /// The open snapshot is closed.
    Close,
    /// What is read and not applied is forgotten, and the open snapshot is closed.
    Restart,
}

/// What the step table answers.
#[derive(Clone, Copy, Debug, PartialEq, Eq)]
pub enum CoreAnswer {
    /// The group of this number is new and counts as read.
    Read(u32),
    /// The group of this number was read before; nothing changes.
    Repeat(u32),
    /// The group of this number is applied.
    Applied(u32),
    /// A snapshot is open at the group of this number.
    Opened(u32),
    /// Up to this many rows may be copied; the marks say which, and whether the table is then done.
    MayCopy(u32),
    /// No snapshot is open any more.
    Closed,
    /// Reading goes on behind the group of this number, which is applied.
    Restarted(u32),
}

/// What a step that isn't refused does: its answer, and where the stream then stands.
#[derive(Clone, Copy)]
pub struct Move {
    pub answer: CoreAnswer,
    pub cursor: Cursor,
}
