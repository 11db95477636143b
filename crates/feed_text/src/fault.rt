//! Why a text is no feed's.

ghost use Rattle.std.specs.Prelude.{◌≡◌};
ghost use Rattle.feed_text.specs.declared.fault.LineError.TheVariants.{Memory};

use gtid_set::GtidFault;
use std::alloc::{AllocError, AllocFailed};

/// What is wrong at a place of a text.
#[derive(Clone, Copy)]
pub enum TextCause {
    /// The last line has no end.
    NoEnd,
    /// A line is neither a group's nor a row's.
    NoLine,
    /// A row stands before the first group.
    NoGroup,
    /// A group doesn't have the next number, from 1.
    Number,
    /// A position can't be read.
    Position(GtidFault),
    /// A position isn't spelled as it is printed.
    Spelling,
    /// A position doesn't have all of the one before it, and more.
    NotMore,
    /// A table's name isn't UTF-8.
    Name,
    /// A cell is neither `N` nor `x` and pairs of digits in lower case hexadecimal.
    Cell,
    /// A row has another number of cells than its table has columns in the workflow, or under a workflow none.
    Columns,
    /// A row has more than 256 cells.
    TooWide,
    /// A row has more than 2^24 bytes.
    RowTooLong,
    /// The feed would have more than 2^31 - 1 bytes.
    FeedTooLong,
    /// The feed that the lines say would be shown otherwise from here on.
    Unlike,
}

/// What is wrong with a text, and where: the line and the byte of it, both from 1.
#[derive(Clone, Copy)]
pub struct TextFault {
    pub line: u64,
    pub column: u64,
    pub cause: TextCause,
}

/// Why there is no feed of a text.
#[derive(Clone, Copy)]
pub enum FeedTextError {
    /// A growth was refused.
    Memory,
    Fault(TextFault),
}

/// What is wrong so many bytes behind the beginning of a line, or of a text.
#[derive(Clone, Copy)]
pub(crate) enum LineError {
    Memory,
    At(usize, TextCause),
}

impl LineError {
    /// The same, counted from so many bytes further to the left.
    pub(crate) fn behind(self, bytes: usize) -> LineError {
        match self {
            LineError::Memory => LineError::Memory,
            LineError::At(place, cause) => LineError::At(place.saturating_add(bytes), cause),
        }
    }

    /// The same with the line and the byte of it in the text.
    pub(crate) fn in_text(self, text: &[u8]) -> FeedTextError {
        match self {
            LineError::Memory => FeedTextError::Memory,
            LineError::At(place, cause) => FeedTextError::Fault(fault_at(text, place, cause)),
        }
    }
}

/// What is wrong at a place of a text.
fn fault_at(text: &[u8], place: usize, cause: TextCause) -> TextFault {
    let mut line: u64 = 1;
    let mut column: u64 = 1;
    let (front, _) = text.split_at(place.min(text.len()));
    for byte in front {
        if *byte == b'\n' {
            line = line.saturating_add(1);
            column = 1;
        } else {
            column = column.saturating_add(1);
        }
    }
    TextFault {
        line,
        column,
        cause,
    }
}

impl From<AllocError> for LineError {
    ghost from_gives = { λ _ error. error ≡ Memory };

    fn from(_error: AllocError) -> LineError {
        LineError::Memory
    }
}

impl<T: Drop> From<AllocFailed<T>> for LineError {
    ghost from_gives = { λ _ error. error ≡ Memory };

    fn from(_error: AllocFailed<T>) -> LineError {
        LineError::Memory
    }
}
