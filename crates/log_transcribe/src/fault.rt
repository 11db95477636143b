//! Why logs make no feed.

ghost use Rattle.std.specs.Prelude.{◌≡◌};
ghost use Rattle.log_transcribe.specs.Fault.{number_of, file_of, behind_number};
ghost use Rattle.log_transcribe.specs.declared.fault.LogsError.TheVariants as logs_error;
ghost use Rattle.log_transcribe.specs.declared.fault.TellError.TheVariants as tell_error;
ghost use Rattle.log_transcribe.specs.declared.fault.BehindError.TheVariants as behind_error;
ghost use Rattle.log_transcribe.specs.declared.fault.StreamError.TheVariants as stream_error;

use log_course::CourseFault;
use log_laws::TellFault;
use source_feed::FeedFault;
use std::alloc::AllocError;

/// What is wrong with logs, and with which file, by its place from 0.
#[derive(Clone, Copy, Debug, PartialEq, Eq)]
pub enum LogsFault {
    /// The file is no log whose transactions can be read, or doesn't go on where the one before it ended.
    Course(usize, CourseFault),
    /// A transaction of it can't be told, or behind the last file the position that was reached.
    Tell(usize, TellFault),
    /// The feed would have more than 2^31 - 1 bytes; the place is behind the last file.
    TooLong(usize),
}

impl LogsFault {
    /// The refusal's number: 94, 95, or 140 to 159.
    pub fn number(self) -> u8
        ensures { result ≡ number_of self }
    {
        match self {
            LogsFault::Course(_, fault) => fault.number(),
            LogsFault::Tell(_, fault) => fault.number(),
            LogsFault::TooLong(_) => 95,
        }
    }

    /// The place of the file, from 0; of the feed as a whole that behind the last one.
    pub fn file(self) -> usize
        ensures { result ≡ file_of self }
    {
        match self {
            LogsFault::Course(file, _) => file,
            LogsFault::Tell(file, _) => file,
            LogsFault::TooLong(file) => file,
        }
    }
}

/// Why logs make no feed.
#[derive(Clone, Copy, Debug, PartialEq, Eq)]
pub enum LogsError {
    Memory,
    Fault(LogsFault),
}

impl From<AllocError> for LogsError {
    ghost from_gives = { λ _ error. error ≡ logs_error.Memory };

    fn from(_error: AllocError) -> LogsError {
        LogsError::Memory
    }
}

/// What is wrong with a feed, or with logs that go on behind it.
#[derive(Clone, Copy, Debug, PartialEq, Eq)]
pub enum BehindFault {
    /// The feed doesn't open, has other columns of a table, or bytes and no group.
    Feed(FeedFault),
    /// The logs don't go on behind it.
    Logs(LogsFault),
}

impl BehindFault {
    /// The refusal's number: 81 to 89, 91, 92, 94, 95, or 140 to 159.
    pub fn number(self) -> u8
        ensures { result ≡ behind_number self }
    {
        match self {
            BehindFault::Feed(fault) => fault.number(),
            BehindFault::Logs(fault) => fault.number(),
        }
    }
}

/// Why logs don't go on behind a feed.
#[derive(Clone, Copy, Debug, PartialEq, Eq)]
pub enum BehindError {
    Memory,
    Fault(BehindFault),
}

impl From<AllocError> for BehindError {
    ghost from_gives = { λ _ error. error ≡ behind_error.Memory };

    fn from(_error: AllocError) -> BehindError {
        BehindError::Memory
    }
}

/// Why what logs tell isn't written, where they are read one at a time.
#[derive(Clone, Copy, Debug, PartialEq, Eq)]
pub enum StreamError {
    Memory,
    /// A write failed.
    Unwritten,
    /// The file at this place, from 0, can't be read.
    Unread(usize),
    /// The feed behind which to go on is refused.
    Feed(FeedFault),
    /// The first fault of the logs, and the byte of its file at which it stands: the first one of the event that is at fault, or
    /// of the transaction that can't be told. None where it is of no event.
    Fault(LogsFault, Option<usize>),
}

impl From<AllocError> for StreamError {
    ghost from_gives = { λ _ error. error ≡ stream_error.Memory };

    fn from(_error: AllocError) -> StreamError {
        StreamError::Memory
    }
}

/// Why a transaction isn't told.
#[derive(Clone, Copy, Debug, PartialEq, Eq)]
pub(crate) enum TellError {
    Memory,
    Is(TellFault),
}

impl From<AllocError> for TellError {
    ghost from_gives = { λ _ error. error ≡ tell_error.Memory };

    fn from(_error: AllocError) -> TellError {
        TellError::Memory
    }
}
