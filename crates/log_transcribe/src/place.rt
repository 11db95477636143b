//! Where in its file a fault stands: the first byte of the event that is at fault, or of the transaction that can't be told.

ghost use Rattle.std.specs.Prelude.{None, Some};
ghost use Rattle.log_transcribe.specs.Private.Sends.{IsOfLogs, StopsAt, StopsNowhere};

use crate::byte::told_at;
use crate::events::{behind_description, first_of_transaction, last_before};
use crate::fault::{LogsError, LogsFault, StreamError};
use log_course::{CourseFault, LogGroups};
use log_events::{CrcTable, LogFault};
use log_groups::GroupFault;
use log_laws::TellFault;
use std::alloc::Global;

/// How many bytes of a file are read.
pub(crate) fn bytes_read(bytes: &[u8], groups: &LogGroups<'_, '_>) -> usize {
    bytes.len().saturating_sub(groups.bytes_left())
}

/// Where a file is at fault that isn't begun with.
fn place_at_begin(bytes: &[u8], fault: CourseFault) -> usize {
    match fault {
        CourseFault::Log(LogFault::NoLog) => 0,
        CourseFault::Log(LogFault::Encrypted) => 0,
        CourseFault::Log(_) => 4,
        _ => behind_description(bytes),
    }
}

/// Where a file is at fault whose transaction from the event at `begin` on isn't read; up to `end` it was.
fn place_inside(bytes: &[u8], begin: usize, end: usize, fault: CourseFault) -> usize {
    match fault {
        CourseFault::Group(GroupFault::Event(_)) => end,
        CourseFault::Group(GroupFault::Unended | GroupFault::Twice | GroupFault::NotPrepared) => {
            first_of_transaction(bytes, begin)
        }
        CourseFault::Group(_) => last_before(bytes, begin, end),
        _ => first_of_transaction(bytes, begin),
    }
}

/// The byte of a file at which its fault stands: where that is of a transaction this begins behind the byte `begin`, and up to
/// `end` it was read. A position's length is of no event.
fn place_of(bytes: &[u8], begin: usize, end: usize, fault: LogsFault) -> Option<usize> {
    match fault {
        LogsFault::Course(_, fault) => Some(place_inside(bytes, begin, end, fault)),
        LogsFault::Tell(_, TellFault::Change(_)) => Some(first_of_transaction(bytes, begin)),
        LogsFault::Tell(_, TellFault::Position) => None,
        LogsFault::TooLong(_) => None,
    }
}

/// What is wrong with a file that isn't begun with.
pub(crate) fn at_begin(
    alloc: Global,
    table: &CrcTable,
    bytes: &[u8],
    error: LogsError,
) -> StreamError
    ensures error { IsOfLogs error result }
    ensures byte { StopsAt bytes.now None result }
{
    match error {
        LogsError::Memory => StreamError::Memory,
        LogsError::Fault(fault) => {
            let byte = byte_at_begin(bytes, fault);
            told_at(alloc, table, bytes, None, fault, byte)
        }
    }
}

/// Where it may be.
fn byte_at_begin(bytes: &[u8], fault: LogsFault) -> Option<usize> {
    match fault {
        LogsFault::Course(_, fault) => Some(place_at_begin(bytes, fault)),
        _ => None,
    }
}

/// What is wrong with a file's transaction behind the byte `begin`, up to `end`, and behind so many that are told.
pub(crate) fn inside(
    alloc: Global,
    table: &CrcTable,
    bytes: &[u8],
    begin: usize,
    end: usize,
    told: usize,
    error: LogsError,
) -> StreamError
    ensures error { IsOfLogs error result }
    ensures byte { StopsAt bytes.now (Some told) result }
{
    match error {
        LogsError::Memory => StreamError::Memory,
        LogsError::Fault(fault) => {
            let byte = place_of(bytes, begin, end, fault);
            told_at(alloc, table, bytes, Some(told), fault, byte)
        }
    }
}

/// What is wrong where a file ends, of which so many bytes were read.
pub(crate) fn at_end(
    alloc: Global,
    table: &CrcTable,
    bytes: &[u8],
    read: usize,
    error: LogsError,
) -> StreamError
    ensures error { IsOfLogs error result }
    ensures byte { StopsAt bytes.now None result }
{
    match error {
        LogsError::Memory => StreamError::Memory,
        LogsError::Fault(fault) => told_at(alloc, table, bytes, None, fault, Some(read)),
    }
}

/// What is wrong with no event.
pub(crate) fn nowhere(error: LogsError) -> StreamError
    ensures error { IsOfLogs error result }
    ensures byte { StopsNowhere result }
{
    match error {
        LogsError::Memory => StreamError::Memory,
        LogsError::Fault(fault) => StreamError::Fault(fault, None),
    }
}
