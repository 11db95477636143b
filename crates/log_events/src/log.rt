//! The file of a binary log.

ghost use Rattle.std.specs.Prelude.{◌≡◌, ◌∷◌, List, ℕ, Ok, Err};
ghost use Rattle.list_laws.specs.Outcome.{Gives};
ghost use Rattle.log_events.specs.Event.{LogEvent, log_event};
ghost use Rattle.log_events.specs.Log.{begins, describes, is_format, LogValue, log_value, log_at, IsLog, NoLogFile, AnswersLog};
ghost use Rattle.log_events.specs.declared.fault.LogFault.{LogFault};

use crate::crc::CrcTable;
use crate::event::{Event, event_of};
use crate::events::Events;
use crate::fault::LogFault;
use crate::number::{Size, behind, number_at};
use crate::sum::FORMAT_DESCRIPTION;

/// A binary log.
#[derive(Drop)]
pub struct Log<'t, 'b> {
    /// whether the server was still writing it
    pub in_use: bool,
    /// the events behind the format description
    pub events: Events<'t, 'b>,
}

/// Whether the bytes begin by this one and the letters `bin`.
#[tactic(auto, unfolding(crate::specs::Number::little))]
fn begins_by(first: u64, bytes: &[u8]) -> bool
    ensures { result ≡ begins first bytes.now }
{
    number_at(bytes, 0, Size::One) == first
        && number_at(bytes, 1, Size::One) == u64::from(b'b')
        && number_at(bytes, 2, Size::One) == u64::from(b'i')
        && number_at(bytes, 3, Size::One) == u64::from(b'n')
}

/// Whether an event is a format description of version 4 with heads of 19 bytes.
fn is_description(event: &Event<'_>) -> bool
    ensures { result ≡ is_format (log_event event.now) }
{
    u64::from(event.kind) == FORMAT_DESCRIPTION
        && event.body.len() >= 58
        && number_at(event.body, 0, Size::Two) == 4
        && number_at(event.body, 56, Size::One) == 19
}

/// Whether the events behind a format description have checks.
fn has_checks(event: &Event<'_>) -> Result<bool, LogFault>
    ensures { Gives (λ b. b) result (describes (log_event event.now)) }
{
    if !is_description(event) {
        return Err(LogFault::NoDescription);
    }
    let last = event.body.len().saturating_sub(1);
    match number_at(event.body, last, Size::One) {
        0 => Ok(false),
        1 => Ok(true),
        _ => Err(LogFault::OtherSum),
    }
}

/// The log of a file's bytes. Only the format description is read yet, and no memory is taken.
#[tactic(auto, unfolding(crate::specs::Log::log_at))]
pub fn log_of<'t, 'b>(table: &'t CrcTable, bytes: &'b [u8]) -> Result<Log<'t, 'b>, LogFault>
    ensures { Gives log_value result (log_at bytes.now) }
{
    if !begins_by(0xfe, bytes) {
        if begins_by(0xfd, bytes) {
            return Err(LogFault::Encrypted);
        }
        return Err(LogFault::NoLog);
    }
    let (first, rest) = match event_of(table, true, behind(bytes, 4)) {
        Ok(read) => read,
        Err(fault) => return Err(LogFault::First(fault)),
    };
    let checked = has_checks(&first)?;
    Ok(Log {
        in_use: first.flags % 2 == 1,
        events: Events::new(table, checked, rest),
    })
}

/// What `log_of` answers is right, and each right answer is given.
pub fn logs_are_read()
    // The bytes are the log that is read, or the fault is why they aren't one,
    ensures spelled { (bytes : List ℕ) → AnswersLog bytes (log_at bytes) }
    // and there is no other log
    ensures only { (bytes : List ℕ) (log : LogValue) → IsLog bytes log → log_at bytes ≡ Ok log }
    // nor another fault.
    ensures refuses { (bytes : List ℕ) (fault : LogFault) → NoLogFile bytes fault → log_at bytes ≡ Err fault }
{}
