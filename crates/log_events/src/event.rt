//! One event at the front of the bytes.

ghost use Rattle.std.specs.Prelude.{◌≡◌, ◌+◌, ◌≤◌, length};
ghost use Rattle.list_laws.specs.Outcome.{Gives};
ghost use Rattle.log_events.specs.Event.{log_event, event_in, event_at};

use crate::crc::CrcTable;
use crate::fault::EventFault;
use crate::number::{Size, behind, number_at};
use crate::sum::holds;

/// How many bytes an event's head has.
const HEAD: usize = 19;

/// An event of a log.
#[derive(Clone, Copy, Debug, PartialEq, Eq)]
pub struct Event<'b> {
    /// when it was written, in seconds of Unix time
    pub time: u32,
    /// its type
    pub kind: u8,
    /// the number of the server that wrote it
    pub server: u32,
    /// how many bytes it has in the log, with its head and its check
    pub size: u32,
    pub flags: u16,
    /// what stands between the head and the check; a slice of the bytes that were read
    pub body: &'b [u8],
}

/// The event that fills these bytes.
fn event_of_all(tail: usize, bytes: &[u8]) -> Event<'_>
    requires { tail + 19 ≤ length bytes.now }
    ensures { log_event result ≡ event_in tail bytes.now }
{
    let body = behind(bytes.split_at(bytes.len() - tail).0, HEAD);
    Event {
        time: number_at(bytes, 0, Size::Four) as u32,
        kind: number_at(bytes, 4, Size::One) as u8,
        server: number_at(bytes, 5, Size::Four) as u32,
        size: number_at(bytes, 9, Size::Four) as u32,
        flags: number_at(bytes, 17, Size::Two) as u16,
        body,
    }
}

/// The event at the front, and the bytes after it. Takes no memory.
#[tactic(auto, unfolding(crate::specs::Event::event_at))]
pub(crate) fn event_of<'b>(
    table: &CrcTable,
    checked: bool,
    bytes: &'b [u8],
) -> Result<(Event<'b>, &'b [u8]), EventFault>
    ensures { Gives (λ x. (log_event x.0, x.1.now)) result (event_at checked bytes.now) }
{
    if bytes.len() < HEAD {
        return Err(EventFault::Cut);
    }
    let size = number_at(bytes, 9, Size::Four);
    let tail: usize = if checked { 4 } else { 0 };
    if size < (HEAD + tail) as u64 {
        return Err(EventFault::TooSmall);
    }
    if (bytes.len() as u64) < size {
        return Err(EventFault::Cut);
    }
    let (all, rest) = bytes.split_at(size as usize);
    if !holds(table, checked, all) {
        return Err(EventFault::WrongSum);
    }
    Ok((event_of_all(tail, all), rest))
}
