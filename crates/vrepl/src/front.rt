//! How much of what has come of a feed can be taken.

ghost use Rattle.std.specs.Prelude.{◌≤◌, length, IfOk};

use proto_wire::{WireFault, varint_of};
use std::alloc::{AllocError, Global};
use vevent::{Event, EventFault, Response};

/// What is known of a feed behind its taken bytes: the messages of a transaction that hasn't come whole. None of them is
/// read twice while it waits, and where other bytes have taken their place these are read.
#[derive(Drop)]
pub(crate) struct FrontScan {
    /// Whole messages, behind each of which a transaction is open.
    open: Vec<u8>,
}

/// How far bytes are walked.
#[derive(Clone, Copy)]
struct Walk {
    /// How many of them are walked: whole messages.
    walked: usize,
    /// How many of these end with the last message behind which no transaction is open.
    settled: usize,
    /// Whether a transaction is open behind those that are walked.
    is_open: bool,
}

/// Why bytes aren't walked on: they are no message, or an event of one is at fault, or is a BEGIN inside of a transaction or
/// a ROW outside.
#[derive(Clone, Copy)]
struct AtFault;

impl From<WireFault> for AtFault {
    fn from(_: WireFault) -> AtFault {
        AtFault
    }
}

impl From<EventFault> for AtFault {
    fn from(_: EventFault) -> AtFault {
        AtFault
    }
}

/// The message at the front and the bytes behind it, or none where it hasn't come whole. Refused where no further byte
/// makes a length of what stands there.
fn message_of(bytes: &[u8]) -> Result<Option<(&[u8], &[u8])>, WireFault> {
    let (size, rest) = match varint_of(bytes) {
        Ok(read) => read,
        Err(WireFault::Truncated) => return Ok(None),
        Err(fault) => return Err(fault),
    };
    if size > rest.len() as u64 {
        return Ok(None);
    }
    Ok(Some(rest.split_at(size as usize)))
}

/// Whether a transaction is open behind an event, before which one is or isn't.
fn is_open_after(event: &Event<'_>, before: bool) -> Result<bool, AtFault> {
    match event {
        Event::Begin if before => Err(AtFault),
        Event::Row(_) if !before => Err(AtFault),
        Event::Begin => Ok(true),
        Event::Commit | Event::Rollback => Ok(false),
        _ => Ok(before),
    }
}

/// The same behind all events of a message.
fn is_open_behind(message: &[u8], before: bool) -> Result<bool, AtFault> {
    let mut is_open = before;
    let mut events = Response::new(message);
    while let Some(event) = events.next_event()? {
        is_open = is_open_after(&event, is_open)?;
    }
    Ok(is_open)
}

/// The same walk with one message more of the bytes, or none where no further one has come whole.
fn further(bytes: &[u8], walk: Walk) -> Result<Option<Walk>, AtFault> {
    let Some(rest) = bytes.get(walk.walked..) else {
        return Ok(None);
    };
    let Some((message, behind)) = message_of(rest)? else {
        return Ok(None);
    };
    let is_open = is_open_behind(message, walk.is_open)?;
    let walked = bytes.len().saturating_sub(behind.len());
    let settled = if is_open { walk.settled } else { walked };
    Ok(Some(Walk {
        walked,
        settled,
        is_open,
    }))
}

/// The walk over all messages of the bytes that have come whole.
fn walk_on(bytes: &[u8], from: Walk) -> Result<Walk, AtFault> {
    let mut walk = from;
    // (each message has at least the byte of its length)
    for _message in 0..bytes.len() {
        match further(bytes, walk)? {
            None => return Ok(walk),
            Some(next) => walk = next,
        }
    }
    Ok(walk)
}

impl FrontScan {
    /// Nothing waits.
    pub(crate) fn new(alloc: Global) -> FrontScan {
        FrontScan {
            open: Vec::new(alloc),
        }
    }

    /// How many of these bytes, which stand behind the taken ones, end with the last message behind which no transaction
    /// is open: what is behind them waits. All of them where a message is at fault or an event is out of place; what else may
    /// be at fault in a transaction is found once that has come whole. An error is want of memory.
    pub(crate) fn see(&mut self, bytes: &[u8]) -> Result<usize, AllocError>
        ensures { IfOk result (λ count. count ≤ length bytes.now) }
    {
        if bytes.is_empty() {
            return Ok(0);
        }
        if !bytes.starts_with(self.open.as_slice()) {
            self.open.clear();
        }
        let from = Walk {
            walked: self.open.len(),
            settled: 0,
            is_open: !self.open.is_empty(),
        };
        let Ok(walk) = walk_on(bytes, from) else {
            return Ok(bytes.len());
        };
        if walk.settled > 0 {
            self.open.clear();
            self.open.shrink_to_fit();
        }
        let known = walk.settled.max(self.open.len());
        if let Some(more) = bytes.get(known..walk.walked) {
            self.open.extend_from_slice(more)?;
        }
        Ok(walk.settled.min(bytes.len()))
    }
}
