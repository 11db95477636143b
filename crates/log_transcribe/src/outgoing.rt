//! Messages on their way to a writer.

ghost use Rattle.std.specs.Prelude.{◌≡◌, [], OnOk};
ghost use Rattle.log_transcribe.specs.Private.Sends.{Sends, sending};

use crate::fault::StreamError;
use printing::{Out, put_all};
use std::alloc::Global;

/// From how many bytes on what waits is written.
const PORTION: usize = 65536;

/// Messages that wait to be written, and how many bytes were.
#[derive(Drop)]
pub(crate) struct Outgoing {
    pub(crate) waits: Vec<u8>,
    pub(crate) sent: usize,
}

impl Outgoing {
    /// Nothing waits, and nothing was written.
    pub(crate) fn new(alloc: Global) -> Outgoing
        ensures waits { result.waits.items ≡ [] }
        ensures sent { result.sent ≡ 0 }
    {
        Outgoing {
            waits: Vec::new(alloc),
            sent: 0,
        }
    }

    /// Writes what waits.
    pub(crate) fn send<W: Out>(&mut self, out: &mut W) -> Result<(), StreamError>
        ensures sends { Sends result (sending (W.written out.old) self.old) (sending (W.written out.new) self.new) }
        ensures all { OnOk result (self.new.waits.items ≡ []) }
    {
        match put_all(out, &self.waits) {
            Ok(()) => {
                self.sent = self.sent.saturating_add(self.waits.len());
                self.waits.clear();
                Ok(())
            }
            Err(_) => Err(StreamError::Unwritten),
        }
    }

    /// The same where enough waits.
    pub(crate) fn send_portion<W: Out>(&mut self, out: &mut W) -> Result<(), StreamError>
        ensures { Sends result (sending (W.written out.old) self.old) (sending (W.written out.new) self.new) }
    {
        if self.waits.len() < PORTION {
            return Ok(());
        }
        self.send(out)
    }
}
