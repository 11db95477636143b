//! Files of logs, which are read one at a time.

ghost use Rattle.std.specs.Prelude.{◌≡◌, ℕ, List, Some, IfOk, length, map, slice_get};
ghost use Rattle.log_transcribe.specs.Files.{log_bytes};

/// What a file has: bytes that are lent, or that were read for this.
#[derive(Drop)]
pub enum LogBytes<'b> {
    Lent(&'b [u8]),
    Read(Vec<u8>),
}

/// Why a file's bytes aren't there.
#[derive(Clone, Copy, Debug, PartialEq, Eq)]
pub enum ReadFault {
    /// A growth of memory was refused.
    Memory,
    /// It can't be opened or read.
    Unread,
}

impl LogBytes<'_> {
    /// The bytes.
    pub fn as_slice(&self) -> &[u8]
        ensures { result.now ≡ log_bytes self.now }
    {
        match self {
            LogBytes::Lent(bytes) => bytes,
            LogBytes::Read(bytes) => bytes.as_slice(),
        }
    }
}

/// The files of logs, in their order. Each is asked for once, and what it has is let go before the next one is
/// asked for, but where an XA transaction waits behind it: then what it has stays until none does.
pub trait LogFiles {
    // These are bytes of the file at a place, from 0. Nothing else is known of it, so that bytes which are said to be of a file
    // were read from it.
    ghost gives: { Self → ℕ → List ℕ → Type 0 };

    // How many there are.
    ghost many: { Self → ℕ };

    /// How many files there are.
    fn count(&self) -> usize
        ensures { result ≡ many self.now };

    /// What the file at a place has, from 0.
    fn read(&self, file: usize) -> Result<LogBytes<'_>, ReadFault>
        ensures { IfOk result (λ log. gives self.now file (log_bytes log)) };
}

/// Logs that are in memory.
#[derive(Drop)]
pub(crate) struct LentLogs<'l, 'b> {
    pub(crate) logs: &'l [&'b [u8]],
}

impl LogFiles for LentLogs<'_, '_> {
    ghost gives = { λ l file bytes. slice_get (map (λ log. log.now) l.logs.now) file ≡ Some bytes };

    ghost many = { λ l. length l.logs.now };

    fn count(&self) -> usize {
        self.logs.len()
    }

    fn read(&self, file: usize) -> Result<LogBytes<'_>, ReadFault> {
        match self.logs.get(file) {
            Some(bytes) => Ok(LogBytes::Lent(bytes)),
            None => Err(ReadFault::Unread),
        }
    }
}
