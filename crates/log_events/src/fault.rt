//! Why bytes aren't a binary log.

ghost use Rattle.std.specs.Prelude.{◌≡◌};
ghost use Rattle.log_events.specs.FaultNumber.{number_of_event, number_of_log};

use thiserror::Error;

/// What stands in the place of an event.
#[derive(Clone, Copy, Debug, PartialEq, Eq, Error)]
pub enum EventFault {
    /// The bytes end inside an event.
    #[error("the bytes end inside an event")]
    Cut,
    /// The size of an event is below that of its head and its check.
    #[error("the size of an event is below that of its head")]
    TooSmall,
    /// The check of an event isn't that of its bytes.
    #[error("the checksum of an event is another one")]
    WrongSum,
}

impl EventFault {
    /// The refusal's number: 141 to 143.
    pub fn number(self) -> u8
        ensures { result ≡ number_of_event self }
    {
        match self {
            EventFault::Cut => 141,
            EventFault::TooSmall => 142,
            EventFault::WrongSum => 143,
        }
    }
}

/// Why a file isn't a binary log that can be read.
#[derive(Clone, Copy, Debug, PartialEq, Eq, Error)]
pub enum LogFault {
    /// It doesn't begin as a binary log does.
    #[error("it is no binary log")]
    NoLog,
    /// It begins as an encrypted one does.
    #[error("it is an encrypted binary log")]
    Encrypted,
    /// No event stands first in it.
    #[error("its first event is at fault: {0}")]
    First(EventFault),
    /// Its first event isn't a format description of version 4 with heads of 19 bytes.
    #[error("it doesn't begin with a format description of version 4")]
    NoDescription,
    /// Its checksums are neither absent nor of 32 bits.
    #[error("it has checksums of another kind")]
    OtherSum,
}

impl LogFault {
    /// The refusal's number: 140, 144, 145, 153, or that of the first event's fault.
    pub fn number(self) -> u8
        ensures { result ≡ number_of_log self }
    {
        match self {
            LogFault::NoLog => 140,
            LogFault::Encrypted => 153,
            LogFault::First(fault) => fault.number(),
            LogFault::NoDescription => 144,
            LogFault::OtherSum => 145,
        }
    }
}
