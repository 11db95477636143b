//! Why a run of all streams is refused.

ghost use Rattle.std.specs.Prelude.{◌≡◌};

use pk_copy::Key;
use source_feed::FeedFault;
use thiserror::Error;

/// Why a run of all streams to their feeds' ends is refused.
#[derive(Debug, Drop, Error)]
pub enum RunRefusal {
    /// There aren't as many feeds as plans.
    #[error("another number of feeds than of streams")]
    FeedCount,
    /// Two plans differ in their tables, or a feed isn't opened under its stream's plan.
    #[error("another plan")]
    WrongPlan,
    /// A group of a stream's feed isn't sound: the first such group, and why.
    #[error("{fault}")]
    Unsound {
        /// the stream
        stream: u8,
        /// the group, and the row of it that is refused
        fault: FeedFault,
    },
    /// A row of a stream is due at a key where a row of another stream stands: the least such key.
    #[error("a row of stream {owner} stands at a key")]
    OwnedByOther {
        /// the stream whose row is due
        stream: u8,
        /// the key
        key: Key,
        /// the stream whose row stands there
        owner: u8,
    },
    /// A growth was refused.
    #[error("out of memory")]
    Memory,
}

impl RunRefusal {
    ghost use Rattle.apply_core.specs.RunRefused.{number_of_run};

    /// The refusal's number.
    pub fn number(&self) -> u8
        ensures { result ≡ number_of_run self.now }
    {
        match self {
            RunRefusal::FeedCount => 119,
            RunRefusal::WrongPlan => 111,
            RunRefusal::Unsound { fault, .. } => fault.number(),
            RunRefusal::OwnedByOther { .. } => 71,
            RunRefusal::Memory => 72,
        }
    }
}
