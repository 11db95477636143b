//! The feed of a server's binary logs: what their transactions commit of a workflow's tables, as messages one behind another.
#![tactic(auto)]

mod apart;
mod behind;
mod byte;
mod events;
mod fault;
mod files;
mod further;
mod message;
mod outgoing;
mod place;
mod said;
mod sequel;
mod spool;
mod transcript;

pub use fault::{BehindError, BehindFault, LogsError, LogsFault, StreamError};
pub use files::{LogBytes, LogFiles, ReadFault};
pub use further::{transcribe_behind, transcribe_behind_to};
pub use spool::Spool;
pub use transcript::{FeedSource, transcribe, transcribe_to};
