//! The groups of a feed, prepared by one thread ahead of another that needs them.
#![tactic(auto)]

mod ahead;
mod channel;
mod ends;
mod reading;

pub use ahead::{Ahead, NothingReady, group_of};
pub use channel::OfFeed;
pub use ends::{ReaderEnd, WorkerEnd, reader_ends};
pub use reading::{Named, Reading, Stop, read_ahead, read_to};
