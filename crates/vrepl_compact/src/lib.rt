//! The command `compact`: a workflow and the feed of one of its streams in; the feed without its past out.
#![tactic(auto)]

mod compacting;
mod inputs;
mod limit;
mod opening;
mod refusal;

pub use compacting::{NewFeed, compact, compacted};
pub use inputs::CompactInputs;
pub use opening::{PlannedInputs, planned};
pub use refusal::{Uncompacted, refuse_uncompacted};
