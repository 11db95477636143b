//! The command `feed`: the text that `show` prints of a feed in; the feed out.
#![tactic(auto)]

mod feeding;
mod inputs;
mod refusal;

pub use feeding::{fed, feed};
pub use inputs::FeedInputs;
pub use refusal::{Unfed, refuse_unfed};
