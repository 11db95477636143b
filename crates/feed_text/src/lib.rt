//! A feed of the text that `show` prints of it.
#![tactic(auto)]

mod cells;
mod events;
mod fault;
mod lines;
mod reading;
mod saying;
mod writer;

pub use fault::{FeedTextError, TextCause, TextFault};
pub use reading::{feed_of_text, feed_of_text_under};
