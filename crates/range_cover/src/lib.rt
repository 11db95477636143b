//! Whether key ranges, each with its holder, have each keyspace id of a range once, and where they don't.
#![tactic(auto)]

mod holders;
mod misfit;
mod next;
mod share;

pub use misfit::{Misfit, misfits};
pub use share::Share;
