//! The board from which a live session starts: opened or resumed over a workflow and its feeds as far as they have come,
//! and run to the feeds' ends.
#![tactic(auto)]

mod begun;
mod opening;
mod starting;
mod unopened;

pub use opening::open;
pub use unopened::Unopened;
