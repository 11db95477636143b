//! What `status` says of checkpoints: where the streams of each stand, and the least position of each shard.
#![tactic(auto)]

mod fault;
mod json;
mod least;
mod lines;
mod printed;
mod reading;
mod said;

pub use fault::StatusFault;
pub use printed::{StatusEnd, status};
pub use said::status_said;
