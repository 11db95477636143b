//! Rounds of a board with its feeds: its streams go on, in threads or one after another, each by up to so many groups, as
//! often as wanted. The board is never given away: it comes back from every round, whatever stopped a stream.
#![tactic(auto)]

mod began;
mod going;
mod place;
mod ready;
mod round;

pub use apply_core::{FedBoard, StepRefusal};
pub use round::run_round;
