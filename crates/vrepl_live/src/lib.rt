//! The subcommand `live` over bytes: a workflow, a checkpoint and what has come of the feeds in, then requests and answers; a
//! status out. What comes later is asked of the program.
#![tactic(auto)]

mod living;
mod refusing;

pub use live_session::{ArrivalFault, Arrivals, Arrived, SaveFault};
pub use living::{LiveInputs, live};
