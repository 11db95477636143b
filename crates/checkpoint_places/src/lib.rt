//! Where the streams of a checkpoint stand, by its bytes alone: without a workflow and without feeds.
#![tactic(auto)]

mod fault;
mod least;
mod position;
mod reading;
mod stand;

pub use fault::StandFault;
pub use least::least_of;
pub use reading::stands_of;
pub use stand::{CheckpointStand, StreamStand, TableStand};
