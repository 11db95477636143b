//! Up to which group a feed is compacted: by a position that is named, and by checkpoints that are to go on.
#![tactic(auto)]

mod fault;
mod laws;
mod least;
mod limit;

pub use fault::LimitFault;
pub use laws::limits_are_one;
pub use limit::limit_of;
