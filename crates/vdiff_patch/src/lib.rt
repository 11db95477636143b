//! Everything at which two sets of rows differ, and the patch that makes the one of the other.
#![tactic(auto)]

mod first;
mod laws;
mod walk;

pub use laws::patches_repair;
pub use walk::Differences;
