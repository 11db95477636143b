//! Files that are replaced as a whole or not at all, and that never take the place of another command's work.
#![tactic(auto)]

mod fault;
mod new_file;
mod place;
mod rights;
mod stamp;

pub use fault::{KeepFault, PlaceFault};
pub use place::{Draft, Place};
