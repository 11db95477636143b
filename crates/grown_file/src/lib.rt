//! Files that grow while they are read, and pieces of them that live as long as they are lent.
#![tactic(auto)]

mod fault;
mod file;
mod look;
mod pieces;
mod reading;

pub use fault::GrownFault;
pub use file::{GrownFile, PIECE_BYTES};
pub use pieces::Pieces;
