//! How far a long work is, for whoever tells of it. It has no part in what the work gives.
#![tactic(auto)]

mod meter;
mod portions;

pub use meter::{Meter, Unmetered};
pub use portions::Portions;
