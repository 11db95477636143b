//! The command `check`: a workflow and its feeds in; what stands in them, warnings and a status out.
#![tactic(auto)]

mod checking;
mod inputs;
mod laws;
mod placing;

pub use checking::check;
pub use inputs::CheckInputs;
pub use laws::{faultless_runs_are_not_refused, what_is_clean_is_faultless};
pub use placing::print_place;
