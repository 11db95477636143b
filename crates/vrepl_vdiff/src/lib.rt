//! The subcommand `vdiff` with options: tables, differences and JSON.
#![tactic(auto)]

mod inputs;
mod options;
mod repairing;
mod showing;
mod text;
mod told;
mod told_vdiff;

pub use inputs::{Dump, VdiffInputs};
pub use options::{Detail, Options};
pub use told_vdiff::vdiff_with;
