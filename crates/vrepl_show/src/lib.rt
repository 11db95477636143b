//! The subcommand `show` with JSON.
#![tactic(auto)]

mod showing;

pub use showing::show_json;
