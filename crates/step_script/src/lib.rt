//! Scripts of steps on a board, as text: what its lines say, and the first line that says nothing.
#![tactic(auto)]

mod line;
mod number;
mod script;
mod word;

pub use script::{ScriptFault, ScriptStep, read_script};
