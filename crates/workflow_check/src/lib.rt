//! What a workflow file says beside its plans: what of it isn't read or does nothing, which rows of a table a
//! stream passes, in words, and where a file that is refused has its fault.
#![tactic(auto)]

mod counts;
mod file;
mod further;
mod ignored;
mod json;
mod kinds;
mod listed;
mod note;
mod passed;
mod passing;
mod ranges;
mod rules;
mod shape;
mod told;

pub use file::{fault_text, note_lines, notes_of, rules_of};
pub use note::{Flaw, Note};
pub use passed::{Passed, passed_of};
