//! Where a workflow file that is refused has its fault, whatever it is refused for, and what would be right there.
#![tactic(auto)]

mod filter_form;
mod lexeme;
mod place;
mod rules;
mod tables;

pub use filter_form::form_text;
pub use place::place_of;
