//! Refusals as lines of JSON: each is written piece by piece, nothing of it is kept in memory, and no call takes any.
#![tactic(auto)]

mod details;
mod explained;
mod meaning;
mod parts;
mod refusal;

pub use details::{Detail, Details, Told};
pub use explained::print_explained;
pub use meaning::meaning_of;
pub use refusal::print_refusal;
