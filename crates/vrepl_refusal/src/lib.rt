//! A command's refusal in the form that is asked for: a line of text, or of JSON.
#![tactic(auto)]

mod details;
mod laws;
mod refusing;

pub use details::details_of;
pub use laws::forms_tell_the_same;
pub use refusing::{refuse_as, refuse_json};
