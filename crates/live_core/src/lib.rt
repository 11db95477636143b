//! A board that goes on with its feeds: they grow, its streams read and apply what is new, and who follows it is told
//! what changed. At every time its streams show their sources.
#![tactic(auto)]

mod growing;
mod laws;
mod live;
mod source;
mod told;
mod touched;

pub use laws::boards_at_their_ends_run;
pub use live::Live;
pub use source::Source;
