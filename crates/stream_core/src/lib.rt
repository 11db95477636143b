//! The step table: what a step of one stream answers, by the stream's numbers alone.
#![tactic(auto)]

mod cursor;
mod phase;
mod refusal;
mod step;
mod table;

pub use cursor::Cursor;
pub use phase::Phase;
pub use refusal::CoreRefusal;
pub use step::{CoreAnswer, Move, Step};
pub use table::decide;
