//! Feeds up to positions: of each the groups that lie within its position.
#![tactic(auto)]

mod at_position;
mod end;
mod ending;
mod fault;

pub use at_position::{end_at_position, last_within};
pub use end::End;
pub use ending::end_feeds;
pub use fault::EndFault;
