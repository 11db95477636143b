//! The groups of a feed as lines of JSON, their columns by name.
#![tactic(auto)]

mod columns;
mod groups;
mod rows;
mod values;

pub use columns::FeedColumns;
pub use groups::print_groups_json;
