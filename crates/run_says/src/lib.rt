//! What `run` writes, by relations of success alone: what the bytes of a workflow and of its feeds say, where they can be
//! read, and the laws that tie these relations to the exact functions of the crates below. A crate of definitions and
//! laws, without code.
#![tactic(auto)]

mod laws;

pub use laws::{
    bytes_say_their_event, feeds_have_their_events, feeds_say_their_touches,
    rows_say_their_columns, runs_are_right, texts_say_their_filter, texts_say_their_position,
    workflows_say_their_plans,
};
