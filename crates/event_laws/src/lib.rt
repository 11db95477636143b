//! Laws of a feed's events: what a feed's first groups can be replaced by, so that all that follows stays what
//! it was, and what events that are written are read as. A crate of definitions and laws, without code.
#![tactic(auto)]

mod laws;

pub use laws::{
    bases_stand_for, bytes_go_behind_bytes, changes_have_columns, events_go_on_alike,
    feeds_are_compacted, fields_in_force_say_the_columns, groups_end_at_cuts,
    messages_are_read_again, opened_feeds_are_whole, rests_of_whole_are_whole,
    whole_feeds_are_cuts, whole_goes_behind_whole,
};
