//! Laws of compaction: a feed whose first groups are replaced by one that inserts what they leave stays what it was
//! from there on, and so does a target that goes on over it. A crate of definitions and laws, without code.
#![tactic(auto)]

mod laws;

pub use laws::{
    added_tables_go_on, bases_are_of_all_decisions, bases_keep_histories, boards_go_on,
    bytes_are_compacted, bytes_are_compacted_under_all, checkpoints_go_on, compacted_bytes_open,
    feeds_stay_what_they_were, left_rows_are_a_base, left_rows_are_of_all_decisions,
    left_rows_have_columns, portions_are_a_base,
};
