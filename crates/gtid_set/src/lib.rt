//! GTID sets: positions in a source's history (MySQL manual, "GTID Sets").
#![tactic(auto)]

mod add;
mod digits;
mod fault;
mod interval;
mod intervals;
mod laws;
mod merge;
mod named;
mod printed;
mod read;
mod search;
mod set;
mod text;

pub use fault::GtidFault;
pub use interval::Interval;
pub use laws::{
    equal_members_equal_sets, equal_sets_print_equal, equal_texts_equal_sets,
    positions_are_canonical, printed_text_reads_back, printed_uuids_rise, same_set_is_equality,
    subset_is_an_order, too_large_and_flavor_are_of_the_whole_text,
    union_is_the_least_set_over_both, union_with_a_superset_is_the_superset, within_is_subset,
};
pub use printed::{IntervalText, uuid_text};
pub use set::GtidSet;
