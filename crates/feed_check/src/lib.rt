//! What stands in a recorded feed that can't be so: changes whose rows before them aren't those that replaying
//! the feed leaves, names of no table, and events that are passed over though they may change rows.
#![tactic(auto)]

mod base;
mod before_images;
mod checked;
mod feed_warnings;
mod finding;
mod key_text;
mod keyed;
mod keyed_rows;
mod last_rows;
mod laws;
mod moves;
mod places;
mod replay;
mod report;
mod shared;
mod shared_warning;
mod skipped;
mod unknown;
mod warnings;

pub use base::base_rows;
pub use before_images::findings_of;
pub use checked::{Checked, check_feed, check_feeds};
pub use feed_warnings::{behind_dot, is_start, kind_text};
pub use finding::{Doubt, Finding};
pub use key_text::part_text;
pub use last_rows::rows_of_table;
pub use laws::{
    bases_are_told, checks_warn_unless_feeds_are_faultless, faultless_feeds_never_clash,
    nothing_is_found_where_all_are_true, the_least_key_of_two_feeds_is_told,
};
pub use moves::moves_of;
pub use report::{CheckReport, file_name, tables_of};
pub use shared::{SharedKey, shared_of};
pub use skipped::{Skipped, skipped_of};
pub use unknown::unknown_tables;
pub use warnings::{group_of, name_of_table, same_why, why_text};
