//! The comparison of two sets of rows table by table, the first keys at which they differ, and its printing as text and as
//! one line of JSON, which `serde_json` writes.
#![tactic(auto)]

mod counts;
mod differences;
mod json_cells;
mod json_comparison;
mod json_differences;
mod json_error;
mod json_line;
mod keys;
mod laws;
mod put;
mod report;
mod reports;
mod tables;
mod walk;

pub use counts::add_counts;
pub use differences::add_differences;
pub use json_comparison::comparison_line;
pub use json_error::error_line;
pub use keys::{add_key, add_key_line, name_of_table};
pub use laws::first_differences_are_there;
pub use report::{Report, compare, compare_rows, first_difference};
pub use reports::{TableReport, table_reports};
pub use tables::add_tables;
pub use walk::{Found, first_found};
