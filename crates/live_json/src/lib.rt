//! The answers of a session over a board that goes on, each as one line of JSON that is told piece by piece.
#![tactic(auto)]

mod cells;
mod changes;
mod counts;
mod line;
mod refusal;
mod rows;
mod streams;

pub use changes::{print_all_rows, print_changes};
pub use counts::{CountsTold, print_counts};
pub use line::{print_nothing, print_saved};
pub use refusal::{RefusalTold, print_refused};
pub use rows::{print_page, print_row};
pub use streams::{CopiedTold, StreamTold, position_told, print_more, print_state, print_told};
