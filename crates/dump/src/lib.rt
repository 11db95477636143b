//! Rows by key as a dump: its text is printed, and read again.
#![tactic(auto)]

mod cells;
mod dump;
mod lent_rows;
mod line_fault;
mod lined_rows;
mod places;
mod reading;
mod row_cells;
mod rows;

pub use cells::{add_cell, add_cells};
pub use dump::{write_dump, write_target_dump};
pub use lined_rows::LinedRows;
pub use places::place_of_other;
pub use reading::{DumpFault, read_dump, read_dump_beside, read_lined_dump, texts_are_read_once};
pub use rows::DumpRows;
