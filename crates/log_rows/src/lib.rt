//! The rows of a server's binary log: what a row event changes, under the columns of its table's map.
#![tactic(auto)]

mod cell;
mod change;
mod fault;
mod head;
mod image;
mod row;
mod rows;

pub use change::RowsKind;
pub use fault::{RowError, RowFault};
pub use head::{RowsHead, kind_of_event, rows_of};
pub use row::WrittenCells;
pub use rows::Rows;
