//! The columns of a row message, borrowed from its bytes.
#![tactic(auto)]

mod column;
mod columns;
mod count;
mod counted_columns;
mod fault;
mod found;
mod marks;
mod row;
mod row_buf;
mod row_bytes;
mod same;
mod spelled;
mod steps;
mod written_columns;
mod written_laws;
mod written_picked;
mod written_row;

pub use column::Column;
pub use columns::Columns;
pub use fault::RowFault;
pub use row::{ROW_BYTES, ROW_COLUMNS, RowView};
pub use row_buf::RowBuf;
pub use row_bytes::RowBytes;
pub use steps::Steps;
pub use written_columns::write_columns;
pub use written_laws::{rows_are_read_again, rows_are_within_limits};
pub use written_picked::are_all;
pub use written_row::{row_size, write_row};
