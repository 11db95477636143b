//! A feed whose first groups are compacted: one group in their place inserts the rows that they leave.
#![tactic(auto)]

mod base;
mod compacted_feed;
mod compacting;
mod cut;
mod fault;
mod left_rows;
mod portion;
mod sized_row;
mod sizes;
mod varint;
mod waiting;

pub use compacted_feed::CompactedFeed;
pub use compacting::{Compaction, compact};
pub use cut::UnknownTables;
pub use fault::CompactFault;
pub use left_rows::{LeftRows, rows_up_to};
