//! The rows of a target by key, each with the stream that owns it, changed a group at a time.
#![tactic(auto)]

mod changes;
mod common;
mod drift;
mod fault;
mod freed;
mod hints;
mod laws;
mod merge_side;
mod merging;
mod page;
mod pages;
mod places;
mod runs;
mod scan;
mod side_part;
mod spots;
mod staged;
mod survey;
mod tables;
mod taken;
mod touched;

pub use common::Common;
pub use fault::TableFault;
pub use freed::Freed;
pub use laws::what_comes_last_counts;
pub use merge_side::{MergeSide, comes_from};
pub use merging::merge;
pub use scan::Scan;
pub use staged::Staged;
pub use tables::Tables;
pub use touched::{Touched, last_touches};
