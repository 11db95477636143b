//! The workflow file: its plans, the filter rules and which rows pass them.
#![tactic(auto)]

mod decide;
mod decision;
mod distinct;
mod document;
mod fault;
mod further;
mod json;
mod keeping;
mod limits;
mod name;
mod places;
mod plan;
mod read;
mod resolve;
mod rule;
mod same;
mod streams;
mod table;
mod types;

pub use decision::Decision;
pub use fault::PlanFault;
pub use further::uses_hash;
pub use places::Places;
pub use plan::Plan;
pub use table::{ColumnDef, Table};
pub use types::is_whole_number;
