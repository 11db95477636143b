//! Table maps of a server's binary log: which table a number stands for, and how the values of its columns are
//! written.
#![tactic(auto)]

mod collation;
mod column;
mod extra;
mod fault;
mod kind;
mod labels;
mod map;
mod names;
mod part;
mod sign;
mod told;
mod walk;

pub use column::{LogColumn, Wanted};
pub use fault::{TableError, TableFault};
pub use kind::kind_of;
pub use map::{TableMap, map_of};
pub use part::{counted_of, front_of, packed_of};
pub use walk::columns_of;
