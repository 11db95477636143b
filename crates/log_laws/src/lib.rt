//! Laws of what a feed tells of a server's binary logs: its groups are the logs' transactions. A crate of definitions and laws,
//! without code but that of a fault.
#![tactic(auto)]

mod fault;
mod laws;

pub use fault::TellFault;
pub use laws::{
    courses_rise, ends_are_told, feeds_have_their_groups, messages_are_read, transactions_are_told,
    transactions_reach,
};
