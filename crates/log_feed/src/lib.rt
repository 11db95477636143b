//! The events of a feed that say what the transactions of a server's binary log change, as their bytes.
#![tactic(auto)]

mod changes;
mod event;
mod fault;
mod group;
mod statement;
mod table;
mod words;

pub use event::{begin_event, commit_event, field_event, position_event};
pub use fault::{ChangeError, ChangeFault, Trouble};
pub use group::GroupWriter;
pub use statement::alters_to;
pub use table::{FeedTable, Stage};
pub use words::is_plain_name;
