//! The text of a filter rule: what it says, by its tokens and forms.
#![tactic(auto)]

mod column;
mod fault;
mod filter;
mod form;
mod list;
mod scope;
mod token;
mod tokens;

pub use fault::FilterFault;
pub use filter::{Filter, Rows};
pub use list::ColumnList;
pub use scope::Scope;
