//! The patch of two sets of rows as statements of SQL.
#![tactic(auto)]

mod columns;
mod differing;
mod keys;
mod literals;
mod names;
mod repair;
mod rows;
mod statements;

pub use repair::repair_text;
