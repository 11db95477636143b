//! The keys at which two sets of rows differ, as a person reads them.
#![tactic(auto)]

mod columns;
mod differences;
mod keys;
mod values;

pub use differences::differences_text;
