//! The words of the program `vrepl`: `clap` reads them, and here is what they ask for.
#![tactic(auto)]

mod arguments;
pub mod choices;
pub mod commands;
mod given;
mod numbers;
pub mod portions;
pub mod reading;
mod streams;
mod untils;
pub mod usage;

pub use clap::Error;
