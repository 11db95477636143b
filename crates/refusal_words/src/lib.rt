//! What each number of a refusal means, what the usual causes are, and what to do next.
#![tactic(auto)]

mod feed;
mod files;
pub mod list;
mod logs;
mod position;
mod steps;
mod target;
pub mod texts;
mod wire;
mod workflow;
