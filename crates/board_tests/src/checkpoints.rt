//! Tests of checkpoints: what their bytes say, and boards that are resumed from them.

mod adding;
mod checkpoints;
mod damaged;
mod feeds;
mod memory;
mod parts;
mod refusals;
mod resumes;
