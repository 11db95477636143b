//! Tests of a board that threads share.

mod crossing;
mod gates;
mod memory;
mod portions;
mod readers;
mod ready;
mod run_memory;
mod runs;
mod seats;
mod watching;
