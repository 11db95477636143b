//! The requests of a session over a board that goes on: the lines of an input, and what a line asks for.
#![tactic(auto)]

mod lines;
mod named;
mod number;
mod request;
mod word;

pub use lines::{Found, LINE_BYTES, Lines};
pub use named::{key_named, table_named};
pub use request::{DEFAULT_ROWS, MOST_ROWS, Request, read_request};
