//! The values of a row in a server's binary log, as the texts that the server prints of them.
#![tactic(auto)]

mod big;
mod civil;
mod comma;
mod date;
mod decimal;
mod digits;
mod fault;
mod fits;
mod fraction;
mod kind;
mod labels;
mod put;
mod size;
mod time;
mod value;
mod whole;

pub use comma::{Comma, comma_of};
pub use fault::{ValueError, ValueFault};
pub use kind::{Fraction, Kind};
pub use size::bytes_of_size;
pub use value::put_value;
