//! Bytes that are printed: where they go, and how they are gathered on the way there.
#![tactic(auto)]

mod gathered;
mod put;
mod writer;

pub use gathered::Gathered;
pub use put::put_all;
pub use writer::{Out, OutFailed, Writer};
