//! JSON that is told piece by piece, each written behind the one before it: nothing of it is kept in memory, and no call
//! takes any.
#![tactic(auto)]

mod cell;
mod escaped;
mod line;
mod piece;
mod place;

pub use cell::put_comma_if;
pub use line::Line;
pub use piece::{Piece, put_pieces};
