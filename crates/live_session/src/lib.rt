//! A session over a board that goes on: requests are taken from an input, a line each, and each is answered with one line
//! of JSON. Every answer is of one board, whose streams show their sources.
#![tactic(auto)]

mod answer;
mod applying;
mod arrivals;
mod changing;
mod counts;
mod growth;
mod looking;
mod page;
mod seat;
mod serve;
mod session;
mod stops;
mod streams;

pub use arrivals::{ArrivalFault, Arrivals, Arrived, SaveFault};
pub use seat::{Seat, Stopped};
pub use serve::ServeFault;
pub use session::Session;
