//! Where the groups of a server's binary log stand: the position behind each transaction, and whether a log goes on
//! where another one ended.
#![tactic(auto)]

mod fault;
mod interval;
mod laws;
mod lists;
mod places;

pub use fault::{PlaceError, PlaceFault};
pub use interval::added_by;
pub use laws::positions_rise;
pub use lists::list_of;
pub use places::{goes_on, position_behind};
