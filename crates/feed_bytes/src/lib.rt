//! The bytes of a feed: where it is cut behind a group, with the FIELDs in force there, and messages that are written from
//! events and from rows.
#![tactic(auto)]

mod course;
mod cut;
mod fields;
mod inserts;
mod message;
mod place;
mod set_laws;

pub use cut::{Cut, cut_behind};
pub use fields::FieldBytes;
pub use inserts::write_inserts;
pub use message::write_message;
pub use place::Source;
