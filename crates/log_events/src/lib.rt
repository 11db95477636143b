//! The events of a server's binary log: numbers by their places, the checksum of each event, and the events
//! of a file one after another.
#![tactic(auto)]

mod crc;
mod event;
mod events;
mod fault;
mod laws;
mod log;
mod number;
mod sum;

pub use crc::CrcTable;
pub use event::Event;
pub use events::Events;
pub use fault::{EventFault, LogFault};
pub use laws::{cuts_are_logs, logs_are_cut, next_is_cut};
pub use log::{Log, log_of, logs_are_read};
pub use number::{Size, behind, number_at};
