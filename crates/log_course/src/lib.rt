//! The groups of a server's binary logs, one file behind another: what each transaction commits, and the position
//! behind it.
#![tactic(auto)]

mod fault;
mod groups;
mod laws;

pub use fault::{CourseError, CourseFault};
pub use groups::{LogGroups, PlacedGroup};
pub use laws::courses_are_read;
