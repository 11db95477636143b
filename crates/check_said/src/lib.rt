//! What `check` says of a workflow and its feeds: lines, or one object of JSON, which is written as it is told; and of a
//! feed that is refused where its fault stands: the message, its first byte, the last whole group before it, and the column
//! of a FIELD that differs.
#![tactic(auto)]

mod changes;
mod checked_rows;
mod column;
mod field;
mod file_notes;
mod items;
mod messages;
mod place;
mod said;
mod streams;
mod tables;
mod told;
mod told_list;

pub use items::Class;
pub use place::place_of;
pub use said::Said;
pub use told::CheckJson;
