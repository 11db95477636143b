//! Key ranges and vindexes: which keyspace id a column's value has, and which range has an id.
#![tactic(auto)]

mod bound_text;
mod faults;
mod ids;
mod key_ranges;
mod number_laws;
mod numbers;
mod tiling;
mod vindexes;

pub use faults::VindexFault;
pub use ids::Id;
pub use itoa::Buffer;
pub use key_ranges::KeyRange;
pub use number_laws::shortest_texts_are_read_back;
pub use numbers::{Number, natural_of, number_of};
pub use tiling::tiles;
pub use vindexes::Vindex;
