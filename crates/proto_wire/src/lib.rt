//! The protobuf wire format, read without a copy: the fields of a message, messages behind their
//! lengths, packed varints.
#![tactic(auto)]

mod fault;
mod field;
mod fields;
mod frames;
mod laws;
mod parts;
mod sint64;
mod sint64s;
mod spelling;
mod varint;
mod varints;
mod writing;
mod written_laws;

pub use fault::{FrameFault, WireFault};
pub use field::{Field, Payload, field_of};
pub use fields::Fields;
pub use frames::Frames;
pub use laws::{longer_spelling, shortest_spelling};
pub use parts::{Parts, last_text, last_varint, pair_of, single_of};
pub use sint64::{sint64_of, unzigzag, zigzag};
pub use sint64s::Sint64s;
pub use spelling::{put_varint, varint_size};
pub use varint::varint_of;
pub use varints::Varints;
pub use writing::{
    bytes_field_size, cut_after_error, field_size, number_field_size, put_bytes_head, put_field,
    put_number, put_text, put_text_head, size_of_both, text_field_size,
};
pub use written_laws::{fields_are_read_again, numbers_are_read_again};
