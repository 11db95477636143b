//! A checkpoint's bytes, written and read stream by stream: what they say, without a board.
#![tactic(auto)]

mod fault;
mod framed;
mod head;
mod marks;
mod names;
mod parts;
mod reading;
mod rows;
mod saved;
mod writing;
mod written_tables;

pub use fault::ReadFault;
pub use reading::read_checkpoint;
pub use saved::ReadStream;
pub use writing::put_stream;
