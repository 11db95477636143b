//! What a checkpoint of a board is and says, and which board it makes with the streams' feeds. A crate of
//! definitions and laws: beside the words of refusals it has no code.
#![tactic(auto)]

mod fault;
mod laws;
mod version;

pub use fault::ResumeFault;
pub use laws::{
    checkpoints_are_read_again, checkpoints_say_one_thing, extended_boards_are_resumed,
    restarted_boards_are_resumed, resumed_boards_are_lawful, saved_boards_are_said,
    saved_boards_are_said_of_more,
};
pub use version::Version;
