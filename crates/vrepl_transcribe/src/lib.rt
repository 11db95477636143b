//! The command `transcribe`: a workflow and the binary logs of a server in; the feed of one of its streams out.
#![tactic(auto)]

mod inputs;
mod line;
mod source;
mod transcribing;

pub use inputs::TranscribeInputs;
pub use transcribing::{TranscribeEnd, Untranscribed, transcribe, transcribe_to};
