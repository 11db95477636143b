//! The commands of the program `vrepl`: words, bytes and writers in; bytes and a status out.
#![tactic(auto)]

mod ahead;
mod answer_text;
mod at_once;
mod comparing;
mod dumping;
mod ending;
mod following;
mod following_only;
mod given;
mod hex_text;
mod input;
mod input_list;
mod joined_text;
mod joining;
mod key_text;
mod line;
mod lines;
mod named_inputs;
mod opened;
mod output;
mod progress;
mod refusal;
mod refusal_line;
mod refused_text;
mod resumed_text;
mod resuming;
mod running;
mod saving;
mod scripted;
mod showing;
mod shown;
mod source;
mod state_text;
mod stepping;
mod told_run;

pub use comparing::{Verdict, vdiff};
pub use following::{Followed, Unfollowed, follow, refuse_unfollowed};
pub use following_only::follow_only;
pub use given::{GivenFeed, given_feeds};
pub use hex_text::{HexFault, bytes_of_hex};
pub use input::{InputFault, InputName, read_input, read_inputs, read_whole, read_within};
pub use input_list::run_inputs;
pub use joining::{Unjoined, join, joined_checkpoint, refuse_unjoined};
pub use named_inputs::{
    FollowInputs, Inputs, JoinFiles, JoinInputs, ResumeInputs, RunCourse, RunInputs, read_join,
    read_resume, read_run, read_step,
};
pub use opened::open_workflow;
pub use progress::{Progress, Reading, Untold};
pub use refusal::{CommandRefusal, refuse};
pub use resuming::resume;
pub use running::run;
pub use saving::{Saved, save, saved_checkpoint, tell_refused};
pub use showing::show;
pub use source::Source;
pub use stepping::step;
