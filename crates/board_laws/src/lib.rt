//! What a board means, what its steps answer and leave, which tables can be added to it, which two boards can be joined,
//! and the laws of all these. A crate of definitions and laws: beside the words of answers and refusals it has no code.
#![tactic(auto)]

mod add_fault;
mod added_laws;
mod agreement_laws;
mod answer;
mod join_fault;
mod join_laws;
mod laws;
mod refusal;
mod run_laws;
mod step_refusal;

pub use add_fault::AddFault;
pub use added_laws::{
    added_tables_are_to_copy, extended_boards_are_lawful, extended_streams_are_sound,
    feeds_go_on_or_stop,
};
pub use agreement_laws::agreeing_runs_show_alike;
pub use answer::{Answer, Copied, Offered};
pub use join_fault::JoinFault;
pub use join_laws::{
    boards_can_be_joined, joined_boards_are_lawful, joins_are_a_greatest_board, states_are_ordered,
};
pub use laws::{
    chunks_are_of_the_rows_left, fresh_boards_are_lawful, kept_rows_are_one_list,
    steps_keep_boards_lawful,
};
pub use refusal::Refusal;
pub use run_laws::{
    boards_show_their_sources, fed_boards_show_all, rows_are_replayed, runs_are_determined,
    streams_are_isolated, streams_follow_their_own_steps, streams_read_their_feeds,
};
pub use step_refusal::StepRefusal;
