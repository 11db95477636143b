//! Streams in threads over one board, which lies in a lock.
#![tactic(auto)]

mod beside;
mod board_calls;
mod deal;
mod ending;
mod found;
mod gate;
mod laws;
mod lock;
mod opening;
mod outline;
mod parallel;
mod ready;
mod receipt;
mod seat;
mod seat_run;
mod shared;
mod turn;
mod working;

pub use apply_core::{Policy, RunRefusal};
pub use board_laws::{Answer, Copied, Offered, Refusal};
pub use gate::Gate;
pub use laws::{calls_keep_applied_groups, made_steps_leave_their_stream};
pub use opening::OpenRefusal;
pub use parallel::{run_fed_parallel, run_parallel};
pub use receipt::Receipt;
pub use seat::Seat;
pub use shared::Shared;
pub use working::work;
