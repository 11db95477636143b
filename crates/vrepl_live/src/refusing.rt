//! The refusals of a session that isn't begun, or that is broken off.

ghost use Rattle.std.specs.Prelude.{◌≡◌};
ghost use Rattle.vrepl_main.specs.Refusals.{refusal_line};
ghost use Rattle.vrepl_live.specs.Living.{as_unfollowed, broken_line};

use live_opening::Unopened;
use live_session::ServeFault;
use vrepl_main::{CommandRefusal, Unfollowed};

/// Why there is no board to start from, as `follow` refuses it.
pub(crate) fn as_unfollowed(unopened: Unopened) -> Unfollowed
    ensures { result ≡ as_unfollowed unopened }
{
    match unopened {
        Unopened::Workflow(fault) => Unfollowed::Given(CommandRefusal::Workflow(fault)),
        Unopened::FeedCount => Unfollowed::Given(CommandRefusal::FeedCount),
        Unopened::Feed(fault) => Unfollowed::Given(CommandRefusal::Feed(fault)),
        Unopened::Checkpoint { plan, fault } => Unfollowed::Checkpoint { plan, fault },
        Unopened::Stream { plan, refusal } => Unfollowed::Stream { plan, refusal },
    }
}

/// Why a session ended before its input and without `end`.
pub(crate) fn fault_refusal(fault: ServeFault) -> CommandRefusal<'static>
    ensures { refusal_line result ≡ broken_line fault }
{
    match fault {
        ServeFault::CannotRead => CommandRefusal::CannotRead { file: "-" },
        ServeFault::CannotWrite => CommandRefusal::CannotWrite { file: "-" },
        ServeFault::Memory => CommandRefusal::Memory,
    }
}
