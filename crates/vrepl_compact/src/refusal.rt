//! Why a feed isn't compacted, and the line that says so.

ghost use Rattle.std.specs.Prelude.{◌≡◌, ◌∷◌, ◌++◌, [], codes};
ghost use Rattle.std.specs.Arc.{arc_value};
ghost use Rattle.vrepl_compact.specs.Refusals.{feed_line, limit_line, uncompacted_line};
ghost use Rattle.vrepl_main.specs.Printing.{PrintsOrBreaks};

use apply_core::ResumeFault;
use compact_limit::LimitFault;
use compaction::CompactFault;
use filter_rule::Plan;
use printing::{Out, OutFailed, put_all};
use source_feed::FeedFault;
use std::alloc::AllocError;
use std::sync::Arc;
use vrepl_main::{CommandRefusal, Unfollowed, refuse, refuse_unfollowed};

/// Why a feed isn't compacted.
#[derive(Drop)]
pub enum Uncompacted {
    /// What stands in the workflow or the feed, or want of memory.
    Given(CommandRefusal<'static>),
    /// What stands in the way of saying how far: of the position that is named 94 and 118, of a checkpoint 116 and 118.
    Limit {
        /// the stream's plan
        plan: Arc<Plan>,
        /// the stream, from 0
        stream: u8,
        /// what it is
        fault: LimitFault,
    },
    /// What stands in the feed up to there: no group (91), rows that would be lost (123), a group that isn't sound (90); or
    /// that the new feed would be too long (95).
    Feed {
        /// the stream's plan, whose tables the line names
        plan: Arc<Plan>,
        /// what it is
        fault: CompactFault,
    },
}

impl From<CommandRefusal<'static>> for Uncompacted {
    ghost use Rattle.std.specs.Prelude.{◌≡◌};
    ghost use Rattle.vrepl_compact.specs.declared.refusal.Uncompacted.TheVariants.{Given};

    ghost from_gives = { λ refusal made. made ≡ Given refusal };

    fn from(refusal: CommandRefusal<'static>) -> Uncompacted {
        Uncompacted::Given(refusal)
    }
}

impl From<AllocError> for Uncompacted {
    ghost use Rattle.std.specs.Prelude.{◌≡◌};
    ghost use Rattle.vrepl_compact.specs.declared.refusal.Uncompacted.TheVariants.{Given};
    ghost use Rattle.vrepl_main.specs.declared.refusal.CommandRefusal.TheVariants.{Memory};

    ghost from_gives = { λ _ made. made ≡ Given Memory };

    fn from(_: AllocError) -> Uncompacted {
        Uncompacted::Given(CommandRefusal::Memory)
    }
}

/// The line of rows that would be lost.
fn unknown_line() -> &'static [u8]
    ensures { result.now ≡ codes "refused 123" ++ 10 ∷ [] }
{
    b"refused 123\n".as_slice()
}

/// Prints it.
fn print_unknown<E: Out>(err: &mut E) -> Result<(), OutFailed>
    ensures { PrintsOrBreaks (E.written err.old) (E.written err.new) (codes "refused 123" ++ 10 ∷ []) }
{
    put_all(err, unknown_line())
}

/// The status 1, behind the line of rows that would be lost.
fn refuse_unknown<E: Out>(err: &mut E) -> u8
    ensures status { result ≡ 1 }
    ensures line { PrintsOrBreaks (E.written err.old) (E.written err.new) (codes "refused 123" ++ 10 ∷ []) }
{
    let _printed = print_unknown(err);
    1
}

/// The status 1, behind the line that says why it can't be said how far a feed is to be compacted.
fn refuse_limit<E: Out>(err: &mut E, plan: Arc<Plan>, stream: u8, fault: LimitFault) -> u8
    ensures status { result ≡ 1 }
    ensures line { PrintsOrBreaks (E.written err.old) (E.written err.new) (limit_line (arc_value plan).tables stream fault) }
{
    match fault {
        LimitFault::BadPosition(cause) => refuse(
            err,
            &CommandRefusal::Feed(FeedFault::BadPosition(cause)),
        ),
        LimitFault::PositionUnknown => refuse_unfollowed(
            err,
            Unfollowed::Checkpoint {
                plan,
                fault: ResumeFault::PositionUnknown(stream),
            },
        ),
        LimitFault::CheckpointBad => refuse_unfollowed(
            err,
            Unfollowed::Checkpoint {
                plan,
                fault: ResumeFault::CheckpointBad,
            },
        ),
        LimitFault::Memory => refuse(err, &CommandRefusal::Memory),
    }
}

/// The status 1, behind the line that says why a feed isn't compacted up to a group.
fn refuse_feed<E: Out>(err: &mut E, plan: Arc<Plan>, fault: CompactFault) -> u8
    ensures status { result ≡ 1 }
    ensures line { PrintsOrBreaks (E.written err.old) (E.written err.new) (feed_line (arc_value plan).tables fault) }
{
    match fault {
        CompactFault::NoCut => refuse(err, &CommandRefusal::Feed(FeedFault::NoGroup { groups: 0 })),
        CompactFault::UnknownTable => refuse_unknown(err),
        CompactFault::Unsound(fault) => refuse_unfollowed(
            err,
            Unfollowed::Checkpoint {
                plan,
                fault: ResumeFault::Unsound(fault),
            },
        ),
        CompactFault::TooLong => refuse(err, &CommandRefusal::Feed(FeedFault::FeedTooLong)),
        CompactFault::Memory => refuse(err, &CommandRefusal::Memory),
    }
}

/// Prints the line of a refusal, whole unless `err` fails, and answers the status 1.
pub fn refuse_uncompacted<E: Out>(err: &mut E, uncompacted: Uncompacted) -> u8
    ensures status { result ≡ 1 }
    ensures line { PrintsOrBreaks (E.written err.old) (E.written err.new) (uncompacted_line uncompacted) }
{
    match uncompacted {
        Uncompacted::Given(refusal) => refuse(err, &refusal),
        Uncompacted::Limit {
            plan,
            stream,
            fault,
        } => refuse_limit(err, plan, stream, fault),
        Uncompacted::Feed { plan, fault } => refuse_feed(err, plan, fault),
    }
}
