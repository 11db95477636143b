//! What is told of why a stream stands still.

ghost use Rattle.std.specs.Prelude.{◌≡◌, option_map};
ghost use Rattle.live_json.specs.Private.Parts.{refusal_value};
ghost use Rattle.live_session.specs.Stops.{board_refusal, caused_refusal, fault_refusal, known_refusal, owner_refusal, refusal_of, step_refusal, stop_refusal};

use crate::seat::{Seat, Stopped};
use board_laws::{Refusal, StepRefusal};
use filter_rule::Table;
use live_json::RefusalTold;
use pk_copy::Key;
use refusal_json::meaning_of;
use source_feed::FeedFault;
use vdiff::name_of_table;
use vevent::EventFault;

/// A refusal of which nothing is told but its number and what that means.
pub(crate) fn plain<'r>(number: u8) -> RefusalTold<'r>
    ensures { refusal_value result ≡ known_refusal number }
{
    RefusalTold::of(u64::from(number), meaning_of(u64::from(number)))
}

/// A fault of a feed, with its cause where it has one.
fn caused<'r>(fault: &FeedFault) -> RefusalTold<'r>
    ensures { refusal_value result ≡ caused_refusal fault.now }
{
    let told = plain(fault.number());
    match fault.cause() {
        None => told,
        Some(cause) => RefusalTold {
            cause: Some(u64::from(cause)),
            ..told
        },
    }
}

/// A fault of a feed.
fn of_fault<'r>(tables: &'r [Table], fault: &FeedFault) -> RefusalTold<'r>
    ensures { refusal_value result ≡ fault_refusal tables.entry.now fault.now }
{
    let told = caused(fault);
    match fault {
        FeedFault::Event(EventFault::BadType(kind)) => RefusalTold {
            column_type: Some(*kind),
            ..told
        },
        FeedFault::Diverged(group) => RefusalTold {
            group: Some(u64::from(*group)),
            ..told
        },
        FeedFault::BadRow { group, table, .. } => RefusalTold {
            group: Some(u64::from(*group)),
            table: Some(name_of_table(tables, *table)),
            ..told
        },
        _ => told,
    }
}

/// A row of another stream that stands at a key where one is due.
fn of_owner<'r>(tables: &'r [Table], key: &'r Key, owner: u8) -> RefusalTold<'r>
    ensures { refusal_value result ≡ owner_refusal tables.entry.now key.entry.now owner }
{
    let told = plain(71);
    RefusalTold {
        key: Some(key),
        owner: Some(u64::from(owner)),
        table: Some(name_of_table(tables, key.table())),
        ..told
    }
}

/// Why a board refused a step.
fn of_refusal<'r>(tables: &'r [Table], refusal: &'r Refusal) -> RefusalTold<'r>
    ensures { refusal_value result ≡ board_refusal tables.entry.now refusal.entry.now }
{
    match refusal {
        Refusal::OwnedByOther { key, owner } => of_owner(tables, key, *owner),
        _ => plain(refusal.number()),
    }
}

/// Why a step was refused.
fn of_step<'r>(tables: &'r [Table], refusal: &'r StepRefusal) -> RefusalTold<'r>
    ensures { refusal_value result ≡ step_refusal tables.entry.now refusal.entry.now }
{
    match refusal {
        StepRefusal::Unprepared(fault) => of_fault(tables, fault),
        StepRefusal::Refused(refusal) => of_refusal(tables, refusal),
    }
}

/// Why a feed doesn't grow.
fn of_stop<'r>(tables: &'r [Table], stopped: &Stopped) -> RefusalTold<'r>
    ensures { refusal_value result ≡ stop_refusal tables.entry.now stopped.now }
{
    match stopped {
        Stopped::File(fault) => plain(fault.number()),
        Stopped::Bytes(fault) => of_fault(tables, fault),
    }
}

/// What a stream is refused for: its last step, or else what doesn't come behind.
pub(crate) fn refusal_of<'r>(tables: &'r [Table], seat: &'r Seat<'_>) -> Option<RefusalTold<'r>>
    ensures { option_map refusal_value result ≡ refusal_of tables.entry.now seat.entry.now.step seat.entry.now.stopped }
{
    if let Some(refusal) = &seat.step {
        return Some(of_step(tables, refusal));
    }
    match &seat.stopped {
        None => None,
        Some(stopped) => Some(of_stop(tables, stopped)),
    }
}
