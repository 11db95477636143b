//! One transaction of a log.

ghost use Rattle.std.specs.Prelude.{◌≡◌, ◌∷◌, Ok, Some, option_map, OnErr};
ghost use Rattle.std.specs.Result.{result_map_both};
ghost use Rattle.log_groups.specs.Step.{Begin, gtid_value, step_value, steps_of};
ghost use Rattle.log_groups.specs.Transaction.{waits_behind};
ghost use Rattle.log_groups.specs.Calls.{transaction_value, FindsTransaction, ReadsTransaction};

use crate::done::{Done, Waits};
use crate::fault::{GroupError, GroupFault};
use crate::open::Open;
use crate::step::{Ending, Gtid, Step, next_step};
use log_events::Events;
use std::alloc::Global;

/// A transaction of a log. What it refers to are slices of the log's bytes.
#[derive(Drop)]
pub struct Transaction<'b> {
    /// its position
    pub gtid: Gtid<'b>,
    /// what it does, in order, as far as it isn't taken back to a savepoint
    pub changes: Vec<Done<'b>>,
    pub ending: Ending<'b>,
}

/// What the first statement behind a position may be, where it begins the transaction or is all of it.
fn waits_behind(gtid: Gtid<'_>) -> Option<Waits>
    ensures { result ≡ waits_behind (gtid_value gtid.entry) }
{
    match gtid {
        Gtid::Maria(gtid) if gtid.alone => Some(Waits::ForOne),
        Gtid::Maria(_) => None,
        Gtid::Mysql(_) => Some(Waits::ForEither),
    }
}

/// The transaction that begins at a position, of the events behind that.
fn transaction_behind<'b>(
    alloc: Global,
    gtid: Gtid<'b>,
    events: &mut Events<'_, 'b>,
) -> Result<Transaction<'b>, GroupError>
    ensures { FindsTransaction (Ok (Begin (gtid_value gtid.entry)) ∷ steps_of events.old.reading) (result_map_both (λ t. transaction_value t) (λ e. e) result) (steps_of events.new.reading) }
{
    let mut open = Open::new(alloc, waits_behind(gtid));
    while let Some(step) = next_step(events)? {
        if let Some(ending) = open.take(alloc, step)? {
            let changes = open.into_changes();
            return Ok(Transaction {
                gtid,
                changes,
                ending,
            });
        }
    }
    Err(GroupError::Fault(GroupFault::Unended))
}

/// The transaction that begins with a step, of the events behind that.
#[tactic(auto, unfolding(crate::specs::Transaction::transaction_at))]
fn transaction_from<'b>(
    alloc: Global,
    first: Step<'b>,
    events: &mut Events<'_, 'b>,
) -> Result<Transaction<'b>, GroupError>
    ensures { FindsTransaction (Ok (step_value first.entry) ∷ steps_of events.old.reading) (result_map_both (λ t. transaction_value t) (λ e. e) result) (steps_of events.new.reading) }
{
    match first {
        Step::Begin(gtid) => transaction_behind(alloc, gtid, events),
        _ => Err(GroupError::Fault(GroupFault::Outside)),
    }
}

/// The transaction at the front of the events, `None` where they have none any more.
pub(crate) fn next_of<'b>(
    alloc: Global,
    events: &mut Events<'_, 'b>,
) -> Result<Option<Transaction<'b>>, GroupError>
    ensures { ReadsTransaction (steps_of events.old.reading) (result_map_both (λ t. option_map transaction_value t) (λ e. e) result) (steps_of events.new.reading) }
{
    match next_step(events)? {
        Some(first) => {
            let found = transaction_from(alloc, first, events)?;
            Ok(Some(found))
        }
        None => Ok(None),
    }
}
