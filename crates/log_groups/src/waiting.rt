//! XA transactions that are prepared.

ghost use Rattle.std.specs.Prelude.{◌≡◌, map, is_some, option_map};
ghost use Rattle.std.specs.Result.{result_map_both};
ghost use Rattle.list_laws.specs.Outcome.{Gives};
ghost use Rattle.log_groups.specs.Body.{xid_value};
ghost use Rattle.log_groups.specs.Step.{gtid_value};
ghost use Rattle.log_groups.specs.Transaction.{done_value};
ghost use Rattle.log_groups.specs.Group.{same_xid, waiting_at, xid_with, prepares, ends_waiting, still_waits, settle};
ghost use Rattle.log_groups.specs.Calls.{transaction_value};
ghost use Rattle.log_groups.specs.GroupCalls.{waiting_value, FindsWaiting, TakesWaiting, SettlesAs};

use crate::done::Done;
use crate::fault::{GroupError, GroupFault};
use crate::step::{Ending, Gtid};
use crate::transaction::Transaction;
use crate::xid::Xid;
use std::alloc::Global;

/// An XA transaction that is prepared. What it refers to are slices of the log's bytes.
#[derive(Drop)]
pub struct Waiting<'b> {
    pub xid: Xid<'b>,
    /// what it does, in order
    pub changes: Vec<Done<'b>>,
}

/// Whether two ids are the same.
fn same_xid(one: &Xid<'_>, other: &Xid<'_>) -> bool
    ensures { result ≡ same_xid (xid_value one.now) (xid_value other.now) }
{
    one.format == other.format && one.global == other.global && one.branch == other.branch
}

/// Where something waits under an id.
fn place_of(waiting: &[Waiting<'_>], xid: &Xid<'_>) -> Option<usize>
    ensures { FindsWaiting waiting_value waiting.now (xid_value xid.now) result }
{
    for place in 0..waiting.len() {
        if same_xid(&waiting[place].xid, xid) {
            return Some(place);
        }
    }
    None
}

/// Whether something waits under an id.
fn has_waiting(waiting: &[Waiting<'_>], xid: &Xid<'_>) -> bool
    ensures { result ≡ is_some (waiting_at (xid_value xid.now) (map waiting_value waiting.now)) }
{
    match place_of(waiting, xid) {
        Some(_) => true,
        None => false,
    }
}

/// Takes out what waits under an id.
fn take_waiting<'b>(waiting: &mut Vec<Waiting<'b>>, xid: &Xid<'_>) -> Option<Vec<Done<'b>>>
    ensures { TakesWaiting (map waiting_value waiting.old.items) (xid_value xid.now) (option_map (λ v. map done_value v.items) result) (map waiting_value waiting.new.items) }
{
    match place_of(waiting, xid) {
        Some(place) => {
            let found = waiting.remove(place);
            Some(found.changes)
        }
        None => None,
    }
}

/// The id that stands with a position.
fn xid_with<'b>(gtid: &Gtid<'b>) -> Option<Xid<'b>>
    ensures { option_map xid_value result ≡ xid_with (gtid_value gtid.now) }
{
    match gtid {
        Gtid::Maria(gtid) => gtid.xid,
        Gtid::Mysql(_) => None,
    }
}

/// Takes out what waits under the id that stands with a position.
fn end_waiting<'b>(
    waiting: &mut Vec<Waiting<'b>>,
    gtid: &Gtid<'_>,
) -> Result<Vec<Done<'b>>, GroupError>
    ensures { SettlesAs (ends_waiting (xid_with (gtid_value gtid.now)) (map waiting_value waiting.old.items)) (map waiting_value waiting.old.items) (result_map_both (λ v. map done_value v.items) (λ e. e) result) (map waiting_value waiting.new.items) }
{
    match xid_with(gtid) {
        Some(xid) => match take_waiting(waiting, &xid) {
            Some(changes) => Ok(changes),
            None => Err(GroupError::Fault(GroupFault::NotPrepared)),
        },
        None => Err(GroupError::Fault(GroupFault::NotPrepared)),
    }
}

/// One more waits, under an id that has none.
fn put_waiting<'b>(
    alloc: Global,
    waiting: &mut Vec<Waiting<'b>>,
    xid: Xid<'b>,
    changes: Vec<Done<'b>>,
) -> Result<Vec<Done<'b>>, GroupError>
    ensures { SettlesAs (prepares (xid_value xid.entry) (map done_value changes.entry.items) (map waiting_value waiting.old.items)) (map waiting_value waiting.old.items) (result_map_both (λ v. map done_value v.items) (λ e. e) result) (map waiting_value waiting.new.items) }
{
    if has_waiting(waiting, &xid) {
        return Err(GroupError::Fault(GroupFault::Twice));
    }
    let one = Waiting { xid, changes };
    match waiting.push(one) {
        Ok(()) => Ok(Vec::new(alloc)),
        Err(_) => Err(GroupError::Memory),
    }
}

/// What a transaction commits; and what it leaves behind it to wait, which a fault leaves as it is. Behind want of memory
/// nothing is told of what waits.
#[tactic(auto, unfolding(crate::specs::Group::settle))]
pub fn settle<'b>(
    alloc: Global,
    waiting: &mut Vec<Waiting<'b>>,
    transaction: Transaction<'b>,
) -> Result<Vec<Done<'b>>, GroupError>
    ensures { SettlesAs (settle (map waiting_value waiting.old.items) (transaction_value transaction.entry)) (map waiting_value waiting.old.items) (result_map_both (λ v. map done_value v.items) (λ e. e) result) (map waiting_value waiting.new.items) }
{
    match transaction.ending {
        Ending::Committed => Ok(transaction.changes),
        Ending::RolledBack => Ok(Vec::new(alloc)),
        Ending::Prepared(xid) => put_waiting(alloc, waiting, xid, transaction.changes),
        Ending::XaCommitted => end_waiting(waiting, &transaction.gtid),
        Ending::XaRolledBack => match end_waiting(waiting, &transaction.gtid) {
            Ok(_) => Ok(Vec::new(alloc)),
            Err(error) => Err(error),
        },
    }
}

/// Whether something waits that changes anything.
pub fn any_waits(waiting: &[Waiting<'_>]) -> bool
    ensures { result ≡ still_waits (map waiting_value waiting.now) }
{
    for one in waiting {
        if !one.changes.is_empty() {
            return true;
        }
    }
    false
}
