//! The groups of a log one after another.

ghost use Rattle.std.specs.Prelude.{◌≡◌, map, [], option_map};
ghost use Rattle.std.specs.Result.{result_map_both};
ghost use Rattle.log_groups.specs.Group.{groups_behind};
ghost use Rattle.log_groups.specs.GroupCalls.{group_value, waiting_value, FindsGroup, NextGroup};

use crate::done::Done;
use crate::fault::{GroupError, GroupFault};
use crate::step::Gtid;
use crate::transactions::Transactions;
use crate::waiting::{Waiting, settle};
use std::alloc::Global;
use std::marker::Model;

/// What is committed at a position. What it refers to are slices of the log's bytes.
#[derive(Drop)]
pub struct Group<'b> {
    pub gtid: Gtid<'b>,
    /// in order
    pub changes: Vec<Done<'b>>,
}

/// The group of the next transaction, where these wait.
fn next_of<'b>(
    alloc: Global,
    transactions: &mut Transactions<'_, 'b>,
    waiting: &mut Vec<Waiting<'b>>,
) -> Result<Option<Group<'b>>, GroupError>
    ensures { FindsGroup (groups_behind (map waiting_value waiting.old.items) transactions.old.reading) (result_map_both (λ g. option_map group_value g) (λ e. e) result) (map waiting_value waiting.new.items) transactions.new.reading }
{
    match transactions.next_transaction(alloc)? {
        Some(transaction) => {
            let gtid = transaction.gtid;
            let changes = settle(alloc, waiting, transaction)?;
            Ok(Some(Group { gtid, changes }))
        }
        None => Ok(None),
    }
}

/// The groups of a log that are still to come, in order. Seen in contracts as that list with the fault that ends it, if one
/// does, what waits where they end, and how many of the log's bytes aren't read yet.
#[derive(Drop)]
pub struct Groups<'t, 'b> {
    transactions: Transactions<'t, 'b>,
    /// XA transactions that are prepared
    waiting: Vec<Waiting<'b>>,
    /// why one wasn't read
    failed: Option<GroupFault>,
}

impl<'t, 'b> Model for Groups<'t, 'b> {
    ghost use Rattle.std.specs.Prelude.{map};
    ghost use Rattle.log_groups.specs.GroupCalls.{waiting_value, unless_refused, GroupsValue};

    ghost Value = { GroupsValue };

    ghost view = { λ a. record { groups = unless_refused a.failed (map waiting_value a.waiting.items) a.transactions.reading; left = a.transactions.left } };
}

impl<'t, 'b> Groups<'t, 'b> {
    /// The groups of a log's transactions, where these wait before it. Nothing is read yet, and no memory is taken.
    pub fn new(transactions: Transactions<'t, 'b>, waiting: Vec<Waiting<'b>>) -> Groups<'t, 'b>
        ensures groups { result.groups ≡ groups_behind (map waiting_value waiting.entry.items) transactions.entry.reading }
        ensures left { result.left ≡ transactions.entry.left }
    {
        Groups {
            transactions,
            waiting,
            failed: None,
        }
    }

    /// The next group, or `None` at the end. After the end the end is answered again, and after a fault the same fault.
    /// Behind want of memory nothing is told of what is still to come, nor of what waits.
    pub fn next_group(&mut self, alloc: Global) -> Result<Option<Group<'b>>, GroupError>
        ensures { NextGroup self.old.groups (result_map_both (λ g. option_map group_value g) (λ e. e) result) self.new.groups }
    {
        if let Some(fault) = self.failed {
            return Err(GroupError::Fault(fault));
        }
        match next_of(alloc, &mut self.transactions, &mut self.waiting) {
            Ok(found) => Ok(found),
            Err(error) => {
                self.failed = error.fault();
                Err(error)
            }
        }
    }

    /// How many bytes of the log aren't read yet: those behind the last event that was read.
    pub fn bytes_left(&self) -> usize
        ensures { result ≡ self.now.left }
    {
        self.transactions.bytes_left()
    }

    /// What waits, once no group is to come.
    pub fn into_waiting(self) -> Vec<Waiting<'b>>
        ensures { self.entry.groups.reading.items ≡ [] → map waiting_value result.items ≡ self.entry.groups.waiting }
    {
        self.waiting
    }
}
