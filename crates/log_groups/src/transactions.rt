//! The transactions of a log one after another.

ghost use Rattle.std.specs.Prelude.{◌≡◌, option_map};
ghost use Rattle.std.specs.Result.{result_map_both};
ghost use Rattle.item_readers.specs.Reading.{Reading};
ghost use Rattle.log_groups.specs.declared.fault.GroupFault.{GroupFault};
ghost use Rattle.log_groups.specs.Step.{steps_of};
ghost use Rattle.log_groups.specs.Transaction.{TransactionValue, AreTransactions, transactions_of};
ghost use Rattle.log_groups.specs.Calls.{transaction_value, NextTransaction};

use crate::fault::{GroupError, GroupFault};
use crate::transaction::{Transaction, next_of};
use log_events::Events;
use std::alloc::Global;
use std::marker::Model;

/// The transactions of a log that are still to come, in order. Seen in contracts as that list with the fault that ends it,
/// if one does, and how many of the log's bytes aren't read yet.
#[derive(Drop)]
pub struct Transactions<'t, 'b> {
    events: Events<'t, 'b>,
    /// why one wasn't read
    failed: Option<GroupFault>,
}

impl<'t, 'b> Model for Transactions<'t, 'b> {
    ghost use Rattle.log_events.specs.Unread.{Unread};
    ghost use Rattle.log_groups.specs.declared.fault.GroupFault.{GroupFault};
    ghost use Rattle.log_groups.specs.Step.{steps_of};
    ghost use Rattle.log_groups.specs.Transaction.{TransactionValue, transactions_of};
    ghost use Rattle.log_groups.specs.Calls.{unless_failed};

    ghost Value = { Unread TransactionValue GroupFault };

    ghost view = { λ a. record { reading = unless_failed a.failed (transactions_of (steps_of a.events.reading)); left = a.events.left } };
}

impl<'t, 'b> Transactions<'t, 'b> {
    /// The transactions of a log's events. Nothing is read yet, and no memory is taken.
    pub fn new(events: Events<'t, 'b>) -> Transactions<'t, 'b>
        ensures reading { result.reading ≡ transactions_of (steps_of events.entry.reading) }
        ensures left { result.left ≡ events.entry.left }
        // The log's steps are these transactions one after another, and then the end or that fault,
        ensures spelled { AreTransactions (steps_of events.entry.reading) result.reading }
        // and no others.
        ensures only { (other : Reading TransactionValue GroupFault) → AreTransactions (steps_of events.entry.reading) other → other ≡ result.reading }
    {
        Transactions {
            events,
            failed: None,
        }
    }

    /// The next transaction, or `None` at the end. After the end the end is answered again, and after a fault the same
    /// fault. Behind want of memory nothing is told of what is still to come.
    pub fn next_transaction(&mut self, alloc: Global) -> Result<Option<Transaction<'b>>, GroupError>
        ensures { NextTransaction self.old.reading (result_map_both (λ t. option_map transaction_value t) (λ e. e) result) self.new.reading }
    {
        if let Some(fault) = self.failed {
            return Err(GroupError::Fault(fault));
        }
        match next_of(alloc, &mut self.events) {
            Ok(found) => Ok(found),
            Err(error) => {
                self.failed = error.fault();
                Err(error)
            }
        }
    }

    /// How many bytes of the log aren't read yet: those behind the last event that was read.
    pub fn bytes_left(&self) -> usize
        ensures { result ≡ self.now.left }
    {
        self.events.bytes_left()
    }
}
