//! Why the events of a log make no transactions.

ghost use Rattle.std.specs.Prelude.{◌≡◌};
ghost use Rattle.log_groups.specs.Fault.{number_of, meant};
ghost use Rattle.log_groups.specs.declared.fault.GroupFault.TheVariants.{Event, Body, Head};
ghost use Rattle.log_groups.specs.declared.fault.GroupError.TheVariants.{Memory, Fault};

use log_events::EventFault;
use log_rows::RowFault;
use log_tables::TableFault;
use std::alloc::AllocError;
use thiserror::Error;

/// What is wrong with the events of a log.
#[derive(Clone, Copy, Debug, PartialEq, Eq, Error)]
pub enum GroupFault {
    /// No event stands in the place of one.
    #[error("{0}")]
    Event(EventFault),
    /// The body of an event ends inside a part of it.
    #[error("the body of an event ends inside a part of it")]
    Body,
    /// What stands before the rows of an event isn't read.
    #[error("{0}")]
    Head(RowFault),
    /// An event of a type that can't be told as rows; the refusal's number.
    #[error("an event that can't be told as rows, or isn't known")]
    Refused(u8),
    /// A statement that may change rows.
    #[error("a statement that may change rows")]
    Statement,
    /// An event outside of the transaction that it needs, or inside of one in which it can't stand.
    #[error("an event that can't stand here")]
    Outside,
    /// Rows of a table whose number no map before them in the transaction has.
    #[error("rows without a map of their table")]
    NoTable,
    /// A transaction goes back to a savepoint that it doesn't have.
    #[error("no such savepoint")]
    NoSavepoint,
    /// The log ends inside a transaction.
    #[error("the log ends inside a transaction")]
    Unended,
    /// An XA transaction is prepared under the id of one that is.
    #[error("an XA transaction is prepared twice")]
    Twice,
    /// An XA transaction is ended that isn't prepared in this log or in one before it, or without its id.
    #[error("the end of an XA transaction that isn't prepared in the logs")]
    NotPrepared,
    /// The last log ends where an XA transaction that changes something is prepared.
    #[error("the last log ends where an XA transaction is prepared")]
    StillPrepared,
}

impl GroupFault {
    /// The refusal's number: 141 to 143, 146, 147, 151, 153 to 157.
    pub fn number(self) -> u8
        ensures { result ≡ number_of self }
    {
        match self {
            GroupFault::Event(fault) => fault.number(),
            GroupFault::Body => 146,
            GroupFault::Head(fault) => fault.number(),
            GroupFault::Refused(number) => number,
            GroupFault::Statement => 151,
            GroupFault::Outside => 156,
            GroupFault::NoTable => 156,
            GroupFault::NoSavepoint => 156,
            GroupFault::Unended => 156,
            GroupFault::Twice => 156,
            GroupFault::NotPrepared => 156,
            GroupFault::StillPrepared => 156,
        }
    }
}

impl From<EventFault> for GroupFault {
    ghost from_gives = { λ event fault. fault ≡ Event event };

    fn from(fault: EventFault) -> GroupFault {
        GroupFault::Event(fault)
    }
}

impl From<TableFault> for GroupFault {
    ghost from_gives = { λ _ fault. fault ≡ Body };

    fn from(_fault: TableFault) -> GroupFault {
        GroupFault::Body
    }
}

impl From<RowFault> for GroupFault {
    ghost from_gives = { λ row fault. fault ≡ Head row };

    fn from(fault: RowFault) -> GroupFault {
        GroupFault::Head(fault)
    }
}

/// Why a transaction isn't read.
#[derive(Clone, Copy, Debug, PartialEq, Eq, Error)]
pub enum GroupError {
    #[error("no memory is left")]
    Memory,
    #[error("{0}")]
    Fault(GroupFault),
}

impl GroupError {
    /// What is wrong with the events, unless memory is.
    pub(crate) fn fault(self) -> Option<GroupFault>
        ensures { result ≡ meant self }
    {
        match self {
            GroupError::Memory => None,
            GroupError::Fault(fault) => Some(fault),
        }
    }
}

impl From<AllocError> for GroupError {
    ghost from_gives = { λ _ error. error ≡ Memory };

    fn from(_error: AllocError) -> GroupError {
        GroupError::Memory
    }
}

impl From<GroupFault> for GroupError {
    ghost from_gives = { λ fault error. error ≡ Fault fault };

    fn from(fault: GroupFault) -> GroupError {
        GroupError::Fault(fault)
    }
}
