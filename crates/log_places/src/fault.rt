//! Why a log doesn't stand where it has to.

ghost use Rattle.std.specs.Prelude.{◌≡◌};
ghost use Rattle.log_places.specs.Fault.{number_of};
ghost use Rattle.log_places.specs.declared.fault.PlaceError.TheVariants.{Memory, Fault};

use log_tables::TableFault;
use std::alloc::AllocError;
use thiserror::Error;

/// What is wrong with the positions of a log.
#[derive(Clone, Copy, Debug, PartialEq, Eq, Error)]
pub enum PlaceFault {
    /// A list of positions ends inside a part of it.
    #[error("the body of an event ends inside a part of it")]
    Body,
    /// A list of positions that may have tags.
    #[error("positions with tags")]
    Tagged,
    /// A transaction's number that no position has.
    #[error("a transaction's number that no position has")]
    NoNumber,
    /// A transaction that the positions before it have.
    #[error("a position that goes back")]
    GoesBack,
    /// A log that doesn't begin with the positions before it.
    #[error("a log that doesn't begin with the positions before it")]
    NoList,
    /// A log that begins with other positions than those that were reached before it.
    #[error("a log that doesn't begin where the one before it ends")]
    Elsewhere,
}

impl PlaceFault {
    /// The refusal's number: 146, 155, 158 or 159.
    pub fn number(self) -> u8
        ensures { result ≡ number_of self }
    {
        match self {
            PlaceFault::Body => 146,
            PlaceFault::Tagged => 155,
            PlaceFault::NoNumber => 158,
            PlaceFault::GoesBack => 158,
            PlaceFault::NoList => 159,
            PlaceFault::Elsewhere => 159,
        }
    }
}

impl From<TableFault> for PlaceFault {
    ghost use Rattle.log_places.specs.declared.fault.PlaceFault.TheVariants.{Body};

    ghost from_gives = { λ _ fault. fault ≡ Body };

    fn from(_fault: TableFault) -> PlaceFault {
        PlaceFault::Body
    }
}

/// Why a position isn't told.
#[derive(Clone, Copy, Debug, PartialEq, Eq, Error)]
pub enum PlaceError {
    #[error("no memory is left")]
    Memory,
    #[error("{0}")]
    Fault(PlaceFault),
}

impl From<AllocError> for PlaceError {
    ghost from_gives = { λ _ error. error ≡ Memory };

    fn from(_error: AllocError) -> PlaceError {
        PlaceError::Memory
    }
}

impl From<PlaceFault> for PlaceError {
    ghost from_gives = { λ fault error. error ≡ Fault fault };

    fn from(fault: PlaceFault) -> PlaceError {
        PlaceError::Fault(fault)
    }
}
