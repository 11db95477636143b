//! Why the changes of a log can't be told in a feed.

ghost use Rattle.std.specs.Prelude.{◌≡◌};
ghost use Rattle.log_feed.specs.Fault.{number_of};
ghost use Rattle.log_feed.specs.declared.fault.Trouble.TheVariants.{Columns};
ghost use Rattle.log_feed.specs.declared.fault.TroubleError.TheVariants.{Memory, Is};
ghost use Rattle.log_feed.specs.declared.fault.ChangeError.TheVariants as change_error;

use log_tables::TableFault;
use log_values::ValueFault;
use std::alloc::AllocError;
use thiserror::Error;

/// What is wrong with the changes of a table.
#[derive(Clone, Copy, Debug, PartialEq, Eq, Error)]
pub enum Trouble {
    /// It hasn't the workflow's columns.
    #[error("{0}")]
    Columns(TableFault),
    /// Rows don't have all of its columns.
    #[error("a row without all columns of its table")]
    NotAll,
    /// A row is cut short, or a value is none that its type has.
    #[error("{0}")]
    Value(ValueFault),
    /// A row is longer than a feed has them, as its message more than 2^24 bytes.
    #[error("a row of more than 2^24 bytes")]
    TooLong,
    /// It has rows that aren't in the logs, since none of them says how it was made.
    #[error("the table was there before the logs")]
    NotMade,
    /// A statement may have changed its rows or its columns.
    #[error("a statement that may change the rows or the columns of the table")]
    Altered,
}

impl Trouble {
    /// The refusal's number: 146 to 150, 152 or 159.
    pub fn number(self) -> u8
        ensures { result ≡ number_of self }
    {
        match self {
            Trouble::Columns(fault) => fault.number(),
            Trouble::NotAll => 147,
            Trouble::Value(fault) => fault.number(),
            Trouble::TooLong => 150,
            Trouble::NotMade => 159,
            Trouble::Altered => 152,
        }
    }
}

/// What is wrong, and with which table, by its place among those of the feed.
#[derive(Clone, Copy, Debug, PartialEq, Eq)]
pub struct ChangeFault {
    pub trouble: Trouble,
    pub table: usize,
}

/// Why the changes of a table aren't told.
#[derive(Clone, Copy, Debug, PartialEq, Eq)]
pub(crate) enum TroubleError {
    Memory,
    Is(Trouble),
}

impl From<AllocError> for TroubleError {
    ghost from_gives = { λ _ error. error ≡ Memory };

    fn from(_error: AllocError) -> TroubleError {
        TroubleError::Memory
    }
}

impl From<Trouble> for TroubleError {
    ghost from_gives = { λ trouble error. error ≡ Is trouble };

    fn from(trouble: Trouble) -> TroubleError {
        TroubleError::Is(trouble)
    }
}

/// Why changes aren't told.
#[derive(Clone, Copy, Debug, PartialEq, Eq)]
pub enum ChangeError {
    Memory,
    Fault(ChangeFault),
}

impl From<AllocError> for ChangeError {
    ghost from_gives = { λ _ error. error ≡ change_error.Memory };

    fn from(_error: AllocError) -> ChangeError {
        ChangeError::Memory
    }
}
