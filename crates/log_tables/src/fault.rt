//! Why a table map isn't read.

ghost use Rattle.std.specs.Prelude.{◌≡◌};
ghost use Rattle.log_tables.specs.Fault.{number_of};
ghost use Rattle.log_tables.specs.declared.fault.TableError.TheVariants.{Memory, Fault};

use std::alloc::AllocError;
use thiserror::Error;

/// What is wrong with the body of a table map.
#[derive(Clone, Copy, Debug, PartialEq, Eq, Error)]
pub enum TableFault {
    /// The body ends inside a part of it, or has more of a part than its columns need.
    #[error("the body of an event ends inside a part of it")]
    CutBody,
    /// The table has other columns than the workflow's: another number of them, or other names.
    #[error("the table has other columns than the workflow's")]
    OtherColumns,
    /// A column is of another type than the workflow's, or of one that isn't read.
    #[error("a column is of another type than the workflow's")]
    OtherType,
}

impl TableFault {
    /// The refusal's number: 146, 148 or 149.
    pub fn number(self) -> u8
        ensures { result ≡ number_of self }
    {
        match self {
            TableFault::CutBody => 146,
            TableFault::OtherColumns => 148,
            TableFault::OtherType => 149,
        }
    }
}

/// Why the columns of a table map aren't read.
#[derive(Clone, Copy, Debug, PartialEq, Eq, Error)]
pub enum TableError {
    #[error("no memory is left")]
    Memory,
    #[error("{0}")]
    Fault(TableFault),
}

impl From<AllocError> for TableError {
    ghost from_gives = { λ _ error. error ≡ Memory };

    fn from(_error: AllocError) -> TableError {
        TableError::Memory
    }
}

impl From<TableFault> for TableError {
    ghost from_gives = { λ fault error. error ≡ Fault fault };

    fn from(fault: TableFault) -> TableError {
        TableError::Fault(fault)
    }
}
