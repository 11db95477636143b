//! Why a row event isn't read.

ghost use Rattle.std.specs.Prelude.{◌≡◌};
ghost use Rattle.log_rows.specs.Fault.{number_of};
ghost use Rattle.log_rows.specs.declared.fault.RowFault.TheVariants.{CutHead};
ghost use Rattle.log_rows.specs.declared.fault.RowError.TheVariants.{Memory};

use log_tables::TableFault;
use log_values::ValueFault;
use std::alloc::AllocError;
use thiserror::Error;

/// What is wrong with the body of a row event.
#[derive(Clone, Copy, Debug, PartialEq, Eq, Error)]
pub enum RowFault {
    /// The body ends before its rows.
    #[error("the body of an event ends inside a part of it")]
    CutHead,
    /// The rows don't have all columns of their table.
    #[error("a row without all columns of its table")]
    NotAllColumns,
    /// A row is cut short, or a value is none that its type has.
    #[error("{0}")]
    Value(ValueFault),
}

impl RowFault {
    /// The refusal's number: 146, 147 or 150.
    pub fn number(self) -> u8
        ensures { result ≡ number_of self }
    {
        match self {
            RowFault::CutHead => 146,
            RowFault::NotAllColumns => 147,
            RowFault::Value(fault) => fault.number(),
        }
    }
}

impl From<TableFault> for RowFault {
    ghost from_gives = { λ _ fault. fault ≡ CutHead };

    fn from(_fault: TableFault) -> RowFault {
        RowFault::CutHead
    }
}

/// Why a row isn't read.
#[derive(Clone, Copy, Debug, PartialEq, Eq, Error)]
pub enum RowError {
    #[error("no memory is left")]
    Memory,
    #[error("{0}")]
    Fault(ValueFault),
}

impl From<AllocError> for RowError {
    ghost from_gives = { λ _ error. error ≡ Memory };

    fn from(_error: AllocError) -> RowError {
        RowError::Memory
    }
}
