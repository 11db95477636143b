//! Why bytes aren't a value.

ghost use Rattle.std.specs.Prelude.{◌≡◌};
ghost use Rattle.log_values.specs.Value.{number_of};

use thiserror::Error;

/// What stands in the place of a value.
#[derive(Clone, Copy, Debug, PartialEq, Eq, Error)]
pub enum ValueFault {
    /// The bytes end inside a value.
    #[error("the bytes end inside a value")]
    CutValue,
    /// A value that its type doesn't have: a label, a digit, a month.
    #[error("a value is out of its type's range")]
    OutOfRange,
}

impl ValueFault {
    /// The refusal's number: 147 or 150.
    pub fn number(self) -> u8
        ensures { result ≡ number_of self }
    {
        match self {
            ValueFault::CutValue => 147,
            ValueFault::OutOfRange => 150,
        }
    }
}

/// Why a value isn't written.
#[derive(Clone, Copy, Debug, PartialEq, Eq, Error)]
pub enum ValueError {
    #[error("no memory is left")]
    Memory,
    #[error("{0}")]
    Fault(ValueFault),
}
