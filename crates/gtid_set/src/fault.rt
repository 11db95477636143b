//! Why a position could not be read, or grown.

ghost use Rattle.std.specs.Prelude.{◌≡◌};
ghost use Rattle.gtid_set.specs.declared.fault.GtidFault.TheVariants.{Memory};
ghost use Rattle.gtid_set.specs.Fault.{number_of_fault};

use std::alloc::AllocError;
use thiserror::Error;

/// Why a position text isn't read, or why a set couldn't grow.
#[derive(Clone, Copy, Debug, PartialEq, Eq, Error)]
pub enum GtidFault {
    /// The text has more than 1,048,576 bytes (this profile's limit).
    #[error("the position text has more than 1,048,576 bytes")]
    TooLarge,
    /// What stands before the first `/` isn't `MySQL56`.
    #[error("the position is of another flavor than MySQL56")]
    Flavor,
    /// A part doesn't begin with a uuid: hexadecimal digits, 8-4-4-4-12.
    #[error("a part of the position doesn't begin with a uuid")]
    BadUuid,
    /// No `:` follows a uuid.
    #[error("no colon follows a uuid of the position")]
    Syntax,
    /// A bound of an interval isn't digits, or is out of range.
    #[error("a number of the position is malformed or out of range")]
    BadNumber,
    /// A growth was refused.
    #[error("out of memory")]
    Memory,
}

impl GtidFault {
    /// The number of the refusal: 36, 31, 32, 35, 33, and 72 for want of memory.
    pub fn number(&self) -> u8
        ensures { result ≡ number_of_fault self.now }
    {
        match self {
            GtidFault::TooLarge => 36,
            GtidFault::Flavor => 31,
            GtidFault::BadUuid => 32,
            GtidFault::Syntax => 35,
            GtidFault::BadNumber => 33,
            GtidFault::Memory => 72,
        }
    }
}

impl From<AllocError> for GtidFault {
    ghost from_gives = { λ _ e. e ≡ Memory };

    fn from(_e: AllocError) -> GtidFault {
        GtidFault::Memory
    }
}
