//! Why a key range, a vindex's name or a column's value is refused.

ghost use Rattle.std.specs.Prelude.{◌≡◌};
ghost use Rattle.vindex.specs.FaultNumber.{number_of_fault};
ghost use Rattle.vindex.specs.declared.faults.VindexFault.TheVariants.{Memory};

use std::alloc::AllocError;
use thiserror::Error;

/// What is wrong with a key range, a vindex's name or a column's value.
#[derive(Clone, Copy, Debug, PartialEq, Eq, Error)]
pub enum VindexFault {
    /// A text that is no key range: no `start-end` of hexadecimal digits, or one that doesn't start
    /// below its end.
    #[error("not a key range")]
    BadRange,
    /// A name that no vindex has.
    #[error("no vindex has this name")]
    UnknownVindex,
    /// NULL under a vindex.
    #[error("NULL has no keyspace id")]
    NullValue,
    /// A value under `numeric`, `reverse_bits` or `hash` that is no number from 0 to 2^64 - 1.
    #[error("the value is no number from 0 to 2^64 - 1")]
    NotANumber,
    /// The allocator gave no memory.
    #[error("out of memory")]
    Memory,
}

impl VindexFault {
    /// The refusal's number: 41 to 44, or 72 for want of memory.
    pub fn number(self) -> u8
        ensures { result ≡ number_of_fault self }
    {
        match self {
            VindexFault::BadRange => 41,
            VindexFault::UnknownVindex => 42,
            VindexFault::NullValue => 43,
            VindexFault::NotANumber => 44,
            VindexFault::Memory => 72,
        }
    }
}

impl From<AllocError> for VindexFault {
    ghost from_gives = { λ _ fault. fault ≡ Memory };

    fn from(_error: AllocError) -> VindexFault {
        VindexFault::Memory
    }
}
