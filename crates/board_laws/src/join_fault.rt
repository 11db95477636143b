//! Why two boards aren't joined.

ghost use Rattle.std.specs.Prelude.{◌≡◌};

use pk_copy::Key;
use std::alloc::AllocError;
use thiserror::Error;

/// Why two boards aren't joined.
#[derive(Debug, Drop, Error)]
pub enum JoinFault {
    /// The boards' plans differ.
    #[error("another plan")]
    WrongPlan,
    /// The least stream of which neither read list is a beginning of the other.
    #[error("other histories of stream {0}")]
    HistoriesDiffer(u8),
    /// Two streams have a row at one key: the first stream that meets a lower one, its least such key, and
    /// the lower stream.
    #[error("a row of stream {owner} stands at a key")]
    OwnedByOther { key: Key, owner: u8 },
    /// A growth was refused.
    #[error("out of memory")]
    Memory,
}

impl From<AllocError> for JoinFault {
    ghost use Rattle.board_laws.specs.declared.join_fault.JoinFault.TheVariants.{Memory};

    ghost from_gives = { λ _ fault. fault ≡ Memory };

    fn from(_: AllocError) -> JoinFault {
        JoinFault::Memory
    }
}

impl JoinFault {
    ghost use Rattle.board_laws.specs.JoinFaults.{number_of};

    /// The fault's number.
    pub fn number(&self) -> u8
        ensures { result ≡ number_of self.now }
    {
        match self {
            JoinFault::WrongPlan => 111,
            JoinFault::HistoriesDiffer(_) => 113,
            JoinFault::OwnedByOther { .. } => 71,
            JoinFault::Memory => 72,
        }
    }
}
