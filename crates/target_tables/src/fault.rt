//! Why touches are refused.

ghost use Rattle.std.specs.Prelude.{◌≡◌};
ghost use Rattle.target_tables.specs.declared.fault.TableFault.TheVariants.{Memory};
ghost use Rattle.target_tables.specs.Refusals.{number_of};

use std::alloc::AllocError;
use thiserror::Error;

/// Why a stream's touches aren't staged.
#[derive(Debug, Drop, Error)]
pub enum TableFault<K> {
    /// A row is to be put at a key where a row of another stream stands: the least such key, and the
    /// stream that owns the row.
    #[error("a row of stream {owner} stands at a key")]
    OwnedByOther { key: K, owner: u8 },
    /// A growth was refused.
    #[error("out of memory")]
    Memory,
}

impl<K> TableFault<K> {
    /// The refusal's number: 71, and 72 for want of memory.
    pub fn number(&self) -> u8
        ensures { result ≡ number_of self.now }
    {
        match self {
            TableFault::OwnedByOther { .. } => 71,
            TableFault::Memory => 72,
        }
    }
}

impl<K> From<AllocError> for TableFault<K> {
    ghost from_gives = { λ _ e. e ≡ Memory };

    fn from(_e: AllocError) -> TableFault<K> {
        TableFault::Memory
    }
}
