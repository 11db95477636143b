//! Why a row has no key.

ghost use Rattle.std.specs.Prelude.{◌≡◌};
ghost use Rattle.pk_copy.specs.FaultNumber.{number_of};

use thiserror::Error;

/// Why a row has no key. Where both stand, it is `NullKey`.
#[derive(Clone, Copy, Debug, PartialEq, Eq, Error)]
pub enum KeyFault {
    /// A key column is NULL.
    #[error("a key column is NULL")]
    NullKey,
    /// A key column of whole numbers holds no number text from -2^63 to 2^64 - 1.
    #[error("a key column of whole numbers holds no number")]
    BadKey,
}

impl KeyFault {
    /// The number of the refusal: 61 or 62.
    pub fn number(self) -> u8
        ensures { result ≡ number_of self }
    {
        match self {
            KeyFault::NullKey => 61,
            KeyFault::BadKey => 62,
        }
    }
}
