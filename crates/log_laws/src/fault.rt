//! Why a feed can't tell a transaction.

ghost use Rattle.std.specs.Prelude.{◌≡◌};
ghost use Rattle.log_laws.specs.Fault.{number_of};

use log_feed::ChangeFault;

/// What is wrong with a transaction.
#[derive(Clone, Copy, Debug, PartialEq, Eq)]
pub enum TellFault {
    /// What it changes can't be told.
    Change(ChangeFault),
    /// The text of the position behind it is longer than a feed has them.
    Position,
}

impl TellFault {
    /// The refusal's number: 94, 146 to 150, 152 or 159.
    pub fn number(self) -> u8
        ensures { result ≡ number_of self }
    {
        match self {
            TellFault::Change(fault) => fault.trouble.number(),
            TellFault::Position => 94,
        }
    }
}
