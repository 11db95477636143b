//! Why the feed of a board's stream doesn't grow.

ghost use Rattle.std.specs.Prelude.{◌≡◌};

use source_feed::FeedFault;
use thiserror::Error;

/// Why the feed of a stream doesn't grow.
#[derive(Debug, Drop, Error)]
pub enum GrowRefusal {
    /// The board has no stream of this number.
    #[error("no such stream")]
    NoStream,
    /// The feed doesn't take the piece.
    #[error("{0}")]
    Piece(FeedFault),
}

impl GrowRefusal {
    ghost use Rattle.apply_core.specs.Growing.{number_of_grow};

    /// The refusal's number.
    pub fn number(&self) -> u8
        ensures { result ≡ number_of_grow self.now }
    {
        match self {
            GrowRefusal::NoStream => 115,
            GrowRefusal::Piece(fault) => fault.number(),
        }
    }
}
