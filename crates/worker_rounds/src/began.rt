//! What a round began with.

use std::marker::Brand;

/// What a round began with: a board with its feeds, and how many groups a stream may apply. It is known in proofs alone,
/// so that a board that comes out of a lock is known to come from there.
pub trait Began {
    ghost use Rattle.std.specs.Prelude.{ℕ};
    ghost use Rattle.board_laws.specs.FedBoards.{Fed};

    ghost fed: { Fed };

    ghost most: { ℕ };
}

impl Began for Brand {
    ghost use Rattle.std.specs.Prelude.{[]};

    ghost fed = { record { board = record { streams = []; rows = [] }; feeds = [] } };

    ghost most = { 0 };
}
