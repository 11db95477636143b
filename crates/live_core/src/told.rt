//! The board that was told last.

ghost use Rattle.std.specs.Prelude.{◌≡◌, ◌<◌, IfOk, IsSomeAnd, length, slice_get};
ghost use Rattle.live_core.specs.Live.{AreApplied};

use apply_core::Board;
use std::alloc::{AllocError, Global};
use std::marker::Model;
use std::snapshot::Snapshot;

/// The board as it was told: of each stream how many groups were applied. Seen in contracts as the whole of it.
#[derive(Drop)]
pub(crate) struct Told<'h> {
    applied: Vec<u32>,
    board: Snapshot<Board<'h>>,
}

impl<'h> Model for Told<'h> {
    ghost use Rattle.std.specs.Prelude.{◌≡◌, map};
    ghost use Rattle.board_laws.specs.Meaning.{State, Meaning};

    ghost Value = { Meaning };

    ghost view = { λ t. t.board.value };

    ghost invariant = { λ t. t.applied.items ≡ map (λ (state : State). state.applied) t.board.value.streams };
}

/// How many groups each stream of a board has applied.
pub(crate) fn applied_on(alloc: Global, board: &Board<'_>) -> Result<Vec<u32>, AllocError>
    ensures { IfOk result (λ applied. AreApplied applied.items board.now) }
{
    // (for the contract: how many streams there are)
    board.is_lawful();
    let mut applied = Vec::new(alloc);
    for s in 0..board.len() {
        let Ok(at) = board.state(s as u8) else {
            unreachable!()
        };
        applied.push(at.applied())?;
    }
    Ok(applied)
}

impl<'h> Told<'h> {
    /// The board as it stands, with the numbers of its streams' applied groups.
    pub(crate) fn of(applied: Vec<u32>, board: &Board<'h>) -> Told<'h>
        requires { AreApplied applied.items board.now }
        ensures { result ≡ board.now }
    {
        Told {
            applied,
            board: Snapshot::of(board),
        }
    }

    /// How many groups stream `s` had applied.
    pub(crate) fn applied(&self, s: usize) -> u32
        requires { s < length self.now.streams }
        ensures { IsSomeAnd (slice_get self.now.streams s) (λ state. result ≡ state.applied) }
    {
        self.applied[s]
    }
}
