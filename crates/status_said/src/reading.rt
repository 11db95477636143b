//! Checkpoints by their bytes, up to the first that is none.

ghost use Rattle.std.specs.Prelude.{◌≡◌, IfOk, map};
ghost use Rattle.status_said.specs.Said.{IsGiven, stand_in, stands_from};

use crate::fault::StatusFault;
use checkpoint_places::{CheckpointStand, StandFault, stands_of};
use std::alloc::Global;

/// Where the streams of the checkpoint of this number stand.
fn stand_in(alloc: Global, file: usize, bytes: &[u8]) -> Result<CheckpointStand<'_>, StatusFault>
    ensures { IsGiven (λ stand. stand) result (stand_in file bytes.entry.now) }
{
    match stands_of(alloc, bytes) {
        Ok(stand) => Ok(stand),
        Err(StandFault::Broken) => Err(StatusFault::Broken { file }),
        Err(StandFault::Memory) => Err(StatusFault::Memory),
    }
}

/// Where the streams of checkpoints stand.
pub(crate) fn stands_in<'b>(
    alloc: Global,
    texts: &'b [Vec<u8>],
) -> Result<Vec<CheckpointStand<'b>>, StatusFault>
    ensures { IsGiven (λ stands. stands.items) result (stands_from 0 (map (λ text. text.items) texts.entry.now)) }
{
    let mut stands = Vec::new(alloc);
    for i in 0..texts.len() {
        let stand = stand_in(alloc, i, texts[i].as_slice())?;
        stands.push(stand)?;
    }
    Ok(stands)
}
