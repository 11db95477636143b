//! Positions as a checkpoint has them.

ghost use Rattle.std.specs.Prelude.{◌≡◌, IfOk};
ghost use Rattle.std.specs.Result.{result_ok};
ghost use Rattle.gtid_set.specs.Text.{position_of_text};
ghost use Rattle.checkpoint_places.specs.Stands.{is_at};

use gtid_set::{GtidFault, GtidSet};
use std::alloc::{AllocError, Global};

/// The position that a text means, if it means one. An error is want of memory.
pub(crate) fn position_in(alloc: Global, text: &str) -> Result<Option<GtidSet>, AllocError>
    ensures { IfOk result (λ found. found ≡ result_ok (position_of_text text.now)) }
{
    match GtidSet::parse(alloc, text) {
        Ok(set) => Ok(Some(set)),
        Err(GtidFault::Memory) => Err(AllocError),
        Err(_) => Ok(None),
    }
}

/// Whether a text means this position. An error is want of memory.
pub(crate) fn is_at(alloc: Global, text: &str, position: &GtidSet) -> Result<bool, AllocError>
    ensures { IfOk result (λ yes. yes ≡ is_at position.now text.now) }
{
    match position_in(alloc, text)? {
        None => Ok(false),
        Some(found) => Ok(found == *position),
    }
}
