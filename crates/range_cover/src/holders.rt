//! Who has an id.

ghost use Rattle.std.specs.Prelude.{◌≡◌, IfOk};
ghost use Rattle.range_cover.specs.Cover.{holders_of};

use crate::share::Share;
use std::alloc::{AllocError, Global};

/// The holders of the ranges that have an id, in the order of the ranges.
pub(crate) fn holders_of(
    alloc: Global,
    shares: &[Share<'_>],
    id: &[u8],
) -> Result<Vec<usize>, AllocError>
    ensures { IfOk result (λ holders. holders.items ≡ holders_of shares.now id.now) }
{
    let mut holders = Vec::new(alloc);
    for share in shares {
        if share.range.holds(id) {
            holders.push(share.holder)?;
        }
    }
    Ok(holders)
}
