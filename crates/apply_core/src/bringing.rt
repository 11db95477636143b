//! Bringing an image to a group.

ghost use Rattle.std.specs.Prelude.{◌≡◌, ◌≤◌, length, map, OnOk};
ghost use Rattle.std.specs.Arc.{arc_value};
ghost use Rattle.source_feed.specs.History.{IsPassed};

use source_feed::{Image, Prepared};
use std::alloc::{AllocError, Global};
use std::sync::Arc;

/// Brings an image to a group of a list, group by group, and from scratch if it is ahead. An error is want
/// of memory, and leaves the image at some group before.
pub(crate) fn bring<'h>(
    alloc: Global,
    image: &mut Image<'h>,
    imaged: &mut u32,
    list: &[Arc<Prepared<'h>>],
    group: u32,
) -> Result<(), AllocError>
    requires kept { IsPassed (map arc_value list.now) imaged.old image.old }
    requires within { group ≤ length list.now }
    ensures kept { IsPassed (map arc_value list.now) imaged.new image.new }
    ensures no_later { imaged.new ≤ group }
    ensures there { OnOk result (imaged.new ≡ group) }
{
    if *imaged > group {
        image.clear();
        *imaged = 0;
    }
    while *imaged < group {
        image.advance(alloc, &list[*imaged as usize])?;
        *imaged += 1;
    }
    Ok(())
}
