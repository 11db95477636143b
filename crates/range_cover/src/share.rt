//! A key range with its holder.

use std::marker::Model;
use vindex::KeyRange;

/// A key range of ids, and the number of who has them.
#[derive(Drop)]
pub struct Share<'r> {
    /// Who has the ids.
    pub holder: usize,
    /// The range of the ids.
    pub range: &'r KeyRange,
}

impl<'r> Model for Share<'r> {
    ghost use Rattle.range_cover.specs.Cover.{ShareValue};

    ghost Value = { ShareValue };

    ghost view = { λ s. record { holder = s.holder; range = s.range.now } };
}
