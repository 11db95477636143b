//! The rows of a row change, where they lie in it.

ghost use Rattle.std.specs.Prelude.{◌≡◌, None, option_copied};
ghost use Rattle.proto_wire.specs.Parts.{single};
ghost use Rattle.vevent.specs.Private.EventParts.{AreChangeRows};

use crate::walk::{MessageParts, walk};
use proto_wire::{Field, WireFault};

/// The rows that were met so far of a row change, the first of several.
#[derive(Clone, Copy)]
pub(crate) struct ChangeRows<'b> {
    pub(crate) before: Option<&'b [u8]>,
    pub(crate) after: Option<&'b [u8]>,
}

impl<'b> MessageParts<'b> for ChangeRows<'b> {
    ghost inside = { λ _ _ _. None };

    ghost make_up = { AreChangeRows };

    #[inline(always)]
    fn put(&mut self, field: Field<'b>) -> Result<(), WireFault> {
        self.before = self.before.or(field.part(1));
        self.after = self.after.or(field.part(2));
        Ok(())
    }
}

/// The rows of a row change, the first of several. What isn't a field ends them.
#[inline(always)]
#[tactic(auto, using(crate::proofs::Walks::first_in_none))]
pub(crate) fn rows_in(change: &[u8]) -> ChangeRows<'_>
    ensures before { option_copied result.before ≡ single 1 change.now }
    ensures after { option_copied result.after ≡ single 2 change.now }
{
    let mut rows = ChangeRows {
        before: None,
        after: None,
    };
    let _ = walk(change, &mut rows);
    rows
}
