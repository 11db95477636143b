//! A part of a key in memory of its own.

ghost use Rattle.std.specs.Prelude.{◌≡◌, IfOk};
ghost use Rattle.std.specs.Ordering.{eq_by_cmp, as_partial_cmp, on};
ghost use Rattle.std.specs.Cmp.{on_total, partial_equiv_from_equiv, eq_by_cmp_equiv, partial_order_from_total};
ghost use Rattle.pk_copy.specs.KeyOrder.{part_cmp};

use crate::part::KeyPart;
use std::alloc::{AllocError, Global};
use std::cmp::Ordering;

/// A part of a key in memory of its own. Equal and ordered as the part that it lends.
#[derive(Debug, Drop)]
pub(crate) enum OwnedPart {
    Number(i128),
    Bytes(Vec<u8>),
}

impl OwnedPart {
    ghost use Rattle.pk_copy.specs.PartValue.{owned_value, part_value};

    /// A copy of a part.
    pub(crate) fn from_part(alloc: Global, part: KeyPart<'_>) -> Result<OwnedPart, AllocError>
        ensures { IfOk result (λ owned. owned_value owned ≡ part_value part.entry) }
    {
        match part {
            KeyPart::Number(value) => Ok(OwnedPart::Number(value)),
            KeyPart::Bytes(text) => Ok(OwnedPart::Bytes(Vec::from_slice(alloc, text)?)),
        }
    }

    /// The part, lent.
    pub(crate) fn lent(&self) -> KeyPart<'_>
        ensures { part_value result ≡ owned_value self.now }
    {
        match self {
            OwnedPart::Number(value) => KeyPart::Number(*value),
            OwnedPart::Bytes(text) => KeyPart::Bytes(text.as_slice()),
        }
    }
}

impl PartialEq for OwnedPart {
    ghost use Rattle.pk_copy.specs.PartValue.{owned_value};
    ghost use Rattle.pk_copy.specs.KeyOrderLaws.{part_cmp_total};

    ghost eq = { eq_by_cmp (on owned_value part_cmp) };

    ghost laws = { partial_equiv_from_equiv (eq_by_cmp_equiv (on_total owned_value part_cmp_total)) };

    fn eq(&self, other: &Self) -> bool {
        self.cmp(other).is_eq()
    }
}

impl Eq for OwnedPart {
    ghost use Rattle.pk_copy.specs.PartValue.{owned_value};
    ghost use Rattle.pk_copy.specs.KeyOrderLaws.{part_cmp_total};

    ghost laws = { eq_by_cmp_equiv (on_total owned_value part_cmp_total) };
}

impl PartialOrd for OwnedPart {
    ghost use Rattle.pk_copy.specs.PartValue.{owned_value};
    ghost use Rattle.pk_copy.specs.KeyOrderLaws.{part_cmp_total};

    ghost partial_cmp = { as_partial_cmp (on owned_value part_cmp) };

    ghost laws = { partial_order_from_total (on_total owned_value part_cmp_total) };

    fn partial_cmp(&self, other: &Self) -> Option<Ordering> {
        Some(self.cmp(other))
    }
}

impl Ord for OwnedPart {
    ghost use Rattle.std.specs.Prelude.{refl};
    ghost use Rattle.pk_copy.specs.PartValue.{owned_value};
    ghost use Rattle.pk_copy.specs.KeyOrderLaws.{part_cmp_total};

    ghost cmp = { on owned_value part_cmp };

    ghost total = { on_total owned_value part_cmp_total };

    ghost matches_partial_cmp = { λ _ _. refl };

    ghost matches_eq = { λ _ _. refl };

    fn cmp(&self, other: &Self) -> Ordering {
        self.lent().cmp(&other.lent())
    }
}
