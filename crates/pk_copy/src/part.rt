//! A part of a key, lent from a row.

ghost use Rattle.std.specs.Prelude.{◌≡◌};
ghost use Rattle.std.specs.Ordering.{eq_by_cmp, as_partial_cmp, on};
ghost use Rattle.std.specs.Cmp.{on_total, partial_equiv_from_equiv, eq_by_cmp_equiv, partial_order_from_total};
ghost use Rattle.pk_copy.specs.KeyOrder.{part_cmp};

use crate::texts::text_order;
use std::cmp::Ordering;

/// A part of a key: the number of a whole-number column, from -2^63 to 2^64 - 1, or the bytes of another
/// column, lent from the row. Parts are equal and ordered by what they hold: numbers by value, bytes as
/// byte strings.
#[derive(Clone, Copy, Debug)]
pub enum KeyPart<'b> {
    /// A number by value.
    Number(i128),
    /// A byte string.
    Bytes(&'b [u8]),
}

impl Default for KeyPart<'_> {
    ghost use Rattle.std.specs.Prelude.{◌≡◌, pos};
    ghost use Rattle.pk_copy.specs.KeyValue.{number};
    ghost use Rattle.pk_copy.specs.PartValue.{part_value};

    /// The number 0.
    fn default() -> Self
        ensures { part_value result ≡ number (pos 0) }
    {
        KeyPart::Number(0)
    }
}

impl PartialEq for KeyPart<'_> {
    ghost use Rattle.pk_copy.specs.PartValue.{part_value};
    ghost use Rattle.pk_copy.specs.KeyOrderLaws.{part_cmp_total};

    ghost eq = { eq_by_cmp (on part_value part_cmp) };

    ghost laws = { partial_equiv_from_equiv (eq_by_cmp_equiv (on_total part_value part_cmp_total)) };

    fn eq(&self, other: &Self) -> bool {
        self.cmp(other).is_eq()
    }
}

impl Eq for KeyPart<'_> {
    ghost use Rattle.pk_copy.specs.PartValue.{part_value};
    ghost use Rattle.pk_copy.specs.KeyOrderLaws.{part_cmp_total};

    ghost laws = { eq_by_cmp_equiv (on_total part_value part_cmp_total) };
}

impl PartialOrd for KeyPart<'_> {
    ghost use Rattle.pk_copy.specs.PartValue.{part_value};
    ghost use Rattle.pk_copy.specs.KeyOrderLaws.{part_cmp_total};

    ghost partial_cmp = { as_partial_cmp (on part_value part_cmp) };

    ghost laws = { partial_order_from_total (on_total part_value part_cmp_total) };

    fn partial_cmp(&self, other: &Self) -> Option<Ordering> {
        Some(self.cmp(other))
    }
}

impl Ord for KeyPart<'_> {
    ghost use Rattle.std.specs.Prelude.{refl};
    ghost use Rattle.pk_copy.specs.PartValue.{part_value};
    ghost use Rattle.pk_copy.specs.KeyOrderLaws.{part_cmp_total};

    ghost cmp = { on part_value part_cmp };

    ghost total = { on_total part_value part_cmp_total };

    ghost matches_partial_cmp = { λ _ _. refl };

    ghost matches_eq = { λ _ _. refl };

    fn cmp(&self, other: &Self) -> Ordering {
        match (self, other) {
            (KeyPart::Number(a), KeyPart::Number(b)) => a.cmp(b),
            (KeyPart::Number(_), KeyPart::Bytes(_)) => Ordering::Less,
            (KeyPart::Bytes(_), KeyPart::Number(_)) => Ordering::Greater,
            (KeyPart::Bytes(a), KeyPart::Bytes(b)) => text_order(a, b),
        }
    }
}
