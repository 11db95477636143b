//! A part of a key as it is kept: 24 bytes.

ghost use Rattle.std.specs.Prelude.{◌≡◌};
ghost use Rattle.std.specs.Ordering.{eq_by_cmp, as_partial_cmp, on};
ghost use Rattle.std.specs.Cmp.{on_total, partial_equiv_from_equiv, eq_by_cmp_equiv, partial_order_from_total};
ghost use Rattle.pk_copy.specs.KeyValue.{IsPart};
ghost use Rattle.pk_copy.specs.KeyOrder.{part_cmp};

use crate::part::KeyPart;
use crate::texts::text_order;
use std::cmp::Ordering;

/// A part of a key, lent, whose number lies in 8 bytes. Equal and ordered as the part that it lends.
#[derive(Clone, Copy, Debug)]
pub(crate) enum SmallPart<'b> {
    /// A number below 0: -1 less this.
    Negative(u64),
    /// A number from 0.
    Natural(u64),
    /// A byte string.
    Bytes(&'b [u8]),
}

impl<'b> SmallPart<'b> {
    ghost use Rattle.pk_copy.specs.PartValue.{part_value};
    ghost use Rattle.pk_copy.specs.SmallPartValue.{small_value};

    /// The part, kept.
    pub(crate) fn from_part(part: KeyPart<'b>) -> SmallPart<'b>
        requires { IsPart (part_value part) }
        ensures { small_value result ≡ part_value part.entry }
    {
        match part {
            KeyPart::Number(value) if value < 0 => SmallPart::Negative((-1 - value) as u64),
            KeyPart::Number(value) => SmallPart::Natural(value as u64),
            KeyPart::Bytes(text) => SmallPart::Bytes(text),
        }
    }

    /// The part, lent.
    pub(crate) fn lent(&self) -> KeyPart<'b>
        ensures { part_value result ≡ small_value self.now }
    {
        match self {
            SmallPart::Negative(below) => KeyPart::Number(-1 - i128::from(*below)),
            SmallPart::Natural(value) => KeyPart::Number(i128::from(*value)),
            SmallPart::Bytes(text) => KeyPart::Bytes(text),
        }
    }
}

impl PartialEq for SmallPart<'_> {
    ghost use Rattle.pk_copy.specs.SmallPartValue.{small_value};
    ghost use Rattle.pk_copy.specs.KeyOrderLaws.{part_cmp_total};

    ghost eq = { eq_by_cmp (on small_value part_cmp) };

    ghost laws = { partial_equiv_from_equiv (eq_by_cmp_equiv (on_total small_value part_cmp_total)) };

    fn eq(&self, other: &Self) -> bool {
        self.cmp(other).is_eq()
    }
}

impl Eq for SmallPart<'_> {
    ghost use Rattle.pk_copy.specs.SmallPartValue.{small_value};
    ghost use Rattle.pk_copy.specs.KeyOrderLaws.{part_cmp_total};

    ghost laws = { eq_by_cmp_equiv (on_total small_value part_cmp_total) };
}

impl PartialOrd for SmallPart<'_> {
    ghost use Rattle.pk_copy.specs.SmallPartValue.{small_value};
    ghost use Rattle.pk_copy.specs.KeyOrderLaws.{part_cmp_total};

    ghost partial_cmp = { as_partial_cmp (on small_value part_cmp) };

    ghost laws = { partial_order_from_total (on_total small_value part_cmp_total) };

    fn partial_cmp(&self, other: &Self) -> Option<Ordering> {
        Some(self.cmp(other))
    }
}

impl Ord for SmallPart<'_> {
    ghost use Rattle.std.specs.Prelude.{refl};
    ghost use Rattle.pk_copy.specs.SmallPartValue.{small_value};
    ghost use Rattle.pk_copy.specs.KeyOrderLaws.{part_cmp_total};

    ghost cmp = { on small_value part_cmp };

    ghost total = { on_total small_value part_cmp_total };

    ghost matches_partial_cmp = { λ _ _. refl };

    ghost matches_eq = { λ _ _. refl };

    fn cmp(&self, other: &Self) -> Ordering {
        match (self, other) {
            (SmallPart::Negative(a), SmallPart::Negative(b)) => b.cmp(a),
            (SmallPart::Negative(_), _) => Ordering::Less,
            (_, SmallPart::Negative(_)) => Ordering::Greater,
            (SmallPart::Natural(a), SmallPart::Natural(b)) => a.cmp(b),
            (SmallPart::Natural(_), SmallPart::Bytes(_)) => Ordering::Less,
            (SmallPart::Bytes(_), SmallPart::Natural(_)) => Ordering::Greater,
            (SmallPart::Bytes(a), SmallPart::Bytes(b)) => text_order(a, b),
        }
    }
}
