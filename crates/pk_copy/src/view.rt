//! A key, lent from a row.

ghost use Rattle.std.specs.Prelude.{◌≡◌, [], ◌∷◌, map};
ghost use Rattle.std.specs.Ordering.{eq_by_cmp, as_partial_cmp};
ghost use Rattle.std.specs.Cmp.{partial_equiv_from_equiv, eq_by_cmp_equiv, partial_order_from_total};
ghost use Rattle.pk_copy.specs.KeyValue.{IsPart, AreParts};
ghost use Rattle.pk_copy.specs.PartValue.{part_value, viewed_key};
ghost use Rattle.pk_copy.specs.KeyOrder.{key_cmp};
ghost use Rattle.pk_copy.specs.KeyOrderLaws.{key_cmp_total};

use crate::part::KeyPart;
use arrayvec::ArrayVec;
use std::cmp::Ordering;
use std::marker::Model;
use std::slice;

/// The number of a table and the parts of a key of it: one alone, or none or several in the room of eight.
#[derive(Drop)]
pub(crate) enum ViewedKey<'b> {
    One(u8, KeyPart<'b>),
    Several(u8, ArrayVec<KeyPart<'b>, 8>),
}

impl<'b> ViewedKey<'b> {
    /// The number of the key's table.
    fn table(&self) -> u8
        ensures { let key = viewed_key self.now in result ≡ key.table }
    {
        match self {
            ViewedKey::One(table, _) => *table,
            ViewedKey::Several(table, _) => *table,
        }
    }

    /// The key's parts, in key order.
    fn list(&self) -> &[KeyPart<'b>]
        ensures { let key = viewed_key self.now in map part_value result.now ≡ key.parts }
    {
        match self {
            ViewedKey::One(_, part) => slice::from_ref(part),
            ViewedKey::Several(_, parts) => parts.as_slice(),
        }
    }
}

/// The order of two keys.
fn compare(one: &ViewedKey<'_>, other: &ViewedKey<'_>) -> Ordering
    ensures { result ≡ key_cmp (viewed_key one.now) (viewed_key other.now) }
{
    match (one, other) {
        (ViewedKey::One(t, x), ViewedKey::One(u, y)) => t.cmp(u).then(x.cmp(y)),
        _ => one
            .table()
            .cmp(&other.table())
            .then(one.list().cmp(other.list())),
    }
}

/// A row's key: the number of its table in the plan and up to eight parts in key order, lent from the
/// row. Views are equal and ordered as the keys that they show: by table, then part by part.
#[derive(Drop)]
pub struct KeyView<'b> {
    key: ViewedKey<'b>,
}

impl<'b> Model for KeyView<'b> {
    ghost use Rattle.pk_copy.specs.KeyValue.{KeyValue, AreParts};
    ghost use Rattle.pk_copy.specs.PartValue.{viewed_key};

    ghost Value = { KeyValue };

    ghost view = { λ k. viewed_key k.key };

    ghost invariant = { λ k. let key = viewed_key k.key in AreParts key.parts };
}

impl<'b> KeyView<'b> {
    /// The key of a table with these parts.
    pub(crate) fn new(table: u8, parts: ArrayVec<KeyPart<'b>, 8>) -> KeyView<'b>
        requires { AreParts (map part_value parts.items) }
        ensures { result ≡ record { table = table; parts = map part_value parts.entry.items } }
    {
        KeyView {
            key: ViewedKey::Several(table, parts),
        }
    }

    /// The key of a table with this part alone.
    pub(crate) fn of_one(table: u8, part: KeyPart<'b>) -> KeyView<'b>
        requires { IsPart (part_value part) }
        ensures { result ≡ record { table = table; parts = part_value part.entry ∷ [] } }
    {
        KeyView {
            key: ViewedKey::One(table, part),
        }
    }

    /// The number of the key's table in the plan.
    pub fn table(&self) -> u8
        ensures { result ≡ self.now.table }
    {
        self.key.table()
    }

    /// The key's parts, in key order: eight at most, their numbers from -2^63 to 2^64 - 1.
    pub fn parts(&self) -> &[KeyPart<'b>]
        ensures parts { map part_value result.now ≡ self.now.parts }
        ensures within { AreParts self.now.parts }
    {
        self.key.list()
    }
}

impl PartialEq for KeyView<'_> {
    ghost eq = { eq_by_cmp key_cmp };

    ghost laws = { partial_equiv_from_equiv (eq_by_cmp_equiv key_cmp_total) };

    fn eq(&self, other: &Self) -> bool {
        self.cmp(other).is_eq()
    }
}

impl Eq for KeyView<'_> {
    ghost laws = { eq_by_cmp_equiv key_cmp_total };
}

impl PartialOrd for KeyView<'_> {
    ghost partial_cmp = { as_partial_cmp key_cmp };

    ghost laws = { partial_order_from_total key_cmp_total };

    fn partial_cmp(&self, other: &Self) -> Option<Ordering> {
        Some(self.cmp(other))
    }
}

impl Ord for KeyView<'_> {
    ghost use Rattle.std.specs.Prelude.{refl};

    ghost cmp = { key_cmp };

    ghost total = { key_cmp_total };

    ghost matches_partial_cmp = { λ _ _. refl };

    ghost matches_eq = { λ _ _. refl };

    fn cmp(&self, other: &Self) -> Ordering {
        compare(&self.key, &other.key)
    }
}
