//! A key in memory of its own.

ghost use Rattle.std.specs.Prelude.{◌≡◌, [], ◌∷◌, IfOk, IsErr};
ghost use Rattle.std.specs.Ordering.{eq_by_cmp, as_partial_cmp};
ghost use Rattle.std.specs.Cmp.{partial_equiv_from_equiv, eq_by_cmp_equiv, partial_order_from_total};
ghost use Rattle.pk_copy.specs.KeyValue.{IsPart, LiesInPlace};
ghost use Rattle.pk_copy.specs.KeyOrder.{key_cmp};
ghost use Rattle.pk_copy.specs.KeyOrderLaws.{key_cmp_total};
ghost use Rattle.pk_copy.specs.FrontNumber.{front_number};
ghost use Rattle.pk_copy.specs.FrontNumberLaws.{front_numbers_in_order};
ghost use Rattle.pk_copy.specs.PartValue.{part_value};

use crate::kept::{KeptKey, compare};
use crate::lent::LentKey;
use crate::part::KeyPart;
use crate::view::KeyView;
use key_front::Fronted;
use std::alloc::{AllocError, Global};
use std::cmp::Ordering;
use std::marker::Model;
use std::mem::size_of;

/// A row's key in memory of its own: the number of its table in the plan and up to eight parts in key
/// order. A number or a byte string of up to 12 bytes alone lies in place. Keys are equal and ordered as their views.
#[derive(Debug, Drop)]
pub struct Key {
    kept: KeptKey,
}

const _: () = prove!(size_of::<Key>() == 24);

impl Model for Key {
    ghost use Rattle.pk_copy.specs.KeyValue.{KeyValue};
    ghost use Rattle.pk_copy.specs.PartValue.{kept_key, IsKept};

    ghost Value = { KeyValue };

    ghost view = { λ k. kept_key k.kept };

    ghost invariant = { λ k. IsKept k.kept };
}

impl Key {
    /// A copy of a lent key. Takes no memory for a number or up to 12 bytes alone; an error is want
    /// of it.
    pub fn from_view(alloc: Global, view: &KeyView<'_>) -> Result<Key, AllocError>
        ensures key { IfOk result (λ key. key ≡ view.now) }
        // Memory is wanted for several parts or more than 12 bytes alone.
        ensures memory { IsErr result → ¬ LiesInPlace view.now.parts }
    {
        let table = view.table();
        let kept = match view.parts() {
            [part] => KeptKey::of_one(alloc, table, *part)?,
            parts => KeptKey::of_several(alloc, table, parts)?,
        };
        Ok(Key { kept })
    }

    /// The key of a table with this part alone. Takes no memory for a number or up to 12 bytes; an error is
    /// want of it.
    pub(crate) fn of_one(alloc: Global, table: u8, part: KeyPart<'_>) -> Result<Key, AllocError>
        requires { IsPart (part_value part) }
        ensures key { IfOk result (λ key. key ≡ record { table = table; parts = part_value part.entry ∷ [] }) }
        ensures memory { IsErr result → ¬ LiesInPlace (part_value part.entry ∷ []) }
    {
        let kept = KeptKey::of_one(alloc, table, part)?;
        Ok(Key { kept })
    }

    /// A copy of a lent key as it is kept, part by part. Takes no memory for a number or up to 12 bytes alone; an
    /// error is want of it.
    pub fn from_lent(alloc: Global, lent: &LentKey<'_>) -> Result<Key, AllocError>
        ensures { IfOk result (λ key. key ≡ lent.now) }
    {
        let kept = lent.to_kept(alloc)?;
        Ok(Key { kept })
    }

    /// The key, lent. Takes no memory.
    pub fn view(&self) -> KeyView<'_>
        ensures { result ≡ self.now }
    {
        self.kept.view()
    }

    /// A copy of the key. Takes no memory for a number or up to 12 bytes alone; an error is want
    /// of it.
    pub fn try_clone(&self, alloc: Global) -> Result<Key, AllocError>
        ensures { IfOk result (λ key. key ≡ self.now) }
    {
        let kept = self.kept.try_clone(alloc)?;
        Ok(Key { kept })
    }

    /// The number of the key's table in the plan.
    pub fn table(&self) -> u8
        ensures { result ≡ self.now.table }
    {
        self.kept.table()
    }
}

impl PartialEq for Key {
    ghost eq = { eq_by_cmp key_cmp };

    ghost laws = { partial_equiv_from_equiv (eq_by_cmp_equiv key_cmp_total) };

    fn eq(&self, other: &Self) -> bool {
        self.cmp(other).is_eq()
    }
}

impl Eq for Key {
    ghost laws = { eq_by_cmp_equiv key_cmp_total };
}

impl PartialOrd for Key {
    ghost partial_cmp = { as_partial_cmp key_cmp };

    ghost laws = { partial_order_from_total key_cmp_total };

    fn partial_cmp(&self, other: &Self) -> Option<Ordering> {
        Some(self.cmp(other))
    }
}

impl Ord for Key {
    ghost use Rattle.std.specs.Prelude.{refl};

    ghost cmp = { key_cmp };

    ghost total = { key_cmp_total };

    ghost matches_partial_cmp = { λ _ _. refl };

    ghost matches_eq = { λ _ _. refl };

    fn cmp(&self, other: &Self) -> Ordering {
        compare(&self.kept, &other.kept)
    }
}

impl Fronted for Key {
    ghost front_of = { front_number };

    ghost in_order = { front_numbers_in_order };

    fn front(&self) -> u64 {
        self.kept.front().number()
    }
}
