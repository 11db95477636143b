//! A lent key as it is kept.

ghost use Rattle.std.specs.Prelude.{◌≡◌, [], ◌∷◌, false, IfOk};
ghost use Rattle.std.specs.Ordering.{eq_by_cmp, as_partial_cmp, is_lt};
ghost use Rattle.std.specs.Cmp.{partial_equiv_from_equiv, eq_by_cmp_equiv, partial_order_from_total};
ghost use Rattle.pk_copy.specs.KeyValue.{KeyValue, IsPart};
ghost use Rattle.pk_copy.specs.KeyOrder.{key_cmp};
ghost use Rattle.pk_copy.specs.KeyOrderLaws.{key_cmp_total};
ghost use Rattle.pk_copy.specs.FrontNumber.{front_number};
ghost use Rattle.pk_copy.specs.FrontNumberLaws.{front_numbers_in_order};
ghost use Rattle.pk_copy.specs.PartValue.{part_value, kept_key, IsKept};

use crate::kept::KeptKey;
use crate::lent_kept::{LentKept, compare};
use crate::part::KeyPart;
use crate::view::KeyView;
use key_front::Fronted;
use std::alloc::{AllocError, Global};
use std::cmp::Ordering;
use std::marker::Model;
use std::mem::size_of;

/// A row's key as it is kept beside the row's buffer, in 40 bytes: the number of its table in the plan and
/// up to eight parts in key order, byte strings lent from the row. Several parts lie in memory of their
/// own. Keys are equal and ordered as their views.
#[derive(Drop)]
pub struct LentKey<'b> {
    kept: LentKept<'b>,
}

const _: () = prove!(size_of::<LentKey<'static>>() == 40);

impl<'b> Model for LentKey<'b> {
    ghost use Rattle.pk_copy.specs.KeyValue.{KeyValue};
    ghost use Rattle.pk_copy.specs.SmallPartValue.{lent_key, IsLent};

    ghost Value = { KeyValue };

    ghost view = { λ k. lent_key k.kept };

    ghost invariant = { λ k. IsLent k.kept };
}

impl<'b> LentKey<'b> {
    /// The same key, kept. Takes memory for several parts alone; an error is want of it.
    pub fn from_view(alloc: Global, view: &KeyView<'b>) -> Result<LentKey<'b>, AllocError>
        ensures { IfOk result (λ key. key ≡ view.now) }
    {
        let table = view.table();
        let kept = match view.parts() {
            [part] => LentKept::of_one(table, *part),
            parts => LentKept::of_several(alloc, table, parts)?,
        };
        Ok(LentKey { kept })
    }

    /// The key of a table with this part alone. Takes no memory.
    pub(crate) fn of_one(table: u8, part: KeyPart<'b>) -> LentKey<'b>
        requires { IsPart (part_value part) }
        ensures { result ≡ record { table = table; parts = part_value part.entry ∷ [] } }
    {
        LentKey {
            kept: LentKept::of_one(table, part),
        }
    }

    /// The least key of a table: it has no parts, and no key of the table comes before it. Takes no memory.
    pub fn first_of(alloc: Global, table: u8) -> LentKey<'b>
        ensures value { result ≡ record { table = table; parts = [] } }
        ensures least { (key : KeyValue) → key.table ≡ table → is_lt (key_cmp key result) ≡ false }
    {
        let _ = alloc;
        LentKey {
            kept: LentKept::bare(table),
        }
    }

    /// The key, lent. Takes no memory.
    pub fn view(&self) -> KeyView<'b>
        ensures { result ≡ self.now }
    {
        self.kept.view()
    }

    /// The same key again. Takes memory for several parts alone; an error is want of it.
    pub fn try_clone(&self, alloc: Global) -> Result<LentKey<'b>, AllocError>
        ensures { IfOk result (λ key. key ≡ self.now) }
    {
        let kept = self.kept.try_clone(alloc)?;
        Ok(LentKey { kept })
    }

    /// A copy of the key as a key lies in memory of its own; an error is want of it.
    pub(crate) fn to_kept(&self, alloc: Global) -> Result<KeptKey, AllocError>
        ensures key { IfOk result (λ kept. kept_key kept ≡ self.now) }
        ensures kept { IfOk result IsKept }
    {
        KeptKey::from_lent(alloc, &self.kept)
    }

    /// The number of the key's table in the plan.
    pub fn table(&self) -> u8
        ensures { result ≡ self.now.table }
    {
        self.kept.table()
    }
}

impl PartialEq for LentKey<'_> {
    ghost eq = { eq_by_cmp key_cmp };

    ghost laws = { partial_equiv_from_equiv (eq_by_cmp_equiv key_cmp_total) };

    fn eq(&self, other: &Self) -> bool {
        self.cmp(other).is_eq()
    }
}

impl Eq for LentKey<'_> {
    ghost laws = { eq_by_cmp_equiv key_cmp_total };
}

impl PartialOrd for LentKey<'_> {
    ghost partial_cmp = { as_partial_cmp key_cmp };

    ghost laws = { partial_order_from_total key_cmp_total };

    fn partial_cmp(&self, other: &Self) -> Option<Ordering> {
        Some(self.cmp(other))
    }
}

impl Ord for LentKey<'_> {
    ghost use Rattle.std.specs.Prelude.{refl};

    ghost cmp = { key_cmp };

    ghost total = { key_cmp_total };

    ghost matches_partial_cmp = { λ _ _. refl };

    ghost matches_eq = { λ _ _. refl };

    fn cmp(&self, other: &Self) -> Ordering {
        compare(&self.kept, &other.kept)
    }
}

impl Fronted for LentKey<'_> {
    ghost front_of = { front_number };

    ghost in_order = { front_numbers_in_order };

    fn front(&self) -> u64 {
        self.kept.front().number()
    }
}
