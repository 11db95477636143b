//! A key as it lies in memory of its own.

ghost use Rattle.std.specs.Prelude.{◌≡◌, ◌<◌, ℕ, [], ◌∷◌, IfOk, IsErr, length, map};
ghost use Rattle.pk_copy.specs.KeyValue.{bytes, IsPart, AreParts, LiesInPlace};
ghost use Rattle.pk_copy.specs.KeyFront.{head_of};
ghost use Rattle.pk_copy.specs.KeyOrder.{key_cmp};
ghost use Rattle.pk_copy.specs.PartValue.{part_value, owned_value, kept_key, kept_lead, kept_parts, HasRoom, IsKept};
ghost use Rattle.pk_copy.specs.SmallPartValue.{small_value, lent_key, lent_lead, lent_parts, IsLent};

use crate::front::{Front, decided};
use crate::lent_kept::{LentKept, LentRest};
use crate::owned::OwnedPart;
use crate::part::KeyPart;
use crate::small_part::SmallPart;
use crate::texts::text_order;
use crate::view::KeyView;
use arrayvec::ArrayVec;
use std::alloc::{AllocError, Global};
use std::cmp::Ordering;

/// What a key has behind its head, the lead of its front in the same place in each form.
#[derive(Debug, Drop)]
pub(crate) enum KeptRest {
    /// A number below 0 alone: the head has it.
    Negative(u16),
    /// A number from 0 alone: the head has it.
    Natural(u16),
    /// A byte string alone of up to 12 bytes: how many, the lead, and the bytes in place.
    Short(u8, u16, [u8; 12]),
    /// A longer byte string alone.
    Long(u16, Box<Vec<u8>>),
    /// None or several parts.
    Several(u16, Box<Vec<OwnedPart>>),
}

/// The head of a key's front and what is behind it: a number or a short byte string alone takes no block.
#[derive(Debug, Drop)]
pub(crate) struct KeptKey {
    pub(crate) head: u64,
    pub(crate) rest: KeptRest,
}

/// The key of a table with these parts, lent.
fn view_of(table: u8, owned: &[OwnedPart]) -> KeyView<'_>
    requires { AreParts (map owned_value owned.now) }
    ensures { result ≡ record { table = table; parts = map owned_value owned.now } }
{
    let mut parts = ArrayVec::new();
    for part in owned {
        parts.push(part.lent());
    }
    KeyView::new(table, parts)
}

/// Copies of these parts.
fn owned_of(alloc: Global, parts: &[KeyPart<'_>]) -> Result<Vec<OwnedPart>, AllocError>
    ensures { IfOk result (λ owned. map owned_value owned.items ≡ map part_value parts.now) }
{
    let mut owned = Vec::with_capacity(alloc, parts.len())?;
    for part in parts {
        owned.push(OwnedPart::from_part(alloc, *part)?)?;
    }
    Ok(owned)
}

/// Copies of the parts of a lent key as they are kept.
fn owned_of_small(alloc: Global, parts: &[SmallPart<'_>]) -> Result<Vec<OwnedPart>, AllocError>
    ensures { IfOk result (λ owned. map owned_value owned.items ≡ map small_value parts.now) }
{
    let mut owned = Vec::with_capacity(alloc, parts.len())?;
    for part in parts {
        owned.push(OwnedPart::from_part(alloc, part.lent())?)?;
    }
    Ok(owned)
}

/// The same parts again, in memory of their own.
fn copies_of(alloc: Global, parts: &[OwnedPart]) -> Result<Vec<OwnedPart>, AllocError>
    ensures { IfOk result (λ copies. map owned_value copies.items ≡ map owned_value parts.now) }
{
    let mut copies = Vec::with_capacity(alloc, parts.len())?;
    for part in parts {
        copies.push(OwnedPart::from_part(alloc, part.lent())?)?;
    }
    Ok(copies)
}

impl KeptRest {
    /// The lead of the key's front.
    #[inline(always)]
    fn lead(&self) -> u16
        ensures { result ≡ kept_lead self.now }
    {
        match self {
            KeptRest::Negative(lead) => *lead,
            KeptRest::Natural(lead) => *lead,
            KeptRest::Short(_, lead, _) => *lead,
            KeptRest::Long(lead, _) => *lead,
            KeptRest::Several(lead, _) => *lead,
        }
    }

    /// A byte string alone.
    fn of_text(alloc: Global, lead: u16, text: &[u8]) -> Result<KeptRest, AllocError>
        ensures lead { IfOk result (λ rest. kept_lead rest ≡ lead) }
        ensures parts { IfOk result (λ rest. (head : ℕ) → kept_parts head rest ≡ bytes text.now ∷ []) }
        ensures room { IfOk result HasRoom }
        ensures memory { IsErr result → 12 < length text.now }
    {
        if text.len() > 12 {
            let long = Vec::from_slice(alloc, text)?;
            return Ok(KeptRest::Long(lead, Box::new(alloc, long)?));
        }
        let mut short = [0; 12];
        short[..text.len()].copy_from_slice(text);
        Ok(KeptRest::Short(text.len() as u8, lead, short))
    }

    /// A part alone, of which the front has the head.
    fn of_part(alloc: Global, front: Front, part: SmallPart<'_>) -> Result<KeptRest, AllocError>
        requires { front.head ≡ head_of (small_value part ∷ []) }
        ensures lead { IfOk result (λ rest. kept_lead rest ≡ front.lead) }
        ensures parts { IfOk result (λ rest. kept_parts front.head rest ≡ small_value part.entry ∷ []) }
        ensures room { IfOk result HasRoom }
        ensures memory { IsErr result → ¬ LiesInPlace (small_value part.entry ∷ []) }
    {
        match part {
            SmallPart::Negative(_) => Ok(KeptRest::Negative(front.lead)),
            SmallPart::Natural(_) => Ok(KeptRest::Natural(front.lead)),
            SmallPart::Bytes(text) => KeptRest::of_text(alloc, front.lead, text),
        }
    }

    /// A copy of what a lent key has behind its head.
    fn from_lent(alloc: Global, lent: &LentRest<'_>) -> Result<KeptRest, AllocError>
        ensures lead { IfOk result (λ rest. kept_lead rest ≡ lent_lead lent.now) }
        ensures parts { IfOk result (λ rest. (head : ℕ) → kept_parts head rest ≡ lent_parts head lent.now) }
        ensures room { IfOk result HasRoom }
    {
        match lent {
            LentRest::Bare(lead) => Ok(KeptRest::Several(*lead, Box::new(alloc, Vec::new(alloc))?)),
            LentRest::Negative(lead) => Ok(KeptRest::Negative(*lead)),
            LentRest::Natural(lead) => Ok(KeptRest::Natural(*lead)),
            LentRest::Text(lead, text) => KeptRest::of_text(alloc, *lead, text),
            LentRest::Several(lead, parts) => {
                let owned = owned_of_small(alloc, parts.as_slice())?;
                Ok(KeptRest::Several(*lead, Box::new(alloc, owned)?))
            }
        }
    }

    /// The same again.
    fn try_clone(&self, alloc: Global) -> Result<KeptRest, AllocError>
        requires { HasRoom self.now }
        ensures lead { IfOk result (λ copy. kept_lead copy ≡ kept_lead self.now) }
        ensures parts { IfOk result (λ copy. (head : ℕ) → kept_parts head copy ≡ kept_parts head self.now) }
        ensures room { IfOk result HasRoom }
    {
        match self {
            KeptRest::Negative(lead) => Ok(KeptRest::Negative(*lead)),
            KeptRest::Natural(lead) => Ok(KeptRest::Natural(*lead)),
            KeptRest::Short(count, lead, text) => Ok(KeptRest::Short(*count, *lead, *text)),
            KeptRest::Long(lead, text) => {
                let copy = Vec::from_slice(alloc, text.as_slice())?;
                Ok(KeptRest::Long(*lead, Box::new(alloc, copy)?))
            }
            KeptRest::Several(lead, parts) => {
                let copies = copies_of(alloc, parts.as_slice())?;
                Ok(KeptRest::Several(*lead, Box::new(alloc, copies)?))
            }
        }
    }
}

impl KeptKey {
    /// The key of a table with this part alone. Takes memory for a byte string of more than 12 bytes; an error is
    /// want of it.
    pub(crate) fn of_one(alloc: Global, table: u8, part: KeyPart<'_>) -> Result<KeptKey, AllocError>
        requires { IsPart (part_value part) }
        ensures key { IfOk result (λ kept. kept_key kept ≡ record { table = table; parts = part_value part.entry ∷ [] }) }
        ensures kept { IfOk result IsKept }
        ensures memory { IsErr result → ¬ LiesInPlace (part_value part.entry ∷ []) }
    {
        let small = SmallPart::from_part(part);
        let front = Front::of(table, small);
        let rest = KeptRest::of_part(alloc, front, small)?;
        Ok(KeptKey {
            head: front.head,
            rest,
        })
    }

    /// The key of a table with these parts, in memory of their own; an error is want of it.
    pub(crate) fn of_several(
        alloc: Global,
        table: u8,
        parts: &[KeyPart<'_>],
    ) -> Result<KeptKey, AllocError>
        requires { AreParts (map part_value parts.now) }
        ensures key { IfOk result (λ kept. kept_key kept ≡ record { table = table; parts = map part_value parts.now }) }
        ensures kept { IfOk result IsKept }
    {
        let front = Front::of_parts(table, parts);
        let owned = Box::new(alloc, owned_of(alloc, parts)?)?;
        Ok(KeptKey {
            head: front.head,
            rest: KeptRest::Several(front.lead, owned),
        })
    }

    /// The same key as a lent one, in memory of its own, copied part by part; an error is want of it.
    pub(crate) fn from_lent(alloc: Global, lent: &LentKept<'_>) -> Result<KeptKey, AllocError>
        requires { IsLent lent.now }
        ensures key { IfOk result (λ kept. kept_key kept ≡ lent_key lent.now) }
        ensures kept { IfOk result IsKept }
    {
        let rest = KeptRest::from_lent(alloc, &lent.rest)?;
        Ok(KeptKey {
            head: lent.head,
            rest,
        })
    }

    /// The same key again, copied part by part; an error is want of memory.
    pub(crate) fn try_clone(&self, alloc: Global) -> Result<KeptKey, AllocError>
        requires { IsKept self.now }
        ensures key { IfOk result (λ copy. kept_key copy ≡ kept_key self.now) }
        ensures kept { IfOk result IsKept }
    {
        let rest = self.rest.try_clone(alloc)?;
        Ok(KeptKey {
            head: self.head,
            rest,
        })
    }

    /// The number of the key's table.
    pub(crate) fn table(&self) -> u8
        requires { kept_lead self.now.rest < 1024 }
        ensures { let key = kept_key self.now in result ≡ key.table }
    {
        (self.rest.lead() / 4) as u8
    }

    /// The key, lent. Takes no memory.
    pub(crate) fn view(&self) -> KeyView<'_>
        requires { IsKept self.now }
        ensures { result ≡ kept_key self.now }
    {
        let table = self.table();
        match &self.rest {
            KeptRest::Negative(_) => {
                KeyView::of_one(
                    table,
                    KeyPart::Number(-1 - i128::from(u64::MAX - self.head)),
                )
            }
            KeptRest::Natural(_) => {
                KeyView::of_one(table, KeyPart::Number(i128::from(self.head)))
            }
            KeptRest::Short(count, _, text) => {
                KeyView::of_one(table, KeyPart::Bytes(&text[..usize::from(*count)]))
            }
            KeptRest::Long(_, text) => KeyView::of_one(table, KeyPart::Bytes(text.as_slice())),
            KeptRest::Several(_, parts) => view_of(table, parts.as_slice()),
        }
    }

    /// The key's front.
    #[inline(always)]
    pub(crate) fn front(&self) -> Front
        ensures { (result.lead ≡ kept_lead self.now.rest) × (result.head ≡ self.now.head) }
    {
        Front {
            lead: self.rest.lead(),
            head: self.head,
        }
    }
}

/// The order of two keys, by their views.
#[inline(never)]
fn compare_views(one: &KeptKey, other: &KeptKey) -> Ordering
    requires one { IsKept one.now }
    requires other { IsKept other.now }
    ensures { result ≡ key_cmp (kept_key one.now) (kept_key other.now) }
{
    one.view().cmp(&other.view())
}

/// The order of two keys with one front. Views, which are large, are made of keys of unlike forms alone.
#[inline(never)]
fn compare_behind(one: &KeptKey, other: &KeptKey) -> Ordering
    requires one { IsKept one.now }
    requires other { IsKept other.now }
    requires lead { kept_lead one.now.rest ≡ kept_lead other.now.rest }
    requires head { one.now.head ≡ other.now.head }
    ensures { result ≡ key_cmp (kept_key one.now) (kept_key other.now) }
{
    match (&one.rest, &other.rest) {
        (KeptRest::Natural(_), KeptRest::Natural(_)) => Ordering::Equal,
        (KeptRest::Negative(_), KeptRest::Negative(_)) => Ordering::Equal,
        (KeptRest::Short(m, _, x), KeptRest::Short(n, _, y)) => {
            text_order(&x[..usize::from(*m)], &y[..usize::from(*n)])
        }
        (KeptRest::Long(_, x), KeptRest::Long(_, y)) => text_order(x.as_slice(), y.as_slice()),
        (KeptRest::Several(_, x), KeptRest::Several(_, y)) => x.as_slice().cmp(y.as_slice()),
        _ => compare_views(one, other),
    }
}

/// The order of two keys. Takes no memory.
#[inline(always)]
pub(crate) fn compare(one: &KeptKey, other: &KeptKey) -> Ordering
    requires one { IsKept one.now }
    requires other { IsKept other.now }
    ensures { result ≡ key_cmp (kept_key one.now) (kept_key other.now) }
{
    if let Some(order) = decided(one.front(), other.front()) {
        return order;
    }
    compare_behind(one, other)
}
