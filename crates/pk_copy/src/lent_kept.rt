//! A lent key as it lies in memory.

ghost use Rattle.std.specs.Prelude.{◌≡◌, ◌<◌, ℕ, [], ◌∷◌, IfOk, map};
ghost use Rattle.pk_copy.specs.KeyValue.{IsPart, AreParts};
ghost use Rattle.pk_copy.specs.KeyFront.{head_of};
ghost use Rattle.pk_copy.specs.KeyOrder.{key_cmp};
ghost use Rattle.pk_copy.specs.PartValue.{part_value};
ghost use Rattle.pk_copy.specs.SmallPartValue.{small_value, lent_key, lent_lead, lent_parts, IsLent};

use crate::front::{Front, decided};
use crate::part::KeyPart;
use crate::small_part::SmallPart;
use crate::texts::text_order;
use crate::view::KeyView;
use arrayvec::ArrayVec;
use std::alloc::{AllocError, Global};
use std::cmp::Ordering;

/// What a lent key has behind its head, the lead of its front in the same place in each form.
#[derive(Drop)]
pub(crate) enum LentRest<'b> {
    /// No part.
    Bare(u16),
    /// A number below 0 alone: the head has it.
    Negative(u16),
    /// A number from 0 alone: the head has it.
    Natural(u16),
    /// A byte string alone.
    Text(u16, &'b [u8]),
    /// None or several parts.
    Several(u16, Vec<SmallPart<'b>>),
}

/// The head of a lent key's front and what is behind it: several parts alone take a block.
#[derive(Drop)]
pub(crate) struct LentKept<'b> {
    pub(crate) head: u64,
    pub(crate) rest: LentRest<'b>,
}

/// The key of a table with these parts, lent.
fn view_of<'b>(table: u8, kept: &[SmallPart<'b>]) -> KeyView<'b>
    requires { AreParts (map small_value kept.now) }
    ensures { result ≡ record { table = table; parts = map small_value kept.now } }
{
    let mut parts = ArrayVec::new();
    for part in kept {
        parts.push(part.lent());
    }
    KeyView::new(table, parts)
}

/// These parts as they are kept.
fn small_of<'b>(alloc: Global, parts: &[KeyPart<'b>]) -> Result<Vec<SmallPart<'b>>, AllocError>
    requires { AreParts (map part_value parts.now) }
    ensures { IfOk result (λ kept. map small_value kept.items ≡ map part_value parts.now) }
{
    let mut kept = Vec::with_capacity(alloc, parts.len())?;
    for part in parts {
        kept.push(SmallPart::from_part(*part))?;
    }
    Ok(kept)
}

impl<'b> LentRest<'b> {
    /// The lead of the key's front.
    #[inline(always)]
    fn lead(&self) -> u16
        ensures { result ≡ lent_lead self.now }
    {
        match self {
            LentRest::Bare(lead) => *lead,
            LentRest::Negative(lead) => *lead,
            LentRest::Natural(lead) => *lead,
            LentRest::Text(lead, _) => *lead,
            LentRest::Several(lead, _) => *lead,
        }
    }

    /// A part alone, of which the front has the head.
    fn of_part(front: Front, part: SmallPart<'b>) -> LentRest<'b>
        requires { front.head ≡ head_of (small_value part ∷ []) }
        ensures lead { lent_lead result ≡ front.lead }
        ensures parts { lent_parts front.head result ≡ small_value part.entry ∷ [] }
    {
        match part {
            SmallPart::Negative(_) => LentRest::Negative(front.lead),
            SmallPart::Natural(_) => LentRest::Natural(front.lead),
            SmallPart::Bytes(text) => LentRest::Text(front.lead, text),
        }
    }

    /// The same again. Takes memory for several parts alone.
    fn try_clone(&self, alloc: Global) -> Result<LentRest<'b>, AllocError>
        ensures lead { IfOk result (λ copy. lent_lead copy ≡ lent_lead self.now) }
        ensures parts { IfOk result (λ copy. (head : ℕ) → lent_parts head copy ≡ lent_parts head self.now) }
    {
        match self {
            LentRest::Bare(lead) => Ok(LentRest::Bare(*lead)),
            LentRest::Negative(lead) => Ok(LentRest::Negative(*lead)),
            LentRest::Natural(lead) => Ok(LentRest::Natural(*lead)),
            LentRest::Text(lead, text) => Ok(LentRest::Text(*lead, text)),
            LentRest::Several(lead, parts) => {
                let copy = Vec::from_slice(alloc, parts.as_slice())?;
                Ok(LentRest::Several(*lead, copy))
            }
        }
    }
}

impl<'b> LentKept<'b> {
    /// The key of a table without parts.
    pub(crate) fn bare(table: u8) -> LentKept<'b>
        ensures key { lent_key result ≡ record { table = table; parts = [] } }
        ensures kept { IsLent result }
    {
        let front = Front::bare(table);
        LentKept {
            head: front.head,
            rest: LentRest::Bare(front.lead),
        }
    }

    /// The key of a table with this part alone.
    pub(crate) fn of_one(table: u8, part: KeyPart<'b>) -> LentKept<'b>
        requires { IsPart (part_value part) }
        ensures key { lent_key result ≡ record { table = table; parts = part_value part.entry ∷ [] } }
        ensures kept { IsLent result }
    {
        let small = SmallPart::from_part(part);
        let front = Front::of(table, small);
        LentKept {
            head: front.head,
            rest: LentRest::of_part(front, small),
        }
    }

    /// The key of a table with these parts, in memory of their own; an error is want of it.
    pub(crate) fn of_several(
        alloc: Global,
        table: u8,
        parts: &[KeyPart<'b>],
    ) -> Result<LentKept<'b>, AllocError>
        requires { AreParts (map part_value parts.now) }
        ensures key { IfOk result (λ kept. lent_key kept ≡ record { table = table; parts = map part_value parts.now }) }
        ensures kept { IfOk result IsLent }
    {
        let front = Front::of_parts(table, parts);
        let kept = small_of(alloc, parts)?;
        Ok(LentKept {
            head: front.head,
            rest: LentRest::Several(front.lead, kept),
        })
    }

    /// The number of the key's table.
    pub(crate) fn table(&self) -> u8
        requires { lent_lead self.now.rest < 1024 }
        ensures { let key = lent_key self.now in result ≡ key.table }
    {
        (self.rest.lead() / 4) as u8
    }

    /// The key, lent. Takes no memory.
    pub(crate) fn view(&self) -> KeyView<'b>
        requires { IsLent self.now }
        ensures { result ≡ lent_key self.now }
    {
        let table = self.table();
        match &self.rest {
            LentRest::Bare(_) => KeyView::new(table, ArrayVec::new()),
            LentRest::Negative(_) => {
                KeyView::of_one(
                    table,
                    KeyPart::Number(-1 - i128::from(u64::MAX - self.head)),
                )
            }
            LentRest::Natural(_) => {
                KeyView::of_one(table, KeyPart::Number(i128::from(self.head)))
            }
            LentRest::Text(_, text) => KeyView::of_one(table, KeyPart::Bytes(text)),
            LentRest::Several(_, parts) => view_of(table, parts.as_slice()),
        }
    }

    /// The same key again. Takes memory for several parts alone; an error is want of it.
    pub(crate) fn try_clone(&self, alloc: Global) -> Result<LentKept<'b>, AllocError>
        requires { IsLent self.now }
        ensures key { IfOk result (λ copy. lent_key copy ≡ lent_key self.now) }
        ensures kept { IfOk result IsLent }
    {
        let rest = self.rest.try_clone(alloc)?;
        Ok(LentKept {
            head: self.head,
            rest,
        })
    }

    /// The key's front.
    #[inline(always)]
    pub(crate) fn front(&self) -> Front
        ensures { (result.lead ≡ lent_lead self.now.rest) × (result.head ≡ self.now.head) }
    {
        Front {
            lead: self.rest.lead(),
            head: self.head,
        }
    }
}

/// The order of two keys, by their views.
#[inline(never)]
fn compare_views(one: &LentKept<'_>, other: &LentKept<'_>) -> Ordering
    requires one { IsLent one.now }
    requires other { IsLent other.now }
    ensures { result ≡ key_cmp (lent_key one.now) (lent_key other.now) }
{
    one.view().cmp(&other.view())
}

/// The order of two keys with one front. Views, which are large, are made of keys of unlike forms alone.
#[inline(never)]
fn compare_behind(one: &LentKept<'_>, other: &LentKept<'_>) -> Ordering
    requires one { IsLent one.now }
    requires other { IsLent other.now }
    requires lead { lent_lead one.now.rest ≡ lent_lead other.now.rest }
    requires head { one.now.head ≡ other.now.head }
    ensures { result ≡ key_cmp (lent_key one.now) (lent_key other.now) }
{
    match (&one.rest, &other.rest) {
        (LentRest::Natural(_), LentRest::Natural(_)) => Ordering::Equal,
        (LentRest::Negative(_), LentRest::Negative(_)) => Ordering::Equal,
        (LentRest::Text(_, x), LentRest::Text(_, y)) => text_order(x, y),
        (LentRest::Several(_, x), LentRest::Several(_, y)) => x.as_slice().cmp(y.as_slice()),
        _ => compare_views(one, other),
    }
}

/// The order of two keys. Takes no memory.
#[inline(always)]
pub(crate) fn compare(one: &LentKept<'_>, other: &LentKept<'_>) -> Ordering
    requires one { IsLent one.now }
    requires other { IsLent other.now }
    ensures { result ≡ key_cmp (lent_key one.now) (lent_key other.now) }
{
    if let Some(order) = decided(one.front(), other.front()) {
        return order;
    }
    compare_behind(one, other)
}
