//! Where a feed is cut, and what would be lost there.

ghost use Rattle.std.specs.Prelude.{◌≡◌, ◌⊎◌, ◌↔◌, ℕ, List, take, IfErr, IfOk, IsErr, IsTrue, Ok, Err};
ghost use Rattle.std.specs.List.{AllByRecursion, list_any};
ghost use Rattle.source_feed.specs.GroupValue.{GroupValue};
ghost use Rattle.source_feed.specs.Groups.{groups};
ghost use Rattle.source_feed.specs.Planned.{groups_under, source_of};
ghost use Rattle.feed_bytes.specs.Cut.{IsCutBehind};
ghost use Rattle.compaction.specs.Private.Written.{IsOfPlan};
ghost use Rattle.compaction.specs.Compacting.{CutsFeed, HasGroup, IsCause, have_unknown, is_unknown, loses};
ghost use Rattle.compaction.specs.declared.fault.CompactFault.TheVariants.{Memory};

use crate::fault::CompactFault;
use event_laws::changes_have_columns;
use feed_bytes::{Cut, FieldBytes, Source, cut_behind};
use filter_rule::Plan;
use pace::{Meter, Portions};
use source_feed::{Feed, Group, Groups, read_groups};
use std::alloc::Global;

/// What becomes of changes of tables that the plan lacks, which a base can't have.
#[derive(Clone, Copy, Debug, PartialEq, Eq)]
pub enum UnknownTables {
    /// A feed that would lose some is refused.
    Refused,
    /// They are left out.
    LeftOut,
}

/// Whose feed it is.
pub(crate) fn source_for<'f>(feed: &'f Feed<'_>) -> Source<'f>
    ensures { result ≡ source_of feed.entry.now.plan }
{
    let plan = feed.plan();
    Source::new(plan.keyspace(), plan.shard())
}

/// A group has a change of a table that the plan lacks.
fn has_unknown(plan: &Plan, group: &Group<'_, '_>) -> bool
    ensures { result ≡ list_any (is_unknown plan.now) group.now.changes }
{
    for change in group.changes() {
        if plan.table(change.table()).is_none() {
            return true;
        }
    }
    false
}

/// One of the first so many of some groups has a change of a table that the plan lacks.
fn have_unknown<M: Meter>(plan: &Plan, groups: &Groups<'_>, number: u32, meter: &M) -> bool
    ensures { result ≡ have_unknown plan.now (take number groups.now.items) }
{
    let mut left = number;
    let mut portions = Portions::of(meter);
    for group in groups.iter() {
        if left == 0 {
            portions.tell();
            return false;
        }
        left -= 1;
        if has_unknown(plan, &group) {
            return true;
        }
        portions.has_done_one();
    }
    portions.tell();
    false
}

/// Every FIELD is of a table of the plan.
fn are_known(plan: &Plan, fields: &[FieldBytes<'_>]) -> bool
    ensures { IsTrue result ↔ AllByRecursion (IsOfPlan plan.now) fields.now }
{
    let source = Source::new(plan.keyspace(), plan.shard());
    for field in fields {
        if plan.table(source.table(field.name())).is_none() {
            return false;
        }
    }
    true
}

/// Changes of the feed's groups up to the one of a number would be lost that aren't to be left out; the FIELDs are those in
/// force behind it. An error is want of memory: the bytes open as a feed.
///
/// Looks the groups through only where a FIELD is of a table that the plan lacks, since no change is without one.
fn would_lose<M: Meter>(
    alloc: Global,
    bytes: &[u8],
    feed: &Feed<'_>,
    number: u32,
    unknown: UnknownTables,
    fields: &[FieldBytes<'_>],
    meter: &M,
) -> Result<bool, CompactFault>
    ensures lost { IfOk result (λ lost. (all : List GroupValue) (place : List ℕ) (others : List (List ℕ)) (rest : List ℕ) → groups bytes.now (source_of feed.now.plan) ≡ Ok all
        → IsCutBehind bytes.now (source_of feed.now.plan) number fields.now place others rest → lost ≡ loses feed.now.plan unknown (take number all)) }
    ensures memory { IfErr result (λ fault. fault ≡ Memory) }
    // It is wanted only where some may be lost.
    ensures wanted { IsErr result → (unknown ≡ UnknownTables.Refused) × ¬ AllByRecursion (IsOfPlan feed.now.plan) fields.now }
{
    if unknown == UnknownTables::LeftOut {
        return Ok(false);
    }
    changes_have_columns();
    let plan = feed.plan();
    if are_known(plan, fields) {
        return Ok(false);
    }
    match read_groups(alloc, bytes, plan.keyspace(), plan.shard()) {
        Ok(groups) => Ok(have_unknown(plan, &groups, number, meter)),
        Err(_) => Err(CompactFault::Memory),
    }
}

/// How many parts it has to compact so many groups: each is prepared, and before that looked through where changes could be
/// lost.
fn parts_of(
    number: u32,
    unknown: UnknownTables,
    feed: &Feed<'_>,
    fields: &[FieldBytes<'_>],
) -> usize {
    let groups = number as usize;
    if unknown == UnknownTables::LeftOut || are_known(feed.plan(), fields) {
        groups
    } else {
        groups.saturating_mul(2)
    }
}

/// Cuts a feed behind its group of a number, from 1. That these are the feed's bytes is the caller's.
///
/// Refused as `NoCut` where the feed has no such group, whatever memory there is, and as `UnknownTable` where changes would be lost that aren't to be
/// left out. Any other error is want of memory.
pub(crate) fn cut<'h, M: Meter>(
    alloc: Global,
    bytes: &'h [u8],
    feed: &Feed<'h>,
    number: u32,
    unknown: UnknownTables,
    meter: &M,
) -> Result<Cut<'h>, CompactFault>
    requires { groups_under bytes.now feed.now.plan ≡ Ok feed.now.groups }
    ensures cuts { IfOk result (λ cut. CutsFeed feed.now bytes.now unknown number cut.fields.items cut.place.now cut.others cut.rest.now) }
    ensures cause { IfErr result (IsCause feed.now bytes.now unknown number) }
    ensures none { (result ≡ Err CompactFault.NoCut) ⊎ HasGroup feed.now number }
{
    if number == 0 || number as usize > feed.len() {
        return Err(CompactFault::NoCut);
    }
    let source = source_for(feed);
    let Some(cut) = cut_behind(alloc, bytes, &source, number)? else {
        return Err(CompactFault::NoCut);
    };
    meter.begins(parts_of(number, unknown, feed, &cut.fields));
    if would_lose(alloc, bytes, feed, number, unknown, &cut.fields, meter)? {
        return Err(CompactFault::UnknownTable);
    }
    Ok(cut)
}
