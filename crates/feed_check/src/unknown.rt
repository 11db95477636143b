//! Names in a feed that no table of the workflow has.

ghost use Rattle.std.specs.Prelude.{◌≡◌, IfOk, OnOk, map};
ghost use Rattle.feed_check.specs.Private.SeenNames.{HasNames, texts};
ghost use Rattle.feed_check.specs.Unknown.{with_name, unknown_in, unknown_tables};

use filter_rule::Plan;
use pace::{Meter, Portions};
use source_feed::{GroupChanges, Groups};
use std::alloc::{AllocError, Global};
use std::collections::BTreeSet;

/// Puts a name behind those that were told, where it isn't known: no table of the plan has it, and it isn't one of
/// them. What was told is looked up in the set of the same names.
fn push_name<'h>(
    plan: &Plan,
    name: &'h str,
    told: &mut Vec<&'h str>,
    seen: &mut BTreeSet<&'h str>,
) -> Result<(), AllocError>
    ensures told { OnOk result (HasNames seen.old.keys (texts told.old.items) → texts told.new.items ≡ with_name plan.now (texts told.old.items) name.entry.now) }
    ensures seen { OnOk result (HasNames seen.old.keys (texts told.old.items) → HasNames seen.new.keys (texts told.new.items)) }
{
    if plan.table(name).is_some() {
        return Ok(());
    }
    let is_new = seen.insert(name)?;
    if is_new {
        told.push(name)?;
    }
    Ok(())
}

/// Puts the unknown names of changes behind those that were told.
fn push_changes<'h>(
    plan: &Plan,
    changes: GroupChanges<'_, 'h>,
    told: &mut Vec<&'h str>,
    seen: &mut BTreeSet<&'h str>,
) -> Result<(), AllocError>
    ensures told { OnOk result (HasNames seen.old.keys (texts told.old.items) → texts told.new.items ≡ unknown_in plan.now (texts told.old.items) changes.entry) }
    ensures seen { OnOk result (HasNames seen.old.keys (texts told.old.items) → HasNames seen.new.keys (texts told.new.items)) }
{
    for change in changes {
        push_name(plan, change.table(), told, seen)?;
    }
    Ok(())
}

/// The names in groups that no table of the plan has, each once, in the order in which they first stand. Takes
/// time in the changes, for each the logarithm of the names that were told. An error is want of memory.
pub fn unknown_tables<'h, M: Meter>(
    alloc: Global,
    plan: &Plan,
    groups: &Groups<'h>,
    meter: &M,
) -> Result<Vec<&'h str>, AllocError>
    ensures { IfOk result (λ told. map (λ one. one.now) told.items ≡ unknown_tables plan.now groups.now.items) }
{
    let mut told = Vec::new(alloc);
    let mut seen = BTreeSet::new(alloc);
    let mut portions = Portions::of(meter);
    for group in groups.iter() {
        push_changes(plan, group.changes(), &mut told, &mut seen)?;
        portions.has_done_one();
    }
    portions.tell();
    Ok(told)
}
