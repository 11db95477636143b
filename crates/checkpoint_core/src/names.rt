//! How many tables the parts of a checkpoint have, and their names.

ghost use Rattle.std.specs.Prelude.{◌≡◌, ◌<◌, ◌≤◌, ◌↔◌, length, IsTrue, MatchOption};
ghost use Rattle.checkpoint_laws.specs.declared.version.Version.TheVariants.{Two};
ghost use Rattle.checkpoint_laws.specs.Said.{IsNamed, AreSoMany, HaveAsMany};
ghost use Rattle.checkpoint_core.specs.Private.Reading.{OfEachTable};

use crate::written_tables::name_of;
use checkpoint_laws::Version;
use filter_rule::Plan;
use vevent::{StreamPart, TablePart};

/// How many tables a stream's part has, if they are at most so many. Takes no memory.
fn count_up_to(part: &StreamPart<'_>, limit: usize) -> Option<usize>
    ensures { MatchOption result (limit < length part.now.tables) (λ count. count ≡ length part.now.tables) }
{
    let mut count = 0;
    for _table in part.tables() {
        if count == limit {
            return None;
        }
        count += 1;
    }
    Some(count)
}

/// Whether a version's part may have so many of the plan's tables. Takes no memory.
fn are_so_many(version: Version, plan: &Plan, count: usize) -> bool
    ensures { IsTrue result ↔ AreSoMany version plan.now count }
{
    match version {
        Version::One => count == plan.tables().len(),
        Version::Two => count > 0 && count <= plan.tables().len(),
    }
}

/// Whether a part of a version has so many of the plan's tables as it may. Takes no memory.
pub(crate) fn has_so_many(version: Version, plan: &Plan, part: &StreamPart<'_>) -> bool
    ensures { IsTrue result ↔ AreSoMany version plan.now (length part.now.tables) }
{
    match count_up_to(part, plan.tables().len()) {
        None => false,
        Some(count) => are_so_many(version, plan, count),
    }
}

/// Whether two streams' parts have as many tables. Takes no memory.
fn has_as_many(one: &StreamPart<'_>, other: &StreamPart<'_>) -> bool
    ensures { IsTrue result ↔ (length one.now.tables ≡ length other.now.tables) }
{
    let mut tables = one.tables();
    let mut others = other.tables();
    loop {
        match (tables.next(), others.next()) {
            (None, None) => return true,
            (Some(_), Some(_)) => {}
            _ => return false,
        }
    }
}

/// Whether all streams' parts have as many tables. Takes no memory.
fn all_as_many(parts: &[StreamPart<'_>]) -> bool
    ensures { IsTrue result ↔ HaveAsMany Two parts.now }
{
    let Some(first) = parts.first() else {
        return true;
    };
    for part in parts {
        if !has_as_many(part, first) {
            return false;
        }
    }
    true
}

/// Whether the streams' parts of a version have as many tables as they have to. Takes no memory.
pub(crate) fn have_as_many(version: Version, parts: &[StreamPart<'_>]) -> bool
    ensures { IsTrue result ↔ HaveAsMany version parts.now }
{
    match version {
        Version::One => true,
        Version::Two => all_as_many(parts),
    }
}

/// Whether the part of table `t` has the table's name. Takes no memory.
fn is_named(plan: &Plan, t: u8, part: &TablePart<'_>) -> bool
    requires { t < length plan.now.tables }
    ensures { IsTrue result ↔ IsNamed Two plan.now t part.now }
{
    part.name() == name_of(plan, t)
}

/// Whether the parts of the plan's first tables have the tables' names. Takes no memory.
fn all_named(plan: &Plan, tables: &[TablePart<'_>]) -> bool
    requires { length tables.now ≤ length plan.now.tables }
    ensures { IsTrue result ↔ OfEachTable (IsNamed Two plan.now) tables.now }
{
    plan.tables();
    for t in 0..tables.len() {
        if !is_named(plan, t as u8, &tables[t]) {
            return false;
        }
    }
    true
}

/// Whether the parts of the plan's first tables have the names that parts of a version have to have. Takes no
/// memory.
pub(crate) fn have_names(version: Version, plan: &Plan, tables: &[TablePart<'_>]) -> bool
    requires { length tables.now ≤ length plan.now.tables }
    ensures { IsTrue result ↔ OfEachTable (IsNamed version plan.now) tables.now }
{
    match version {
        Version::One => true,
        Version::Two => all_named(plan, tables),
    }
}
