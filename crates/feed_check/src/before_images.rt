//! All findings of a feed's groups.

ghost use Rattle.std.specs.Prelude.{◌≡◌, ◌++◌, List, IfOk, OnOk, reverse};
ghost use Rattle.feed_check.specs.KeyedChanges.{KeyedChangeValue, keyed_changes};
ghost use Rattle.feed_check.specs.Findings as told;
ghost use Rattle.feed_check.specs.Private.Replayed.{IsReplayed};

use crate::finding::Finding;
use crate::keyed::{KeyedChange, keyed_group};
use crate::keyed_rows::KeyedRows;
use crate::replay::Replay;
use filter_rule::Plan;
use pace::{Meter, Portions};
use source_feed::Groups;
use std::alloc::{AllocError, Global};

/// Goes on by changes, one after another. An error is want of memory.
fn take_all<'h>(
    alloc: Global,
    replay: &mut Replay<'h>,
    changes: Vec<KeyedChange<'h>>,
) -> Result<(), AllocError>
    ensures { OnOk result ((earlier : List KeyedChangeValue) → IsReplayed (reverse earlier) replay.old.rows replay.old.findings.items → IsReplayed (reverse (earlier ++ changes.entry.items)) replay.new.rows replay.new.findings.items) }
{
    for change in changes {
        replay.take(alloc, change)?;
    }
    Ok(())
}

/// What is told of the changes of groups to the plan's tables, in their order: an update or a delete of a row
/// that doesn't stand where the changes before it were made one after another, from no row on, and a row that
/// is put where one stands. All rows count, whatever the stream's filter. Takes memory for the rows' keys, in
/// pages, and for the answer; an error is want of it.
pub fn findings_of<'h, M: Meter>(
    alloc: Global,
    plan: &Plan,
    groups: &Groups<'h>,
    meter: &M,
) -> Result<Vec<Finding<'h>>, AllocError>
    ensures { IfOk result (λ found. found.items ≡ told.findings_of (keyed_changes plan.now groups.now.items)) }
{
    let mut replay = Replay {
        rows: KeyedRows::new(alloc),
        findings: Vec::new(alloc),
    };
    let mut portions = Portions::of(meter);
    for group in groups.iter() {
        let changes = keyed_group(alloc, plan, &group)?;
        take_all(alloc, &mut replay, changes)?;
        portions.has_done_one();
    }
    portions.tell();
    Ok(replay.findings)
}
