//! Updates that put a row at another key.

ghost use Rattle.std.specs.Prelude.{◌≡◌, ◌++◌, IfOk, OnOk};
ghost use Rattle.std.specs.Option.{option_copied, option_to_list};
ghost use Rattle.feed_check.specs.KeyedChanges.{keyed_changes};
ghost use Rattle.feed_check.specs.Findings.{found_moved, why_moved};
ghost use Rattle.feed_check.specs.Findings as told;

use crate::finding::{Doubt, Finding};
use crate::keyed::{KeyedChange, KeyedRow, keyed_group};
use filter_rule::Plan;
use pace::{Meter, Portions};
use pk_copy::LentKey;
use source_feed::Groups;
use std::alloc::{AllocError, Global};

/// Whether a row that there may be has another key.
fn why_moved(before: Option<&KeyedRow<'_>>, key: &LentKey<'_>) -> Option<Doubt>
    ensures { result ≡ why_moved (option_copied before.entry) key.now }
{
    match before {
        None => None,
        Some(image) => {
            if *key == image.key {
                None
            } else {
                Some(Doubt::Moved)
            }
        }
    }
}

/// What is told of a change that puts its row at another key.
fn found_moved<'h>(
    alloc: Global,
    change: &KeyedChange<'h>,
) -> Result<Option<Finding<'h>>, AllocError>
    ensures { IfOk result (λ found. found ≡ found_moved change.now) }
{
    let Some(image) = &change.after else {
        return Ok(None);
    };
    match why_moved(change.before.as_ref(), &image.key) {
        None => Ok(None),
        Some(why) => Ok(Some(Finding::new(alloc, change, why, &image.key)?)),
    }
}

/// Puts what is told of a change behind the others, if anything is.
fn push_moved<'h>(
    alloc: Global,
    change: &KeyedChange<'h>,
    moves: &mut Vec<Finding<'h>>,
) -> Result<(), AllocError>
    ensures { OnOk result (moves.new.items ≡ moves.old.items ++ option_to_list (found_moved change.now)) }
{
    if let Some(found) = found_moved(alloc, change)? {
        moves.push(found)?;
    }
    Ok(())
}

/// The same of changes, one after another.
fn push_all<'h>(
    alloc: Global,
    changes: &[KeyedChange<'h>],
    moves: &mut Vec<Finding<'h>>,
) -> Result<(), AllocError>
    ensures { OnOk result (moves.new.items ≡ moves.old.items ++ told.moves_of changes.now) }
{
    for change in changes {
        push_moved(alloc, change, moves)?;
    }
    Ok(())
}

/// The updates of groups to the plan's tables that put a row at another key, in order. An error is want of
/// memory.
pub fn moves_of<'h, M: Meter>(
    alloc: Global,
    plan: &Plan,
    groups: &Groups<'h>,
    meter: &M,
) -> Result<Vec<Finding<'h>>, AllocError>
    ensures { IfOk result (λ moves. moves.items ≡ told.moves_of (keyed_changes plan.now groups.now.items)) }
{
    let mut moves = Vec::new(alloc);
    let mut portions = Portions::of(meter);
    for group in groups.iter() {
        let changes = keyed_group(alloc, plan, &group)?;
        push_all(alloc, &changes, &mut moves)?;
        portions.has_done_one();
    }
    portions.tell();
    Ok(moves)
}
