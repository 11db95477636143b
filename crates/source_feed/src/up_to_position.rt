//! The groups of a feed up to a position.

ghost use Rattle.std.specs.Prelude.{◌≤◌, ◌↔◌, ℕ, length, map, IsTrue, MatchOption, IfOk, IfErr, IfSome};
ghost use Rattle.std.specs.Arc.{arc_value};
ghost use Rattle.source_feed.specs.FaultNumber.{meant_of};
ghost use Rattle.source_feed.specs.Positions.{HasGroupAt, IsNumberAt};
ghost use Rattle.source_feed.specs.SoundGroups.{AreFirst, StopsBefore};

use crate::fault::FeedFault;
use crate::feed::Feed;
use crate::prepared::Prepared;
use gtid_set::{GtidSet, same_set_is_equality};
use std::alloc::Global;
use std::sync::Arc;

/// Whether the group of a number has this position. Takes no memory.
fn is_at(feed: &Feed<'_>, number: u32, position: &GtidSet) -> bool
    ensures { IsTrue result ↔ HasGroupAt feed.now position.now number }
{
    same_set_is_equality();
    match feed.position(number) {
        None => false,
        Some(found) => *found == *position,
    }
}

/// How many groups of a feed are applied at a position: none at the empty set, else those up to the group
/// that has it. `None` where the position is neither empty nor that of a group. Looks at the groups'
/// positions in order, reads no row and takes no memory.
pub fn number_at(feed: &Feed<'_>, position: &GtidSet) -> Option<u32>
    ensures { MatchOption result ((number : ℕ) → ¬ IsNumberAt feed.now position.now number) (IsNumberAt feed.now position.now) }
{
    if position.is_empty() {
        return Some(0);
    }
    feed.plan();
    for i in 0..feed.len() {
        let number = i as u32 + 1;
        if is_at(feed, number, position) {
            return Some(number);
        }
    }
    None
}

/// The first so many groups of a feed, prepared; that it has so many is the caller's. Refused 90 for the
/// first of them that isn't sound. Any other error is want of memory.
pub fn groups_up_to<'h>(
    alloc: Global,
    feed: &Feed<'h>,
    number: u32,
) -> Result<Vec<Arc<Prepared<'h>>>, FeedFault>
    requires { number ≤ length feed.now.groups }
    ensures groups { IfOk result (λ groups. AreFirst feed.now number (map arc_value groups.items)) }
    ensures refused { IfErr result (λ fault. IfSome (meant_of fault) (StopsBefore feed.now number)) }
{
    let mut groups = Vec::new(alloc);
    for i in 0..number {
        groups.push(feed.prepare(alloc, i + 1)?)?;
    }
    Ok(groups)
}
