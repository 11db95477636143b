//! The groups of a feed.

ghost use Rattle.std.specs.Prelude.{◌≡◌, ◌++◌, OnOk, IfOk};
ghost use Rattle.std.specs.Result.{result_map_both};
ghost use Rattle.std.specs.String.{string_bytes};
ghost use Rattle.gtid_set.specs.Printed.{printed_position};
ghost use Rattle.vrepl_c.specs.Answer.{Answers, Gives};
ghost use Rattle.vrepl_c.specs.Encoded.{body_bytes, change_bytes, changes_bytes, group_bytes, groups_bytes, head_bytes};
ghost use Rattle.vrepl_c.specs.Feeds.{groups_of, groups_under};
ghost use Rattle.vrepl_c.specs.Room.{IsPut};

use crate::encoded::{push_bytes, push_number, push_row};
use crate::room::{MEMORY, put};
use crate::text::text_of;
use source_feed::{Change, Group, GroupChanges, Groups, read_groups};
use std::alloc::{AllocError, Global};

/// The number of a keyspace or shard that isn't UTF-8.
const NOT_UTF8: u32 = 24;

/// Adds a change.
fn push_change(into: &mut Vec<u8>, change: &Change<'_, '_>) -> Result<(), AllocError>
    ensures { OnOk result (into.new.items ≡ into.old.items ++ change_bytes change.now) }
{
    push_bytes(into, change.table().as_bytes())?;
    push_row(into, change.before())?;
    push_row(into, change.after())
}

/// Adds changes.
fn push_changes(into: &mut Vec<u8>, changes: GroupChanges<'_, '_>) -> Result<(), AllocError>
    ensures { OnOk result (into.new.items ≡ into.old.items ++ changes_bytes changes.entry) }
{
    for change in changes {
        push_change(into, &change)?;
    }
    Ok(())
}

/// The printed form of a group's position.
fn position_of(alloc: Global, group: &Group<'_, '_>) -> Result<String, AllocError>
    ensures { IfOk result (λ text. string_bytes text ≡ printed_position group.now.position) }
{
    let position = group.position();
    format!(in alloc; "{position}")
}

/// Adds a group's number and its position.
fn push_head(into: &mut Vec<u8>, alloc: Global, group: &Group<'_, '_>) -> Result<(), AllocError>
    ensures { OnOk result (into.new.items ≡ into.old.items ++ head_bytes group.now) }
{
    let text = position_of(alloc, group)?;
    push_number(into, u64::from(group.number()))?;
    push_bytes(into, text.as_bytes())
}

/// Adds changes behind their number.
fn push_body(into: &mut Vec<u8>, changes: GroupChanges<'_, '_>) -> Result<(), AllocError>
    ensures { OnOk result (into.new.items ≡ into.old.items ++ body_bytes changes.entry) }
{
    push_number(into, changes.len() as u64)?;
    push_changes(into, changes)
}

/// Adds a group.
fn push_group(into: &mut Vec<u8>, alloc: Global, group: &Group<'_, '_>) -> Result<(), AllocError>
    ensures { OnOk result (into.new.items ≡ into.old.items ++ group_bytes group.now) }
{
    push_head(into, alloc, group)?;
    push_body(into, group.changes())
}

/// The bytes of groups.
fn bytes_of(alloc: Global, groups: &Groups<'_>) -> Result<Vec<u8>, AllocError>
    ensures { IfOk result (λ bytes. bytes.items ≡ groups_bytes groups.now.items) }
{
    let mut bytes = Vec::new(alloc);
    for group in groups.iter() {
        push_group(&mut bytes, alloc, &group)?;
    }
    Ok(bytes)
}

/// The groups of a feed, or the number of its refusal.
fn groups_under<'h>(
    alloc: Global,
    feed: &'h [u8],
    keyspace: &str,
    shard: &str,
) -> Result<Groups<'h>, u32>
    ensures { Gives (λ all. all.items) result (groups_under feed.now keyspace.now shard.now) }
{
    match read_groups(alloc, feed, keyspace, shard) {
        Ok(groups) => Ok(groups),
        Err(fault) => Err(u32::from(fault.number())),
    }
}

/// The bytes of a feed's groups, or the number of its refusal.
fn groups_of(alloc: Global, feed: &[u8], keyspace: &[u8], shard: &[u8]) -> Result<Vec<u8>, u32>
    ensures { Gives (λ bytes. bytes.items) result (result_map_both groups_bytes (λ number. number) (groups_of feed.now keyspace.now shard.now)) }
{
    let Some(keyspace) = text_of(keyspace) else {
        return Err(NOT_UTF8);
    };
    let Some(shard) = text_of(shard) else {
        return Err(NOT_UTF8);
    };
    let groups = groups_under(alloc, feed, keyspace, shard)?;
    match bytes_of(alloc, &groups) {
        Ok(bytes) => Ok(bytes),
        Err(_) => Err(MEMORY),
    }
}

/// Puts the groups of a feed, recorded from a shard of a keyspace, into the room, as bytes that are walked over.
#[unsafe(no_mangle)]
pub extern "C" fn vrepl_groups(
    alloc: Global,
    feed: &[u8],
    keyspace: &[u8],
    shard: &[u8],
    room: &mut [u8],
    length: &mut usize,
) -> u32
    ensures { Answers (λ groups. IsPut (groups_bytes groups) room.old room.new length.new) result (groups_of feed.now keyspace.now shard.now) }
{
    match groups_of(alloc, feed, keyspace, shard) {
        Ok(bytes) => {
            *length = put(&bytes, room);
            0
        }
        Err(number) => number,
    }
}
