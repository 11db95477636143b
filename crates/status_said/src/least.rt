//! The shards of checkpoints, and the positions of each.

ghost use Rattle.std.specs.Prelude.{◌≡◌, ◌++◌, [], IfOk, OnOk, map};
ghost use Rattle.std.specs.Option.{option_map};
ghost use Rattle.checkpoint_places.specs.Least as least;
ghost use Rattle.status_said.specs.Shards.{has_shard, with_shard, with_streams, shards_from, positions_in, positions_of, least_in};

use checkpoint_places::{CheckpointStand, StreamStand, least_of};
use gtid_set::GtidSet;
use std::alloc::{AllocError, Global};

/// Whether it is among these.
fn has_shard(shards: &[&str], shard: &str) -> bool
    ensures { result ≡ has_shard (map (λ shard. shard.now) shards.now) shard.now }
{
    for other in shards {
        if shard == *other {
            return true;
        }
    }
    false
}

/// Puts it behind these, unless it is among them.
fn push_shard<'s>(shard: &'s str, shards: &mut Vec<&'s str>) -> Result<(), AllocError>
    ensures { OnOk result (map (λ shard. shard.now) shards.new.items ≡ with_shard (map (λ shard. shard.now) shards.old.items) shard.entry.now) }
{
    if !has_shard(shards, shard) {
        shards.push(shard)?;
    }
    Ok(())
}

/// Puts the shards of streams behind these.
fn push_streams<'s>(
    streams: &[StreamStand<'s>],
    shards: &mut Vec<&'s str>,
) -> Result<(), AllocError>
    ensures { OnOk result (map (λ shard. shard.now) shards.new.items ≡ with_streams (map (λ shard. shard.now) shards.old.items) streams.now) }
{
    for stream in streams {
        push_shard(stream.shard, shards)?;
    }
    Ok(())
}

/// The shards of checkpoints, in the order in which they first stand there.
pub(crate) fn shards_of<'s>(
    alloc: Global,
    stands: &[CheckpointStand<'s>],
) -> Result<Vec<&'s str>, AllocError>
    ensures { IfOk result (λ shards. map (λ shard. shard.now) shards.items ≡ shards_from [] stands.now) }
{
    let mut shards = Vec::new(alloc);
    for stand in stands {
        push_streams(&stand.streams, &mut shards)?;
    }
    Ok(shards)
}

/// Puts the positions of a shard's streams behind others.
fn push_positions<'p>(
    shard: &str,
    streams: &'p [StreamStand<'_>],
    positions: &mut Vec<&'p GtidSet>,
) -> Result<(), AllocError>
    ensures { OnOk result (map (λ one. one.now) positions.new.items ≡ map (λ one. one.now) positions.old.items ++ positions_in shard.now streams.entry.now) }
{
    for stream in streams {
        if shard == stream.shard {
            positions.push(&stream.position)?;
        }
    }
    Ok(())
}

/// The least position of a shard in checkpoints: that which lies within those of all of its streams, if one does.
pub(crate) fn least_in<'p>(
    alloc: Global,
    shard: &str,
    stands: &'p [CheckpointStand<'_>],
) -> Result<Option<&'p GtidSet>, AllocError>
    ensures { IfOk result (λ found. option_map (λ one. one.now) found ≡ least_in shard.now stands.entry.now) }
{
    let mut positions = Vec::new(alloc);
    for stand in stands {
        push_positions(shard, &stand.streams, &mut positions)?;
    }
    Ok(least_of(&positions))
}
