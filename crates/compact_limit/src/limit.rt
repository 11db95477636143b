//! Up to which group a feed is compacted.

ghost use Rattle.std.specs.Prelude.{◌≡◌, ℕ, length, map, Err, None, slice_get, IfOk, IfErr, IfSome};
ghost use Rattle.std.specs.Option.{option_copied, option_map};
ghost use Rattle.std.specs.Arc.{arc_value};
ghost use Rattle.checkpoint_core.specs.Fault.{HasParts};
ghost use Rattle.source_feed.specs.Positions.{IsNumberAt};
ghost use Rattle.compact_limit.specs.Least.{IsLeast, StopsAtFirst};
ghost use Rattle.compact_limit.specs.Limit.{bytes_in, IsLimit, IsNamed, StandsAt};
ghost use Rattle.compact_limit.specs.Refused.{meant_of, HasSeveral, IsReadFurther, IsRefusedLimit, IsUnnamed, IsUnplaced, WantsMemory};
ghost use Rattle.compact_limit.specs.declared.fault.LimitFault.TheVariants.{Memory, PositionUnknown};

use crate::fault::LimitFault;
use crate::least::lesser;
use checkpoint_core::{ReadFault, ReadStream, read_checkpoint};
use filter_rule::Plan;
use gtid_set::GtidSet;
use source_feed::{Feed, number_at};
use std::alloc::Global;
use std::sync::Arc;

/// The number of the group at a position of a feed; 0 for the empty one.
fn number_of(feed: &Feed<'_>, position: &GtidSet) -> Result<u32, LimitFault>
    ensures number { IfOk result (IsNumberAt feed.now position.now) }
    ensures fault { IfErr result (λ fault. fault ≡ PositionUnknown) }
    ensures none { IfErr result (λ _. (number : ℕ) → ¬ IsNumberAt feed.now position.now number) }
{
    match number_at(feed, position) {
        Some(number) => Ok(number),
        None => Err(LimitFault::PositionUnknown),
    }
}

/// How many groups a feed has.
fn groups_of(feed: &Feed<'_>) -> u32
    ensures { IsNamed feed.now None result }
{
    feed.plan();
    feed.len() as u32
}

/// The group that is named: that of the position which a text means, or the last one.
fn number_named(alloc: Global, feed: &Feed<'_>, at: Option<&str>) -> Result<u32, LimitFault>
    ensures named { IfOk result (IsNamed feed.now (option_map (λ text. text.now) at.entry)) }
    ensures refused { IfErr result (λ fault. IfSome (meant_of fault) (IsUnnamed feed.now (option_map (λ text. text.now) at.entry))) }
    ensures memory { result ≡ Err Memory → HasSeveral (option_map (λ text. text.now) at.entry) }
{
    match at {
        None => Ok(groups_of(feed)),
        Some(text) => {
            let position = GtidSet::parse(alloc, text)?;
            number_of(feed, &position)
        }
    }
}

/// What is said of a stream.
fn stream_in<'s, 'b>(saved: &'s [ReadStream<'b>], stream: u8) -> Option<&'s ReadStream<'b>>
    ensures { option_copied result ≡ slice_get saved.now stream }
{
    saved.get(usize::from(stream))
}

/// The group at which a stream of a checkpoint stands, 0 before the first one.
fn number_in(
    alloc: Global,
    plans: &[Arc<Plan>],
    feed: &Feed<'_>,
    stream: u8,
    checkpoint: &[u8],
) -> Result<u32, LimitFault>
    ensures stands { IfOk result (StandsAt (map arc_value plans.now) feed.now stream checkpoint.now) }
    ensures refused { IfErr result (λ fault. IfSome (meant_of fault) (IsUnplaced (map arc_value plans.now) feed.now stream checkpoint.now)) }
    ensures memory { result ≡ Err Memory → HasParts checkpoint.now (length plans.now) }
{
    let saved = match read_checkpoint(alloc, plans, checkpoint) {
        Ok(saved) => saved,
        Err(ReadFault::Memory) => return Err(LimitFault::Memory),
        Err(ReadFault::Broken) => return Err(LimitFault::CheckpointBad),
    };
    match stream_in(&saved, stream) {
        Some(one) => number_of(feed, one.position()),
        None => Err(LimitFault::CheckpointBad),
    }
}

/// The least of the group that is named and of those at which the stream of a checkpoint stands.
fn least_of(
    alloc: Global,
    plans: &[Arc<Plan>],
    feed: &Feed<'_>,
    stream: u8,
    named: u32,
    checkpoints: &[Vec<u8>],
) -> Result<u32, LimitFault>
    ensures least { IfOk result (IsLeast (StandsAt (map arc_value plans.now) feed.now stream) named (bytes_in checkpoints.now)) }
    ensures refused { IfErr result (λ fault. IfSome (meant_of fault) (StopsAtFirst (StandsAt (map arc_value plans.now) feed.now stream) (IsUnplaced (map arc_value plans.now) feed.now stream) (bytes_in checkpoints.now))) }
    ensures memory { result ≡ Err Memory → StopsAtFirst (StandsAt (map arc_value plans.now) feed.now stream) (IsReadFurther (map arc_value plans.now)) (bytes_in checkpoints.now) Memory }
{
    let mut number = named;
    for checkpoint in checkpoints {
        let other = number_in(alloc, plans, feed, stream, checkpoint)?;
        number = lesser(number, other);
    }
    Ok(number)
}

/// The group up to which a stream's feed is compacted, from 1; 0 is none. It is that of the position which `at` means, or
/// the last one, or the one at which the stream of a checkpoint stands, whichever is the first; a checkpoint that stands
/// before the first group doesn't count.
///
/// The faults are found in this order: of the position that is named `BadPosition`, and `PositionUnknown` where no group of
/// the feed has it; of each checkpoint `CheckpointBad` where the bytes say nothing of the stream under these plans, and
/// `PositionUnknown`. Any other error is want of memory, which is taken for a position's text that names several intervals
/// and for a checkpoint that is as many parts as there are plans.
pub fn limit_of(
    alloc: Global,
    plans: &[Arc<Plan>],
    feed: &Feed<'_>,
    stream: u8,
    at: Option<&str>,
    checkpoints: &[Vec<u8>],
) -> Result<u32, LimitFault>
    ensures limit { IfOk result (IsLimit (map arc_value plans.now) feed.now stream (option_map (λ text. text.now) at.entry) (bytes_in checkpoints.now)) }
    ensures refused { IfErr result (λ fault. IfSome (meant_of fault) (IsRefusedLimit (map arc_value plans.now) feed.now stream (option_map (λ text. text.now) at.entry) (bytes_in checkpoints.now))) }
    // Want of memory hides no checkpoint before the one that it is wanted for, and none that hasn't as many parts as there are plans.
    ensures memory { result ≡ Err Memory → WantsMemory (map arc_value plans.now) feed.now stream (option_map (λ text. text.now) at.entry) (bytes_in checkpoints.now) }
{
    let named = number_named(alloc, feed, at)?;
    least_of(alloc, plans, feed, stream, named, checkpoints)
}
