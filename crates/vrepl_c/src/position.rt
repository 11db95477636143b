//! Positions: GTID sets, each given as its text.

ghost use Rattle.std.specs.Prelude.{◌≡◌, Ok};
ghost use Rattle.std.specs.Int.{w128, from_be_bytes};
ghost use Rattle.std.specs.Result.{result_map_both};
ghost use Rattle.std.specs.String.{string_bytes};
ghost use Rattle.gtid_set.specs.Position.{has, union_of, within_of};
ghost use Rattle.gtid_set.specs.Printed.{printed_position};
ghost use Rattle.vrepl_c.specs.Answer.{Answers, Gives};
ghost use Rattle.vrepl_c.specs.Readers.{both_of, position_of};
ghost use Rattle.vrepl_c.specs.Room.{IsPut};

use crate::room::{MEMORY, put};
use crate::text::text_of;
use gtid_set::GtidSet;
use std::alloc::Global;

/// The number of a text that isn't UTF-8.
const NOT_UTF8: u32 = 24;

/// The set that a text means, or the number of its refusal.
fn set_of(alloc: Global, text: &[u8]) -> Result<GtidSet, u32>
    ensures { Gives (λ set. set) result (position_of text.now) }
{
    let Some(text) = text_of(text) else {
        return Err(NOT_UTF8);
    };
    match GtidSet::parse(alloc, text) {
        Ok(set) => Ok(set),
        Err(fault) => Err(u32::from(fault.number())),
    }
}

/// Two sets, each given as its text.
#[derive(Drop)]
struct Both {
    one: GtidSet,
    other: GtidSet,
}

/// The sets that two texts mean, or the number of the first refusal.
fn both_of(alloc: Global, one: &[u8], other: &[u8]) -> Result<Both, u32>
    ensures { Gives (λ both. (both.one, both.other)) result (both_of one.now other.now) }
{
    let one = set_of(alloc, one)?;
    let other = set_of(alloc, other)?;
    Ok(Both { one, other })
}

/// The printed form of a set.
fn printed(alloc: Global, set: &GtidSet) -> Result<String, u32>
    ensures { Gives string_bytes result (Ok (printed_position set.now)) }
{
    match format!(in alloc; "{set}") {
        Ok(text) => Ok(text),
        Err(_) => Err(MEMORY),
    }
}

/// The union of two sets.
fn union(alloc: Global, both: &Both) -> Result<GtidSet, u32>
    ensures { Gives (λ set. set) result (Ok (union_of both.now.one both.now.other)) }
{
    match both.one.union(alloc, &both.other) {
        Ok(set) => Ok(set),
        Err(_) => Err(MEMORY),
    }
}

/// The printed form of the set that a text means.
fn printed_set(alloc: Global, text: &[u8]) -> Result<String, u32>
    ensures { Gives string_bytes result (result_map_both printed_position (λ number. number) (position_of text.now)) }
{
    let set = set_of(alloc, text)?;
    printed(alloc, &set)
}

/// The printed form of the union of the sets that two texts mean.
fn printed_union(alloc: Global, one: &[u8], other: &[u8]) -> Result<String, u32>
    ensures { Gives string_bytes result (result_map_both (λ both. printed_position (union_of both.0 both.1)) (λ number. number) (both_of one.now other.now)) }
{
    let both = both_of(alloc, one, other)?;
    let set = union(alloc, &both)?;
    printed(alloc, &set)
}

/// Puts the printed form of a set into the room.
#[unsafe(no_mangle)]
pub extern "C" fn vrepl_gtid_set(
    alloc: Global,
    text: &[u8],
    room: &mut [u8],
    length: &mut usize,
) -> u32
    ensures { Answers (λ set. IsPut (printed_position set) room.old room.new length.new) result (position_of text.now) }
{
    match printed_set(alloc, text) {
        Ok(printed) => {
            *length = put(printed.as_bytes(), room);
            0
        }
        Err(number) => number,
    }
}

/// Whether a set has a pair: a uuid, as its 16 bytes, and a number.
#[unsafe(no_mangle)]
pub extern "C" fn vrepl_gtid_contains(
    alloc: Global,
    text: &[u8],
    uuid: &[u8; 16],
    number: u64,
    contains: &mut bool,
) -> u32
    ensures { Answers (λ set. contains.new ≡ has set (from_be_bytes w128 uuid.now) number) result (position_of text.now) }
{
    match set_of(alloc, text) {
        Ok(set) => {
            *contains = set.contains(uuid, number);
            0
        }
        Err(number) => number,
    }
}

/// Whether each pair of a set is in another one.
#[unsafe(no_mangle)]
pub extern "C" fn vrepl_gtid_is_within(
    alloc: Global,
    one: &[u8],
    other: &[u8],
    is_within: &mut bool,
) -> u32
    ensures { Answers (λ both. is_within.new ≡ within_of both.0 both.1) result (both_of one.now other.now) }
{
    match both_of(alloc, one, other) {
        Ok(both) => {
            *is_within = both.one.is_within(&both.other);
            0
        }
        Err(number) => number,
    }
}

/// Puts the printed form of the union of two sets into the room.
#[unsafe(no_mangle)]
pub extern "C" fn vrepl_gtid_union(
    alloc: Global,
    one: &[u8],
    other: &[u8],
    room: &mut [u8],
    length: &mut usize,
) -> u32
    ensures { Answers (λ both. IsPut (printed_position (union_of both.0 both.1)) room.old room.new length.new) result (both_of one.now other.now) }
{
    match printed_union(alloc, one, other) {
        Ok(printed) => {
            *length = put(printed.as_bytes(), room);
            0
        }
        Err(number) => number,
    }
}
