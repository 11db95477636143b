//! Key ranges, each given as its text.

ghost use Rattle.std.specs.Prelude.{◌≡◌, ◌↔◌, [], IfOk, IsTrue, map, unwrap_or};
ghost use Rattle.vindex.specs.Bounds.{in_range};
ghost use Rattle.vindex.specs.Tiling.{SplitsAllIds, Tiles};
ghost use Rattle.vrepl_c.specs.Answer.{Answers, Gives};
ghost use Rattle.vrepl_c.specs.Readers.{parts_of, range_in, range_of, ranges_in, ranges_of};
ghost use Rattle.vrepl_c.specs.Room.{IsPut};

use crate::room::{MEMORY, put};
use crate::text::text_of;
use std::alloc::{AllocError, Global};
use vindex::{KeyRange, tiles};

/// The number of a text that is no key range.
const BAD_RANGE: u32 = 41;

/// The range that a text writes, or the number of its refusal.
fn range_of(alloc: Global, text: &[u8]) -> Result<KeyRange, u32>
    ensures { Gives (λ range. range) result (range_of text.now) }
{
    let Some(text) = text_of(text) else {
        return Err(BAD_RANGE);
    };
    range_in(alloc, text)
}

/// The range that a text writes, or the number of its refusal.
fn range_in(alloc: Global, text: &str) -> Result<KeyRange, u32>
    ensures { Gives (λ range. range) result (range_in text.now) }
{
    match KeyRange::parse(alloc, text) {
        Ok(range) => Ok(range),
        Err(fault) => Err(u32::from(fault.number())),
    }
}

/// A text between commas.
fn parts_of(alloc: Global, text: &str) -> Result<Vec<&str>, AllocError>
    ensures { IfOk result (λ parts. map (λ part. part.now) parts.items ≡ parts_of text.now) }
{
    text.split(',').collect(alloc)
}

/// The ranges that texts write, each one, or the number of the first refusal.
#[tactic(auto, using(crate::proofs::RangeLaws::one_more, crate::proofs::RangeLaws::one_refused))]
fn ranges_in(alloc: Global, texts: &[&str]) -> Result<Vec<KeyRange>, u32>
    ensures { Gives (λ ranges. ranges.items) result (ranges_in (map (λ text. text.now) texts.now)) }
{
    let mut ranges = Vec::new(alloc);
    for text in texts {
        let range = range_in(alloc, text)?;
        if ranges.push(range).is_err() {
            return Err(MEMORY);
        }
    }
    Ok(ranges)
}

/// The ranges that a text writes, parted by commas, or the number of its refusal.
fn ranges_of(alloc: Global, text: &[u8]) -> Result<Vec<KeyRange>, u32>
    ensures { Gives (λ ranges. ranges.items) result (ranges_of text.now) }
{
    let Some(text) = text_of(text) else {
        return Err(BAD_RANGE);
    };
    match parts_of(alloc, text) {
        Ok(parts) => ranges_in(alloc, &parts),
        Err(_) => Err(MEMORY),
    }
}

/// Puts the bounds of a range into two rooms, each without the 00 bytes at its end. An end that is open has no bytes,
/// as no end that is given.
#[unsafe(no_mangle)]
pub extern "C" fn vrepl_key_range(
    alloc: Global,
    range: &[u8],
    start: &mut [u8],
    start_length: &mut usize,
    end: &mut [u8],
    end_length: &mut usize,
) -> u32
    ensures { Answers (λ bounds. IsPut bounds.start start.old start.new start_length.new
        × IsPut (unwrap_or bounds.end []) end.old end.new end_length.new) result (range_of range.now) }
{
    match range_of(alloc, range) {
        Ok(range) => {
            *start_length = put(range.start(), start);
            *end_length = put(range.end().unwrap_or(&[]), end);
            0
        }
        Err(number) => number,
    }
}

/// Whether a range has a keyspace id.
#[unsafe(no_mangle)]
pub extern "C" fn vrepl_key_range_holds(
    alloc: Global,
    range: &[u8],
    id: &[u8],
    holds: &mut bool,
) -> u32
    ensures { Answers (λ range. holds.new ≡ in_range range id.now) result (range_of range.now) }
{
    match range_of(alloc, range) {
        Ok(range) => {
            *holds = range.holds(id);
            0
        }
        Err(number) => number,
    }
}

/// Whether ranges, parted by commas, lie end to end over all ids, in this order: then each id is in exactly one.
#[unsafe(no_mangle)]
pub extern "C" fn vrepl_key_ranges_tile(alloc: Global, ranges: &[u8], tile: &mut bool) -> u32
    ensures exact { Answers (λ ranges. IsTrue tile.new ↔ Tiles ranges) result (ranges_of ranges.now) }
    ensures each_id_in_one_range { Answers (λ ranges. IsTrue tile.new → SplitsAllIds ranges) result (ranges_of ranges.now) }
{
    match ranges_of(alloc, ranges) {
        Ok(ranges) => {
            *tile = tiles(&ranges);
            0
        }
        Err(number) => number,
    }
}
