//! Parts of an event's body.

ghost use Rattle.std.specs.Prelude.{◌≡◌};
ghost use Rattle.list_laws.specs.Outcome.{Gives};
ghost use Rattle.log_events.specs.Number.{size_of};
ghost use Rattle.log_tables.specs.Part.{front_at, wide_at, packed_at, counted_at};

use crate::fault::TableFault;
use log_events::{Size, number_at};
use log_values::bytes_of_size;

/// So many bytes at the front, and the others.
pub fn front_of(bytes: &[u8], count: u64) -> Result<(&[u8], &[u8]), TableFault>
    ensures { Gives (λ x. (x.0.now, x.1.now)) result (front_at count bytes.now) }
{
    if (bytes.len() as u64) < count {
        return Err(TableFault::CutBody);
    }
    Ok(bytes.split_at(count as usize))
}

/// A number of so many bytes, and what stands behind it.
fn wide_of(bytes: &[u8], size: Size) -> Result<(u64, &[u8]), TableFault>
    ensures { Gives (λ x. (x.0, x.1.now)) result (wide_at (size_of size) bytes.now) }
{
    let count = usize::from(bytes_of_size(size));
    if bytes.len() < count {
        return Err(TableFault::CutBody);
    }
    Ok((number_at(bytes, 0, size), bytes.split_at(count).1))
}

/// A number that tells its own size, and what stands behind it.
#[tactic(auto, unfolding(crate::specs::Part::packed_at))]
pub fn packed_of(bytes: &[u8]) -> Result<(u64, &[u8]), TableFault>
    ensures { Gives (λ x. (x.0, x.1.now)) result (packed_at bytes.now) }
{
    let Some((first, rest)) = bytes.split_first() else {
        return Err(TableFault::CutBody);
    };
    if *first < 251 {
        return Ok((u64::from(*first), rest));
    }
    if *first == 252 {
        return wide_of(rest, Size::Two);
    }
    if *first == 253 {
        return wide_of(rest, Size::Three);
    }
    if *first == 254 {
        return wide_of(rest, Size::Eight);
    }
    Err(TableFault::CutBody)
}

/// The bytes behind their count, and what stands behind them.
#[tactic(auto, unfolding(crate::specs::Part::counted_at))]
pub fn counted_of(bytes: &[u8]) -> Result<(&[u8], &[u8]), TableFault>
    ensures { Gives (λ x. (x.0.now, x.1.now)) result (counted_at bytes.now) }
{
    let (count, rest) = packed_of(bytes)?;
    front_of(rest, count)
}
