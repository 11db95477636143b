//! What a server may tell of columns beyond their types.

ghost use Rattle.std.specs.Prelude.{◌≡◌, ◌==◌, if◌then◌else◌};
ghost use Rattle.list_laws.specs.Outcome.{Gives};
ghost use Rattle.log_tables.specs.Extra.{ExtraPart, part_at, part_of};

use crate::fault::TableFault;
use crate::part::{counted_of, front_of};
use log_events::{Size, number_at};

/// A part: its kind and its value.
#[derive(Clone, Copy)]
pub(crate) struct Part<'b> {
    kind: u64,
    value: &'b [u8],
}

impl<'b> Part<'b> {
    /// The value of a part of this kind, else another one.
    fn or(self, kind: u8, other: &'b [u8]) -> &'b [u8]
        ensures { result.now ≡ (if self.entry.kind == kind then self.entry.value.now else other.now) }
    {
        if self.kind == u64::from(kind) {
            self.value
        } else {
            other
        }
    }
}

/// The part at the front, and those behind it.
#[tactic(auto, unfolding(crate::specs::Extra::part_at))]
fn part_at(bytes: &[u8]) -> Result<(Part<'_>, &[u8]), TableFault>
    ensures { Gives (λ x. (record { kind = x.0.kind; value = x.0.value.now }, x.1.now)) result (part_at bytes.now) }
{
    let (kind, behind) = front_of(bytes, 1)?;
    let (value, rest) = counted_of(behind)?;
    let part = Part {
        kind: number_at(kind, 0, Size::One),
        value,
    };
    Ok((part, rest))
}

/// The value of the part of a kind, the last of several; none has no bytes. Takes no memory.
pub(crate) fn part_of(kind: u8, bytes: &[u8]) -> Result<&[u8], TableFault>
    ensures { Gives (λ x. x.now) result (part_of kind bytes.now) }
{
    let mut found: &[u8] = &[];
    let mut left = bytes;
    while !left.is_empty() {
        let (part, rest) = part_at(left)?;
        found = part.or(kind, found);
        left = rest;
    }
    Ok(found)
}
