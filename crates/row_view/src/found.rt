//! What the fields of a row message say.

ghost use Rattle.std.specs.Prelude.{◌≡◌, ◌≤◌, ◌^◌, Some, MatchResult, length};
ghost use Rattle.row_view.specs.RowFields.{row_wire_fault};
ghost use Rattle.row_view.specs.Private.Counted.{IsFound};

use crate::count::Count;
use crate::marks::{MARKS, Mark};
use proto_wire::{WireFault, field_of};

/// The number of the lengths in a row message (`query.proto`, Row).
pub(crate) const LENGTHS: u32 = 1;

/// The number of the values in a row message.
pub(crate) const VALUES: u32 = 2;

/// The values of a row message, and how many columns its lengths are.
#[derive(Clone, Copy)]
pub(crate) struct Found<'b> {
    /// the last values of the message
    pub(crate) values: &'b [u8],
    /// all lengths of the message
    pub(crate) count: Count,
}

/// Reads the fields of a row message and marks each sixteenth column, or finds the fault of the wire
/// that lies furthest left.
#[inline(always)]
pub(crate) fn found_in<'b>(
    bytes: &'b [u8],
    marks: &mut [Mark; MARKS],
) -> Result<Found<'b>, WireFault>
    requires { length bytes.now ≤ 2 ^ 24 }
    ensures { MatchResult result
        (λ found. IsFound bytes.now found.values.now found.count marks.new)
        (λ fault. row_wire_fault bytes.now ≡ Some fault) }
{
    let mut values: &[u8] = &[];
    let mut count = Count {
        columns: 0,
        bytes: 0,
    };
    let mut rest = bytes;
    while !rest.is_empty() {
        let (field, after) = field_of(rest)?;
        count.put(bytes, rest, &field, after, marks)?;
        if let Some(last) = field.part(VALUES) {
            values = last;
        }
        rest = after;
    }
    Ok(Found { values, count })
}
