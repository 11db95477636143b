//! How many columns a row has, how many bytes they claim, and where each sixteenth begins.

ghost use Rattle.std.specs.Prelude.{◌≡◌, ℕ, ℤ, ◌+◌, ◌-◌, ◌^◌, ◌<◌, ◌≤◌, List, [], ◌∷◌, None, Some, Ok, MatchResult, length};
ghost use Rattle.proto_wire.specs.Varint.{varints_of};
ghost use Rattle.proto_wire.specs.Field.{wire_field, field_at, fields_of};
ghost use Rattle.row_view.specs.RowFields.{lengths_of, packed_fault_at};
ghost use Rattle.row_view.specs.Row.{size_of};
ghost use Rattle.row_view.specs.Private.Marks.{IsPlace, EndsIn, AreMarks, lengths_left};
ghost use Rattle.row_view.specs.Private.Counted.{IsCounted};

use crate::found::LENGTHS;
use crate::marks::{MARKS, Mark};
use proto_wire::{Field, Payload, WireFault, sint64_of, unzigzag};

/// What the lengths so far come to.
#[derive(Clone, Copy)]
pub(crate) struct Count {
    /// how many lengths there are
    pub(crate) columns: u32,
    /// the sum of those that aren't negative; it stops at its type's greatest, so that no lengths,
    /// however long, wrap
    pub(crate) bytes: u64,
}

/// How many bytes a column of this length takes: none where it is negative, NULL.
fn size_of_length(length: i64) -> u64
    ensures { result ≡ size_of length }
{
    if length < 0 { 0 } else { length as u64 }
}

impl Count {
    /// Marks the column that comes next, if it is a sixteenth one.
    fn mark(&self, at: usize, end: usize, marks: &mut [Mark; MARKS])
        requires within { (at ≤ end) × (end < 2 ^ 32) }
        ensures { (message packed fields : List ℕ) (left : List ℤ) → IsPlace message packed fields at end
            → lengths_left packed fields ≡ left → IsCounted message left self.now marks.old
            → AreMarks message (self.now.columns + 1) marks.new }
    {
        let place = (self.columns / 16) as usize;
        if self.columns % 16 == 0 && place < MARKS {
            marks[place] = Mark {
                at: at as u32,
                end: end as u32,
                offset: self.bytes.min(u64::from(u32::MAX)) as u32,
            };
        }
    }

    /// Counts a length that stands at this place.
    #[inline(always)]
    fn put_length(&mut self, length: i64, at: usize, end: usize, marks: &mut [Mark; MARKS])
        requires within { (at ≤ end) × (end < 2 ^ 32) }
        requires few { self.old.columns < 2 ^ 32 - 1 }
        ensures one { self.new.columns ≡ self.old.columns + 1 }
        ensures counted { (message packed fields : List ℕ) (left : List ℤ) → IsPlace message packed fields at end
            → lengths_left packed fields ≡ length ∷ left → IsCounted message (length ∷ left) self.old marks.old
            → IsCounted message left self.new marks.new }
    {
        self.mark(at, end, marks);
        self.columns += 1;
        self.bytes = self.bytes.saturating_add(size_of_length(length));
    }

    /// Counts the lengths of a packed part, behind which this follows, or finds why it isn't one.
    fn put_packed(
        &mut self,
        message: &[u8],
        packed: &[u8],
        after: &[u8],
        marks: &mut [Mark; MARKS],
    ) -> Result<(), WireFault>
        requires place { EndsIn message.now packed.now after.now }
        requires short { length message.now ≤ 2 ^ 24 }
        requires few { self.old.columns + length packed.now ≤ 2 ^ 24 }
        requires counted { IsCounted message.now (lengths_left packed.now after.now) self.old marks.old }
        ensures few { self.new.columns ≤ self.old.columns + length packed.now }
        ensures read { MatchResult result
            (λ _. ((varints_of packed.now).fault ≡ None)
            × IsCounted message.now (lengths_of (fields_of after.now).items) self.new marks.new)
            (λ fault. (varints_of packed.now).fault ≡ Some fault) }
    {
        let end = message.len() - after.len();
        let mut rest = packed;
        while !rest.is_empty() {
            let (length, next) = sint64_of(rest)?;
            self.put_length(length, end - rest.len(), end, marks);
            rest = next;
        }
        Ok(())
    }

    /// Counts the lengths of a field, from which on the message has `rest` and behind it `after`, or
    /// finds why it isn't a packed part.
    #[inline(always)]
    pub(crate) fn put(
        &mut self,
        message: &[u8],
        rest: &[u8],
        field: &Field<'_>,
        after: &[u8],
        marks: &mut [Mark; MARKS],
    ) -> Result<(), WireFault>
        requires field { field_at rest.now ≡ Ok (wire_field field.now, after.now) }
        requires place { EndsIn message.now [] rest.now }
        requires short { length message.now ≤ 2 ^ 24 }
        requires few { self.old.columns + length rest.now ≤ length message.now }
        requires counted { IsCounted message.now (lengths_of (fields_of rest.now).items) self.old marks.old }
        ensures few { self.new.columns + length after.now ≤ length message.now }
        ensures read { MatchResult result
            (λ _. (packed_fault_at (wire_field field.now) ≡ None)
            × IsCounted message.now (lengths_of (fields_of after.now).items) self.new marks.new)
            (λ fault. packed_fault_at (wire_field field.now) ≡ Some fault) }
    {
        match (field.number, field.payload) {
            (LENGTHS, Payload::Varint(number)) => {
                let place = message.len() - rest.len();
                self.put_length(unzigzag(number), place, place, marks);
                Ok(())
            }
            (LENGTHS, Payload::Bytes(packed)) => self.put_packed(message, packed, after, marks),
            _ => Ok(()),
        }
    }
}
