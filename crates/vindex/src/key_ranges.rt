//! Key ranges, which say which keyspace ids a shard has.

ghost use Rattle.std.specs.Prelude.{◌≡◌, ◌⊎◌, ◌↔◌, Some, None, IfOk, IfErr, IsErrOf, IsTrue};
ghost use Rattle.std.specs.Option.{option_copied};
ghost use Rattle.row_view.specs.ColumnValue.{column_value};
ghost use Rattle.vindex.specs.Bounds.{Bounds, in_range, is_ordered};
ghost use Rattle.vindex.specs.KeyspaceId.{id_of, id_in};
ghost use Rattle.vindex.specs.Private.RangeAnswers.{AnswersRange};
ghost use Rattle.vindex.specs.RangeText.{key_range_of_text, IsBounded, IsRangeText};
ghost use Rattle.vindex.specs.declared.faults.VindexFault.TheVariants.{BadRange, Memory};

use crate::bound_text::BoundText;
use crate::faults::VindexFault;
use crate::vindexes::Vindex;
use row_view::Column;
use std::alloc::{AllocError, Global};
use std::marker::Model;

/// A range of keyspace ids: from its start on and before its end, as byte strings, in which a proper
/// beginning is less. The bounds have no 00 bytes at their ends.
#[derive(Debug, Drop)]
pub struct KeyRange {
    start: Vec<u8>,
    end: Option<Vec<u8>>,
}

impl Model for KeyRange {
    ghost use Rattle.std.specs.Prelude.{IsTrue};
    ghost use Rattle.std.specs.Option.{option_map};
    ghost use Rattle.vindex.specs.Bounds.{Bounds, is_below};

    ghost Value = { Bounds };

    ghost view = { λ range. record {
      start = range.start.items;
      end = option_map (λ bytes. bytes.items) range.end;
    } };

    // The start is less than the end, if there is one.
    ghost invariant = { λ range. IsTrue (is_below (option_map (λ bytes. bytes.items) range.end) range.start.items) };
}

/// The range that a text writes. The text is judged before any memory is taken.
#[tactic(auto, unfolding(crate::specs::RangeText::key_range_of_text))]
fn range_of_text(alloc: Global, text: &str) -> Result<KeyRange, VindexFault>
    ensures { AnswersRange result (key_range_of_text text.now) }
{
    if text == "0" {
        return Ok(KeyRange {
            start: Vec::new(alloc),
            end: None,
        });
    }
    let Some((start, end)) = text.split_once('-') else {
        return Err(VindexFault::BadRange);
    };
    let (Some(start), Some(end)) = (BoundText::read(start), BoundText::read(end)) else {
        return Err(VindexFault::BadRange);
    };
    if end.is_empty() {
        let start = start.bytes(alloc)?;
        return Ok(KeyRange { start, end: None });
    }
    if !start.is_before(&end) {
        return Err(VindexFault::BadRange);
    }
    let start = start.bytes(alloc)?;
    let end = end.bytes(alloc)?;
    Ok(KeyRange {
        start,
        end: Some(end),
    })
}

impl KeyRange {
    /// Reads `start-end`, each side an even number of hexadecimal digits of either case, or empty for
    /// open; `0` and `-` are the whole range. 00 bytes at the end of a bound are dropped first, so
    /// `80-00` is `80-`. `BadRange` is for every other text, also for one whose start isn't below the
    /// end that it gives, whatever memory there is: the text is judged before any is taken. `Memory`
    /// where the allocator gave none for the bounds of a key range; the whole range has none and takes none.
    pub fn parse(alloc: Global, text: &str) -> Result<KeyRange, VindexFault>
        ensures read { IfOk result (λ range. key_range_of_text text.now ≡ Some range) }
        ensures bad_range { IsErrOf result BadRange ↔ (key_range_of_text text.now ≡ None) }
        ensures refused { IfErr result (λ fault. (fault ≡ BadRange) ⊎ (fault ≡ Memory)) }
        // Memory is wanted for the bounds of a key range alone.
        ensures memory { IsErrOf result Memory → IsBounded (key_range_of_text text.now) }

        // The texts that are read as a range are those that write it.
        ensures grammar { (bounds : Bounds)
            → (key_range_of_text text.now ≡ Some bounds) ↔ IsRangeText text.now bounds }
    {
        range_of_text(alloc, text)
    }

    /// A copy of the range.
    pub fn try_clone(&self, alloc: Global) -> Result<KeyRange, AllocError>
        ensures { IfOk result (λ range. range ≡ self.now) }
    {
        let start = Vec::from_slice(alloc, self.start())?;
        let Some(end) = &self.end else {
            return Ok(KeyRange { start, end: None });
        };
        let end = Vec::from_slice(alloc, end.as_slice())?;
        Ok(KeyRange {
            start,
            end: Some(end),
        })
    }

    /// Whether the range has `id`: its start is at most `id`, and `id` is below its end. Takes no
    /// memory.
    pub fn holds(&self, id: &[u8]) -> bool
        ensures { result ≡ in_range self.now id.now }
    {
        let is_below = match &self.end {
            Some(end) => id.cmp(end.as_slice()).is_lt(),
            None => true,
        };
        self.start().cmp(id).is_le() && is_below
    }

    /// Whether the range has the keyspace id of a column's value. A value that has no id under the
    /// vindex is refused as by `Vindex::id`. Takes no memory.
    pub fn holds_value(&self, vindex: Vindex, column: Column<'_>) -> Result<bool, VindexFault>
        ensures { result ≡ id_in self.now (id_of vindex (column_value column.entry)) }
    {
        let id = vindex.id(column)?;
        Ok(self.holds(id.bytes()))
    }

    /// Where the range starts. Takes no memory.
    pub fn start(&self) -> &[u8]
        ensures { result.now ≡ self.now.start }
    {
        self.start.as_slice()
    }

    /// Where the range ends; `None` is for one that is open above. An end is above the start. Takes
    /// no memory.
    pub fn end(&self) -> Option<&[u8]>
        ensures end { option_copied result ≡ self.now.end }
        ensures ordered { IsTrue (is_ordered self.now) }
    {
        match &self.end {
            Some(end) => Some(end.as_slice()),
            None => None,
        }
    }

    /// Whether both ranges have the same bounds. Takes no memory.
    pub fn same(&self, other: &KeyRange) -> bool
        ensures { IsTrue result ↔ (self.now ≡ other.now) }
    {
        let same_end = match (&self.end, &other.end) {
            (Some(end), Some(other_end)) => end.as_slice() == other_end.as_slice(),
            (None, None) => true,
            _ => false,
        };
        self.start() == other.start() && same_end
    }
}
