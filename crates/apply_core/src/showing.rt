//! What a board shows of its streams and of the rows of its target.

ghost use Rattle.std.specs.Prelude.{◌≡◌, [], None, IfOk, IfErr, IsSome, IsSomeAnd, MatchOption, slice_get};
ghost use Rattle.std.specs.Option.{option_map_or};
ghost use Rattle.pk_copy.specs.Marks.{mark_of};
ghost use Rattle.pk_copy.specs.MarkView.{mark_value};
ghost use Rattle.board_laws.specs.declared.refusal.Refusal.TheVariants.{NoStream, Memory};
ghost use Rattle.board_laws.specs.Sources.{applied_position};
ghost use Rattle.apply_core.specs.Shown.{all_rows, rows_of_stream};

use crate::board::Board;
use crate::stream::Stream;
use board_laws::Refusal;
use dump::DumpRows;
use gtid_set::GtidSet;
use pk_copy::{Key, Mark};
use row_view::RowBuf;
use std::alloc::{AllocError, Global};
use target_tables::Tables;

/// Copies of all rows. An error is want of memory.
fn copies_of_all(alloc: Global, rows: &Tables<Key, RowBuf>) -> Result<DumpRows, AllocError>
    ensures { IfOk result (λ copies. copies ≡ all_rows rows.now.entries) }
{
    let mut copies = DumpRows::new(alloc);
    copies.reserve(rows.len())?;
    for (key, _, row) in rows.iter() {
        copies.push(key.try_clone(alloc)?, row.try_clone(alloc)?)?;
    }
    Ok(copies)
}

/// Copies of the rows of stream `s`. An error is want of memory.
fn copies_of_own(alloc: Global, rows: &Tables<Key, RowBuf>, s: u8) -> Result<DumpRows, AllocError>
    ensures { IfOk result (λ copies. copies ≡ rows_of_stream s rows.now.entries) }
{
    let mut copies = DumpRows::new(alloc);
    for (key, owner, row) in rows.iter() {
        if owner == s {
            copies.push(key.try_clone(alloc)?, row.try_clone(alloc)?)?;
        }
    }
    Ok(copies)
}

impl<'h> Stream<'h> {
    /// The position of the last applied group; none where no group is applied.
    pub(crate) fn position(&self) -> Option<&GtidSet>
        ensures { option_map_or (λ set. set.now) result [] ≡ applied_position self.now }
    {
        self.is_sound();
        let applied = self.cursor.applied();
        if applied == 0 {
            return None;
        }
        Some(self.list[(applied - 1) as usize].position())
    }

    /// The mark of table `t`.
    fn mark(&self, t: u8) -> Mark<'_>
        ensures { mark_value result ≡ mark_of self.now.marks t }
    {
        self.marks.mark(t)
    }
}

impl<'h> Board<'h> {
    /// The source's position at which the rows of stream `s` stand: that of its last applied group. None is
    /// the empty set, before the first group is applied. Refused 115 alone. Takes no memory.
    pub fn position(&self, s: u8) -> Result<Option<&GtidSet>, Refusal>
        ensures position { IfOk result (λ position. IsSomeAnd (slice_get self.now.streams s) (λ state. option_map_or (λ set. set.now) position [] ≡ applied_position state)) }
        ensures no_stream { IfErr result (λ refusal. (refusal ≡ NoStream) × (slice_get self.now.streams s ≡ None)) }
    {
        match self.stream(s) {
            None => Err(Refusal::NoStream),
            Some(stream) => Ok(stream.position()),
        }
    }

    /// How far stream `s` has copied table `t`, in the plan's order; a table that isn't there waits.
    /// Refused 115 alone. Takes no memory.
    pub fn mark(&self, s: u8, t: u8) -> Result<Mark<'_>, Refusal>
        ensures mark { IfOk result (λ mark. IsSomeAnd (slice_get self.now.streams s) (λ state. mark_value mark ≡ mark_of state.marks t)) }
        ensures no_stream { IfErr result (λ refusal. (refusal ≡ NoStream) × (slice_get self.now.streams s ≡ None)) }
    {
        match self.stream(s) {
            None => Err(Refusal::NoStream),
            Some(stream) => Ok(stream.mark(t)),
        }
    }

    /// The rows of the target as they lie there, each with the stream that owns it. Takes no memory.
    pub fn target(&self) -> &Tables<Key, RowBuf>
        ensures { result.now.entries ≡ self.now.rows }
    {
        &self.rows
    }

    /// Copies of all rows of the target, by rising key. An error is want of memory.
    pub fn rows(&self, alloc: Global) -> Result<DumpRows, AllocError>
        ensures { IfOk result (λ rows. rows ≡ all_rows self.now.rows) }
    {
        copies_of_all(alloc, &self.rows)
    }

    /// Copies of the rows of stream `s`, by rising key. Refused 115, and for want of memory.
    pub fn rows_of(&self, alloc: Global, s: u8) -> Result<DumpRows, Refusal>
        ensures rows { IfOk result (λ rows. IsSome (slice_get self.now.streams s) × (rows ≡ rows_of_stream s self.now.rows)) }
        ensures refused { IfErr result (λ refusal. MatchOption (slice_get self.now.streams s) (refusal ≡ NoStream) (λ _. refusal ≡ Memory)) }
    {
        if self.stream(s).is_none() {
            return Err(Refusal::NoStream);
        }
        match copies_of_own(alloc, &self.rows, s) {
            Err(_) => Err(Refusal::Memory),
            Ok(rows) => Ok(rows),
        }
    }
}
