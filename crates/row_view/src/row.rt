//! A row message whose columns are lent from its bytes.

ghost use Rattle.std.specs.Prelude.{◌≡◌, ℕ, ◌+◌, ◌*◌, ◌^◌, ◌<◌, ◌≤◌, ◌↔◌, List, [], Option, Ok, Err, IsTrue, MatchResult, length, drop, slice_get};
ghost use Rattle.proto_wire.specs.declared.fault.WireFault.{WireFault};
ghost use Rattle.row_view.specs.ColumnValue.{column_value};
ghost use Rattle.row_view.specs.RowFields.{row_lengths, row_values, row_wire_fault};
ghost use Rattle.row_view.specs.Row.{IsRow, IsWhole, size_of_all, columns_in, row_of_message};
ghost use Rattle.row_view.specs.Private.Kept.{IsGood};

use crate::column::Column;
use crate::columns::Columns;
use crate::counted_columns::CountedColumns;
use crate::fault::RowFault;
use crate::found::found_in;
use crate::marks::{MARKS, Mark, mark_at, no_marks};
use crate::row_bytes::RowBytes;
use crate::same::are_same;
use crate::steps::Steps;
use std::marker::{Brand, Model};
use std::sync::ledger::{Blank, Ledger};

/// The most bytes that a row message may have (this profile's limit).
pub const ROW_BYTES: usize = 16_777_216;

/// The most columns that a row may have (this profile's limit).
pub const ROW_COLUMNS: u16 = 256;

/// A row, read from its message. Seen in contracts as the list of its columns' values, `None` for
/// NULL. Nothing is copied: columns are slices of the message.
#[derive(Drop)]
pub struct RowView<'b> {
    message: &'b [u8],
    /// the last values of the message
    values: &'b [u8],
    /// how many columns there are
    columns: u32,
    /// where each sixteenth column begins
    marks: [Mark; MARKS],
}

impl<'b> Model for RowView<'b> {
    ghost use Rattle.std.specs.Prelude.{ℕ, List, Option};
    ghost use Rattle.row_view.specs.Row.{columns_in};
    ghost use Rattle.row_view.specs.Private.Kept.{IsKept};

    ghost Value = { List (Option (List ℕ)) };

    ghost view = { λ a. columns_in a.message.now };

    ghost invariant = { λ a. IsKept a.message.now a.values.now a.columns a.marks };
}

impl<'b> RowView<'b> {
    /// Reads a row message (`query.proto`, Row): its lengths are all zigzag values of field 1 in
    /// order, packed or not, its values the last field 2; other fields, and these two with another
    /// wire type, are skipped. Bytes of the values after the last column are ignored. Takes no
    /// memory.
    ///
    /// Refused in this order: `RowTooLong` for more than 2^24 bytes, by the size alone; `Wire` for
    /// bytes that aren't a list of fields, or a packed part that isn't a list of varints, whichever
    /// lies further left; `TooManyColumns` for more than 256 columns; `LengthsPastValues` where the
    /// lengths that aren't negative add up to more than the size of the values.
    #[inline(always)]
    pub fn read(bytes: &'b [u8]) -> Result<RowView<'b>, RowFault>
        ensures reading { result ≡ row_of_message bytes.now }
        // It is accepted exactly where the columns are defined, and these are they.
        ensures row { (columns : List (Option (List ℕ)))
            → (result ≡ Ok columns) ↔ IsRow bytes.now columns }

        // Each refusal comes exactly where this stands in the bytes.
        ensures too_long { (result ≡ Err RowFault.RowTooLong) ↔ (2 ^ 24 < length bytes.now) }
        ensures broken { (fault : WireFault) → (result ≡ Err (RowFault.Wire fault))
            ↔ ((length bytes.now ≤ 2 ^ 24) × (row_wire_fault bytes.now ≡ Some fault)) }
        ensures too_many { (result ≡ Err RowFault.TooManyColumns)
            ↔ ((length bytes.now ≤ 2 ^ 24) × IsWhole bytes.now
            × (256 < length (row_lengths bytes.now))) }
        ensures past_values { (result ≡ Err RowFault.LengthsPastValues)
            ↔ ((length bytes.now ≤ 2 ^ 24) × IsWhole bytes.now
            × (length (row_lengths bytes.now) ≤ 256)
            × (length (row_values bytes.now) < size_of_all (row_lengths bytes.now))) }
    {
        row_of(bytes)
    }

    /// The row of a message that is one. Reads its lengths.
    #[inline(always)]
    pub(crate) fn of_row(message: &'b [u8]) -> RowView<'b>
        requires { IsGood message.now }
        ensures { result ≡ columns_in message.now }
    {
        let mut row = RowView::empty();
        row.fill(message).unwrap();
        row
    }

    /// The row without columns, to be filled.
    fn empty() -> RowView<'b>
        ensures { result ≡ [] }
    {
        RowView {
            message: &[],
            values: &[],
            columns: 0,
            marks: no_marks(),
        }
    }

    /// Becomes the row of the message, or finds its first fault and stays empty.
    #[inline(always)]
    fn fill(&mut self, bytes: &'b [u8]) -> Result<(), RowFault>
        requires { self.old ≡ [] }
        ensures { MatchResult result
            (λ _. row_of_message bytes.now ≡ Ok self.new)
            (λ fault. row_of_message bytes.now ≡ Err fault) }
    {
        if bytes.len() > ROW_BYTES {
            return Err(RowFault::RowTooLong);
        }
        let found = match found_in(bytes, &mut self.marks) {
            Ok(found) => found,
            Err(fault) => return Err(RowFault::Wire(fault)),
        };
        if found.count.columns > u32::from(ROW_COLUMNS) {
            return Err(RowFault::TooManyColumns);
        }
        if found.count.bytes > found.values.len() as u64 {
            return Err(RowFault::LengthsPastValues);
        }
        self.message = bytes;
        self.values = found.values;
        self.columns = found.count.columns;
        Ok(())
    }

    /// How many columns the row has, at most 256. Takes no memory and reads nothing again.
    pub fn len(&self) -> usize
        ensures count { result ≡ length self.now }
        ensures few { length self.now ≤ 256 }
    {
        self.columns as usize
    }

    /// Whether the row has no columns.
    pub fn is_empty(&self) -> bool
        ensures { IsTrue result ↔ (self.now ≡ []) }
    {
        self.columns == 0
    }

    /// Column `i` of the row: NULL where its length is negative, else the slice of the values that
    /// starts at the sum of the earlier lengths that aren't negative (`query.proto`, Row). Takes no
    /// memory and decodes at most 16 lengths. `i` is below `len`.
    pub fn column(&self, i: usize) -> Column<'b>
        requires { i < length self.now }
        ensures { slice_get self.now i ≡ Some (column_value result) }
    {
        column_of::<Brand>(self, i, Blank::new(1))
    }

    /// Column `i` of the row, as `column` answers it, and how many lengths were decoded for it: a step
    /// is one length.
    pub fn column_counted<L: Ledger>(&self, i: usize, steps: &mut Steps<L>) -> Column<'b>
        requires { i < length self.now }
        ensures column { slice_get self.now i ≡ Some (column_value result) }
        ensures steps { (steps.old ≤ steps.new) × (steps.new ≤ steps.old + 16) }
    {
        let mut columns = CountedColumns::new(self.columns_from(i / 16));
        for _ in 0..i % 16 {
            columns.next(steps);
        }
        columns.next(steps).unwrap()
    }

    /// The columns from the sixteenth one of this number on.
    #[inline(always)]
    fn columns_from(&self, place: usize) -> Columns<'b>
        requires { 16 * place < length self.now }
        ensures { result ≡ drop (16 * place) self.now }
    {
        let mark = mark_at(&self.marks, place);
        let (front, fields) = self.message.split_at(mark.end as usize);
        let packed = front.split_at(mark.at as usize).1;
        let values = self.values.split_at(mark.offset as usize).1;
        Columns::behind(packed, fields, values)
    }

    /// The columns of the row in order, in one pass over its lengths. Takes no memory.
    pub fn columns(&self) -> Columns<'b>
        ensures { result ≡ self.now }
    {
        Columns::new(self.message, self.values)
    }

    /// The bytes of the row, which can be kept in its place. Takes no memory and reads nothing again.
    pub fn bytes(&self) -> RowBytes<'b>
        ensures { result ≡ self.now }
    {
        RowBytes::of_row(self.message)
    }

    /// A second view of the same row. Takes no memory and reads nothing again.
    pub fn copy(&self) -> RowView<'b>
        ensures { result ≡ self.now }
    {
        RowView {
            message: self.message,
            values: self.values,
            columns: self.columns,
            marks: self.marks,
        }
    }

    /// Whether the other row has the same columns, NULL and empty bytes told apart. Equal
    /// bytes are the same row at once; else the columns are compared. Takes no memory.
    pub fn same(&self, other: &RowView<'_>) -> bool
        ensures { IsTrue result ↔ (self.now ≡ other.now) }
    {
        self.message == other.message || are_same(self.columns(), other.columns())
    }
}

/// The row of the message, or its first fault.
#[inline(always)]
fn row_of(bytes: &[u8]) -> Result<RowView<'_>, RowFault>
    ensures { result ≡ row_of_message bytes.now }
{
    let mut row = RowView::empty();
    match row.fill(bytes) {
        Ok(()) => Ok(row),
        Err(fault) => Err(fault),
    }
}

/// Column `i` of a row, counted in a ledger that nobody reads.
fn column_of<'b, L: Ledger>(row: &RowView<'b>, i: usize, blank: Blank) -> Column<'b>
    requires within { i < length row.now }
    requires name { blank.name ≡ L.name }
    requires parts { blank.parts ≡ L.parts }
    requires some { 0 < blank.parts }
    ensures { slice_get row.now i ≡ Some (column_value result) }
{
    let mut steps: Steps<L> = Steps::new(blank);
    row.column_counted(i, &mut steps)
}
