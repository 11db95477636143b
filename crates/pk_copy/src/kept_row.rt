//! The key of a row of kept columns.

ghost use Rattle.std.specs.Prelude.{◌≡◌, ◌==◌, ◌≤◌, ◌<◌, false, length, map, position, Some, None, Ok, Err, IfOk, IsOk, IsErr};
ghost use Rattle.filter_rule.specs.PlanValue.{columns_of, key_columns_of, kept_columns_of};
ghost use Rattle.filter_rule.specs.WellFormed.{AreColumnPlaces, IsPlan};
ghost use Rattle.row_view.specs.Picked.{picked};
ghost use Rattle.row_view.specs.Row.{RowValue};
ghost use Rattle.pk_copy.specs.KeyValue.{IsPart};
ghost use Rattle.pk_copy.specs.KeyOf.{key_part_of, is_null, key_in, key_of};
ghost use Rattle.pk_copy.specs.KeyOfKept.{kept_place, kept_cell, key_of_kept, ArePlacesKept};
ghost use Rattle.pk_copy.specs.PartValue.{part_value};

use crate::fault::KeyFault;
use crate::key::Key;
use crate::part::KeyPart;
use crate::reading::part_of;
use crate::view::KeyView;
use arrayvec::ArrayVec;
use filter_rule::{ColumnDef, Plan};
use row_view::{Column, RowBytes, RowView};
use std::alloc::{AllocError, Global};

/// The key of a row of the columns that are kept of table `t`, in kept order: as `key_of` for a whole row.
/// Takes no memory. That `t` is a table of the plan and that the row has as many columns as are kept of
/// that table is the caller's.
pub fn key_of_kept<'b>(plan: &Plan, t: u8, row: &RowView<'b>) -> Result<KeyView<'b>, KeyFault>
    requires table { t < length plan.now.tables }
    requires columns { length row.now ≡ length (kept_columns_of plan.now t) }
    ensures value { result ≡ key_of_kept plan.now t row.now }
    // It is the key of each whole row of which these are the kept columns.
    ensures whole { (source : RowValue) → row.now ≡ picked (kept_columns_of plan.now t) source → result ≡ key_of plan.now t source }
{
    let (columns, kept, places) = kept_and_key(plan, t);
    kept_key_at(t, columns, kept, places, &row.bytes())
}

impl Key {
    /// The key of a row of the columns that are kept of table `t`, in memory of its own, of the row's bytes: a
    /// key or its refusal as `key_of_kept` answers them, and no view is made of the row, nor of a key of one
    /// column. Takes no memory for a number or up to 12 bytes alone; an error is want of it. That `t` is a table
    /// of the plan and that the row has as many columns as are kept of that table is the caller's.
    pub fn of_kept(
        alloc: Global,
        plan: &Plan,
        t: u8,
        row: &RowBytes<'_>,
    ) -> Result<Result<Key, KeyFault>, AllocError>
        requires table { t < length plan.now.tables }
        requires columns { length row.now ≡ length (kept_columns_of plan.now t) }
        ensures answer { IfOk result (λ answer. answer ≡ key_of_kept plan.now t row.now) }
        // Memory is wanted for a key alone.
        ensures memory { IsErr result → IsOk (key_of_kept plan.now t row.now) }
    {
        let (columns, kept, places) = kept_and_key(plan, t);
        owned_key_at(alloc, t, columns, kept, places, row)
    }
}

/// The columns of a table of the plan, the places of those that are kept, and the places of its key columns in key
/// order.
#[inline(always)]
fn kept_and_key(plan: &Plan, t: u8) -> (&[ColumnDef], &[u8], &[u8])
    requires { t < length plan.now.tables }
    ensures columns { result.0.now ≡ columns_of plan.now t }
    ensures kept { result.1.now ≡ kept_columns_of plan.now t }
    ensures places { result.2.now ≡ key_columns_of plan.now t }
    ensures few { length result.2.now ≤ 8 }
    ensures within { AreColumnPlaces result.0.now result.2.now }
    ensures among { ArePlacesKept result.1.now result.2.now }
    ensures sound { IsPlan plan.now }
{
    let table = &plan.tables()[usize::from(t)];
    (table.columns(), table.kept(), table.key())
}

/// The key of a row of kept columns of table `t` in memory of its own, of what stands in the table at these places.
fn owned_key_at(
    alloc: Global,
    t: u8,
    columns: &[ColumnDef],
    kept: &[u8],
    places: &[u8],
    row: &RowBytes<'_>,
) -> Result<Result<Key, KeyFault>, AllocError>
    requires few { length places.now ≤ 8 }
    requires places { AreColumnPlaces columns.now places.now }
    requires kept { ArePlacesKept kept.now places.now }
    requires width { length row.now ≡ length kept.now }
    ensures answer { IfOk result (λ answer. answer ≡ key_in t (map (kept_cell columns.now kept.now row.now) places.now)) }
    ensures memory { IsErr result → IsOk (key_in t (map (kept_cell columns.now kept.now row.now) places.now)) }
{
    if let [place] = places {
        return match kept_part_at(columns, kept, row, *place) {
            Ok(part) => Ok(Ok(Key::of_one(alloc, t, part)?)),
            Err(fault) => Ok(Err(fault)),
        };
    }
    match kept_key_at(t, columns, kept, places, row) {
        Ok(key) => Ok(Ok(Key::from_view(alloc, &key)?)),
        Err(fault) => Ok(Err(fault)),
    }
}

/// The key of a row of kept columns of table `t`, of what stands in the table at these places.
fn kept_key_at<'b>(
    t: u8,
    columns: &[ColumnDef],
    kept: &[u8],
    places: &[u8],
    row: &RowBytes<'b>,
) -> Result<KeyView<'b>, KeyFault>
    requires few { length places.now ≤ 8 }
    requires places { AreColumnPlaces columns.now places.now }
    requires kept { ArePlacesKept kept.now places.now }
    requires width { length row.now ≡ length kept.now }
    ensures { result ≡ key_in t (map (kept_cell columns.now kept.now row.now) places.now) }
{
    let mut parts = ArrayVec::new();
    let mut is_bad = false;
    for place in places {
        match kept_part_at(columns, kept, row, *place) {
            Ok(part) => parts.push(part),
            Err(KeyFault::BadKey) => is_bad = true,
            Err(KeyFault::NullKey) => return Err(KeyFault::NullKey),
        }
    }
    if is_bad {
        return Err(KeyFault::BadKey);
    }
    Ok(KeyView::new(t, parts))
}

fn place_among(kept: &[u8], place: u8) -> Option<usize>
    ensures { result ≡ position (λ column. column == place) kept.now }
{
    kept.iter().position(|column| *column == place)
}

/// Where among the kept columns the column at a place of the table stands.
#[tactic(auto, unfolding(crate::specs::KeyOfKept::kept_place))]
fn kept_place(kept: &[u8], place: u8) -> usize
    ensures { result ≡ kept_place kept.now place }
{
    place_among(kept, place).unwrap_or(kept.len())
}

/// The part that the column at a place of the table gives the key.
fn kept_part_at<'b>(
    columns: &[ColumnDef],
    kept: &[u8],
    row: &RowBytes<'b>,
    place: u8,
) -> Result<KeyPart<'b>, KeyFault>
    requires place { place < length columns.now }
    requires kept { kept_place kept.now place < length kept.now }
    requires width { length row.now ≡ length kept.now }
    ensures part { let cell = kept_cell columns.now kept.now row.now place in
        IfOk result (λ part. (key_part_of cell ≡ Some (part_value part)) × IsPart (part_value part)) }
    ensures null { let cell = kept_cell columns.now kept.now row.now place in
        result ≡ Err KeyFault.NullKey → cell.value ≡ None }
    ensures bad { let cell = kept_cell columns.now kept.now row.now place in
        result ≡ Err KeyFault.BadKey → (is_null cell ≡ false) × (key_part_of cell ≡ None) }
{
    match row.column(kept_place(kept, place)) {
        Column::Null => Err(KeyFault::NullKey),
        Column::Bytes(text) => {
            part_of(columns[usize::from(place)].type_number(), text).ok_or(KeyFault::BadKey)
        }
    }
}
