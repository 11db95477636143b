//! The key of a row.

ghost use Rattle.std.specs.Prelude.{◌≡◌, ◌↔◌, ◌≤◌, ◌<◌, false, length, map, Some, None, Ok, Err, IfSome, IfOk, IsOk, IsErr};
ghost use Rattle.std.specs.Option.{option_map};
ghost use Rattle.filter_rule.specs.PlanValue.{columns_of, key_columns_of};
ghost use Rattle.filter_rule.specs.WellFormed.{AreColumnPlaces};
ghost use Rattle.pk_copy.specs.KeyValue.{KeyValue, IsPart};
ghost use Rattle.pk_copy.specs.KeyOf.{part_of_text, key_part_of, is_null, cell_at, key_cells, key_in, key_of, HoldsNull, LacksPart, IsKeyOf};
ghost use Rattle.pk_copy.specs.PartValue.{part_value};

use crate::fault::KeyFault;
use crate::lent::LentKey;
use crate::part::KeyPart;
use crate::view::KeyView;
use arrayvec::ArrayVec;
use filter_rule::{ColumnDef, Plan, is_whole_number};
use row_view::{Column, RowBytes, RowView};
use std::alloc::{AllocError, Global};
use vindex::number_of;

/// The key of a row of table `t`: the table's number and the values of its key columns in key order,
/// numbers of whole-number columns by value, other columns' bytes lent from the row. `NullKey` where any
/// key column is NULL; else `BadKey` where any key column of whole numbers holds no number text from -2^63
/// to 2^64 - 1. Takes no memory. That `t` is a table of the plan and that the row has as many columns as
/// that table is the caller's.
pub fn key_of<'b>(plan: &Plan, t: u8, row: &RowView<'b>) -> Result<KeyView<'b>, KeyFault>
    requires table { t < length plan.now.tables }
    requires columns { length row.now ≡ length (columns_of plan.now t) }
    ensures value { result ≡ key_of plan.now t row.now }
    // It is answered exactly where each key column gives a part, and it has these parts.
    ensures key { (key : KeyValue) → (result ≡ Ok key) ↔ IsKeyOf t (key_cells plan.now t row.now) key }

    // Each refusal comes exactly where this stands in the row.
    ensures null { (result ≡ Err KeyFault.NullKey) ↔ HoldsNull (key_cells plan.now t row.now) }
    ensures bad { let cells = key_cells plan.now t row.now in
        (result ≡ Err KeyFault.BadKey) ↔ ((¬ HoldsNull cells) × LacksPart cells) }
{
    key_of_bytes(plan, t, &row.bytes())
}

/// The key of a row of table `t`, as `key_of` answers it, of the row's bytes: for each key column those up
/// to it are decoded, and no view is made. Takes no memory. That `t` is a table of the plan and that the
/// row has as many columns as that table is the caller's.
pub fn key_of_bytes<'b>(plan: &Plan, t: u8, row: &RowBytes<'b>) -> Result<KeyView<'b>, KeyFault>
    requires table { t < length plan.now.tables }
    requires columns { length row.now ≡ length (columns_of plan.now t) }
    ensures value { result ≡ key_of plan.now t row.now }
    // It is answered exactly where each key column gives a part, and it has these parts.
    ensures key { (key : KeyValue) → (result ≡ Ok key) ↔ IsKeyOf t (key_cells plan.now t row.now) key }

    // Each refusal comes exactly where this stands in the row.
    ensures null { (result ≡ Err KeyFault.NullKey) ↔ HoldsNull (key_cells plan.now t row.now) }
    ensures bad { let cells = key_cells plan.now t row.now in
        (result ≡ Err KeyFault.BadKey) ↔ ((¬ HoldsNull cells) × LacksPart cells) }
{
    let (columns, places) = key_columns(plan, t);
    key_at(t, columns, places, row)
}

impl<'b> LentKey<'b> {
    /// The key of a row of table `t` as it is kept, of the row's bytes: a key or its refusal as `key_of_bytes`
    /// answers them, and no view of a key of one column is made. Takes memory for several parts alone; an error
    /// is want of it. That `t` is a table of the plan and that the row has as many columns as that table is the
    /// caller's.
    pub fn of_bytes(
        alloc: Global,
        plan: &Plan,
        t: u8,
        row: &RowBytes<'b>,
    ) -> Result<Result<LentKey<'b>, KeyFault>, AllocError>
        requires table { t < length plan.now.tables }
        requires columns { length row.now ≡ length (columns_of plan.now t) }
        ensures answer { IfOk result (λ answer. answer ≡ key_of plan.now t row.now) }
        // Memory is wanted for a key alone.
        ensures memory { IsErr result → IsOk (key_of plan.now t row.now) }
    {
        let (columns, places) = key_columns(plan, t);
        lent_at(alloc, t, columns, places, row)
    }
}

/// The columns of a table of the plan, and the places of its key columns in key order.
#[inline(always)]
fn key_columns(plan: &Plan, t: u8) -> (&[ColumnDef], &[u8])
    requires { t < length plan.now.tables }
    ensures columns { result.0.now ≡ columns_of plan.now t }
    ensures places { result.1.now ≡ key_columns_of plan.now t }
    ensures few { length result.1.now ≤ 8 }
    ensures within { AreColumnPlaces result.0.now result.1.now }
{
    let table = &plan.tables()[usize::from(t)];
    (table.columns(), table.key())
}

/// The key of a row of table `t` as it is kept, of what stands at these places.
fn lent_at<'b>(
    alloc: Global,
    t: u8,
    columns: &[ColumnDef],
    places: &[u8],
    row: &RowBytes<'b>,
) -> Result<Result<LentKey<'b>, KeyFault>, AllocError>
    requires few { length places.now ≤ 8 }
    requires places { AreColumnPlaces columns.now places.now }
    requires width { length row.now ≡ length columns.now }
    ensures answer { IfOk result (λ answer. answer ≡ key_in t (map (cell_at columns.now row.now) places.now)) }
    ensures memory { IsErr result → IsOk (key_in t (map (cell_at columns.now row.now) places.now)) }
{
    if let [place] = places {
        return match part_at(columns, row, *place) {
            Ok(part) => Ok(Ok(LentKey::of_one(t, part))),
            Err(fault) => Ok(Err(fault)),
        };
    }
    lent_of_several(alloc, t, columns, places, row)
}

/// The same where several columns are the key, apart from `lent_at`, so that a key of one column has no place for a
/// view of several.
#[inline(never)]
fn lent_of_several<'b>(
    alloc: Global,
    t: u8,
    columns: &[ColumnDef],
    places: &[u8],
    row: &RowBytes<'b>,
) -> Result<Result<LentKey<'b>, KeyFault>, AllocError>
    requires few { length places.now ≤ 8 }
    requires places { AreColumnPlaces columns.now places.now }
    requires width { length row.now ≡ length columns.now }
    ensures answer { IfOk result (λ answer. answer ≡ key_in t (map (cell_at columns.now row.now) places.now)) }
    ensures memory { IsErr result → IsOk (key_in t (map (cell_at columns.now row.now) places.now)) }
{
    match key_at(t, columns, places, row) {
        Ok(key) => Ok(Ok(LentKey::from_view(alloc, &key)?)),
        Err(fault) => Ok(Err(fault)),
    }
}

/// The key of a row of table `t`, of what stands at these places.
fn key_at<'b>(
    t: u8,
    columns: &[ColumnDef],
    places: &[u8],
    row: &RowBytes<'b>,
) -> Result<KeyView<'b>, KeyFault>
    requires few { length places.now ≤ 8 }
    requires places { AreColumnPlaces columns.now places.now }
    requires width { length row.now ≡ length columns.now }
    ensures { result ≡ key_in t (map (cell_at columns.now row.now) places.now) }
{
    if let [place] = places {
        return match part_at(columns, row, *place) {
            Ok(part) => Ok(KeyView::of_one(t, part)),
            Err(fault) => Err(fault),
        };
    }
    let mut parts = ArrayVec::new();
    let mut is_bad = false;
    for place in places {
        match part_at(columns, row, *place) {
            Ok(part) => parts.push(part),
            Err(KeyFault::BadKey) => is_bad = true,
            Err(KeyFault::NullKey) => return Err(KeyFault::NullKey),
        }
    }
    if is_bad {
        return Err(KeyFault::BadKey);
    }
    Ok(KeyView::new(t, parts))
}

/// The part that the column at a place gives the key.
fn part_at<'b>(
    columns: &[ColumnDef],
    row: &RowBytes<'b>,
    place: u8,
) -> Result<KeyPart<'b>, KeyFault>
    requires place { place < length columns.now }
    requires width { length row.now ≡ length columns.now }
    ensures part { let cell = cell_at columns.now row.now place in
        IfOk result (λ part. (key_part_of cell ≡ Some (part_value part)) × IsPart (part_value part)) }
    ensures null { let cell = cell_at columns.now row.now place in
        result ≡ Err KeyFault.NullKey → cell.value ≡ None }
    ensures bad { let cell = cell_at columns.now row.now place in
        result ≡ Err KeyFault.BadKey → (is_null cell ≡ false) × (key_part_of cell ≡ None) }
{
    let place = usize::from(place);
    match row.column(place) {
        Column::Null => Err(KeyFault::NullKey),
        Column::Bytes(text) => part_of(columns[place].type_number(), text).ok_or(KeyFault::BadKey),
    }
}

/// The part that a column's text gives the key.
pub(crate) fn part_of(type_number: u32, text: &[u8]) -> Option<KeyPart<'_>>
    ensures part { option_map part_value result ≡ part_of_text type_number text.now }
    ensures within { IfSome result (λ part. IsPart (part_value part)) }
{
    if is_whole_number(type_number) {
        let number = number_of(text)?;
        Some(KeyPart::Number(number.value()))
    } else {
        Some(KeyPart::Bytes(text))
    }
}
