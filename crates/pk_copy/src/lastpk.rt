//! The key of the last row that was copied, as a row.

ghost use Rattle.std.specs.Prelude.{◌≡◌, ◌↔◌, ◌≤◌, ◌<◌, false, length, None, Some, Ok, Err, IfOk};
ghost use Rattle.filter_rule.specs.PlanValue.{columns_of, key_columns_of};
ghost use Rattle.filter_rule.specs.WellFormed.{AreColumnPlaces};
ghost use Rattle.row_view.specs.ColumnValue.{column_value};
ghost use Rattle.pk_copy.specs.KeyValue.{KeyValue, IsPart};
ghost use Rattle.pk_copy.specs.KeyOf.{key_part_of, is_null, key_in, HoldsNull, LacksPart, IsKeyOf};
ghost use Rattle.pk_copy.specs.PartValue.{part_value};
ghost use Rattle.pk_copy.specs.Lastpk.{key_cell, lastpk_cells, last_cells, key_of_lastpk, LastpksAreReadAgain};

use crate::fault::KeyFault;
use crate::lastpk_laws::lastpks_are_read_again;
use crate::part::KeyPart;
use crate::reading::part_of;
use crate::view::KeyView;
use arrayvec::ArrayVec;
use filter_rule::{ColumnDef, Plan};
use row_view::{Column, RowView};

/// The key of table `t` that a row of just its key columns is, in key order: `key_of` over these
/// columns. `NullKey` where any is NULL; else `BadKey` where any column of whole numbers holds no number
/// text. Takes no memory. That `t` is a table of the plan and that the row has as many columns as the
/// key is the caller's.
pub fn key_of_lastpk<'b>(plan: &Plan, t: u8, row: &RowView<'b>) -> Result<KeyView<'b>, KeyFault>
    requires table { t < length plan.now.tables }
    requires columns { length row.now ≡ length (key_columns_of plan.now t) }
    ensures value { result ≡ key_of_lastpk plan.now t row.now }
    // It is answered exactly where each column gives a part, and it has these parts.
    ensures key { (key : KeyValue) → (result ≡ Ok key) ↔ IsKeyOf t (last_cells plan.now t row.now) key }

    // Each refusal comes exactly where this stands in the row.
    ensures null { (result ≡ Err KeyFault.NullKey) ↔ HoldsNull (last_cells plan.now t row.now) }
    ensures bad { let cells = last_cells plan.now t row.now in
        (result ≡ Err KeyFault.BadKey) ↔ ((¬ HoldsNull cells) × LacksPart cells) }
    // The key of a row, as a row, is read as this key.
    ensures read_again { LastpksAreReadAgain }
{
    lastpks_are_read_again();
    let table = &plan.tables()[usize::from(t)];
    key_under(t, table.columns(), table.key(), row)
}

/// The key of table `t` that a row of just the columns at these places is.
fn key_under<'b>(
    t: u8,
    columns: &[ColumnDef],
    places: &[u8],
    row: &RowView<'b>,
) -> Result<KeyView<'b>, KeyFault>
    requires few { length places.now ≤ 8 }
    requires places { AreColumnPlaces columns.now places.now }
    requires width { length row.now ≡ length places.now }
    ensures { result ≡ key_in t (lastpk_cells columns.now places.now row.now) }
{
    let mut parts = ArrayVec::new();
    let mut is_bad = false;
    let mut i = 0;
    for column in row.columns() {
        match part_in(columns, places[i], &column) {
            Ok(part) => parts.push(part),
            Err(KeyFault::BadKey) => is_bad = true,
            Err(KeyFault::NullKey) => return Err(KeyFault::NullKey),
        }
        i += 1;
    }
    if is_bad {
        return Err(KeyFault::BadKey);
    }
    Ok(KeyView::new(t, parts))
}

/// The part that a column, which stands at this place in the table, gives the key.
fn part_in<'b>(
    columns: &[ColumnDef],
    place: u8,
    column: &Column<'b>,
) -> Result<KeyPart<'b>, KeyFault>
    requires { place < length columns.now }
    ensures part { let cell = key_cell columns.now place (column_value column.now) in
        IfOk result (λ part. (key_part_of cell ≡ Some (part_value part)) × IsPart (part_value part)) }
    ensures null { let cell = key_cell columns.now place (column_value column.now) in
        result ≡ Err KeyFault.NullKey → cell.value ≡ None }
    ensures bad { let cell = key_cell columns.now place (column_value column.now) in
        result ≡ Err KeyFault.BadKey → (is_null cell ≡ false) × (key_part_of cell ≡ None) }
{
    match column {
        Column::Null => Err(KeyFault::NullKey),
        Column::Bytes(text) => {
            let type_number = columns[usize::from(place)].type_number();
            part_of(type_number, text).ok_or(KeyFault::BadKey)
        }
    }
}
