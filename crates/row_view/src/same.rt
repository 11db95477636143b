//! Equality of columns.

ghost use Rattle.std.specs.Prelude.{◌≡◌, ◌↔◌, IsTrue};
ghost use Rattle.row_view.specs.ColumnValue.{column_value};
ghost use Rattle.row_view.specs.Picked.{picked, ArePlaces};

use crate::column::Column;
use crate::columns::Columns;
use crate::row::RowView;

/// Whether two columns have the same value.
fn is_same(column: Column<'_>, other: Column<'_>) -> bool
    ensures { IsTrue result ↔ (column_value column.entry ≡ column_value other.entry) }
{
    match (column, other) {
        (Column::Null, Column::Null) => true,
        (Column::Bytes(bytes), Column::Bytes(others)) => bytes == others,
        _ => false,
    }
}

/// Whether two rows have the same columns.
pub(crate) fn are_same(mut columns: Columns<'_>, mut others: Columns<'_>) -> bool
    ensures { IsTrue result ↔ (columns.entry ≡ others.entry) }
{
    loop {
        match (columns.next(), others.next()) {
            (None, None) => return true,
            (Some(column), Some(other)) if is_same(column, other) => {}
            _ => return false,
        }
    }
}

/// Whether columns are those of a row at these places, in their order.
pub(crate) fn are_picked(mut columns: Columns<'_>, row: &RowView<'_>, places: &[u8]) -> bool
    requires { ArePlaces places.now row.now }
    ensures { IsTrue result ↔ (columns.entry ≡ picked places.now row.now) }
{
    for place in places {
        match columns.next() {
            Some(column) if is_same(column, row.column(usize::from(*place))) => {}
            _ => return false,
        }
    }
    columns.next().is_none()
}
