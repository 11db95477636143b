//! A row in memory of its own.

ghost use Rattle.std.specs.Prelude.{◌≡◌, ◌↔◌, IsTrue, IfOk, IfSome, IsSome, map};
ghost use Rattle.row_view.specs.ColumnValue.{column_value};
ghost use Rattle.row_view.specs.Picked.{picked, ArePlaces};
ghost use Rattle.row_view.specs.WrittenRow.{IsWithinLimits};

use crate::column::Column;
use crate::columns::Columns;
use crate::row::{ROW_BYTES, ROW_COLUMNS, RowView};
use crate::row_bytes::RowBytes;
use crate::written_columns::write_columns;
use crate::written_laws::rows_are_read_again;
use crate::written_picked::{are_all, put_picked};
use std::alloc::{AllocError, Global};
use std::marker::Model;

/// A row in memory of its own: a copy of its message, in 24 bytes and one block. Seen in contracts as
/// the list of its columns' values, `None` for NULL, as a view of it is.
#[derive(Drop)]
pub struct RowBuf {
    message: Vec<u8>,
}

impl Model for RowBuf {
    ghost use Rattle.std.specs.Prelude.{ℕ, List, Option};
    ghost use Rattle.row_view.specs.Row.{columns_in};
    ghost use Rattle.row_view.specs.Private.Kept.{IsGood};

    ghost Value = { List (Option (List ℕ)) };

    ghost view = { λ a. columns_in a.message.items };

    ghost invariant = { λ a. IsGood a.message.items };
}

impl RowBuf {
    /// A copy of a lent row. An error is want of memory.
    pub fn from_view(alloc: Global, row: &RowView<'_>) -> Result<RowBuf, AllocError>
        ensures { IfOk result (λ copy. copy ≡ row.now) }
    {
        RowBuf::from_bytes(alloc, &row.bytes())
    }

    /// A row of these columns; `None` exactly where it would be beyond the limits, which are 256 columns and
    /// 2^24 bytes as it is written. An error is want of memory.
    pub fn of_columns(alloc: Global, columns: &[Column<'_>]) -> Result<Option<RowBuf>, AllocError>
        ensures row { IfOk result (λ made. IfSome made (λ row. row ≡ map column_value columns.now)) }
        ensures limits { IfOk result (λ made. IsSome made ↔ IsWithinLimits (map column_value columns.now)) }
    {
        rows_are_read_again();
        let mut message = Vec::new(alloc);
        write_columns(&mut message, columns)?;
        if columns.len() > usize::from(ROW_COLUMNS) || message.as_slice().len() > ROW_BYTES {
            return Ok(None);
        }
        Ok(Some(RowBuf { message }))
    }

    /// A row of some columns of a lent row, in the order of their places. That each place is below the
    /// row's `len`, and that none stands twice, is the caller's. All columns in their order are a copy
    /// of the bytes. An error is want of memory, or a row beyond the limits, which needs a column twice: some
    /// columns of a row within the limits are within them (`rows_are_within_limits`).
    pub fn pick(alloc: Global, row: &RowView<'_>, places: &[u8]) -> Result<RowBuf, AllocError>
        requires { ArePlaces places.now row.now }
        ensures { IfOk result (λ copy. copy ≡ picked places.now row.now) }
    {
        if are_all(places, row.len()) {
            return RowBuf::from_view(alloc, row);
        }
        rows_are_read_again();
        let mut message = Vec::new(alloc);
        put_picked(&mut message, row, places)?;
        if places.len() > usize::from(ROW_COLUMNS) || message.as_slice().len() > ROW_BYTES {
            return Err(AllocError);
        }
        Ok(RowBuf { message })
    }

    /// A copy of a row that is kept as its bytes. Reads nothing of it. An error is want of memory.
    pub fn from_bytes(alloc: Global, row: &RowBytes<'_>) -> Result<RowBuf, AllocError>
        ensures { IfOk result (λ copy. copy ≡ row.now) }
    {
        let message = Vec::from_slice(alloc, row.message())?;
        Ok(RowBuf { message })
    }

    /// The row, lent. Reads its lengths once more, and takes no memory.
    #[inline(always)]
    pub fn view(&self) -> RowView<'_>
        ensures { result ≡ self.now }
    {
        RowView::of_row(&self.message)
    }

    /// The bytes of the row, which can be kept in place of a view. Reads nothing and takes no memory.
    pub fn bytes(&self) -> RowBytes<'_>
        ensures { result ≡ self.now }
    {
        RowBytes::of_row(&self.message)
    }

    /// The columns of the row in order. Looks for the values once more, and takes no memory.
    pub fn columns(&self) -> Columns<'_>
        ensures { result ≡ self.now }
    {
        self.bytes().columns()
    }

    /// A copy of the row. An error is want of memory.
    pub fn try_clone(&self, alloc: Global) -> Result<RowBuf, AllocError>
        ensures { IfOk result (λ copy. copy ≡ self.now) }
    {
        RowBuf::from_bytes(alloc, &self.bytes())
    }

    /// Whether the other row has the same columns, NULL and empty bytes told apart. Takes no memory.
    pub fn same(&self, other: &RowBuf) -> bool
        ensures { IsTrue result ↔ (self.now ≡ other.now) }
    {
        self.bytes().same(&other.bytes())
    }
}
