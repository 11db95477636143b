//! What a transaction does.

use crate::query::Query;
use log_rows::{RowsHead, RowsKind};
use log_tables::TableMap;

/// What a transaction does.
#[derive(Clone, Copy)]
pub enum Done<'b> {
    /// Changes of rows of the table that the map names.
    Rows(RowsKind, TableMap<'b>, RowsHead<'b>),
    /// A statement that changes tables, or the columns of some.
    Altered(Query<'b>),
}

/// What the first statement of a transaction may be, where it begins or is the transaction.
#[derive(Clone, Copy, Debug, PartialEq, Eq)]
pub(crate) enum Waits {
    /// It is all of the transaction.
    ForOne,
    /// It is all of the transaction, or begins it.
    ForEither,
}
