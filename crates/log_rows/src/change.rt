//! What a row event does to rows.

/// What a row event does to rows.
#[derive(Clone, Copy, Debug, PartialEq, Eq)]
pub enum RowsKind {
    /// Each row is a new one.
    Write,
    /// Rows come in twos: as it was, and as it is then.
    Update,
    /// Each row goes.
    Delete,
}
