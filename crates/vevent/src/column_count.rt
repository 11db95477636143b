//! How many columns rows have.

ghost use Rattle.std.specs.Prelude.{◌≡◌, ◌&&◌, ℕ};
ghost use Rattle.vevent.specs.Private.ColumnCount.{all_have};

/// How many columns the rows have that were met so far.
#[derive(Clone, Copy)]
pub(crate) enum ColumnCount {
    /// No row was met.
    NoRow,
    /// All have so many.
    Same(usize),
    /// Two have different numbers of columns.
    Mixed,
}

impl ColumnCount {
    /// The count of these rows and of others together.
    pub(crate) fn and(self, others: ColumnCount) -> ColumnCount
        ensures { (columns : ℕ) → all_have result columns ≡ (all_have self columns && all_have others columns) }
    {
        match (self, others) {
            (ColumnCount::NoRow, count) | (count, ColumnCount::NoRow) => count,
            (ColumnCount::Same(these), ColumnCount::Same(those)) if these == those => self,
            _ => ColumnCount::Mixed,
        }
    }

    /// Whether all rows that were met have so many columns.
    pub(crate) fn all_have(self, columns: usize) -> bool
        ensures { result ≡ all_have self columns }
    {
        match self {
            ColumnCount::NoRow => true,
            ColumnCount::Same(met) => met == columns,
            ColumnCount::Mixed => false,
        }
    }
}
