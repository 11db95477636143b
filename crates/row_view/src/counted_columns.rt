//! Columns whose lengths are counted as they are decoded.

ghost use Rattle.std.specs.Prelude.{◌≡◌, ◌+◌};
ghost use Rattle.std.specs.Iterator.{YieldsFirstBy};
ghost use Rattle.row_view.specs.ColumnValue.{column_value};

use crate::column::Column;
use crate::columns::Columns;
use crate::steps::Steps;
use std::marker::Model;
use std::sync::ledger::Ledger;

/// The columns of a row that are still to come, as `Columns`, whose only way on is counted. Takes no
/// memory.
#[derive(Drop)]
pub(crate) struct CountedColumns<'b> {
    columns: Columns<'b>,
}

impl<'b> Model for CountedColumns<'b> {
    ghost use Rattle.std.specs.Prelude.{ℕ, List, Option};

    ghost Value = { List (Option (List ℕ)) };

    ghost view = { λ a. a.columns };
}

impl<'b> CountedColumns<'b> {
    /// The same columns, none of which was counted.
    pub(crate) fn new(columns: Columns<'b>) -> CountedColumns<'b>
        ensures { result ≡ columns.entry }
    {
        CountedColumns { columns }
    }

    /// The next column, a step: one length is decoded.
    #[inline(always)]
    pub(crate) fn next<L: Ledger>(&mut self, steps: &mut Steps<L>) -> Option<Column<'b>>
        ensures column { YieldsFirstBy column_value (λ s. s) self.old result self.new }
        ensures step { steps.new ≡ steps.old + 1 }
    {
        steps.tick();
        self.columns.next()
    }
}
