//! Which rows of a table pass a stream's filter, and which of their columns are kept.

ghost use Rattle.std.specs.Prelude.{◌≡◌, length, option_map};
ghost use Rattle.filter_rule.specs.PlanValue.{kept_under, kept_under_rule};
ghost use Rattle.filter_rule.specs.Private.Accepted.{IsWithin};

use crate::places::Places;
use crate::same::Same;
use row_view::RowBytes;
use vindex::{KeyRange, Vindex, VindexFault};

/// Which rows of one table pass one stream's filter, and which of their columns are kept: the answer of
/// the first rule that matches the table.
#[derive(Drop)]
pub enum Decision {
    /// No rule of the stream matches the table: no row passes.
    NoRule,
    /// Every row passes, and no id is asked for.
    EveryRow {
        /// The columns that are kept.
        kept: Places,
    },
    /// A row passes if the id of a column's value is in the range.
    InRange {
        /// The column's place in the table, from 0.
        column: usize,
        /// How the column's value gets its id.
        vindex: Vindex,
        /// The ids that pass.
        range: KeyRange,
        /// The columns that are kept.
        kept: Places,
    },
}

impl Decision {
    /// The places of the columns that are kept, if a rule matches the table.
    pub(crate) fn kept(&self) -> Option<&[u8]>
        ensures { option_map (λ kept. kept.now) result ≡ kept_under_rule self.now }
    {
        match self {
            Decision::NoRule => None,
            Decision::EveryRow { kept } | Decision::InRange { kept, .. } => Some(kept.as_slice()),
        }
    }

    /// Whether a row passes. No column behind the one that the rule names is looked at.
    pub(crate) fn keeps(&self, row: &RowBytes<'_>) -> Result<bool, VindexFault>
        requires { IsWithin (length row.now) self.now }
        ensures { result ≡ kept_under self.now row.now }
    {
        match self {
            Decision::NoRule => Ok(false),
            Decision::EveryRow { .. } => Ok(true),
            Decision::InRange {
                column,
                vindex,
                range,
                ..
            } => range.holds_value(*vindex, row.column(*column)),
        }
    }
}

impl Same for Decision {
    fn same(&self, other: &Decision) -> bool {
        match (self, other) {
            (Decision::NoRule, Decision::NoRule) => true,
            (Decision::EveryRow { kept }, Decision::EveryRow { kept: other_kept }) => {
                kept.same(other_kept)
            }
            (
                Decision::InRange {
                    column,
                    vindex,
                    range,
                    kept,
                },
                Decision::InRange {
                    column: other_column,
                    vindex: other_vindex,
                    range: other_range,
                    kept: other_kept,
                },
            ) => {
                column == other_column
                    && vindex == other_vindex
                    && range.same(other_range)
                    && kept.same(other_kept)
            }
            _ => false,
        }
    }
}
