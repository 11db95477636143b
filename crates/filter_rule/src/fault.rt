//! Why a workflow file is refused.

ghost use Rattle.std.specs.Prelude.{◌≡◌};
ghost use Rattle.filter_rule.specs.declared.fault.PlanFault.TheVariants.{Memory};

use std::alloc::{AllocError, AllocFailed};
use thiserror::Error;

/// Why a workflow file is refused: the first fault in the order of the variants, `Limit` before
/// `NoSuchColumn`. Tables come before rules, and each refusal carries what its printed line names.
#[derive(Debug, Drop, PartialEq, Eq, Error)]
pub enum PlanFault {
    /// The text isn't JSON in UTF-8, or nests deeper than `serde_json` reads.
    #[error("the workflow file isn't JSON")]
    Json,
    /// A key is absent or of another kind, a name is unfit, a type's or a vindex's name is unknown, or
    /// two tables, columns, key columns or shards have the same name.
    #[error("the workflow file has another shape")]
    Shape,
    /// There are not 1 to 64 streams and tables, 1 to 256 columns and 1 to 8 key columns.
    #[error("the workflow file is past a limit")]
    Limit,
    /// A key, a vindex or a filter names a column that its table hasn't.
    #[error("table {table} has no column {column}")]
    NoSuchColumn {
        /// The table's name.
        table: String,
        /// The column's name.
        column: String,
    },
    /// A column has a type that its key or its vindex can't have.
    #[error("table {table}: column {column} has an unfit type")]
    KeyType {
        /// The table's name.
        table: String,
        /// The column's name.
        column: String,
    },
    /// A rule has no lawful form, or none for a table that it decides.
    #[error("rule {rule} of stream {stream} is bad")]
    BadRule {
        /// The stream's number, from 0.
        stream: usize,
        /// The rule's number in the stream, from 0.
        rule: usize,
    },
    /// Two streams' rules keep different columns of a table, or the same in another order.
    #[error("the streams keep different columns of table {table}")]
    ColumnsDiffer {
        /// The table's name.
        table: String,
    },
    /// The allocator gave no memory.
    #[error("out of memory")]
    Memory,
}

impl From<AllocError> for PlanFault {
    ghost from_gives = { λ _ e. e ≡ Memory };

    fn from(_e: AllocError) -> PlanFault {
        PlanFault::Memory
    }
}

impl<T: Drop> From<AllocFailed<T>> for PlanFault {
    ghost from_gives = { λ _ e. e ≡ Memory };

    fn from(_e: AllocFailed<T>) -> PlanFault {
        PlanFault::Memory
    }
}

impl PlanFault {
    ghost use Rattle.filter_rule.specs.Faults.{number_of};

    /// The refusal's number: 51 to 57, or 72 for want of memory.
    pub fn number(&self) -> u8
        ensures { result ≡ number_of self.now }
    {
        match self {
            PlanFault::Json => 51,
            PlanFault::Shape => 52,
            PlanFault::NoSuchColumn { .. } => 53,
            PlanFault::KeyType { .. } => 54,
            PlanFault::BadRule { .. } => 55,
            PlanFault::Limit => 56,
            PlanFault::ColumnsDiffer { .. } => 57,
            PlanFault::Memory => 72,
        }
    }
}
