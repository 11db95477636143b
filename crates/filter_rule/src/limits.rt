//! How many streams, tables, columns and key columns there may be.

ghost use Rattle.std.specs.Prelude.{◌≡◌};
ghost use Rattle.std.specs.List.{list_all};
ghost use Rattle.filter_rule.specs.Faults.{GivesOrFails};
ghost use Rattle.filter_rule.specs.Limits.{is_up_to, is_table_within, is_within, known_vindexes, within_limits};

use crate::document::{Document, TableText};
use crate::fault::PlanFault;

/// The most streams that a workflow may have.
pub(crate) const MAX_STREAMS: usize = 64;

/// The most tables that a workflow may have.
pub(crate) const MAX_TABLES: usize = 64;

/// The most columns that a table may have.
pub(crate) const MAX_COLUMNS: usize = 256;

/// The most key columns that a table may have.
pub(crate) const MAX_KEY_COLUMNS: usize = 8;

fn is_up_to(most: usize, count: usize) -> bool
    ensures { result ≡ is_up_to most count }
{
    count >= 1 && count <= most
}

fn is_table_within(table: &TableText<'_>) -> bool
    ensures { result ≡ is_table_within table.now }
{
    is_up_to(MAX_COLUMNS, table.columns.len()) && is_up_to(MAX_KEY_COLUMNS, table.key.len())
}

fn are_tables_within(tables: &[TableText<'_>]) -> bool
    ensures { result ≡ list_all is_table_within tables.now }
{
    tables.iter().all(|table| is_table_within(table))
}

fn is_within(document: &Document<'_>) -> bool
    ensures { result ≡ is_within document.now }
{
    is_up_to(MAX_STREAMS, document.streams.len())
        && is_up_to(MAX_TABLES, document.tables.len())
        && are_tables_within(&document.tables)
}

/// Refuses a document that says it uses a vindex that isn't known.
pub(crate) fn check_vindexes(document: &Document<'_>) -> Result<(), PlanFault>
    ensures { GivesOrFails (λ _. document.now) result (known_vindexes document.now) }
{
    if document.uses_no_other {
        Ok(())
    } else {
        Err(PlanFault::Limit)
    }
}

/// Refuses a document with too few or too many of something.
pub(crate) fn within_limits(document: Document<'_>) -> Result<Document<'_>, PlanFault>
    ensures { GivesOrFails (λ d. d) result (within_limits document.entry) }
{
    if is_within(&document) {
        Ok(document)
    } else {
        Err(PlanFault::Limit)
    }
}
