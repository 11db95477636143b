//! What is shown of a comparison.

use vrepl_choices::ReportForm;

/// What is shown of the rows that differ.
#[derive(Clone, Copy)]
pub enum Detail<'s> {
    /// The counts, and the first differences as cells.
    Comparison,
    /// The differences as a person reads them.
    Text,
    /// The statements that make the tables of this schema, which have the target's rows, have the source's.
    Sql(&'s str),
}

/// What is shown of a comparison.
#[derive(Clone, Copy)]
pub struct Options<'s> {
    /// Whether the counts of each table are shown.
    pub tables: bool,
    /// How many differences are shown, where a number is given.
    pub first: Option<u32>,
    /// How all of it is printed.
    pub report_form: ReportForm,
    /// What is shown of the rows that differ.
    pub detail: Detail<'s>,
}
