//! Columns, as the workflow has them and as the log does.

use log_values::Kind;

/// A column as the workflow has it.
#[derive(Clone, Copy, Debug, PartialEq, Eq)]
pub struct Wanted<'w> {
    /// its name
    pub name: &'w [u8],
    /// its type number (`query.proto`, Type)
    pub type_number: u32,
}

/// A column of a table map.
#[derive(Debug, Drop)]
pub struct LogColumn<'b> {
    /// how its values are written
    pub kind: Kind,
    /// the labels of an ENUM or a SET, slices of the event's body; none of other types
    pub labels: Vec<&'b [u8]>,
}
