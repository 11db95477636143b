//! What a table map tells of columns.

use crate::collation::Collations;

/// What a table map tells of the columns that are still to come.
#[derive(Clone, Copy)]
pub(crate) struct Told<'b> {
    /// their metadata, one behind another
    pub(crate) metadata: &'b [u8],
    /// the labels of those of ENUM
    pub(crate) enums: &'b [u8],
    /// the labels of those of SET
    pub(crate) sets: &'b [u8],
    /// the collations of those of ENUM and of SET
    pub(crate) collations: Collations<'b>,
    /// the signs of all columns of numbers, or nothing
    pub(crate) signs: &'b [u8],
    /// how many columns of numbers are past
    pub(crate) numbers: u64,
}
