//! The tables of a feed.

use log_tables::Wanted;

/// A table of which a feed tells the changes: its name, in the logs and in the feed, and its columns in order.
#[derive(Debug, Drop)]
pub struct FeedTable<'w> {
    pub name: &'w str,
    pub columns: Vec<Wanted<'w>>,
}

/// What the logs so far say of a table.
#[derive(Clone, Copy, Debug, PartialEq, Eq)]
pub enum Stage {
    /// It isn't made.
    Absent,
    /// It is made, and had no rows.
    Made,
    /// It had rows, and the feed has its columns.
    Filled,
}
