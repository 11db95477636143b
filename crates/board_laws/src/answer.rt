//! What steps answer.

/// What an offer answers.
#[derive(Clone, Copy, Debug, PartialEq, Eq)]
pub enum Offered {
    /// The group of this number is new and counts as read.
    Read(u32),
    /// The group of this number was read before; nothing changes.
    Repeat(u32),
}

/// What a chunk answers.
#[derive(Clone, Copy, Debug, PartialEq, Eq)]
pub struct Copied {
    /// how many rows were copied
    pub rows: u32,
    /// whether the table is done
    pub done: bool,
}

/// What a step answers.
#[derive(Clone, Copy, Debug, PartialEq, Eq)]
pub enum Answer {
    /// A group was offered.
    Offered(Offered),
    /// The group of this number is applied.
    Applied(u32),
    /// A snapshot is open at the group of this number.
    Opened(u32),
    /// Rows were copied.
    Copied(Copied),
    /// No snapshot is open any more.
    Closed,
    /// Reading goes on behind the group of this number, which is applied.
    Restarted(u32),
}
