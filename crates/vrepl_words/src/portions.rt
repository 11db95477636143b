//! In what portions `run` reads and copies.

ghost use Rattle.std.specs.Prelude.{◌≤◌};

/// In what portions a stream is run: each is a number of 1 to 1,000,000.
#[derive(Clone, Copy)]
pub struct Portions {
    /// How many rows are copied at a time.
    pub rows: u32,
    /// How many groups are read before a snapshot is opened.
    pub ahead: u32,
    /// How many chunks are copied of a snapshot.
    pub chunks: u32,
    ghost some_rows: { 1 ≤ rows },
    ghost some_groups: { 1 ≤ ahead },
    ghost some_chunks: { 1 ≤ chunks },
}
