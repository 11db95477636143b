//! The phase of a stream.

/// What a stream is about (Vitess, 'Life of a Stream').
#[derive(Clone, Copy, Debug, PartialEq, Eq)]
pub enum Phase {
    /// All tables are copied: groups are read and applied as they come.
    Running,
    /// The open snapshot is reached: its rows are copied.
    Copy,
    /// A snapshot is open: groups are applied up to it.
    FastForward,
    /// Tables are left to copy and no snapshot is open: groups are read and applied.
    CatchUp,
}
