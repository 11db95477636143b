//! How the streams of a workflow run.

/// How the streams of a workflow run.
#[derive(Clone, Copy)]
pub enum Threading {
    /// One after another, in the thread of the caller.
    Alone,
    /// All at once, each in a thread of its own.
    Parallel,
}
