//! What is told of each group on its way.

use std::sync::Wait;

/// What is told of each group that a worker makes ready to be offered: called once for each, by the stream's thread, when
/// the group is prepared and before the lock is taken. Not each is offered then: where the board refuses a group of a
/// turn, or memory is wanted for one, the worker ends, with groups of that turn of which the gate was told. It has no
/// part in the run; while it doesn't return its stream waits, and no other.
pub trait Gate {
    /// Group `number` of stream `stream` is prepared, and not offered yet.
    fn passed<R: Wait>(&self, rt: &R, stream: u8, number: u32);
}
