//! What is told of a command on its way. It has no part in what the command gives.

use apply_core::FedBoard;
use std::sync::Wait;
use stream_worker::Gate;

/// A gate that is told of each stream's feed before the run begins, and of its end.
pub trait Progress: Gate {
    /// Whether it wants to be told of streams that run one after another, whose groups don't pass it.
    fn is_told(&self) -> bool;

    /// Stream `stream` is to run from behind this group to the last of so many.
    fn begins(&self, stream: usize, read: u32, groups: usize);

    /// The next step of a stream, where they run one after another, reads its group of this number.
    fn reads(&self, stream: usize, number: u32);

    /// The streams have ended, or one was refused.
    fn ends(&self);
}

/// What is told of the bytes of inputs while they are read.
pub trait Reading {
    /// So many more were read.
    fn has_read(&self, bytes: usize);
}

/// Nothing is told of.
pub struct Untold;

impl Reading for Untold {
    fn has_read(&self, _bytes: usize) {}
}

impl Gate for Untold {
    fn passed<R: Wait>(&self, _rt: &R, _stream: u8, _number: u32) {}
}

impl Progress for Untold {
    fn is_told(&self) -> bool {
        false
    }

    fn begins(&self, _stream: usize, _read: u32, _groups: usize) {}

    fn reads(&self, _stream: usize, _number: u32) {}

    fn ends(&self) {}
}

/// Tells of the streams, in their order.
pub(crate) fn tell_streams<G: Progress>(gate: &G, fed: &FedBoard<'_>) {
    for stream in 0..fed.feeds().len() {
        tell_stream(gate, fed, stream);
    }
}

/// Tells of a stream, if there is one of this number.
pub(crate) fn tell_stream<G: Progress>(gate: &G, fed: &FedBoard<'_>, stream: usize) {
    let (Some(feed), Ok(s)) = (fed.feeds().get(stream), u8::try_from(stream)) else {
        return;
    };
    let Ok(at) = fed.state(s) else {
        return;
    };
    gate.begins(stream, at.read(), feed.len());
}
