//! Seats: what a thread holds of a shared board.

ghost use Rattle.std.specs.Prelude.{◌≡◌, [], ◌∷◌, false, Some, IsSomeAnd, length};
ghost use Rattle.std.specs.Option.{option_map};
ghost use Rattle.crossbeam_channel.specs.Claims.{view};
ghost use Rattle.board_laws.specs.Lawful.{standing_of};
ghost use Rattle.stream_worker.specs.Knowing.{state_seen};
ghost use Rattle.stream_worker.specs.Outlines.{outline_of};

use crate::lock::LockPass;
use crate::outline::Outline;
use stream_core::Cursor;

/// A seat at a shared board: one stream, which whoever has the seat steps on. It knows its stream's state
/// as its last call left it, for no other seat changes that, and has a copy of what an advance is built from.
#[derive(Drop)]
pub struct Seat<'h> {
    pub(crate) stream: u8,
    pub(crate) cursor: Cursor,
    pub(crate) outline: Outline<'h>,
    pub(crate) pass: LockPass<'h>,
    ghost own: { (view pass).streams ≡ stream ∷ [] },
    ghost free: { (view pass).holds ≡ false },
    ghost numbers: { option_map standing_of (state_seen (view pass) stream) ≡ Some cursor },
    ghost outlined: { option_map outline_of (state_seen (view pass) stream) ≡ Some outline },
}

impl<'h> Seat<'h> {
    ghost use Rattle.stream_worker.specs.SeatOf.{seat_state};

    /// The number of its stream. Takes no memory.
    pub fn stream(&self) -> u8
        ensures { result ≡ self.now.stream }
    {
        self.stream
    }

    /// How many groups of its stream are read. Takes no memory.
    pub fn read(&self) -> u32
        ensures { IsSomeAnd (seat_state self.now) (λ state. result ≡ length state.list) }
    {
        self.cursor.read()
    }

    /// How many groups of its stream are applied. Takes no memory.
    pub fn applied(&self) -> u32
        ensures { IsSomeAnd (seat_state self.now) (λ state. result ≡ state.applied) }
    {
        self.cursor.applied()
    }

    /// How many tables of its stream are copied. Takes no memory.
    pub fn done(&self) -> u8
        ensures { IsSomeAnd (seat_state self.now) (λ state. result ≡ state.marks.done) }
    {
        self.cursor.done()
    }

    /// The group of its stream's open snapshot. Takes no memory.
    pub fn snapshot(&self) -> Option<u32>
        ensures { IsSomeAnd (seat_state self.now) (λ state. result ≡ state.snapshot) }
    {
        self.cursor.snapshot()
    }
}
