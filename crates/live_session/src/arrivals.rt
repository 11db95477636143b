//! The bytes that come to feeds, and the file that takes a checkpoint.

ghost use Rattle.std.specs.Prelude.{◌≡◌, ℕ, List, None, Option};
ghost use Rattle.live_session.specs.Saves.{saved_then};
ghost use Rattle.live_session.specs.Stops.{number_of_arrival, number_of_save};

use std::sync::Wait;

/// Why the bytes of a feed don't come.
#[derive(Clone, Copy, Debug, PartialEq, Eq)]
pub enum ArrivalFault {
    /// The feed's file is another one, or shorter than what was read of it (127). It is so for good.
    OtherFile,
    /// It can't be read (131).
    CannotRead,
    /// A growth was refused (72).
    Memory,
}

/// Why a checkpoint isn't kept.
#[derive(Clone, Copy, Debug, PartialEq, Eq)]
pub enum SaveFault {
    /// There is no file for it: the request is none (124).
    NoFile,
    /// Another program replaced the file since it was looked at (129).
    Changed,
    /// It can't be written (132).
    CannotWrite,
    /// A growth was refused (72).
    Memory,
}

impl ArrivalFault {
    /// The fault's number.
    pub fn number(self) -> u8
        ensures { result ≡ number_of_arrival self }
    {
        match self {
            ArrivalFault::OtherFile => 127,
            ArrivalFault::CannotRead => 131,
            ArrivalFault::Memory => 72,
        }
    }
}

impl SaveFault {
    /// The fault's number.
    pub fn number(self) -> u8
        ensures { result ≡ number_of_save self }
    {
        match self {
            SaveFault::NoFile => 124,
            SaveFault::Changed => 129,
            SaveFault::CannotWrite => 132,
            SaveFault::Memory => 72,
        }
    }
}

/// What has come of a feed behind the bytes that are taken.
#[derive(Clone, Copy)]
pub struct Arrived<'h> {
    /// The bytes behind the taken ones, as far as they can be taken; as they have come where they are at fault.
    pub piece: &'h [u8],
    /// How many more have come behind these.
    pub waiting: u64,
}

/// What a session asks of the world. Nothing is known of what it gives.
pub trait Arrivals<'h> {
    // The checkpoints that were kept, the last first, where they are known.
    ghost saved: { Self → Option (List (List ℕ)) } = { λ _. None };

    /// The bytes of the feed of stream `s` behind its first `taken` ones, as far as they have come and can be taken: up to
    /// the last message behind which no transaction is open. How many more have come is said beside them, and they are
    /// given once the rest of their transaction has come: a piece that is lent lives as long as the session. Bytes at fault
    /// are given as they have come.
    /// What was given counts as used; what wasn't, after an error, is given again.
    fn behind<R: Wait>(&mut self, rt: &R, s: u8, taken: u64) -> Result<Arrived<'h>, ArrivalFault>
        ensures { saved self.new ≡ saved self.old };

    /// Puts a checkpoint in the place of the one before it.
    fn save(&mut self, checkpoint: &[u8]) -> Result<(), SaveFault>
        ensures { saved self.new ≡ saved_then checkpoint.now result (saved self.old) };
}
