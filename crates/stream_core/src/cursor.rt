//! Where a stream stands.

ghost use Rattle.std.specs.Prelude.{◌≡◌, ◌≤◌, None};
ghost use Rattle.stream_core.specs.Standing.{IsSound, is_open_at, phase_of};

use crate::phase::Phase;
use std::marker::Model;

/// Where a stream stands: how many groups are read and applied, how many of its tables are copied,
/// and the group of the open snapshot. No more is applied than is read, no more tables are copied
/// than there are, and a snapshot is open only from the applied group to the last one read, while a
/// table is left to copy.
#[derive(Clone, Copy)]
pub struct Cursor {
    /// how many groups are read: the number of the last one, or 0
    pub read: u32,
    /// how many groups are applied: the number of the last one, or 0
    pub applied: u32,
    /// how many tables the stream has
    pub tables: u8,
    /// how many tables are copied: the first ones
    pub done: u8,
    /// the group of the open snapshot
    pub snapshot: Option<u32>,
}

impl Model for Cursor {
    ghost use Rattle.stream_core.specs.Standing.{Standing, IsSound};

    ghost Value = { Standing };

    ghost view = { λ c. record { read = c.read; applied = c.applied; tables = c.tables; done = c.done; snapshot = c.snapshot } };

    ghost inverse = { λ s. record { read = s.read; applied = s.applied; tables = s.tables; done = s.done; snapshot = s.snapshot } };

    ghost invariant = { λ c. IsSound (record { read = c.read; applied = c.applied; tables = c.tables; done = c.done; snapshot = c.snapshot }) };
}

impl Cursor {
    /// A stream that stands so.
    pub fn new(read: u32, applied: u32, tables: u8, done: u8, snapshot: Option<u32>) -> Cursor
        requires { IsSound (record { read = read; applied = applied; tables = tables; done = done; snapshot = snapshot }) }
        ensures { result ≡ record { read = read; applied = applied; tables = tables; done = done; snapshot = snapshot } }
    {
        Cursor {
            read,
            applied,
            tables,
            done,
            snapshot,
        }
    }

    /// How many groups are read: the number of the last one, or 0.
    pub fn read(&self) -> u32
        ensures { result ≡ self.now.read }
    {
        self.read
    }

    /// How many groups are applied: the number of the last one, or 0.
    pub fn applied(&self) -> u32
        ensures { result ≡ self.now.applied }
    {
        self.applied
    }

    /// How many tables the stream has.
    pub fn tables(&self) -> u8
        ensures { result ≡ self.now.tables }
    {
        self.tables
    }

    /// How many tables are copied.
    pub fn done(&self) -> u8
        ensures { result ≡ self.now.done }
    {
        self.done
    }

    /// The group of the open snapshot.
    pub fn snapshot(&self) -> Option<u32>
        ensures { result ≡ self.now.snapshot }
    {
        self.snapshot
    }

    /// The same stream with so many tables, those of before first and none of the others copied. That they
    /// are at least as many as before is the caller's. Takes no memory.
    pub fn with_tables(self, tables: u8) -> Cursor
        requires { self.tables ≤ tables }
        ensures { result ≡ record self { tables = tables } }
    {
        Cursor { tables, ..self }
    }

    /// The open snapshot is at this group.
    pub(crate) fn has_snapshot_at(&self, group: u32) -> bool
        ensures { result ≡ is_open_at group self.now.snapshot }
    {
        match self.snapshot {
            None => false,
            Some(snapshot) => snapshot == group,
        }
    }

    /// The same, with no snapshot open.
    pub(crate) fn without_snapshot(&self) -> Cursor
        ensures { result ≡ record self.now { snapshot = None } }
    {
        Cursor {
            snapshot: None,
            ..*self
        }
    }

    /// The stream's phase.
    pub fn phase(&self) -> Phase
        ensures { result ≡ phase_of self.now }
    {
        if self.done == self.tables {
            Phase::Running
        } else if self.snapshot.is_none() {
            Phase::CatchUp
        } else if self.has_snapshot_at(self.applied) {
            Phase::Copy
        } else {
            Phase::FastForward
        }
    }
}
