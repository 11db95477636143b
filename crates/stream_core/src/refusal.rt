//! Why a step is refused.

ghost use Rattle.std.specs.Prelude.{◌≡◌};
ghost use Rattle.stream_core.specs.Refusals.{number_of};

use thiserror::Error;

/// Why a step is refused, by the stream's numbers alone.
#[derive(Clone, Copy, Debug, PartialEq, Eq, Error)]
pub enum CoreRefusal {
    /// A group is offered that isn't the next one to read, nor one that is read already.
    #[error("group {expected} was expected")]
    Gap {
        /// the number of the next group to read
        expected: u32,
    },
    /// All groups that are read are applied.
    #[error("nothing that is read is left to apply")]
    NothingRead,
    /// A snapshot is open at the applied group, which stays until it is closed.
    #[error("the open snapshot is reached")]
    SnapshotReached,
    /// All tables are copied.
    #[error("no table is left to copy")]
    NotCopying,
    /// Another snapshot is open.
    #[error("a snapshot is open")]
    SnapshotOpen,
    /// The snapshot's group is before the applied one.
    #[error("the snapshot lies behind what is applied")]
    SnapshotBehind,
    /// The snapshot's group isn't read yet.
    #[error("the snapshot isn't read yet")]
    SnapshotNotRead,
    /// No snapshot is open.
    #[error("no snapshot is open")]
    NoSnapshot,
    /// Groups up to the open snapshot are still to be applied.
    #[error("the snapshot isn't reached yet")]
    NotReached,
}

impl CoreRefusal {
    /// The refusal's number: 101 to 109, in the order above.
    pub fn number(self) -> u8
        ensures { result ≡ number_of self }
    {
        match self {
            CoreRefusal::Gap { .. } => 101,
            CoreRefusal::NothingRead => 102,
            CoreRefusal::SnapshotReached => 103,
            CoreRefusal::NotCopying => 104,
            CoreRefusal::SnapshotOpen => 105,
            CoreRefusal::SnapshotBehind => 106,
            CoreRefusal::SnapshotNotRead => 107,
            CoreRefusal::NoSnapshot => 108,
            CoreRefusal::NotReached => 109,
        }
    }
}
