//! What stands before the events that a reader takes.

use gtid_set::GtidSet;
use std::sync::Arc;

/// The groups that stand before the events that are read.
#[derive(Drop)]
pub(crate) struct Start {
    /// how many they are
    pub(crate) groups: u32,
    /// the last one's position, which contains all earlier positions; none where no group stands before
    pub(crate) position: Option<Arc<GtidSet>>,
}
