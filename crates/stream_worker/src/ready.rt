//! Groups that stand ready to be offered and applied in one hold of the board.

use crate::outline::Next;
use source_feed::Prepared;
use std::sync::Arc;

/// A group that stands ready for a stream that has applied all that it read: it is offered, and then applied.
#[derive(Drop)]
pub(crate) struct Ready<'h> {
    /// the group, to be offered
    pub(crate) group: Arc<Prepared<'h>>,
    /// the group again, and what it puts
    pub(crate) next: Next<'h>,
}
