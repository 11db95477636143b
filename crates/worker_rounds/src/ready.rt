//! Groups that are prepared before the board is taken.

use apply_core::Puts;
use source_feed::Prepared;
use std::sync::Arc;

/// A group of a stream's feed, and what it puts.
#[derive(Drop)]
pub(crate) struct Ready<'h> {
    pub(crate) group: Arc<Prepared<'h>>,
    pub(crate) puts: Puts,
}
