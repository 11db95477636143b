//! What an advance gives.

use source_feed::Prepared;
use std::sync::Arc;

/// The group that a seat's stream applied: its number, and the group itself, which stands at that number of
/// the stream's list from then on.
#[derive(Drop)]
pub struct Receipt<'h> {
    /// the stream
    pub stream: u8,
    /// the group's number
    pub number: u32,
    /// the group, shared
    pub group: Arc<Prepared<'h>>,
}
