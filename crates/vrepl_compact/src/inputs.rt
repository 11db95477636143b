//! What `compact` is given, each by its name.

use compaction::UnknownTables;
use vrepl_choices::FeedForm;

/// What is compacted, and how far.
#[derive(Drop)]
pub struct CompactInputs<'w> {
    /// How the feed is given.
    pub feed_form: FeedForm,
    /// The stream whose feed it is, from 0.
    pub stream: u8,
    /// The position up to which it is compacted; its end unless given.
    pub at: Option<&'w str>,
    /// What becomes of rows of tables that the workflow lacks.
    pub unknown: UnknownTables,
    /// The workflow's file.
    pub workflow: Vec<u8>,
    /// Checkpoints that are to go on over the new feed, never hexadecimal text.
    pub checkpoints: Vec<Vec<u8>>,
    /// The feed.
    pub feed: Vec<u8>,
}
