//! What `feed` is given, each by its name.

/// The text of a feed, and whose it is.
#[derive(Drop)]
pub struct FeedInputs {
    /// The stream whose feed it is, from 0, where there is a workflow.
    pub stream: u8,
    /// The workflow's file; without it the feed is of the empty keyspace and shard.
    pub workflow: Option<Vec<u8>>,
    /// The text, as `show` prints it.
    pub text: Vec<u8>,
}
