//! Up to where feeds are read.

/// A position up to which a feed is read, or each feed.
#[derive(Clone, Copy)]
pub struct Until<'w> {
    /// The stream whose feed it is, from 0; none for each of the feeds.
    pub stream: Option<u8>,
    /// The position's text.
    pub position: &'w str,
}
