//! Tests of the crates that write a feed.

mod compacting;
mod messages;
